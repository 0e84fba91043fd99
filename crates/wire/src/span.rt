// Where the bytes of a field stand in a slice. A span is reached by its methods alone.
ghost use Rattle.std.specs.Prelude.{◌≡◌, ◌+◌, leb};
ghost use Rattle.wire.specs.Answers.{start_of, len_of, span_part, measure_answer};
ghost use Rattle.wire.specs.Records.{span};
ghost use Rattle.wire.specs.Writing.{cut};
ghost use Rattle.wire.specs.Fields.{part_of, size_of};
ghost use Rattle.wire.specs.Places.{StandsAt, start_if};

use faults::Refusal;

#[derive(Clone, Copy, Debug, PartialEq, Eq)]
pub struct Span {
    start: usize,
    len: usize,
}

impl Span {
    pub fn new(start: usize, len: usize) -> Span
        ensures { span_part result ≡ span start len }
    {
        Span { start, len }
    }

    pub fn start(self) -> usize
        ensures { result ≡ start_of self }
    {
        self.start
    }

    pub fn len(self) -> usize
        ensures { result ≡ len_of self }
    {
        self.len
    }

    // It lies inside a slice of n bytes.
    fn inside(self, n: usize) -> bool
        ensures { result ≡ leb (start_of self + len_of self) n }
    {
        self.start <= n && self.len <= n - self.start
    }

    // How long its part of s is, or that s has no such part; `place` is the one that a refusal names.
    pub fn measure(self, s: &[u8], place: usize) -> Result<usize, Refusal>
        ensures { measure_answer result ≡ size_of (cut s.now (start_of self) (len_of self) place) }
    {
        if self.inside(s.len()) {
            return Ok(self.len);
        }
        Err(Refusal::bad_span(place, self.len))
    }

    // Its part of s; where s has none, the empty one at its start.
    pub fn part<'a>(self, s: &'a [u8]) -> &'a [u8]
        ensures part { result.now ≡ part_of (cut s.now (start_of self) (len_of self) 0) }
        ensures place { StandsAt s.entry result (start_if (cut s.now (start_of self) (len_of self) 0) (start_of self)) }
    {
        if self.inside(s.len()) {
            let start = self.start;
            let end = start + self.len;
            return &s[start..end];
        }
        &s[0..0]
    }
}
