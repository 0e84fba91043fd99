// Byte fields: what a walk found that sought one.
ghost use Rattle.std.specs.Prelude.{◌≡◌, cond, ℕ, eqb};
ghost use Rattle.wire.specs.Answers.{measure_answer};
ghost use Rattle.wire.specs.Fields.{part_of, size_of};
ghost use Rattle.wire.specs.Places.{StandsAt};
ghost use Rattle.steps.specs.Walks.{seek_span, seek_answer, seek_start};

use crate::walk::{FOUND, SEEK, Walk, finding, seeking};
use faults::Refusal;
use wire::span::Span;

fn seek_span(span: Span, index: usize) -> Walk
    ensures { result ≡ seek_span span index }
{
    if index == 0 {
        return finding(span);
    }
    seeking(index - 1)
}

impl Walk {
    // A byte field, where one is sought.
    pub fn sought(self, span: Span) -> Walk
        ensures { result ≡ cond (eqb self.mode 2) (seek_span span self.at) self }
    {
        if self.mode == SEEK {
            return seek_span(span, self.at);
        }
        self
    }

    // The part of s that was found; where none was, the empty one at its start.
    pub fn part<'a>(self, s: &'a [u8]) -> &'a [u8]
        ensures by_index { (asked : ℕ) → result.now ≡ part_of (seek_answer self asked s.now) }
        ensures place { StandsAt s.entry result (seek_start self s.now) }
    {
        if self.mode == FOUND {
            let len = self.value as usize;
            return Span::new(self.at, len).part(s);
        }
        &s[0..0]
    }

    // How long it is, or why there is none; `asked` is the index that was asked for.
    pub fn size(self, s: &[u8], asked: usize) -> Result<usize, Refusal>
        ensures { measure_answer result ≡ size_of (seek_answer self asked s.now) }
    {
        if self.mode == FOUND {
            let len = self.value as usize;
            return Span::new(self.at, len).measure(s, 0);
        }
        Err(Refusal::no_field(asked))
    }
}
