// What is left of an input behind a record.
ghost use Rattle.std.specs.Prelude.{◌≡◌, drop};
ghost use Rattle.wire.specs.Places.{StandsAt, tail_start};

// The part of the input from `end` on: the tail of a record that ends there. Past the input's end it is the empty one at the start.
pub fn tail_of(s: &[u8], end: usize) -> &[u8]
    ensures part { result.now ≡ drop end s.now }
    ensures place { StandsAt s.entry result (tail_start end s.now) }
{
    if end <= s.len() {
        return &s[end..];
    }
    &s[0..0]
}
