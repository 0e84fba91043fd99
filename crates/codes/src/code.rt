// What every sort of code has besides its number: a list of those that its fields take.
ghost use Rattle.std.specs.Prelude.{◌≡◌, ℕ, Bool, [], ◌∷◌};
ghost use Rattle.wire.specs.Answers.{width_of, answer};
ghost use Rattle.wire.specs.Layout.{one, free, listed};
ghost use Rattle.wire.specs.Records.{num};
ghost use Rattle.wire.specs.Reading.{read};

use faults::Refusal;
use wire::number::Number;
use wire::read::Read;

pub trait Code: Number {
    ghost is_listed: { ℕ → Bool };

    // Whether it is on the list.
    fn is_listed(self) -> bool
        ensures { result ≡ is_listed (Self.number self) };

    // One that may be on no list, read.
    fn any(s: &[u8], at: usize) -> Read<Self>
        ensures { answer (λ c. num (Self.number c) ∷ []) result ≡ read (one (width_of Self.width) free) s.now at };
}

// A code, read: one that is on the list.
pub fn read_code<C: Code>(s: &[u8], at: usize) -> Read<C>
    ensures { answer (λ c. num (C.number c) ∷ []) result ≡ read (one (width_of C.width) (listed C.is_listed)) s.now at }
{
    let (c, end) = C::any(s, at)?;
    if c.is_listed() {
        Ok((c, end))
    } else {
        Err(Refusal::unknown_code(at, c.number()))
    }
}
