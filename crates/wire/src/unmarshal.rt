// What a layout spells, read. The trait has the name that the Rust crate gives it.
ghost use Rattle.std.specs.Prelude.{◌≡◌, List};
ghost use Rattle.wire.specs.Answers.{answer, measure_answer};
ghost use Rattle.wire.specs.Layout.{Layout};
ghost use Rattle.wire.specs.Records.{Part};
ghost use Rattle.wire.specs.Reading.{read, read_whole, end_of};

use crate::read::{Read, nothing_behind};
use faults::Refusal;

pub trait TpmUnmarshal: Copy {
    // Which bytes spell it.
    ghost layout: { Layout };

    // What it keeps of them, in wire order.
    ghost parts: { Self → List Part };

    // It is read from `at` on, as a prefix.
    fn unmarshal(s: &[u8], at: usize) -> Read<Self>
        ensures { answer parts result ≡ read layout s.now at };

    // The same, with nothing left behind it.
    fn whole(s: &[u8], at: usize) -> Read<Self>
        ensures { answer parts result ≡ read_whole layout s.now at }
    {
        let (x, end) = Self::unmarshal(s, at)?;
        nothing_behind(s, end)?;
        Ok((x, end))
    }

    // Where the one that starts at `at` ends, or why none does.
    fn end(s: &[u8], at: usize) -> Result<usize, Refusal>
        ensures { measure_answer result ≡ end_of (read layout s.now at) }
    {
        let (_, end) = Self::unmarshal(s, at)?;
        Ok(end)
    }

    // The same of one that is to be all there is.
    fn whole_end(s: &[u8], at: usize) -> Result<usize, Refusal>
        ensures { measure_answer result ≡ end_of (read_whole layout s.now at) }
    {
        let (_, end) = Self::whole(s, at)?;
        Ok(end)
    }
}
