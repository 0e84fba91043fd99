// Numbers that are fixed values: yes/no bytes and the magic.
ghost use Rattle.std.specs.Prelude.{◌≡◌};
ghost use Rattle.wire.specs.Answers.{answer, number_parts};
ghost use Rattle.wire.specs.Layout.{one};
ghost use Rattle.wire.specs.Reading.{read};
ghost use Rattle.codes.specs.Codes.{yes_no, magic};

use faults::Refusal;
use wire::read::Read;
use wire::unmarshal::TpmUnmarshal;

// A byte that says yes, 1, or no, 0.
pub fn yes_no(s: &[u8], at: usize) -> Read<u8>
    ensures { answer number_parts result ≡ read (one 1 yes_no) s.now at }
{
    let (n, end) = u8::unmarshal(s, at)?;
    if n <= 1 {
        Ok((n, end))
    } else {
        Err(Refusal::bad_value(at, u64::from(n)))
    }
}

// The magic in front of an attestation.
pub fn magic_number(s: &[u8], at: usize) -> Read<u32>
    ensures { answer number_parts result ≡ read (one 4 magic) s.now at }
{
    let (n, end) = u32::unmarshal(s, at)?;
    if n == 0xFF544347 {
        Ok((n, end))
    } else {
        Err(Refusal::bad_value(at, u64::from(n)))
    }
}
