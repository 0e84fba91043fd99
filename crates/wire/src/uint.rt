// Numbers of one, two, four and eight bytes, any that their width holds: the integers of the language, read.
ghost use Rattle.wire.specs.Answers.{number_parts};
ghost use Rattle.wire.specs.Layout.{one, free};

use crate::read::{Read, number};
use crate::unmarshal::TpmUnmarshal;
use crate::width::Width;

impl TpmUnmarshal for u8 {
    ghost layout = { one 1 free };

    ghost parts = { number_parts };

    fn unmarshal(s: &[u8], at: usize) -> Read<u8> {
        let (n, end) = number(s, at, Width::One)?;
        Ok((n as u8, end))
    }
}

impl TpmUnmarshal for u16 {
    ghost layout = { one 2 free };

    ghost parts = { number_parts };

    fn unmarshal(s: &[u8], at: usize) -> Read<u16> {
        let (n, end) = number(s, at, Width::Two)?;
        Ok((n as u16, end))
    }
}

impl TpmUnmarshal for u32 {
    ghost layout = { one 4 free };

    ghost parts = { number_parts };

    fn unmarshal(s: &[u8], at: usize) -> Read<u32> {
        let (n, end) = number(s, at, Width::Four)?;
        Ok((n as u32, end))
    }
}

impl TpmUnmarshal for u64 {
    ghost layout = { one 8 free };

    ghost parts = { number_parts };

    fn unmarshal(s: &[u8], at: usize) -> Read<u64> {
        number(s, at, Width::Eight)
    }
}
