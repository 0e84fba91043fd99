// The fields of a record, read from any place of any slice.
ghost use Rattle.std.specs.Prelude.{◌≡◌, ◌+◌, ◌-◌, ◌≤◌, length, take, drop};
ghost use Rattle.wire.specs.Answers.{width_of, answer, number_parts, span_parts, measure_answer};
ghost use Rattle.wire.specs.Bytes.{be};
ghost use Rattle.wire.specs.Layout.{one, free, plain, buffer, stop};
ghost use Rattle.wire.specs.Reading.{read, nothing_behind};

use crate::span::Span;
use crate::width::Width;
use faults::Refusal;

// What a reader answers: what it found and the place behind it, or why it found none.
pub type Read<T> = Result<(T, usize), Refusal>;

// How many of len bytes are left from `at` on: none past the end.
pub fn left(len: usize, at: usize) -> usize
    ensures { result ≡ len - at }
{
    len.saturating_sub(at)
}

// The number that the w bytes from `at` on spell.
fn big_endian(s: &[u8], at: usize, w: usize) -> u64
    requires { (at + w ≤ length s.now) × (w ≤ 8) }
    ensures { result ≡ be (take w (drop at s.now)) }
{
    let mut n: u64 = 0;
    for i in 0..w {
        n = n * 256 + s[at + i] as u64;
    }
    n
}

// A number of a width, and the place behind it.
pub fn number(s: &[u8], at: usize, w: Width) -> Read<u64>
    ensures { answer number_parts result ≡ read (one (width_of w) free) s.now at }
{
    let size = w.bytes();
    let there = left(s.len(), at);
    if size <= there {
        let end = at + size;
        return Ok((big_endian(s, at, size), end));
    }
    Err(Refusal::short(at, size, there))
}

// n bytes as they stand, and the place behind them.
pub fn plain(s: &[u8], at: usize, n: usize) -> Read<Span>
    ensures { answer span_parts result ≡ read (plain n stop) s.now at }
{
    let there = left(s.len(), at);
    if n <= there {
        let end = at + n;
        return Ok((Span::new(at, n), end));
    }
    Err(Refusal::short(at, n, there))
}

// A length of a width, at most `limit`, that many bytes, and the place behind them.
pub fn buffer(s: &[u8], at: usize, w: Width, limit: u16) -> Read<Span>
    ensures { answer span_parts result ≡ read (buffer (width_of w) limit stop) s.now at }
{
    let (n, start) = number(s, at, w)?;
    let len = n as usize;
    if len <= limit as usize {
        return plain(s, start, len);
    }
    Err(Refusal::too_long(at, n))
}

// The end of a record that is to be the last: Trailing if anything is left behind it.
pub fn nothing_behind(s: &[u8], end: usize) -> Result<usize, Refusal>
    ensures { measure_answer result ≡ nothing_behind s.now end }
{
    let n = left(s.len(), end);
    if n == 0 {
        return Ok(end);
    }
    Err(Refusal::trailing(end, n))
}
