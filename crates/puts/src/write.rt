// The fields of a record, put into any place of a lent slice.
ghost use Rattle.std.specs.Prelude.{◌≡◌, ◌++◌, ◌+◌, ◌%◌, ◌≤◌, length, take, drop};
ghost use Rattle.wire.specs.Answers.{width_of, start_of, len_of, measure_answer};
ghost use Rattle.wire.specs.Bytes.{digits};
ghost use Rattle.wire.specs.Records.{found};
ghost use Rattle.wire.specs.Writing.{cut};
ghost use Rattle.wire.specs.Filling.{written, filled};

use faults::Refusal;
use wire::read::left;
use wire::span::Span;
use wire::width::Width;

// The last digit of n.
fn low(n: u64) -> u8
    ensures { result ≡ n % 256 }
{
    (n % 256) as u8
}

// The last w digits of n, put from the last to the first.
fn put_digits(n: u64, w: usize, out: &mut [u8], at: usize)
    requires { at + w ≤ length out.old }
    ensures { out.new ≡ take at out.old ++ (digits w n ++ drop (at + w) out.old) }
{
    let mut m = n;
    for i in 0..w {
        out[at + (w - 1 - i)] = low(m);
        m = m / 256;
    }
}

// The last digits of n, as many as the width has, at the place `at` of out; none if they do not fit there.
pub fn put_number(n: u64, w: Width, out: &mut [u8], at: usize) -> Result<usize, Refusal>
    ensures { (measure_answer result ≡ written at (found (digits (width_of w) n)) out.old)
        × (out.new ≡ filled at (found (digits (width_of w) n)) out.old) }
{
    let count = w.bytes();
    if count <= left(out.len(), at) {
        put_digits(n, count, out, at);
        return Ok(count);
    }
    Err(Refusal::no_room(at, count))
}

// All bytes of xs at the place `at` of out; none if they do not fit there.
pub fn put_bytes(xs: &[u8], out: &mut [u8], at: usize) -> Result<usize, Refusal>
    ensures { (measure_answer result ≡ written at (found xs.now) out.old)
        × (out.new ≡ filled at (found xs.now) out.old) }
{
    let len = xs.len();
    if len <= left(out.len(), at) {
        for i in 0..len {
            out[at + i] = xs[i];
        }
        return Ok(len);
    }
    Err(Refusal::no_room(at, len))
}

// The bytes of a span of src at the place `at` of out; none if src has no such span, or they do not fit there.
pub fn put_span(span: Span, src: &[u8], out: &mut [u8], at: usize) -> Result<usize, Refusal>
    ensures { (measure_answer result ≡ written at (cut src.now (start_of span) (len_of span) at) out.old)
        × (out.new ≡ filled at (cut src.now (start_of span) (len_of span) at) out.old) }
{
    span.measure(src, at)?;
    put_bytes(span.part(src), out, at)
}
