// The fields of a record that have bytes, walked over: digests and buffers.
ghost use Rattle.std.specs.Prelude.{◌≡◌, ◌∷◌, [], ◌≤◌};
ghost use Rattle.wire.specs.Answers.{start_of, len_of, measure_answer};
ghost use Rattle.wire.specs.Writing.{cut};
ghost use Rattle.steps.specs.Steps.{Plain, Buffer, spell_step, due_size};
ghost use Rattle.steps.specs.Walks.{here, after, judged, Moves, line_step, Goes};
ghost use Rattle.steps.specs.Near.{Near};

use crate::number::put_digits;
use crate::walk::{FAR, JUDGE, LINES, PUT, Walk, judging, putting, refusing};
use faults::Refusal;
use format::arms::DIGEST;
use puts::write::put_span;
use text::line::Word;
use wire::span::Span;
use wire::width::Width;

// How long the digest is that is due.
fn due_size(chosen: Option<u16>) -> u16
    ensures { result ≡ due_size chosen }
{
    match chosen {
        Some(t) => if t < DIGEST { 0 } else { t - DIGEST },
        None => 0,
    }
}

// The bytes of a span of src at the place `at` of out, and the place behind them.
pub fn put_part(span: Span, src: &[u8], out: &mut [u8], at: usize) -> usize
    ensures { Moves (cut src.now (start_of span) (len_of span) at) at out.old result out.new }
{
    match put_span(span, src, out, at) {
        Ok(k) => at + k,
        Err(_) => at,
    }
}

// The place behind a digest at `at`, or what is wrong with it.
fn judge_plain(size: u16, span: Span, src: &[u8], at: usize) -> Result<usize, Refusal>
    requires { at ≤ 0x1000000 }
    ensures { (measure_answer result ≡ after at (spell_step (Plain size span) src.now at)) × Near result at }
{
    let len = span.len();
    if len != size as usize {
        return Err(Refusal::mismatch(at, 0));
    }
    span.measure(src, at)?;
    let end = at + len;
    Ok(end)
}

// The place behind a buffer at `at`, or what is wrong with it: its span is looked for before its length is judged.
fn judge_buffer(limit: u16, span: Span, src: &[u8], at: usize) -> Result<usize, Refusal>
    requires { at ≤ 0x1000000 }
    ensures { (measure_answer result ≡ after at (spell_step (Buffer limit span) src.now at)) × Near result at }
{
    let size = span.len();
    let len = span.measure(src, at)?;
    if len <= limit as usize {
        let end = at + 2 + len;
        return Ok(end);
    }
    Err(Refusal::too_long(at, size as u64))
}

// What judging answered, as a walk.
pub fn judged(m: Result<usize, Refusal>) -> Walk
    ensures { result ≡ judged (measure_answer m) }
{
    match m {
        Ok(e) => judging(e),
        Err(f) => refusing(f),
    }
}

impl Walk {
    // The line of a digest, if it is one.
    fn plain_lines(self, size: u16, span: Span, src: &[u8], out: &mut [u8]) -> Walk
        ensures { self.mode ≡ 3 → here result out.new ≡ line_step (Plain size span) src.now self out.old }
    {
        let at = self.at;
        if at > FAR {
            return self;
        }
        match judge_plain(size, span, src, at) {
            Ok(e) => self.bytes_line(at, span, src, out).to_place(e),
            Err(f) => refusing(f),
        }
    }

    // The lines of a buffer, if it is one.
    fn buffer_lines(self, limit: u16, span: Span, src: &[u8], out: &mut [u8]) -> Walk
        ensures { self.mode ≡ 3 → here result out.new ≡ line_step (Buffer limit span) src.now self out.old }
    {
        let at = self.at;
        if at > FAR {
            return self;
        }
        match judge_buffer(limit, span, src, at) {
            Ok(e) => {
                let body = at + 2;
                let v = self.number_line(at, Word::Number, Width::Two, span.len() as u64, out);
                v.bytes_line(body, span, src, out).to_place(e)
            }
            Err(f) => refusing(f),
        }
    }

    // A digest of the size that is due.
    pub fn plain(self, chosen: Option<u16>, span: Span, src: &[u8], out: &mut [u8]) -> Walk
        ensures { Goes (Plain (due_size chosen) span ∷ []) src.now (here self out.old) (here result out.new) }
    {
        if self.mode == PUT {
            return putting(put_part(span, src, out, self.at));
        }
        let size = due_size(chosen);
        if self.mode == JUDGE {
            if self.at <= FAR {
                return judged(judge_plain(size, span, src, self.at));
            }
            return self;
        }
        if self.mode == LINES {
            return self.plain_lines(size, span, src, out);
        }
        self.sought(span)
    }

    // A buffer where nothing is judged.
    fn buffer_aside(self, limit: u16, span: Span, src: &[u8], out: &mut [u8]) -> Walk
        ensures { (self.mode ≡ 0 → ⊥) → Goes (Buffer limit span ∷ []) src.now (here self out.old) (here result out.new) }
    {
        if self.mode == PUT {
            let start = put_digits(span.len() as u64, Width::Two, out, self.at);
            return putting(put_part(span, src, out, start));
        }
        if self.mode == LINES {
            return self.buffer_lines(limit, span, src, out);
        }
        self.sought(span)
    }

    // A length of two bytes, and the bytes.
    pub fn buffer(self, limit: u16, span: Span, src: &[u8], out: &mut [u8]) -> Walk
        ensures { Goes (Buffer limit span ∷ []) src.now (here self out.old) (here result out.new) }
    {
        if self.mode == JUDGE {
            if self.at <= FAR {
                return judged(judge_buffer(limit, span, src, self.at));
            }
            return self;
        }
        self.buffer_aside(limit, span, src, out)
    }
}
