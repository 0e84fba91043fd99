// The lines that say how a record was answered.
ghost use Rattle.std.specs.Prelude.{◌++◌, ◌+◌, ◌≤◌, length};
ghost use Rattle.text.specs.Puts.{Puts, Fits};
ghost use Rattle.text.specs.Text.{decimal, had_text, answer_text};

use crate::line::put_line_end;
use crate::put::{fit_text, put_decimal, put_text, room};
use faults::{Fault, Refusal};

// What such a line says.
#[derive(Clone, Copy)]
pub enum Answer {
    // The first line of a record that was read: `kind K read E tail T`.
    Read { kind: u8, end: usize, tail: usize },
    // The line in front of a record in a row: `record N at P`.
    RecordAt { number: usize, place: usize },
    // The line of a refusal: `kind K refused N at P value V`, and behind Short ` had N`.
    Refused { kind: u8, refusal: Refusal },
}

// A word, and a number behind it.
fn put_said(word: &[u8], n: u64, out: &mut [u8], at: usize) -> usize
    requires { at + (length word.now + 20) ≤ length out.old }
    ensures puts { Puts at (word.now ++ decimal n) out.old result out.new }
    ensures within { result ≤ at + (length word.now + 20) }
{
    let first = put_text(word, out, at);
    put_decimal(n, out, first)
}

// ` had N`, behind Short alone.
fn put_had(refusal: Refusal, out: &mut [u8], at: usize) -> usize
    requires { at + 25 ≤ length out.old }
    ensures puts { Puts at (had_text refusal.fault refusal.had) out.old result out.new }
    ensures within { result ≤ at + 25 }
{
    if refusal.fault == Fault::Short {
        return put_said(b" had ", refusal.had as u64, out, at);
    }
    at
}

// Such a line. The longest is that of a refusal, of 131 bytes.
fn put_answer(answer: Answer, out: &mut [u8], at: usize) -> usize
    requires { at + 131 ≤ length out.old }
    ensures puts { Puts at (answer_text answer) out.old result out.new }
    ensures within { result ≤ at + 131 }
{
    match answer {
        Answer::Read { kind, end, tail } => {
            let a = put_said(b"kind ", kind as u64, out, at);
            let b = put_said(b" read ", end as u64, out, a);
            let c = put_said(b" tail ", tail as u64, out, b);
            put_line_end(out, c)
        }
        Answer::RecordAt { number, place } => {
            let a = put_said(b"record ", number as u64, out, at);
            let b = put_said(b" at ", place as u64, out, a);
            put_line_end(out, b)
        }
        Answer::Refused { kind, refusal } => {
            let a = put_said(b"kind ", kind as u64, out, at);
            let b = put_said(b" refused ", refusal.fault.number() as u64, out, a);
            let c = put_said(b" at ", refusal.place as u64, out, b);
            let d = put_said(b" value ", refusal.value, out, c);
            let e = put_had(refusal, out, d);
            put_line_end(out, e)
        }
    }
}

// The line of an answer, at the place `at` of out if it fits there; and how long it is.
pub fn fit_answer(answer: Answer, out: &mut [u8], at: usize) -> usize
    ensures { Fits at (answer_text answer) out.old result out.new }
{
    if room(at, 131, out.len()) {
        return put_answer(answer, out, at) - at;
    }
    let mut row = [0u8; 131];
    let k = put_answer(answer, &mut row, 0);
    fit_text(&row[..k], out, at)
}
