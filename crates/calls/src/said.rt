// What a case is answered with, in lines.
use faults::Refusal;
use io::write_all;
use text::answer::{Answer, fit_answer};
use text::put::put_hex;

// Every byte of the output that is lent, before it is written to.
pub const UNTOUCHED: u8 = 0xa5;

// No part that is said is longer, and no line of a refusal.
const MOST_BYTES: usize = 4096;

const MOST_LINE: usize = 131;

fn say(text: &[u8]) {
    write_all(1, text);
}

pub fn say_match(yes: bool) {
    say(if yes { b"m 1\n" } else { b"m 0\n" })
}

pub fn say_refusal(number: u8, refusal: Refusal) {
    let mut line = [0u8; MOST_LINE];
    let answer = Answer::Refused {
        kind: number,
        refusal,
    };
    let n = fit_answer(answer, &mut line, 0);
    if let Some(text) = line.get(..n) {
        say(text);
    }
}

// A word, and the bytes in hexadecimal.
pub fn say_bytes(word: &[u8], bytes: &[u8]) {
    let mut digits = [0u8; 2 * MOST_BYTES + 1];
    if bytes.len() > MOST_BYTES {
        return;
    }
    let n = put_hex(bytes, &mut digits, 0);
    if let Some(text) = digits.get(..n) {
        say(word);
        say(text);
        say(b"\n");
    }
}

fn say_if_changed(out: &[u8]) {
    if out.iter().any(|b| *b != UNTOUCHED) {
        say(b"changed\n");
    }
}

// Whether a writer answered what was measured, or that there is no room for it.
fn is_as_measured(measured: Result<usize, Refusal>, written: Result<usize, Refusal>) -> bool {
    written == measured || measured.is_ok_and(|n| written == Err(Refusal::no_room(0, n)))
}

// What a writer answered; whether it left the rest of its output alone, and whether that is what was measured.
pub fn say_written(
    number: u8,
    measured: Result<usize, Refusal>,
    written: Result<usize, Refusal>,
    out: &[u8],
) {
    match written {
        Ok(n) => {
            if let Some((put, rest)) = out.split_at_checked(n) {
                say_bytes(b"again ", put);
                say_if_changed(rest);
            }
        }
        Err(f) => {
            say_refusal(number, f);
            say_if_changed(out);
        }
    }
    if !is_as_measured(measured, written) {
        say(b"measured otherwise\n");
    }
}

// A part that was asked for by index, or why there is none. Nothing is said if the two calls disagree.
pub fn say_part(number: u8, word: &[u8], size: Result<usize, Refusal>, part: &[u8]) {
    match size {
        Ok(n) if n == part.len() => say_bytes(word, part),
        Err(f) if part.is_empty() => say_refusal(number, f),
        _ => {}
    }
}
