// Answers every case on standard input: two bytes that say how long it is, then the case, and then the next. A case is a record, a selector to
// put in place of its own, and what is then asked of it: whether its unions match, what it is written as, its tail, a byte field and an item.
// tests/vectors/README.md has the bytes of a case and the lines of an answer.
#![tactic(auto)]

mod asked;
mod case;
mod changed;
mod said;
mod values;

use crate::asked::answer;
use crate::case::{HEAD, two};
use crate::said::{UNTOUCHED, say_refusal};
use wire::unmarshal::TpmUnmarshal;

const MOST_ROOM: usize = 4096;

const MOST_CASE: usize = 8192;

// No answer to a case that is shorter than its head or lacks some of its records, or asks for more room than there is. Where no other source is
// lent, the records are the source too.
fn answer_bytes(bytes: &[u8]) -> Option<()> {
    let mut space = [UNTOUCHED; MOST_ROOM];
    let (head, behind) = bytes.split_first_chunk::<HEAD>()?;
    let out = space.get_mut(..usize::from(two(head, 3)))?;
    let (records, rest) = behind.split_at_checked(usize::from(two(head, 12)))?;
    let source = if head[11] == 0 { records } else { rest };
    if let Err(f) = answer(head, records, source, out) {
        say_refusal(head[0], f);
    }
    Some(())
}

// Answers the next case; None at the end of the input, and where a case is cut short or longer than any is.
fn answer_next() -> Option<()> {
    let mut head = [0u8; 2];
    let mut space = [0u8; MOST_CASE];
    let taken = io::read_full(0, &mut head);
    let (length, _) = u16::unmarshal(&head[..taken], 0).ok()?;
    let bytes = space.get_mut(..usize::from(length))?;
    if io::read_full(0, bytes) < bytes.len() {
        return None;
    }
    answer_bytes(bytes)
}

// A proved loop has to end, and nothing says that an input does: this one has more turns than any run uses up.
fn main() {
    for _ in 0..u64::MAX {
        if answer_next().is_none() {
            return;
        }
    }
}
