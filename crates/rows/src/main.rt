// Answers every case on standard input: two bytes that say how long it is, then the case, and then the next. A case is a kind, how many cells
// are lent for the ends, and a row: records of that kind, one behind the other, or what is not quite that. Said of it is how many records it
// is and where each ends, or why it is no row of them; and then each record is listed. tests/vectors/README.md has the bytes of a case and the
// lines of an answer.
#![tactic(auto)]

mod listed;
mod said;

use crate::listed::list_run;
use crate::said::{UNTOUCHED, say_count, say_divided};
use records::runs::{count, divide};
use wire::unmarshal::TpmUnmarshal;

// What stands ahead of the row.
const HEAD: usize = 3;

const CELLS_MOST: usize = 256;

const CASE_MOST: usize = 65535;

// No answer to a case that is shorter than its head, or asks for more cells than there are. That no cell is changed but those that are
// lent is looked for in all of them.
fn answer_case(case: &[u8]) -> Option<()> {
    let (head, s) = case.split_first_chunk::<HEAD>()?;
    let kind = head[0];
    let lent = u16::from_be_bytes([head[1], head[2]]);
    let mut cells = [UNTOUCHED; CELLS_MOST];
    let room = cells.get_mut(..usize::from(lent))?;
    let counted = count(kind, s);
    say_count(kind, counted);
    let divided = divide(kind, s, room);
    say_divided(kind, counted, divided, &cells);
    if let Ok(n) = counted {
        list_run(kind, s, n);
    }
    Some(())
}

// Answers the next case, read into space; None at the end of the input, and where a case is cut short or has no room there.
fn answer_next(space: &mut [u8]) -> Option<()> {
    let mut head = [0u8; 2];
    let taken = io::read_full(0, &mut head);
    let (length, _) = u16::unmarshal(&head[..taken], 0).ok()?;
    let case = space.get_mut(..usize::from(length))?;
    if io::read_full(0, case) < case.len() {
        return None;
    }
    answer_case(case)
}

// A proved loop has to end, and nothing says that an input does: this one has more turns than any run uses up.
fn main() {
    let mut space = [0u8; CASE_MOST];
    for _ in 0..u64::MAX {
        if answer_next(&mut space).is_none() {
            return;
        }
    }
}
