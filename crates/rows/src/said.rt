// What is said of a row: its number of records and their ends, or why it is no row of them.
use faults::Refusal;
use text::answer::{Answer, fit_answer};

// Every cell, before so many of them are lent.
pub const UNTOUCHED: usize = 0xa5a5a5a5a5a5a5a5;

// No line of an answer is longer.
const LINE_MOST: usize = 131;

pub fn say(answer: Answer) {
    let mut line = [0u8; LINE_MOST];
    let n = fit_answer(answer, &mut line, 0);
    if let Some(text) = line.get(..n) {
        io::write_all(1, text);
    }
}

// `count N`, or the line of the refusal.
pub fn say_count(kind: u8, counted: Result<usize, Refusal>) {
    match counted {
        Ok(n) => {
            io::write_all(1, b"count ");
            io::print_decimal(1, n as u64);
            io::write_all(1, b"\n");
        }
        Err(refusal) => say(Answer::Refused { kind, refusal }),
    }
}

fn say_ends(ends: &[usize]) {
    io::write_all(1, b"ends");
    for end in ends {
        io::write_all(1, b" ");
        io::print_decimal(1, *end as u64);
    }
    io::write_all(1, b"\n");
}

// Whether a cell from an index on is not as it was.
fn say_if_changed(cells: &[usize], from: usize) {
    if !cells.iter().skip(from).all(|cell| *cell == UNTOUCHED) {
        io::write_all(1, b"changed\n");
    }
}

// `ends` and the ends, if there are as many as were counted, or the line of the refusal; and whether a cell is changed that should be as it
// was.
pub fn say_divided(
    kind: u8,
    counted: Result<usize, Refusal>,
    divided: Result<usize, Refusal>,
    cells: &[usize],
) {
    match divided {
        Ok(n) => {
            match cells.get(..n) {
                Some(ends) if counted == divided => say_ends(ends),
                _ => {
                    io::write_all(1, b"differs\n");
                }
            }
            say_if_changed(cells, n);
        }
        Err(refusal) => {
            say(Answer::Refused { kind, refusal });
            say_if_changed(cells, 0);
        }
    }
}
