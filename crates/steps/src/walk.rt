// A walk over a record: what it is for, and how far it came. Four words by value, which a record's fields hand on in wire order.
ghost use Rattle.std.specs.Prelude.{◌≡◌};
ghost use Rattle.wire.specs.Answers.{measure_answer};
ghost use Rattle.steps.specs.Walks.{judging, putting, seeking, lining, list_seeking, finding, refusing, ready_walk, fault_of, walk_answer};

use faults::{Fault, Refusal};
use wire::span::Span;

// The modes of a walk. Behind FOUND come the refusals: FOUND and the number of the fault.
pub const JUDGE: usize = 0;

pub const PUT: usize = 1;

pub(crate) const SEEK: usize = 2;

pub const LINES: usize = 3;

pub const LIST: usize = 4;

pub const FOUND: usize = 5;

// Behind so many bytes, of a record or of a text, nothing is judged or listed; none is so long.
pub const FAR: usize = 0x1000000;

#[derive(Clone, Copy)]
pub struct Walk {
    pub mode: usize,
    pub at: usize,
    pub value: u64,
    pub had: usize,
}

// The record is judged; the next field stands at the place `at`.
pub fn judging(at: usize) -> Walk
    ensures { result ≡ judging at }
{
    Walk {
        mode: JUDGE,
        at: at,
        value: 0,
        had: 0,
    }
}

// It is put, from the place `at` of the output on.
pub fn putting(at: usize) -> Walk
    ensures { result ≡ putting at }
{
    Walk {
        mode: PUT,
        at: at,
        value: 0,
        had: 0,
    }
}

// The byte field with that index is sought.
pub fn seeking(index: usize) -> Walk
    ensures { result ≡ seeking index }
{
    Walk {
        mode: SEEK,
        at: index,
        value: 0,
        had: 0,
    }
}

// The lines of a listing are put: the next field's stands at the place `at`, and the text goes on at `end`.
pub fn lining(at: usize, end: usize) -> Walk
    ensures { result ≡ lining at end }
{
    Walk {
        mode: LINES,
        at: at,
        value: end as u64,
        had: 0,
    }
}

// The record's list is sought.
pub fn list_seeking() -> Walk
    ensures { result ≡ list_seeking }
{
    Walk {
        mode: LIST,
        at: 0,
        value: 0,
        had: 0,
    }
}

// What was sought is found.
pub fn finding(span: Span) -> Walk
    ensures { result ≡ finding span }
{
    Walk {
        mode: FOUND,
        at: span.start(),
        value: span.len() as u64,
        had: 0,
    }
}

pub fn refusing(f: Refusal) -> Walk
    ensures { result ≡ refusing f }
{
    let fault = f.fault;
    Walk {
        mode: FOUND + fault.number() as usize,
        at: f.place,
        value: f.value,
        had: f.had,
    }
}

// The fault with that number.
fn fault_of(n: usize) -> Fault
    ensures { result ≡ fault_of n }
{
    match n {
        1 => Fault::Short,
        2 => Fault::UnknownCode,
        3 => Fault::NoArm,
        4 => Fault::TooLong,
        5 => Fault::TooManyItems,
        6 => Fault::BadValue,
        7 => Fault::Mismatch,
        8 => Fault::BadSpan,
        9 => Fault::NoRoom,
        10 => Fault::NoField,
        11 => Fault::Trailing,
        12 => Fault::BadKind,
        _ => Fault::Oversize,
    }
}

// After a record was measured: ready to put it, if there is room.
pub fn ready(measured: Result<usize, Refusal>, room: usize) -> Walk
    ensures { result ≡ ready_walk (measure_answer measured) room }
{
    match measured {
        Ok(n) => {
            if n <= room {
                return putting(0);
            }
            refusing(Refusal::no_room(0, n))
        }
        Err(f) => refusing(f),
    }
}

impl Walk {
    // How far it came, or why not.
    pub fn answer(self) -> Result<usize, Refusal>
        ensures { measure_answer result ≡ walk_answer self }
    {
        if self.mode < LINES {
            return Ok(self.at);
        }
        if self.mode == LINES {
            return Ok(self.value as usize);
        }
        if self.mode == LIST {
            return Ok(self.at);
        }
        Err(Refusal {
            fault: fault_of(self.mode - FOUND),
            place: self.at,
            value: self.value,
            had: self.had,
        })
    }
}
