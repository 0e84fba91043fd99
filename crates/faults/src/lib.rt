// Why something is refused. A refusal has a fault, a place, a value, and how many bytes it had; the format's number of each
// fault and what its value and `had` say stand in specs/Faults.antt. Code builds a refusal by its name, below; only a walk
// that keeps one as numbers builds it again from them (`Walk::answer` of steps).
#![tactic(auto)]

ghost use Rattle.std.specs.Prelude.{◌≡◌};
ghost use Rattle.faults.specs.Faults.{paper, refusal, placed_at, short, unknown_code, no_such_arm, too_long, too_many_items, bad_value, mismatch, bad_span, no_room, no_field, trailing, bad_kind, oversize};

#[derive(Clone, Copy, Debug, PartialEq, Eq)]
pub enum Fault {
    Short = 1,
    UnknownCode,
    NoArm,
    TooLong,
    TooManyItems,
    BadValue,
    Mismatch,
    BadSpan,
    NoRoom,
    NoField,
    Trailing,
    BadKind,
    Oversize,
}

impl Fault {
    // The fault's number, as the listing prints it.
    pub fn number(self) -> u8
        ensures { result ≡ (paper self).number }
    {
        self as u8
    }
}

#[derive(Clone, Copy, Debug, PartialEq, Eq)]
pub struct Refusal {
    pub fault: Fault,
    pub place: usize,
    pub value: u64,
    pub had: usize,
}

impl Refusal {
    // The input ends before the field that is due at `place` and needs so many bytes: from there on it has fewer.
    pub fn short(place: usize, needed: usize, there: usize) -> Refusal
        ensures { result ≡ short place needed there }
    {
        Refusal {
            fault: Fault::Short,
            place,
            value: needed as u64,
            had: there,
        }
    }

    // A refusal that is not for want of bytes: it had none.
    fn other(fault: Fault, place: usize, value: u64) -> Refusal
        ensures { result ≡ refusal fault place value 0 }
    {
        Refusal {
            fault,
            place,
            value,
            had: 0,
        }
    }

    // The code at `place` is on no list of its field.
    pub fn unknown_code(place: usize, code: u64) -> Refusal
        ensures { result ≡ unknown_code place code }
    {
        Refusal::other(Fault::UnknownCode, place, code)
    }

    // The selector has no arm; `place` is where the arm was due.
    pub fn no_arm(place: usize, selector: u64) -> Refusal
        ensures { result ≡ no_such_arm place selector }
    {
        Refusal::other(Fault::NoArm, place, selector)
    }

    // A length beyond its field's limit.
    pub fn too_long(place: usize, length: u64) -> Refusal
        ensures { result ≡ too_long place length }
    {
        Refusal::other(Fault::TooLong, place, length)
    }

    // A count beyond its list's capacity.
    pub fn too_many_items(place: usize, count: u64) -> Refusal
        ensures { result ≡ too_many_items place count }
    {
        Refusal::other(Fault::TooManyItems, place, count)
    }

    // A yes/no byte that is neither, another magic, or another tag.
    pub fn bad_value(place: usize, value: u64) -> Refusal
        ensures { result ≡ bad_value place value }
    {
        Refusal::other(Fault::BadValue, place, value)
    }

    // The arm that is held is not the one that the selector chooses.
    pub fn mismatch(place: usize, selector: u64) -> Refusal
        ensures { result ≡ mismatch place selector }
    {
        Refusal::other(Fault::Mismatch, place, selector)
    }

    // A span that does not lie in its source.
    pub fn bad_span(place: usize, length: usize) -> Refusal
        ensures { result ≡ bad_span place length }
    {
        Refusal::other(Fault::BadSpan, place, length as u64)
    }

    // The output is smaller than what is to be put there.
    pub fn no_room(place: usize, needed: usize) -> Refusal
        ensures { result ≡ no_room place needed }
    {
        Refusal::other(Fault::NoRoom, place, needed as u64)
    }

    // There is no byte field, or no item, with that index.
    pub fn no_field(index: usize) -> Refusal
        ensures { result ≡ no_field index }
    {
        Refusal::other(Fault::NoField, 0, index as u64)
    }

    // Bytes are left over where the record, or the list, has ended.
    pub fn trailing(place: usize, left: usize) -> Refusal
        ensures { result ≡ trailing place left }
    {
        Refusal::other(Fault::Trailing, place, left as u64)
    }

    // No record kind has that number.
    pub fn bad_kind(kind: u64) -> Refusal
        ensures { result ≡ bad_kind kind }
    {
        Refusal::other(Fault::BadKind, 0, kind)
    }

    // There are more than 4,096 bytes behind the kind, more than the listing takes.
    pub fn oversize() -> Refusal
        ensures { result ≡ oversize }
    {
        Refusal::other(Fault::Oversize, 0, 4097)
    }

    // The same, at another place.
    pub fn placed_at(self, place: usize) -> Refusal
        ensures { result ≡ placed_at place self }
    {
        Refusal { place, ..self }
    }
}
