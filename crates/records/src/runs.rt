// Records of one kind in a row, one behind the other with nothing between them: how many there are, and where each of them ends.
ghost use Rattle.std.specs.Prelude.{true, ◌≡◌, ℕ, ◌≤◌, length};
ghost use Rattle.wire.specs.Answers.{measure_answer};
ghost use Rattle.wire.specs.Records.{found};
ghost use Rattle.wire.specs.Fields.{size_of};
ghost use Rattle.wire.specs.Filling.{filled};
ghost use Rattle.format.specs.Kinds.{is_kind};
ghost use Rattle.records.specs.Runs.{divided, CountsRow, DividesRow};

use crate::kind::record_end;
use faults::Refusal;
use format::kind::Kind;
use wire::read::left;

// Where nothing is left, all are counted: past the end a record would be refused.
fn count_records(kind: u8, s: &[u8]) -> Result<usize, Refusal>
    requires { is_kind kind ≡ true }
    ensures { measure_answer result ≡ size_of (divided kind s.now) }
{
    let mut at: usize = 0;
    let mut n: usize = 0;
    while left(s.len(), at) > 0 {
        at = record_end(kind, s, at)?;
        n += 1;
    }
    Ok(n)
}

// How many records of that kind the whole of s is, or why it is no row of them. No bytes are no records.
pub fn count(kind: u8, s: &[u8]) -> Result<usize, Refusal>
    ensures { CountsRow kind s.now result }
{
    Kind::try_from(kind)?;
    count_records(kind, s)
}

// The ends of the records that s was found to be, one to a cell from the first on. All of them were counted, so none is refused here.
fn put_ends(kind: u8, s: &[u8], ends: &mut [usize])
    requires { (n : ℕ) × (size_of (divided kind s.now) ≡ found n) × (n ≤ length ends.old) }
    ensures { ends.new ≡ filled 0 (divided kind s.now) ends.old }
{
    let mut start: usize = 0;
    let mut i: usize = 0;
    'cells: while left(s.len(), start) > 0 {
        match record_end(kind, s, start) {
            Ok(end) => {
                ends[i] = end;
                start = end;
                i += 1;
            }
            Err(_) => return,
        }
    }
}

// How many records of that kind the whole of s is, and in ends the place behind each of them, in order. All are counted first, so that a
// refusal leaves ends as it was; cells past the last end are kept.
pub fn divide(kind: u8, s: &[u8], ends: &mut [usize]) -> Result<usize, Refusal>
    ensures { DividesRow kind s.now ends.old result ends.new }
{
    let n = count(kind, s)?;
    if n <= ends.len() {
        put_ends(kind, s, ends);
        return Ok(n);
    }
    Err(Refusal::no_room(0, n))
}
