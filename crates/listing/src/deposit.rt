// The listing of a record of a kind, and of a deposit: a kind byte, and then the record.
ghost use Rattle.std.specs.Prelude.{◌≡◌, ◌≤◌, length};
ghost use Rattle.wire.specs.Answers.{measure_answer};
ghost use Rattle.wire.specs.Reading.{end_of};
ghost use Rattle.listing.specs.Listing.{judged, record_text, listing, answered, is_found, Counts, Lists};

use copies::walk::walk;
use faults::Refusal;
use format::kind::Kind;
use records::kind::record_end;
use steps::walk::lining;
use text::answer::{Answer, fit_answer};

// With so many bytes behind its kind a record is read, and with more it is not.
pub const RECORD_MOST: usize = 4096;

// A slice of so many bytes has room for every listing.
pub const LISTING_ROOM: usize = 16384;

// What is answered of a record of that kind: where it ends, or why it is refused. Of too many bytes none is read.
fn judge(kind: u8, bytes: &[u8]) -> Result<usize, Refusal>
    ensures { measure_answer result ≡ end_of (judged kind bytes.now) }
{
    if bytes.len() > RECORD_MOST {
        Kind::try_from(kind)?;
        return Err(Refusal::oversize());
    }
    record_end(kind, bytes, 0)
}

// The listing of a record of that kind, at the start of out if it fits; and how long it is.
fn put_record(kind: u8, bytes: &[u8], out: &mut [u8]) -> usize
    ensures { Counts (record_text kind bytes.now) out.old result out.new }
{
    match judge(kind, bytes) {
        Ok(end) => {
            let tail = bytes.len() - end;
            let first = fit_answer(Answer::Read { kind, end, tail }, out, 0);
            let lines = walk(kind, bytes, lining(0, first), out);
            lines.value as usize
        }
        Err(refusal) => fit_answer(Answer::Refused { kind, refusal }, out, 0),
    }
}

// How long that is.
fn record_size(kind: u8, bytes: &[u8]) -> usize
    ensures { (result ≡ length (record_text kind bytes.now)) × (result ≤ 16384) }
{
    let mut nowhere = [0u8; 1];
    put_record(kind, bytes, &mut nowhere)
}

// The listing of a record of that kind at the start of out, and how long it is. Where out is smaller than that, so much room is asked for
// and out is left as it was. Where every listing fits, none is measured first.
pub fn list_record(kind: u8, bytes: &[u8], out: &mut [u8]) -> Result<usize, Refusal>
    ensures { Lists (record_text kind bytes.now) out.old result out.new }
{
    if out.len() < LISTING_ROOM {
        let need = record_size(kind, bytes);
        if out.len() < need {
            return Err(Refusal::no_room(0, need));
        }
    }
    Ok(put_record(kind, bytes, out))
}

// The same of a deposit.
pub fn list_deposit(deposit: &[u8], out: &mut [u8]) -> Result<usize, Refusal>
    ensures { Lists (listing deposit.now) out.old result out.new }
{
    match deposit {
        [kind, bytes @ ..] => list_record(*kind, bytes, out),
        [] => list_record(0, deposit, out),
    }
}

// Whether what is listed of a record is a record which was read, and not a refusal.
pub fn is_record_read(kind: u8, bytes: &[u8]) -> bool
    ensures { result ≡ is_found (judged kind bytes.now) }
{
    judge(kind, bytes).is_ok()
}

// The same of a deposit.
pub fn is_deposit_read(deposit: &[u8]) -> bool
    ensures { result ≡ is_found (answered deposit.now) }
{
    match deposit {
        [kind, bytes @ ..] => is_record_read(*kind, bytes),
        [] => false,
    }
}
