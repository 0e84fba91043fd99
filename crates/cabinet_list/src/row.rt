// Records of one kind in a row, one behind the other with nothing between them: all of them are listed, or none. Where a byte was lost, what
// stands behind it may be read as other records before one is refused.
ghost use Rattle.std.specs.Prelude.{◌≤◌, ◌≡◌, length};
ghost use Rattle.wire.specs.Records.{found};
ghost use Rattle.wire.specs.Fields.{size_of};
ghost use Rattle.text.specs.Puts.{Puts};
ghost use Rattle.records.specs.Runs.{divided};
ghost use Rattle.cabinet_list.specs.Rows.{entry_text, between, IsNumbered};

use crate::calls::{give, take_input};
use crate::status::{Outcome, failed, say, unwritten, write_listing};
use faults::Refusal;
use listing::deposit::{LISTING_ROOM, list_record};
use records::kind::record_end;
use records::runs::count;
use std::io;
use text::answer::{Answer, fit_answer};

// A row of so many bytes is listed, and none of more.
const ROW_MOST: usize = 1048576;

// With one byte more it is known that there are more.
const ROW_ROOM: usize = ROW_MOST + 1;

// Room for the line in front of a record, at most 52 bytes, and for every listing behind it.
const ENTRY_ROOM: usize = 52 + LISTING_ROOM;

// Room for the line of a refusal.
const REFUSAL_ROOM: usize = 131;

fn row_room() -> [u8; ROW_ROOM]
    ensures { 1048577 ≡ length result }
{
    [0; ROW_ROOM]
}

// What is listed of the record of the row s that has this number and stands from `at` to `end`, at the start of out: the line that says so,
// and then the listing of its bytes alone, for which there is room.
fn put_entry(kind: u8, s: &[u8], number: usize, at: usize, end: usize, out: &mut [u8]) -> usize
    requires { (IsNumbered kind s.now number at end) × (16436 ≤ length out.old) }
    ensures { Puts 0 (entry_text kind number at (between at end s.now)) out.old result out.new }
{
    let n = fit_answer(Answer::RecordAt { number, place: at }, out, 0);
    let m = list_record(kind, &s[at..end], &mut out[n..]).unwrap();
    n + m
}

// Whether that was written, or why not.
fn is_entry_given(
    rt: HostRuntime,
    kind: u8,
    s: &[u8],
    number: usize,
    at: usize,
    end: usize,
) -> io::Result<()>
    requires { IsNumbered kind s.now number at end }
{
    let mut out = [0u8; ENTRY_ROOM];
    let n = put_entry(kind, s, number, at, end, &mut out);
    give(&mut rt.stdout(), &out[..n])
}

// Whether the n records that s was found to be were written, each from where the last one ends, or why not. All were counted, so the next is there.
fn is_row_given(rt: HostRuntime, kind: u8, s: &[u8], n: usize) -> io::Result<()>
    requires { size_of (divided kind s.now) ≡ found n }
{
    let mut at: usize = 0;
    for before in 0..n {
        let end = record_end(kind, s, at).unwrap();
        is_entry_given(rt, kind, s, before + 1, at, end)?;
        at = end;
    }
    Ok(())
}

fn list_row(rt: HostRuntime, kind: u8, s: &[u8], n: usize) -> Outcome
    requires { size_of (divided kind s.now) ≡ found n }
{
    match is_row_given(rt, kind, s, n) {
        Ok(()) => write_listing(rt, b"", Outcome::Read),
        Err(why) => unwritten(rt, why),
    }
}

fn refuse_row(rt: HostRuntime, kind: u8, refusal: Refusal) -> Outcome {
    let mut line = [0u8; REFUSAL_ROOM];
    let n = fit_answer(Answer::Refused { kind, refusal }, &mut line, 0);
    write_listing(rt, &line[..n], Outcome::Refused)
}

fn answer_row(rt: HostRuntime, kind: u8, s: &[u8], name: &[u8]) -> Outcome {
    if s.len() > ROW_MOST {
        return say(rt, name, b": more than 1048576 bytes of records in a row\n");
    }
    match count(kind, s) {
        Ok(n) => list_row(rt, kind, s, n),
        Err(refusal) => refuse_row(rt, kind, refusal),
    }
}

// What is read is lent as a slice: the room for it is never looked at in a proof. With less room a row that is too long would be cut.
fn answer_row_taken(rt: HostRuntime, kind: u8, room: &mut [u8], name: &[u8]) -> Outcome
    requires { 1048577 ≤ length room.old }
{
    match take_input(rt, room) {
        Ok(n) => answer_row(rt, kind, &room[..n], name),
        Err(why) => failed(rt, name, why),
    }
}

pub fn answer_row_input(rt: HostRuntime, kind: u8, name: &[u8]) -> Outcome {
    let mut room = row_room();
    answer_row_taken(rt, kind, &mut room, name)
}
