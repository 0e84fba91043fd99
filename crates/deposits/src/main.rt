// Lists every deposit on standard input: two bytes that say how long it is, then the deposit, and then the next. After the listing of a
// record that was read comes the line `again`, with the bytes that it is written as: if its copy and the record written and read again have
// the size that it measures, and read whole it has that size too or, with a tail, is Trailing there.
#![tactic(auto)]

use copies::walk::{copy, measure};
use faults::Fault;
use listing::deposit::{LISTING_ROOM, RECORD_MOST, list_deposit};
use records::whole::whole_end;
use roundtrip::again::again;
use text::put::put_hex;
use wire::unmarshal::TpmUnmarshal;

// No deposit is longer: a kind byte, and one byte more than is read.
const DEPOSIT_MOST: usize = RECORD_MOST + 2;

fn write_listing(deposit: &[u8]) {
    let mut out = [0u8; LISTING_ROOM];
    if let Ok(n) = list_deposit(deposit, &mut out) {
        io::write_all(1, &out[..n]);
    }
}

fn write_again_line(bytes: &[u8]) {
    let mut digits = [0u8; 2 * RECORD_MOST + 1];
    if bytes.len() > RECORD_MOST {
        return;
    }
    let n = put_hex(bytes, &mut digits, 0);
    if let Some(text) = digits.get(..n) {
        io::write_all(1, b"again ");
        io::write_all(1, text);
        io::write_all(1, b"\n");
    }
}

// Whether a record of that size is read whole where it is all there is, and is Trailing where more stands after it.
fn whole_agrees(kind: u8, bytes: &[u8], size: usize) -> bool {
    match whole_end(kind, bytes, 0) {
        Ok(end) => end == size && end == bytes.len(),
        Err(f) => f.fault == Fault::Trailing && f.place == size && size < bytes.len(),
    }
}

// The line `again`, if there is a record and all the calls agree on its size. It is measured, and each writer is lent just as many bytes;
// those of the line are the ones that were written and read again.
fn write_again(kind: u8, bytes: &[u8]) -> Option<()> {
    let mut copied = [0u8; RECORD_MOST];
    let mut written = [0u8; RECORD_MOST];
    let size = measure(kind, bytes).ok()?;
    let copied = copied.get_mut(..size)?;
    let written = written.get_mut(..size)?;
    if copy(kind, bytes, copied) == Ok(size)
        && again(kind, bytes, written) == Ok(size)
        && whole_agrees(kind, bytes, size)
    {
        write_again_line(written);
    }
    Some(())
}

fn answer(deposit: &[u8]) {
    write_listing(deposit);
    if let [kind, bytes @ ..] = deposit
        && bytes.len() <= RECORD_MOST
    {
        write_again(*kind, bytes);
    }
}

// Answers the next deposit, read into space; None at the end of the input, and where a deposit is cut short or longer than any is.
fn answer_next(space: &mut [u8]) -> Option<()> {
    let mut head = [0u8; 2];
    let taken = io::read_full(0, &mut head);
    let (length, _) = u16::unmarshal(&head[..taken], 0).ok()?;
    let deposit = space.get_mut(..usize::from(length))?;
    if io::read_full(0, deposit) < deposit.len() {
        return None;
    }
    answer(deposit);
    Some(())
}

// A proved loop has to end, and nothing says that an input does: this one has more turns than any run uses up.
fn main() {
    let mut space = [0u8; DEPOSIT_MOST];
    for _ in 0..u64::MAX {
        if answer_next(&mut space).is_none() {
            return;
        }
    }
}
