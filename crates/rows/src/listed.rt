// The listing of a row: of each record the line `record N at PLACE`, and then its own listing, as if it stood alone.
use crate::said::say;
use listing::deposit::{LISTING_ROOM, list_record};
use records::kind::record_end;
use text::answer::Answer;

fn say_record(kind: u8, record: &[u8], out: &mut [u8]) {
    if let Ok(n) = list_record(kind, record, out) {
        io::write_all(1, &out[..n]);
    }
}

// By where each record ends, and not by the cells: there may be too few of them.
pub fn list_run(kind: u8, s: &[u8], n: usize) {
    let mut out = [0u8; LISTING_ROOM];
    let mut place: usize = 0;
    for number in 1..=n {
        let Ok(end) = record_end(kind, s, place) else {
            return;
        };
        say(Answer::RecordAt { number, place });
        say_record(kind, &s[place..end], &mut out);
        place = end;
    }
}
