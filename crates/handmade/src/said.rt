// What was answered, in lines that begin with the number of the case.
use faults::{Fault, Refusal};
use text::put::put_hex;

// How many bytes there are to write to; no record of a case that is written has so many.
pub const SPACE: usize = 64;

// Every byte of them, before it is written to.
pub const UNTOUCHED: u8 = 0xa5;

fn say(word: &[u8], n: u64) {
    io::write_all(1, word);
    io::print_decimal(1, n);
}

fn say_answer(answer: Result<usize, Refusal>) {
    match answer {
        Ok(n) => say(b" size ", n as u64),
        Err(f) => {
            say(b" refused ", u64::from(f.fault.number()));
            say(b" at ", f.place as u64);
            say(b" value ", f.value);
            if f.fault == Fault::Short {
                say(b" had ", f.had as u64);
            }
        }
    }
}

pub fn say_measured(case: u64, answer: Result<usize, Refusal>) {
    io::print_decimal(1, case);
    io::write_all(1, b" measured");
    say_answer(answer);
    io::write_all(1, b"\n");
}

// The bytes that were written, in hexadecimal.
fn say_bytes(bytes: &[u8]) {
    let mut digits = [0u8; 2 * SPACE + 1];
    if bytes.len() > SPACE {
        return;
    }
    let n = put_hex(bytes, &mut digits, 0);
    if let Some(text) = digits.get(..n) {
        io::write_all(1, b" ");
        io::write_all(1, text);
    }
}

// What a writer answered that was lent so many bytes of the space, and what it wrote there.
pub fn say_written(case: u64, room: usize, answer: Result<usize, Refusal>, space: &[u8]) {
    io::print_decimal(1, case);
    say(b" room ", room as u64);
    say_answer(answer);
    let kept = answer.unwrap_or(0);
    if let Some((put, rest)) = space.split_at_checked(kept) {
        if answer.is_ok() {
            say_bytes(put);
        }
        if !rest.iter().all(|b| *b == UNTOUCHED) {
            io::write_all(1, b" changed");
        }
    }
    io::write_all(1, b"\n");
}
