// Lists what is on standard input. Its arguments: how a line about that input begins; the number of the record's kind, if no kind byte
// stands in front; and a third, which is `run` if the input is a row of such records, and any other if the record's size stands in front.
// With arguments it says on descriptor 3 how it went: 0 read, 1 refused, 2 trouble. Where nothing is said there, it was ended from outside.
#![tactic(auto)]

mod args;
mod calls;
mod form;
mod row;
mod said;
mod status;

ghost use Rattle.std.specs.Prelude.{◌≤◌, ◌≡◌, length};

use args::{arg, is_given};
use calls::take_input;
use form::{Form, SIZED_MOST, behind_size, is_read, list, most, size_in, sizes_agree};
use listing::deposit::LISTING_ROOM;
use row::answer_row_input;
use said::{is_run, number};
use status::{Outcome, failed, say, tell, write_listing};

const STDERR: i32 = 2;

fn say_sizes(rt: HostRuntime, name: &[u8], bytes: &[u8]) -> Outcome {
    let Some(size) = size_in(bytes) else {
        return say(rt, name, b": no TPM2B: it has no two bytes of size\n");
    };
    say(rt, name, b": no TPM2B: the size in front is ");
    io::print_decimal(STDERR, size as u64);
    say(rt, b"", b", and the bytes that follow are ");
    io::print_decimal(STDERR, behind_size(bytes).len() as u64);
    if bytes.len() == SIZED_MOST {
        say(rt, b"", b" or more");
    }
    say(rt, b"", b"\n")
}

fn listing_room() -> [u8; LISTING_ROOM]
    ensures { 16384 ≡ length result }
{
    [0; LISTING_ROOM]
}

fn answer(rt: HostRuntime, form: Form, bytes: &[u8], name: &[u8]) -> Outcome {
    if !sizes_agree(form, bytes) {
        return say_sizes(rt, name, bytes);
    }
    let mut out = listing_room();
    let outcome = if is_read(form, bytes) {
        Outcome::Read
    } else {
        Outcome::Refused
    };
    match list(form, bytes, &mut out) {
        Ok(n) => write_listing(rt, &out[..n], outcome),
        Err(_) => say(rt, name, b": no room for its listing\n"),
    }
}

// What is read is lent as a slice: the room for it is never looked at in a proof.
fn answer_taken(rt: HostRuntime, form: Form, room: &mut [u8], name: &[u8]) -> Outcome
    requires { 65538 ≤ length room.old }
{
    match take_input(rt, &mut room[..most(form)]) {
        Ok(n) => answer(rt, form, &room[..n], name),
        Err(why) => failed(rt, name, why),
    }
}

fn answer_input(rt: HostRuntime, form: Form, name: &[u8]) -> Outcome {
    let mut room = [0u8; SIZED_MOST];
    answer_taken(rt, form, &mut room, name)
}

// A word that is longer than `run` is not taken, and is another.
fn answer_run_or_sized(rt: HostRuntime, kind: u8, name: &[u8]) -> Outcome {
    let mut word = [0u8; 3];
    let n = arg(&rt, 3, &mut word);
    if is_run(&word[..n]) {
        return answer_row_input(rt, kind, name);
    }
    answer_input(rt, Form::Sized(kind), name)
}

fn answer_kind(rt: HostRuntime, name: &[u8]) -> Outcome {
    let mut word = [0u8; 2];
    let n = arg(&rt, 2, &mut word);
    let Some(kind) = number(&word[..n]) else {
        return say(rt, name, b": no kind has that number\n");
    };
    if !is_given(&rt, 3) {
        return answer_input(rt, Form::Record(kind), name);
    }
    answer_run_or_sized(rt, kind, name)
}

fn answer_asked(rt: HostRuntime, name: &[u8]) -> Outcome {
    if !is_given(&rt, 2) {
        return answer_input(rt, Form::Deposit, name);
    }
    answer_kind(rt, name)
}

fn main(rt: HostRuntime) {
    if !is_given(&rt, 1) {
        answer_asked(rt, b"cabinet-list: standard input");
        return;
    }
    let mut name = [0u8; 4200];
    let n = arg(&rt, 1, &mut name);
    let outcome = answer_asked(rt, &name[..n]);
    if tell(outcome.digit()) {
        tell(b'\n');
    }
}
