// How it went, as the digit that is told on descriptor 3, and what is said and written on the way to it.
ghost use Rattle.std.specs.Prelude.{◌≤◌, length};

use crate::calls::give;
use std::fs;
use std::io::{Error, ErrorKind, Write};
use std::os::fd::AsFd;
use std_io::io::last_error;

// Every record was read, one was refused, or there was trouble.
#[derive(Clone, Copy)]
pub enum Outcome {
    Read,
    Refused,
    Trouble,
}

impl Outcome {
    // The digit that says so.
    pub fn digit(self) -> u8 {
        match self {
            Outcome::Read => b'0',
            Outcome::Refused => b'1',
            Outcome::Trouble => b'2',
        }
    }
}

// How often a byte is written to descriptor 3.
const TRIES: usize = 1000;

// Puts a reason at the start of out, as far as that goes.
fn put_reason(why: Error, out: &mut [u8]) -> usize
    ensures { result ≤ length out.new }
{
    let most = out.len();
    let mut rest = &mut out[..];
    let _ = rest.write_fmt(why);
    most.saturating_sub(rest.len())
}

// Of a reason the words alone: the number that the library puts behind the system's words is left out.
fn words_of(reason: &[u8]) -> &[u8] {
    std::str::from_utf8(reason)
        .ok()
        .and_then(|text| text.split_once(" (os error "))
        .map_or(reason, |(words, _)| words.as_bytes())
}

// A call failed: what it was about, and the system's words for why.
pub fn failed(rt: HostRuntime, what: &[u8], why: Error) -> Outcome {
    let mut room = [0u8; 256];
    let n = put_reason(why, &mut room);
    let mut err = rt.stderr();
    let _ = give(&mut err, what);
    let _ = give(&mut err, b": ");
    let _ = give(&mut err, words_of(&room[..n]));
    let _ = give(&mut err, b"\n");
    Outcome::Trouble
}

// A line in words of our own.
pub fn say(rt: HostRuntime, name: &[u8], words: &[u8]) -> Outcome {
    let mut err = rt.stderr();
    let _ = give(&mut err, name);
    let _ = give(&mut err, words);
    Outcome::Trouble
}

// Standard output takes no more: the system's words say why.
pub fn unwritten(rt: HostRuntime, why: Error) -> Outcome {
    failed(rt, b"cabinet-list: standard output", why)
}

// Whether a call failed for want of what it looked for, or why else.
fn found_nothing(why: Error) -> Result<(), Error> {
    match why.kind() {
        ErrorKind::NotFound => Ok(()),
        _ => Err(why),
    }
}

// Makes a call that fails in a known way: no file has an empty name. After it the last call that failed is one that found nothing.
fn mark(rt: HostRuntime) -> Result<(), Error> {
    match fs::metadata(&rt, "") {
        Ok(_) => Err(Error::from(ErrorKind::Other)),
        Err(why) => found_nothing(why),
    }
}

// Closing tells what a system that writes later has not written, and of a second descriptor of the same file it tells that too. The library's
// close does not answer: why it failed is what the system says of the last call that did.
fn closed(rt: HostRuntime) -> Result<(), Error> {
    let second = rt.stdout().as_fd().try_clone_to_owned()?;
    mark(rt)?;
    drop(second);
    found_nothing(last_error())
}

// Whether it is written, or why it is not.
fn is_written(rt: HostRuntime, text: &[u8]) -> Result<(), Error> {
    give(&mut rt.stdout(), text)?;
    closed(rt)
}

// The last of what is written, and how it went if all of it was.
pub fn write_listing(rt: HostRuntime, text: &[u8], outcome: Outcome) -> Outcome {
    match is_written(rt, text) {
        Ok(()) => outcome,
        Err(why) => unwritten(rt, why),
    }
}

// Says a byte on descriptor 3, and whether that was possible. The library has no handle of it and does not say why a call failed. One of
// a single byte has then written nothing, and is made again, in case that a signal broke it off.
pub fn tell(byte: u8) -> bool {
    (0..TRIES).any(|_| io::write_all(3, &[byte]))
}
