// Reading and writing, by calls whose every answer is looked at. A call that a signal broke off is made again.
ghost use Rattle.std.specs.Prelude.{length};
ghost use Rattle.cabinet_list.specs.Calls.{MovedWithin, TakenWithin};

use std::io::{self, Error, ErrorKind, Read, Write};

// What a call came to: how many bytes it moved, or nothing, if a signal broke it off; or why it failed.
fn came(got: io::Result<usize>, buf: &[u8]) -> io::Result<Option<usize>>
    ensures { MovedWithin result (length buf.now) }
{
    if got.is_err_and(|why| why.kind() == ErrorKind::Interrupted) {
        return Ok(None);
    }
    Ok(Some(got?.min(buf.len())))
}

fn read_some<R: Read>(from: &mut R, buf: &mut [u8]) -> io::Result<Option<usize>>
    ensures { MovedWithin result (length buf.new) }
{
    if buf.is_empty() {
        return Ok(Some(0));
    }
    let got = from.read(buf);
    came(got, buf)
}

fn write_some<W: Write>(to: &mut W, buf: &[u8]) -> io::Result<Option<usize>>
    ensures { MovedWithin result (length buf.now) }
{
    came(to.write(buf), buf)
}

// Fills buf from the reader, as far as that goes: how many bytes were read when the input ended or buf was full, or why a call failed. A
// proved loop has to end, and nothing says that signals do: it counts up to a number that no run reaches.
pub fn take<R: Read>(from: &mut R, buf: &mut [u8]) -> io::Result<usize>
    ensures { TakenWithin result (length buf.new) }
{
    let mut done: usize = 0;
    for _ in 0..u64::MAX {
        match read_some(from, &mut buf[done..])? {
            Some(0) => return Ok(done),
            Some(n) => done += n,
            None => {}
        }
    }
    Err(Error::from(ErrorKind::Interrupted))
}

// The same of standard input.
pub fn take_input(rt: HostRuntime, buf: &mut [u8]) -> io::Result<usize>
    ensures { TakenWithin result (length buf.new) }
{
    take(&mut rt.stdin(), buf)
}

// Writes all of buf, or answers why not.
pub fn give<W: Write>(to: &mut W, buf: &[u8]) -> io::Result<()> {
    let mut rest = buf;
    for _ in 0..u64::MAX {
        if rest.is_empty() {
            return Ok(());
        }
        match write_some(to, rest)? {
            Some(0) => return Err(Error::from(ErrorKind::WriteZero)),
            Some(n) => rest = &rest[n..],
            None => {}
        }
    }
    Err(Error::from(ErrorKind::Interrupted))
}
