// The lines of a listing: place, size, a word, and what it says.
ghost use Rattle.std.specs.Prelude.{◌++◌, ◌≡◌, ◌+◌, ◌*◌, ◌≤◌, length};
ghost use Rattle.wire.specs.Lines.{line, the_bytes};
ghost use Rattle.text.specs.Ascii.{ascii};
ghost use Rattle.text.specs.Puts.{Puts, Fits};
ghost use Rattle.text.specs.Text.{decimal, hex, say_word, line_text, word_text};

use crate::put::{fit_text, put_decimal, put_hex, put_text, room};

// What a listing calls a number.
#[derive(Clone, Copy)]
pub enum Word {
    Code,
    Number,
}

// Where a field stands and how many bytes it has.
fn put_head(place: usize, size: usize, out: &mut [u8], at: usize) -> usize
    requires { at + 41 ≤ length out.old }
    ensures puts { Puts at (decimal place ++ (ascii " " ++ decimal size)) out.old result out.new }
    ensures within { result ≤ at + 41 }
{
    let first = put_decimal(place as u64, out, at);
    let second = put_text(b" ", out, first);
    put_decimal(size as u64, out, second)
}

// The word for a number.
fn put_word(word: Word, out: &mut [u8], at: usize) -> usize
    requires { at + 8 ≤ length out.old }
    ensures puts { Puts at (word_text word) out.old result out.new }
    ensures within { result ≤ at + 8 }
{
    match word {
        Word::Code => put_text(b" code ", out, at),
        Word::Number => put_text(b" number ", out, at),
    }
}

pub(crate) fn put_line_end(out: &mut [u8], at: usize) -> usize
    requires { at + 1 ≤ length out.old }
    ensures { Puts at (ascii "\n") out.old result out.new }
{
    put_text(b"\n", out, at)
}

// The line of a number.
fn put_number_line(
    place: usize,
    size: usize,
    word: Word,
    n: u64,
    out: &mut [u8],
    at: usize,
) -> usize
    requires { at + 70 ≤ length out.old }
    ensures puts { Puts at (line_text (line place size (say_word word n))) out.old result out.new }
    ensures within { result ≤ at + 70 }
{
    let head = put_head(place, size, out, at);
    let said = put_word(word, out, head);
    let last = put_decimal(n, out, said);
    put_line_end(out, last)
}

// The same where there may be too little room: the line is made beside out, from its parts, since put_number_line is fast as long as it
// has one caller.
fn fit_number_row(place: usize, size: usize, word: Word, n: u64, out: &mut [u8], at: usize) -> usize
    ensures { Fits at (line_text (line place size (say_word word n))) out.old result out.new }
{
    let mut row = [0u8; 70];
    let head = put_head(place, size, &mut row, 0);
    let said = put_word(word, &mut row, head);
    let last = put_decimal(n, &mut row, said);
    let k = put_line_end(&mut row, last);
    fit_text(&row[..k], out, at)
}

// The line of a number at the place `at` of out, if it fits there; and how long it is.
pub fn fit_number_line(
    place: usize,
    size: usize,
    word: Word,
    n: u64,
    out: &mut [u8],
    at: usize,
) -> usize
    ensures { Fits at (line_text (line place size (say_word word n))) out.old result out.new }
{
    if room(at, 70, out.len()) {
        return put_number_line(place, size, word, n, out, at) - at;
    }
    fit_number_row(place, size, word, n, out, at)
}

// The line of bytes, up to them.
fn put_bytes_head(place: usize, size: usize, out: &mut [u8], at: usize) -> usize
    requires { at + 48 ≤ length out.old }
    ensures puts { Puts at ((decimal place ++ (ascii " " ++ decimal size)) ++ ascii " bytes ") out.old result out.new }
    ensures within { result ≤ at + 48 }
{
    let head = put_head(place, size, out, at);
    put_text(b" bytes ", out, head)
}

// And the rest of it.
fn put_bytes_end(xs: &[u8], out: &mut [u8], at: usize) -> usize
    requires { at + length (hex xs.now ++ ascii "\n") ≤ length out.old }
    ensures { Puts at (hex xs.now ++ ascii "\n") out.old result out.new }
{
    let last = put_hex(xs, out, at);
    put_line_end(out, last)
}

// How long that is.
fn bytes_end_size(xs: &[u8]) -> usize
    requires { length xs.now ≤ 0x10001 }
    ensures size { result ≡ length (hex xs.now ++ ascii "\n") }
    ensures within { result ≤ 2 * length xs.now + 2 }
{
    if xs.is_empty() { 2 } else { 2 * xs.len() + 1 }
}

// The line of bytes where there may be too little room for it: its front is made beside out.
fn fit_bytes_row(place: usize, xs: &[u8], out: &mut [u8], at: usize) -> usize
    requires { length xs.now ≤ 0x10001 }
    ensures { Fits at (line_text (line place (length xs.now) (the_bytes xs.now))) out.old result out.new }
{
    let mut row = [0u8; 48];
    let k = put_bytes_head(place, xs.len(), &mut row, 0);
    let size = k + bytes_end_size(xs);
    if room(at, size, out.len()) {
        let head = put_text(&row[..k], out, at);
        put_bytes_end(xs, out, head);
    }
    size
}

// The line of bytes at the place `at` of out, if it fits there; and how long it is.
pub fn fit_bytes_line(place: usize, xs: &[u8], out: &mut [u8], at: usize) -> usize
    requires { length xs.now ≤ 0x10001 }
    ensures { Fits at (line_text (line place (length xs.now) (the_bytes xs.now))) out.old result out.new }
{
    let len = xs.len();
    if room(at, 50 + 2 * len, out.len()) {
        let head = put_bytes_head(place, len, out, at);
        return put_bytes_end(xs, out, head) - at;
    }
    fit_bytes_row(place, xs, out, at)
}
