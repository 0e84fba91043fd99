// The parts of a line.
ghost use Rattle.std.specs.Prelude.{◌≡◌, [], ◌∷◌, ◌++◌, ◌+◌, ◌*◌, ◌≤◌, ◌<◌, leb, length, take, drop};
ghost use Rattle.io.specs.Digits.{hex_digit_ascii, last_digits, IsDigitCount};
ghost use Rattle.text.specs.Puts.{Puts, Fits};
ghost use Rattle.text.specs.Text.{decimal, pairs, hex};

// There is room for k bytes at the place `at` of n.
pub(crate) fn room(at: usize, k: usize, n: usize) -> bool
    ensures { result ≡ leb (at + k) n }
{
    at <= n && k <= n - at
}

// All of a text at the place `at` of out, and the place behind it.
pub(crate) fn put_text(text: &[u8], out: &mut [u8], at: usize) -> usize
    requires { at + length text.now ≤ length out.old }
    ensures { Puts at text.now out.old result out.new }
{
    // Words are short: a call that copies a slice costs more than they do.
    let len = text.len();
    for i in 0..len {
        out[at + i] = text[i];
    }
    at + len
}

// All of a text at the place `at` of out, if it fits there; and how long it is.
pub(crate) fn fit_text(text: &[u8], out: &mut [u8], at: usize) -> usize
    ensures { Fits at text.now out.old result out.new }
{
    let len = text.len();
    if room(at, len, out.len()) {
        put_text(text, out, at);
    }
    len
}

// A digit below 10.
fn figure(d: u64) -> u8
    requires { d < 10 }
    ensures { result ≡ hex_digit_ascii d }
{
    b'0' + d as u8
}

// How many digits a number has that has at least four.
fn places(n: u64) -> usize
    requires { 1000 ≤ n }
    ensures count { IsDigitCount 10 1 n result }
    ensures few { result ≤ 20 }
{
    let mut k: usize = 4;
    let mut rest = n / 10000;
    while 0 < rest {
        k += 1;
        rest /= 10;
    }
    k
}

// The last k digits of a number, put from the last to the first.
fn put_places(n: u64, k: usize, out: &mut [u8], at: usize)
    requires { at + k ≤ length out.old }
    ensures { out.new ≡ take at out.old ++ (last_digits 10 k n ++ drop (at + k) out.old) }
{
    let mut rest = n;
    for i in (at..at + k).rev() {
        out[i] = figure(rest % 10);
        rest /= 10;
    }
}

// A number of at least four digits in decimal.
fn put_long(n: u64, out: &mut [u8], at: usize) -> usize
    requires many { 1000 ≤ n }
    requires room { at + 20 ≤ length out.old }
    ensures puts { Puts at (decimal n) out.old result out.new }
    ensures within { result ≤ at + 20 }
{
    let k = places(n);
    put_places(n, k, out, at);
    at + k
}

// A number in decimal. Most have few digits, and those are put at once.
pub(crate) fn put_decimal(n: u64, out: &mut [u8], at: usize) -> usize
    requires { at + 20 ≤ length out.old }
    ensures puts { Puts at (decimal n) out.old result out.new }
    ensures within { result ≤ at + 20 }
{
    if n < 10 {
        out[at] = figure(n);
        return at + 1;
    }
    if n < 100 {
        out[at] = figure(n / 10);
        out[at + 1] = figure(n % 10);
        return at + 2;
    }
    if n < 1000 {
        out[at] = figure(n / 100);
        out[at + 1] = figure(n / 10 % 10);
        out[at + 2] = figure(n % 10);
        return at + 3;
    }
    put_long(n, out, at)
}

// A digit below 16.
fn digit(d: u8) -> u8
    requires { d < 16 }
    ensures { result ≡ hex_digit_ascii d }
{
    if d < 10 { b'0' + d } else { b'a' - 10 + d }
}

// A byte as two digits.
fn put_pair(b: u8, out: &mut [u8], at: usize) -> usize
    requires { at + 2 ≤ length out.old }
    ensures { Puts at (pairs (b ∷ [])) out.old result out.new }
{
    put_text(&[digit(b / 16), digit(b % 16)], out, at)
}

// Bytes in hexadecimal; `-` for none.
pub fn put_hex(xs: &[u8], out: &mut [u8], at: usize) -> usize
    requires { at + (2 * length xs.now + 1) ≤ length out.old }
    ensures { Puts at (hex xs.now) out.old result out.new }
{
    if xs.is_empty() {
        return put_text(b"-", out, at);
    }
    let mut end = at;
    for x in xs {
        end = put_pair(*x, out, end);
    }
    end
}
