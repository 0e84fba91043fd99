// Records that no reader gave, made by hand: each is measured, and written into as much room as there is, into just as much as it measures,
// into one byte less, and into none. tests/vectors/handmade.md has the record of each case, and its answer.
#![tactic(auto)]

mod cipher;
mod digest;
mod list;
mod quote;
mod said;
mod tried;

use crate::cipher::ciphers;
use crate::digest::digests;
use crate::list::lists;
use crate::quote::{codes_and_values, spans};

fn main() {
    digests();
    ciphers();
    codes_and_values();
    spans();
    lists();
}
