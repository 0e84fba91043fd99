// The ground of the Cabinet: spans, and the fields that every record is made of, read.
// What is right is said in specs/: bytes, layouts, the grammar, reading, refusals, writing, later editions.
#![tactic(auto)]

pub mod arms;
pub mod lend;
pub mod number;
pub mod read;
pub mod span;
pub mod uint;
pub mod unmarshal;
pub mod width;
