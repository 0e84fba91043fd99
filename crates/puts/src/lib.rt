// What a record is made of, put into a lent slice: numbers and bytes.
#![tactic(auto)]

pub mod write;
