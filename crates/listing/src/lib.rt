// The listing of a deposit: its record's fields as lines of text, in a lent slice.
#![tactic(auto)]

pub mod deposit;
