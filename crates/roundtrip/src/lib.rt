// Records written and read again: the calls of a type, put together.
#![tactic(auto)]

pub mod again;
pub mod back;
