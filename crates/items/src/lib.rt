// The items of lists: what one of each list is, where it ends, and its lines. Lists are walked over in the crate of that name.
#![tactic(auto)]

pub mod end;
pub mod lines;
pub mod tpms;
