// A record, walked over in wire order. What is done on the way is the walk's: judging, putting, seeking, listing.
#![tactic(auto)]

pub mod field;
pub mod line;
pub mod marshal;
pub mod number;
pub mod span;
pub mod tagged;
pub mod walk;
