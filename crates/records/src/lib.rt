// Where a record ends, by its kind's number, alone or with more after it; what stands after it; records in a row; and each type's readers,
// with what their answers mean.
#![tactic(auto)]

pub mod kind;
pub mod read;
pub mod runs;
pub mod tail;
pub mod whole;
