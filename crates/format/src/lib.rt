// The format of the kinds in code: the arms of their unions, their limits, lists and numbers. The kinds themselves are layouts:
// specs/Kinds.antt.
#![tactic(auto)]

pub mod arms;
pub mod kind;
pub mod limits;
pub mod list;
