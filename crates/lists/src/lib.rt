// The lists of a record: read, walked over as one field, and asked for an item by its index.
#![tactic(auto)]

pub mod item;
pub mod list;
pub mod listed;
