// The sensitive area: kind 12. Files and names are the Rust crate's.
#![tactic(auto)]

pub mod tpmt;
pub mod tpmu;
