// Schemes: kinds 3 to 8. Files and names are the Rust crate's.
#![tactic(auto)]

pub mod tpms;
pub mod tpmt;
pub mod tpmu;
