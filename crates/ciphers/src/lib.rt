// Digests and ciphers: kinds 1 and 2. Files and names are the Rust crate's.
#![tactic(auto)]

pub mod tpmt;
pub mod tpmu;
