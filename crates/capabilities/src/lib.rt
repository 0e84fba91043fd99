// What a TPM says it can do: kind 15. Names and files are the Rust crate's.
#![tactic(auto)]

pub mod list;
pub mod tpms;
pub mod tpmu;
