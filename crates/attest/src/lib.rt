// Attestations and PCR selections: kinds 13 and 14. Names are the Rust crate's, and so are files but attestation, which stands above the unions.
#![tactic(auto)]

pub mod attestation;
pub mod list;
pub mod tpms;
pub mod tpmu;
