// A record by its kind's number, walked over and copied.
#![tactic(auto)]

pub mod walk;
