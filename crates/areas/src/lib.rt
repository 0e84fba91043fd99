// Where a TPM keeps its own data, and what it has checked: NV areas, kind 16, and tickets, kinds 17 to 20. Names and files are the Rust crate's, but
// for `NvPublicTail`, what both areas end with, and `TicketBody` in ticket.rt, what every ticket has behind its tag.
#![tactic(auto)]

pub mod ticket;
pub mod tpms;
pub mod tpmt;
pub mod tpmu;
