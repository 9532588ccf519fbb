//! Tickets: what a transaction may do next is in the type of its ticket.
#![tactic(auto)]

pub mod outcome;
pub mod ticket;
