//! The scheduler: lock rules, the tables, and the steps of a call.
#![tactic(auto)]

mod call;
mod holders;
pub mod items;
pub mod lock;
pub mod lock_list;
mod opening;
pub mod places;
mod reach;
pub mod reply;
pub mod rule;
pub mod scheduler;
mod search;
mod steps;
pub mod tables;
pub mod transaction;
mod waits;
