//! What a request file holds: its requests with their places, and how it ends.
#![tactic(auto)]

pub mod file;
pub mod input;
pub mod requests;
