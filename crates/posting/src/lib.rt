//! An example of a module that holds tickets: it adds a bowled game to a team's season total.
#![tactic(auto)]

pub mod posting;
mod reacting;
mod step;
pub mod words;
