//! Runs of the scheduler, and the law that every run keeps.
#![tactic(auto)]

pub mod run;
