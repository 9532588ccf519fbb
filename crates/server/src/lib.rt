//! A server's work on one input: bytes in, bytes out.
#![tactic(auto)]

mod closing;
mod output;
pub mod pairs;
pub mod serve;
pub mod told;
