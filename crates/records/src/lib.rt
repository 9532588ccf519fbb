//! The records of requests and answers, and the refusals of every layer.
#![tactic(auto)]

pub mod answer;
pub mod read;
pub mod refusal;
pub mod request;
pub mod write;
