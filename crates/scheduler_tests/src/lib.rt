//! The scheduler at its limits, and played through.
#![tactic(auto)]

#[cfg(test)]
mod limits;
#[cfg(test)]
mod pairs;
#[cfg(test)]
mod played;
#[cfg(test)]
mod refused;
