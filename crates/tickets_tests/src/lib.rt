//! Every outcome of a ticket's calls, and of a posting.
#![tactic(auto)]

#[cfg(test)]
mod hands;
#[cfg(test)]
mod played;
#[cfg(test)]
mod posted;
#[cfg(test)]
mod refused;
