//! Value stores: committed values and pending writes, behind one trait.
#![tactic(auto)]

pub mod belonging;
pub mod in_place;
pub mod lending;
pub mod on_slice;
pub mod private;
pub mod rehearsal;
pub mod store;
mod table;
