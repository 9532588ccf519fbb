//! What the two servers write, byte for byte.
#![tactic(auto)]

#[cfg(test)]
mod bytes;
#[cfg(test)]
mod checked;
#[cfg(test)]
mod lengths;
