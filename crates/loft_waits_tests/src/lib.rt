//! Tests of the waits of linked threads: what they say after what was told. They stand in a crate of their own, since a
//! crate that has tests is proved twice. Nothing stands on this crate.
#![tactic(auto)]

#[cfg(test)]
mod one;
#[cfg(test)]
mod several;
#[cfg(test)]
mod told;
