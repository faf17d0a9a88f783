//! Tests of what `loft_main` does where a call of its files or of its sink fails: each call in turn, over every command; and
//! that each piece which goes into the sink is a line.
//! Nothing stands on this crate.
#![tactic(auto)]

#[cfg(test)]
mod asked;
#[cfg(test)]
mod lines;
#[cfg(test)]
mod parts;
#[cfg(test)]
mod puts;
#[cfg(test)]
mod reading_on;
