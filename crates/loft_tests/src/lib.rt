//! Tests of public calls of the crates below, for what no clause says and no case shows. They stand in a crate of their
//! own, since a crate that has tests is proved twice. Nothing stands on this crate.
#![tactic(auto)]

#[cfg(test)]
mod base;
#[cfg(test)]
mod board;
#[cfg(test)]
mod code;
#[cfg(test)]
mod commands;
#[cfg(test)]
mod lex;
#[cfg(test)]
mod threads;
