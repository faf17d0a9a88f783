//! Tests of the replay of one scheduler's block: a report and alterations of it.
#![tactic(auto)]

#[cfg(test)]
mod blocks;
