//! Tests of replay, for what no clause says: a report and altered ones, with the answer to each.
#![tactic(auto)]

#[cfg(test)]
mod replaying;
