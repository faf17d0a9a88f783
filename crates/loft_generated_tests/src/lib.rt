//! Tests of runs of generated sources, for what no clause says.
#![tactic(auto)]

#[cfg(test)]
mod generated;
