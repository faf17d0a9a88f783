//! Tests of the reader of reports, for what no clause says: altered reports in pieces of several sizes.
#![tactic(auto)]

#[cfg(test)]
mod reading;
