//! Tests of reports that are read from files.
#![tactic(auto)]

#[cfg(test)]
mod files;
