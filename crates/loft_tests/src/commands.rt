//! What `loft_main` does with files, with sinks that fail, and with the gate, and `run_code` by itself. What it answers to
//! words, sources, listings and reports is for the cases.

mod outside;
mod run_code;
