//! Grammars of bytes as data: which spellings may stand at a place, where a text goes on after one, and where it stops.
#![tactic(auto)]
