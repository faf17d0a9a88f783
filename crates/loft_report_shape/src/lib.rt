//! What a report is: its grammar as data, and its laws.
//!
//! A report is a list of parts (`Part`). Which spellings a part has, which parts come after a spelling and what it tells
//! are definitions (specs); `laws` has what follows: a text is at most one report, a report has one text, and a text
//! is a report or stops, never both.
#![tactic(auto)]

pub mod laws;
mod part;
mod raw;
mod word;

pub use laws::{
    reports_have_one_text, stops_depend_on_nothing_after_them, texts_are_one_report_or_stop,
};
pub use part::{NameRole, NumberKind, Part, Section, Stage};
pub use raw::{Choice, Choices, RawBlock};
pub use word::Word;
