//! A report as its text tells it.

ghost use Rattle.std.specs.Prelude.{ℕ, List};
ghost use Rattle.loft_report_shape.specs.Report.{Shape};

use loft_base::{RunOptions, Sequence};
use loft_report_shape::{Choices, RawBlock};

/// What some text tells that is a report: names stand for nobody yet.
#[derive(Drop)]
pub struct RawReport {
    /// The options of the run.
    pub options: RunOptions,
    /// The choices of the history.
    pub choices: Choices,
    /// The blocks, in the order of the text.
    pub blocks: Sequence<RawBlock>,
    /// The lines of the left-over part, from `left L` on.
    pub left: Sequence<u8>,
    ghost shaped: { ∥ ((text : List ℕ) × Shape text (record { options = options; choices = choices; blocks = blocks; left = left })) ∥₁ },
}
