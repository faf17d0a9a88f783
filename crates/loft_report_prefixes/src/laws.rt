//! The laws of prefixes of reports.

ghost use Rattle.std.specs.Prelude.{ℕ, ◌<◌, ◌≤◌, ◌++◌, List, length};
ghost use Rattle.loft_report_shape.specs.Told.{Report};
ghost use Rattle.loft_report_shape.specs.Report.{Shape, StopsAt, GoesOn};

/// A prefix of a report has no stop before its end, and a proper prefix has one there.
pub fn prefixes_of_reports_stop_at_their_end()
    ensures goes_on { (text more : List ℕ) (r : Report) → Shape (text ++ more) r → GoesOn text }
    ensures proper { (text more : List ℕ) (r : Report) → Shape (text ++ more) r → 0 < length more → StopsAt text (length text) }
{}

/// A text that stops at its end is a proper prefix of a report; no stop is past the end.
pub fn texts_that_stop_at_their_end_are_prefixes()
    ensures prefix { (text : List ℕ) → StopsAt text (length text) → (more : List ℕ) × (r : Report) × (0 < length more) × Shape (text ++ more) r }
    ensures within { (text : List ℕ) (k : ℕ) → StopsAt text k → k ≤ length text }
{}
