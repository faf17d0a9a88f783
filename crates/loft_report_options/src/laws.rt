//! The law of the options of reports.

ghost use Rattle.std.specs.Prelude.{ℕ, List};
ghost use Rattle.loft_base.specs.Options.{AreInRange};
ghost use Rattle.loft_report_shape.specs.Told.{Report};
ghost use Rattle.loft_report_shape.specs.Report.{Shape};

/// The options that a report tells are in their ranges (docs/LANGUAGE.md, "Limits").
pub fn options_of_reports_are_in_range()
    ensures { (text : List ℕ) (r : Report) → Shape text r → AreInRange r.options }
{}
