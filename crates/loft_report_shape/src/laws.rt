//! The laws of reports.

ghost use Rattle.std.specs.Prelude.{◌≡◌, ℕ, ◌<◌, ◌++◌, List, length, ◌⊎◌};
ghost use Rattle.loft_report_shape.specs.Told.{Report};
ghost use Rattle.loft_report_shape.specs.Report.{Shape, StopsAt};
ghost use Rattle.loft_report_shape.specs.Text.{text_of};

/// A report has one text: its grammar says how each option, choice, block and order is written.
pub fn reports_have_one_text()
    ensures { (text : List ℕ) (r : Report) → Shape text r → text ≡ text_of r }
{}

/// A text is at most one report, and it is a report or stops to be one, at one place, never both.
pub fn texts_are_one_report_or_stop()
    ensures one_report { (text : List ℕ) (r s : Report) → Shape text r → Shape text s → r ≡ s }
    ensures one_stop { (text : List ℕ) (k j : ℕ) → StopsAt text k → StopsAt text j → k ≡ j }
    ensures never_both { (text : List ℕ) (r : Report) (k : ℕ) → Shape text r → StopsAt text k → ⊥ }
    ensures one_of_both { (text : List ℕ) → ((r : Report) × Shape text r) ⊎ ((k : ℕ) × StopsAt text k) }
{}

/// Where a text stops before its end depends on nothing that comes after the stop.
pub fn stops_depend_on_nothing_after_them()
    ensures { (text more : List ℕ) (k : ℕ) → StopsAt text k → k < length text → StopsAt (text ++ more) k }
{}
