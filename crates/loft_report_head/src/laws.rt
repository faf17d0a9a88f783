//! The law of the heads of reports.

ghost use Rattle.std.specs.Prelude.{◌≡◌, ℕ, ◌<◌, ◌^◌, ◌++◌, List, length};
ghost use Rattle.loft_base.specs.declared.options.RunOptions.{RunOptions};
ghost use Rattle.loft_base.specs.Options.{AreInRange};
ghost use Rattle.loft_tree.specs.Fits.{Each};
ghost use Rattle.loft_tree.specs.declared.heads.Heads.{Heads};
ghost use Rattle.loft_orders.specs.Lines.{text_of};
ghost use Rattle.loft_history.specs.History.{Choice};
ghost use Rattle.loft_history.specs.Report.{head_lines};
ghost use Rattle.loft_report_head.specs.Declared.{HasOwnNames, IsDeclared};

/// Where texts begin with options and choices of declared actors, whose names differ, and are one text, these are the
/// same options and the same choices, and what comes after them is the same.
pub fn heads_are_read_in_one_way()
    ensures { (h : Heads) (o q : RunOptions) (cs ds : List Choice) (x y : List ℕ)
        → HasOwnNames h → AreInRange o → AreInRange q → length cs < 2 ^ 64 → length ds < 2 ^ 64
        → Each (IsDeclared h) cs → Each (IsDeclared h) ds
        → text_of (head_lines h o cs) ++ x ≡ text_of (head_lines h q ds) ++ y
        → (o ≡ q) × (cs ≡ ds) × (x ≡ y) }
{}
