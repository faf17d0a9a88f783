//! The law of the heads that are written and read.

ghost use Rattle.std.specs.Prelude.{◌≡◌, List, map};
ghost use Rattle.loft_base.specs.declared.options.RunOptions.{RunOptions};
ghost use Rattle.loft_tree.specs.declared.heads.Heads.{Heads};
ghost use Rattle.loft_orders.specs.Lines.{text_of};
ghost use Rattle.loft_history.specs.History.{Choice};
ghost use Rattle.loft_history.specs.Report.{head_lines};
ghost use Rattle.loft_report_shape.specs.Told.{Report};
ghost use Rattle.loft_report_shape.specs.Text.{head_text};
ghost use Rattle.loft_one_report_head.specs.Named.{named};

/// The lines that are written of options and choices are the head of each report that tells these options, and these
/// choices by names.
pub fn writers_and_readers_have_one_head()
    ensures { (h : Heads) (o : RunOptions) (cs : List Choice) (r : Report)
        → r.options ≡ o → r.choices ≡ map (named h) cs → head_text r ≡ text_of (head_lines h o cs) }
{}
