//! The law of reports.

ghost use Rattle.std.specs.Prelude.{◌≡◌, List};
ghost use Rattle.loft_orders.specs.declared.entry.Entry.{Entry};
ghost use Rattle.loft_orders.specs.declared.note.InstantNote.{InstantNote};
ghost use Rattle.loft_orders.specs.declared.note.FinalState.{FinalState};
ghost use Rattle.loft_base.specs.declared.options.RunOptions.{RunOptions};
ghost use Rattle.loft_sense.specs.Machine.{Prog, heads};
ghost use Rattle.loft_history.specs.Report.{report};
ghost use Rattle.loft_world.specs.Replay.{IsReplayOf};
ghost use Rattle.loft_log.specs.WorldReport.{world_report};

/// Where notes and last states are those of the replay of a history, what is written of them is the
/// report of that history.
pub fn reports_of_worlds_are_of_histories()
    ensures { (x : Prog) (o : RunOptions) (es : List Entry) (notes : List (List InstantNote)) (finals : List FinalState)
        → IsReplayOf x o.limits es notes finals → world_report (heads x) o es notes finals ≡ report x o es }
{}
