//! Where a report differs from that of a run.

ghost use Rattle.std.specs.Prelude.{◌≡◌, IfOk};
ghost use Rattle.loft_report_shape.specs.Text.{text_of};
ghost use Rattle.loft_report_reader.specs.Answer.{report_in};
ghost use Rattle.loft_replay_error.specs.Difference.{IsDifference};
ghost use Rattle.loft_log.specs.WorldReport.{world_report};

use loft_base::{NoMemory, WriteError};
use loft_compared::{Comparison, KnownText};
use loft_log::write_report;
use loft_report_reader::RawReport;
use loft_tree::Heads;
use loft_world::Finished;
use std::alloc::Global;
use std::marker::Brand;

/// The same where the text of the report is known to proofs.
fn first_difference_in<X: KnownText>(
    alloc: Global,
    heads: &Heads,
    run: &Finished,
    r: &RawReport,
) -> Result<Option<u64>, NoMemory>
    requires heads { run.now.world.heads ≡ heads.now }
    requires text { X.text ≡ text_of (report_in r.now) }
    ensures { IfOk result (λ difference. IsDifference X.text
        (world_report heads.now r.now.options run.now.world.history run.now.notes.of run.now.finals.of) difference) }
{
    let mut sink: Comparison<'_, X> = Comparison::new(alloc, r);
    let written = write_report(
        alloc,
        heads,
        &r.options,
        &run.world,
        &run.notes,
        &run.finals,
        &mut sink,
    );
    if let Err(WriteError::NoMemory) = written {
        return Err(NoMemory);
    }
    sink.finish()
}

/// After how many bytes the text of a report and the report of a run of these declarations with the same options
/// differ; none if they are the same. The run's report is compared as it is written, and not kept.
///
/// # Errors
///
/// Out of memory for a line, or for more bytes, schedulers or orders than can be counted.
pub fn first_difference(
    alloc: Global,
    heads: &Heads,
    run: &Finished,
    r: &RawReport,
) -> Result<Option<u64>, NoMemory>
    requires heads { run.now.world.heads ≡ heads.now }
    ensures { IfOk result (λ difference. IsDifference (text_of (report_in r.now))
        (world_report heads.now r.now.options run.now.world.history run.now.notes.of run.now.finals.of) difference) }
{
    first_difference_in::<Brand>(alloc, heads, run, r)
}
