//! Schedulers and workers by the statements of a program.

ghost use Rattle.std.specs.Prelude.{◌≡◌, [], length, IfOk};
ghost use Rattle.loft_tree.specs.ProgramView.{program_of};
ghost use Rattle.loft_tree.specs.Resolved.{resolved_of};
ghost use Rattle.loft_sense.specs.Machine.{Tree, heads as heads_of};
ghost use Rattle.loft_base.specs.Options.{IsInRange};
ghost use Rattle.loft_course.specs.Course.{stands_after, hands_after};

use crate::plain_blocks::PlainBlocks;
use loft_base::{NoMemory, RunOptions, SchedId};
use loft_course::{Setting, Station, Worker};
use loft_place::Placed;
use loft_plain::PlainEngine;
use std::alloc::Global;

/// The schedulers of a program before their first instant, in the order of their declarations.
pub(crate) fn stations<'a, X: Setting>(
    alloc: Global,
    p: &'a Placed,
    o: &RunOptions,
) -> Result<Vec<Station<X, PlainEngine<'a>>>, NoMemory>
    requires program { X.program ≡ Tree (resolved_of (program_of p.now)) }
    requires options { X.options ≡ o.now }
    requires range { IsInRange o.now.limits }
    ensures { IfOk result (λ stations. stations.items
        ≡ stands_after X.program X.options [] (length (heads_of X.program).schedulers)) }
{
    let mut stations = Vec::new(alloc);
    'schedulers: for k in 0..p.program().heads.schedulers.len() {
        let engine = PlainEngine::new(alloc, p, SchedId(k as u32), o.limits)?;
        stations.push(Station::new(alloc, engine))?;
    }
    Ok(stations)
}

/// The workers before their first job, in the order of their numbers.
pub(crate) fn workers<'a, X: Setting>(
    alloc: Global,
    p: &'a Placed,
    o: &RunOptions,
) -> Result<Vec<Worker<X, PlainBlocks<'a>>>, NoMemory>
    requires program { X.program ≡ Tree (resolved_of (program_of p.now)) }
    requires options { X.options ≡ o.now }
    ensures { IfOk result (λ workers. workers.items
        ≡ hands_after X.program X.options [] X.options.workers) }
{
    let mut workers = Vec::new(alloc);
    'workers: for _ in 0..o.workers {
        let blocks = PlainBlocks::new(p, o.limits.block);
        workers.push(Worker::new(blocks))?;
    }
    Ok(workers)
}
