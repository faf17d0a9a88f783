//! Whatever runs the instants of one scheduler.

ghost use Rattle.std.specs.Prelude.{◌≡◌, ◌<◌, Bool, true, false, All, IfOk, OnErr, OnOk};
ghost use Rattle.loft_base.specs.declared.ids.SchedId.{SchedId};
ghost use Rattle.loft_base.specs.declared.options.Limits.{Limits};
ghost use Rattle.loft_sense.specs.Machine.{Prog, Mach};
ghost use Rattle.loft_sense.specs.Instant.{instant};
ghost use Rattle.loft_sense.specs.Rest.{is_resting, is_spent};
ghost use Rattle.loft_sense.specs.Fits.{Fits};

use loft_base::NoMemory;
use loft_orders::{FinalState, InstantNote, Orders};
use std::alloc::Global;

/// Runs the instants of one scheduler of a program.
pub trait Engine: Drop {
    /// The program that it runs.
    ghost program: { Self → Prog };

    /// The scheduler whose instants it runs.
    ghost scheduler: { Self → SchedId };

    /// The bounds that it keeps.
    ghost limits: { Self → Limits };

    /// The scheduler between two instants.
    ghost machine: { Self → Mach };

    /// Whether a `take` has answered that there is no memory.
    ghost has_failed: { Self → Bool };

    /// One instant on a batch of orders.
    fn take(&mut self, alloc: Global, batch: &Orders) -> Result<InstantNote, NoMemory>
        requires unspent { has_failed self.old ≡ false → is_spent (program self.old) (limits self.old) (machine self.old) ≡ false }
        requires fits { All (Fits (program self.old) (scheduler self.old)) batch.now }
        ensures note { IfOk result (λ note. note ≡ (instant (program self.old) (limits self.old) (machine self.old) batch.now).note) }
        ensures machine { OnOk result (machine self.new ≡ (instant (program self.old) (limits self.old) (machine self.old) batch.now).machine) }
        ensures no_memory { OnErr result (has_failed self.new ≡ true) }
        ensures works { OnOk result ((has_failed self.old ≡ false) × (has_failed self.new ≡ false)) }
        ensures same_program { program self.new ≡ program self.old }
        ensures same_scheduler { scheduler self.new ≡ scheduler self.old }
        ensures same_limits { limits self.new ≡ limits self.old };

    /// Whether each linked thread waits for what can't come by itself.
    fn resting(&self) -> bool
        ensures { has_failed self.now ≡ false → result ≡ is_resting (machine self.now) };

    /// Whether its bounds are used up.
    fn spent(&self) -> bool
        ensures { has_failed self.now ≡ false → result ≡ is_spent (program self.now) (limits self.now) (machine self.now) };

    /// How many instants it has made.
    fn instant(&self) -> u64
        ensures { has_failed self.now ≡ false → result ≡ (machine self.now).tally.number };

    /// How the scheduler stands.
    fn last(&self, alloc: Global) -> Result<FinalState, NoMemory>
        ensures linked { IfOk result (λ f. f.linked ≡ (machine self.now).linked) }
        ensures shared { IfOk result (λ f. f.shared ≡ (machine self.now).shared) }
        ensures works { OnOk result (has_failed self.now ≡ false) };

    /// Its machine is that scheduler's.
    ghost is_of_scheduler: { (engine : Self) → (machine engine).s ≡ scheduler engine };
}
