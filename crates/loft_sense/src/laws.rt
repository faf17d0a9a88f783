//! The law that passes end. It is what the contract of an empty function says.

ghost use Rattle.std.specs.Prelude.{◌≡◌, false, List, All};
ghost use Rattle.loft_sense.specs.Machine.{Prog};
ghost use Rattle.loft_sense.specs.Around.{Around};
ghost use Rattle.loft_sense.specs.Passes.{Runner, is_ready, pass, passes};

/// The passes of an instant end only where nobody can go: one more pass would run no thread, and
/// each thread that is still linked leaves, is suspended, or waits for what isn't there.
pub fn passes_end()
    ensures idle { (x : Prog) (rs : List Runner) (around : Around) → let last = passes x rs around in (pass x last.runners last.around).ran ≡ false }
    ensures nobody { (x : Prog) (rs : List Runner) (around : Around) → let last = passes x rs around in All (λ r. is_ready r last.around ≡ false) last.runners }
{}
