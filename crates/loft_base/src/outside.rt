//! The outside, as the program sees it (docs/OUTSIDE.md, "The outside"): files that it reads, a
//! sink that takes its answer, and a gate that threads pass. What an implementation may do is said
//! by meanings that only contracts see; a fault comes only where its count of faults rose.

ghost use Rattle.std.specs.Prelude.{◌≡◌, ◌-◌, ◌+◌, ◌^◌, ◌<◌, ◌≤◌, ℕ, List, Option, Bool, false, length, IsTrue, IsOk, IsErr, IfOk, OnOk, OnErr, IfSome, ◌&&◌};
ghost use Rattle.loft_base.specs.Outside.{Rose, IsNextPlace, IsPart, appended, GrowsByPrefix, is_line};

use crate::errors::Failed;
use crate::ids::SchedId;
use std::marker::Sync;
use std::sync::Wait;
use std::thread::Threads;

/// Files that can be read in parts, each named by a text.
pub trait Files {
    /// The bytes of the file of a name, where they are known.
    ghost contents: { Self → List ℕ → Option (List ℕ) };

    /// How many faults there were.
    ghost faults: { Self → ℕ };

    /// Whether a name may be asked.
    ghost may_ask: { Self → List ℕ → Bool };

    /// The offset at which the last part ended: 0 at first and after a fault.
    ghost place: { Self → ℕ };

    /// Whether a part of this name is known never to fail.
    ghost never_fails: { Self → List ℕ → Bool } = { λ _ _. false };

    /// Whether a part of this name is known to fail.
    ghost always_fails: { Self → List ℕ → Bool } = { λ _ _. false };

    /// Reads some bytes of a file from an offset into the front of a slice; what stands after them
    /// in the slice is left open. The offset is 0, or where the last part ended. `Ok` has the
    /// number of bytes, 0 only at or past the file's end. `Failed` comes only where the count of
    /// faults rose.
    fn part(&mut self, name: &str, from: u64, into: &mut [u8]) -> Result<usize, Failed>
        requires asked { IsTrue (may_ask self.old name.now) }
        requires room { 0 < length into.old }
        requires next { IsNextPlace from (place self.old) }
        requires below { from + length into.old < 2 ^ 63 }

        ensures count { IfOk result (λ k. k ≤ length into.old) }
        ensures bytes { IfOk result (λ k. IfSome (contents self.old name.now)
            (λ file. IsPart file from k into.new)) }
        ensures ended { IfOk result (λ k. place self.new ≡ from + k) }

        ensures cause { OnErr result (Rose (faults self.old) (faults self.new)) }
        ensures restarted { OnErr result (place self.new ≡ 0) }
        ensures never_falls { faults self.old ≤ faults self.new }

        ensures sure { IsTrue (never_fails self.old name.now) → IsOk result }
        ensures no_fault { IsTrue (never_fails self.old name.now) →
            faults self.new ≡ faults self.old }
        ensures refused { IsTrue (always_fails self.old name.now) → IsErr result }

        ensures same_contents { contents self.new ≡ contents self.old }
        ensures same_names { may_ask self.new ≡ may_ask self.old }
        ensures same_sure { never_fails self.new ≡ never_fails self.old }
        ensures same_refused { always_fails self.new ≡ always_fails self.old };
}

/// Where the program writes its answer, piece by piece.
pub trait Sink {
    /// All bytes written so far, where they are known.
    ghost written: { Self → Option (List ℕ) };

    /// How many faults there were.
    ghost faults: { Self → ℕ };

    /// How many more bytes it is known to take without a fault.
    ghost room: { Self → ℕ } = { λ _. 0 };

    /// Whether each piece that it took whole is known to have been a line.
    ghost by_lines: { Self → Bool } = { λ _. false };

    /// Writes a piece. `Failed` comes only where the count of faults rose; a prefix of the piece
    /// was then written.
    fn put(&mut self, bytes: &[u8]) -> Result<(), Failed>
        requires { 0 < length bytes.now }

        ensures ok { OnOk result (written self.new ≡ appended (written self.old) bytes.now) }
        ensures failed { OnErr result (GrowsByPrefix (written self.old) (written self.new) bytes.now) }
        ensures cause { OnErr result (Rose (faults self.old) (faults self.new)) }
        ensures never_falls { faults self.old ≤ faults self.new }

        ensures sure { length bytes.now ≤ room self.old → IsOk result }
        ensures no_fault { length bytes.now ≤ room self.old → faults self.new ≡ faults self.old }
        ensures room_left { OnOk result (room self.old ≤ room self.new + length bytes.now) }

        ensures by_lines { OnOk result (by_lines self.new ≡ (by_lines self.old && is_line bytes.now)) }
        ensures same_lines { OnErr result (by_lines self.new ≡ by_lines self.old) };
}

/// What a thread passes through: an instant of a scheduler, with the instant's number from 1, or
/// an unlinked block that a worker runs.
#[derive(Clone, Copy)]
pub enum Turn {
    Instant { s: SchedId, number: u64 },
    Block { w: u32 },
}

/// Where each thread passes in each turn. It may hold the thread for a while, and changes no
/// answer.
pub trait Gate: Sync {
    /// Passes the gate.
    fn pass<R: Threads + Wait + Sync>(&self, rt: &R, t: Turn);
}
