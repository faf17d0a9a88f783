//! Gates that hold a turn, while the turn that needs what it sends must not come: an instant passes the gate before its Give,
//! and a block before its first order is posted.

use crate::meeting::{Meeting, run_listing};
use loft_base::{Gate, SchedId, Turn};
use std::sync::Wait;
use std::sync::atomic::{AtomicU64, Ordering};
use std::test::Fail;
use std::thread::Threads;

/// B makes a second instant only for what the first instant of A sends.
const INSTANTS: &[u8] = b"loft-listing 1
scheduler A;
scheduler B;
module a() in A
0 A 0 create B.b();
1 A 0 end
end
module b() in B
0 B 0 end
end
start A.a();
start B.b();
";

/// B makes a second instant only for what the block of the thread of A posts.
const BLOCK: &[u8] = b"loft-listing 1
scheduler A;
scheduler B;
module a() in A to B
0 A 0 create B.b();
1 A 0 @1 unlink;
2 unlinked 0 @2 link B;
3 B 0 end
end
module b() in B
0 B 0 end
end
start A.a();
";

/// How often a turn that is held looks whether the other has come.
const LOOKS: u64 = 100_000;

/// A gate that holds a turn, the first one, until the second instant of B has come, but for so many looks at most. The first
/// instant of B waits for that turn, so both are made at once.
#[derive(Drop)]
struct HeldGate {
    /// Whether the turn is a block; else it is A's first instant.
    is_block: bool,
    meeting: Meeting,
    /// How often the turn has passed.
    held: AtomicU64,
    /// How often B's first instant has.
    firsts: AtomicU64,
}

impl HeldGate {
    /// Nothing has passed.
    fn new(is_block: bool) -> HeldGate {
        HeldGate {
            is_block,
            meeting: Meeting::new(),
            held: AtomicU64::new(0),
            firsts: AtomicU64::new(0),
        }
    }

    /// The turn that is held.
    fn hold(&self) {
        self.held.fetch_add(1, Ordering::SeqCst);
        self.meeting.come(0, LOOKS);
    }

    /// An instant of B.
    fn pass_of_b(&self, number: u64) {
        if number == 1 {
            self.firsts.fetch_add(1, Ordering::SeqCst);
            self.meeting.wait_for(0, LOOKS);
        }
        if number == 2 {
            self.meeting.come(1, 1);
        }
    }

    /// Whether the turn and B's first instant have passed once, and B's second hasn't met the turn.
    fn is_right(&self) -> bool {
        self.held.load(Ordering::SeqCst) == 1
            && self.firsts.load(Ordering::SeqCst) == 1
            && !self.meeting.has_met()
    }
}

impl Gate for HeldGate {
    fn pass<R: Threads + Wait + Sync>(&self, _rt: &R, turn: Turn) {
        match turn {
            Turn::Block { .. } => {
                if self.is_block {
                    self.hold();
                }
            }
            Turn::Instant {
                s: SchedId(s),
                number,
            } => {
                if s == 1 {
                    self.pass_of_b(number);
                } else if !self.is_block && number == 1 {
                    self.hold();
                }
            }
        }
    }
}

/// While A's first instant is held, what it sends isn't known to B.
#[test]
fn an_instant_passes_before_its_give(rt: HostRuntime) -> Result<(), Fail> {
    let gate = HeldGate::new(false);
    run_listing(&rt, INSTANTS, &gate)?;
    assert!(rt; gate.is_right());
    Ok(())
}

/// While a block is held, what it posts isn't known to B.
#[test]
fn a_block_passes_before_its_first_post(rt: HostRuntime) -> Result<(), Fail> {
    let gate = HeldGate::new(true);
    run_listing(&rt, BLOCK, &gate)?;
    assert!(rt; gate.is_right());
    Ok(())
}
