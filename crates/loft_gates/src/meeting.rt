//! Gates that hold a turn until another one has come: what no clause says, that actors are in their turns at the same time.

use loft_base::{Gate, Limits, RunOptions, SchedId, Turn};
use loft_code::validate;
use loft_listing_reader::read;
use loft_run::run_whole;
use std::sync::Wait;
use std::sync::atomic::{AtomicU64, Ordering};
use std::test::Fail;
use std::thread;
use std::thread::Threads;

/// Two schedulers with a thread each.
const TWO: &[u8] = b"loft-listing 1
scheduler A;
scheduler B;
module a() in A
0 A 0 print 1;
1 A 0 end
end
module b() in B
0 B 0 print 2;
1 B 0 end
end
start A.a();
start B.b();
";

/// 128 threads that go to the workers.
const JOBS: &[u8] = b"loft-listing 1
scheduler A;
module j() in A to unlinked
0 A 0 @1 unlink;
1 unlinked 0 end
end
module f() in A
0 A 0 count 128
1 A 1 turn 4
2 A 1 create A.j();
3 A 1 jump 1
4 A 0 end
end
start A.f();
";

/// How often all turns of a run together look whether another has come: a second or a few of waiting.
const LOOKS: u64 = 1_000_000;

/// How often one block does, so that all 32 of a phase of one worker leave most of the looks to the next phase.
const LOOKS_OF_A_BLOCK: u64 = 10_000;

/// Turns that have come, and whether two were held at once.
#[derive(Drop)]
pub(crate) struct Meeting {
    /// A bit for each that is held, 1 shifted by its number.
    here: AtomicU64,
    met: AtomicU64,
    /// How many looks were made.
    looks: AtomicU64,
}

impl Meeting {
    /// Nobody has come.
    pub(crate) fn new() -> Meeting {
        Meeting {
            here: AtomicU64::new(0),
            met: AtomicU64::new(0),
            looks: AtomicU64::new(0),
        }
    }

    /// Makes one look more, if one is left.
    fn may_look(&self) -> bool {
        self.looks.fetch_add(1, Ordering::SeqCst) < LOOKS
    }

    /// Whether two were held at once.
    pub(crate) fn has_met(&self) -> bool {
        self.met.load(Ordering::SeqCst) > 0
    }

    /// An error where two were not held at once.
    fn meets(&self) -> Result<(), Fail> {
        if self.has_met() {
            return Ok(());
        }
        if self.looks.load(Ordering::SeqCst) > LOOKS {
            return Err(Fail::new("no two turns met in 1,000,000 looks"));
        }
        Err(Fail::new("no two turns met"))
    }

    /// Comes as one of the numbers below 32, and stays until another number is here, but for so many looks at most, and no
    /// longer than looks are left.
    pub(crate) fn come(&self, number: u32, looks: u64) {
        let bit = 1u64 << (number % 32);
        self.here.fetch_or(bit, Ordering::SeqCst);
        for _ in 0..looks {
            if self.here.load(Ordering::SeqCst) != bit {
                self.met.store(1, Ordering::SeqCst);
            }
            if self.has_met() {
                return;
            }
            if !self.may_look() {
                break;
            }
            thread::yield_now();
        }
        self.here.fetch_and(!bit, Ordering::SeqCst);
    }

    /// Waits until one of the numbers below 32 is here, for so many looks at most, and no longer than looks are left.
    pub(crate) fn wait_for(&self, number: u32, looks: u64) {
        let bit = 1u64 << (number % 32);
        for _ in 0..looks {
            if self.here.load(Ordering::SeqCst) & bit > 0 || !self.may_look() {
                return;
            }
            thread::yield_now();
        }
    }
}

/// A gate that holds each scheduler's first instant until that of the other has come.
#[derive(Drop)]
struct InstantsGate {
    meeting: Meeting,
}

impl Gate for InstantsGate {
    fn pass<R: Threads + Wait + Sync>(&self, _rt: &R, turn: Turn) {
        if let Turn::Instant {
            s: SchedId(s),
            number: 1,
        } = turn
        {
            self.meeting.come(s, LOOKS);
        }
    }
}

/// A gate that holds each block until blocks of two workers are held at once; from then on it holds none.
#[derive(Drop)]
struct BlocksGate {
    meeting: Meeting,
}

impl Gate for BlocksGate {
    fn pass<R: Threads + Wait + Sync>(&self, _rt: &R, turn: Turn) {
        if let Turn::Block { w } = turn {
            self.meeting.come(w, LOOKS_OF_A_BLOCK);
        }
    }
}

/// A whole run of a listing of two workers.
pub(crate) fn run_listing<R: Threads + Wait + Sync + AllocGlobal, G: Gate>(
    rt: &R,
    listing: &[u8],
    gate: &G,
) -> Result<(), Fail> {
    let alloc = rt.alloc();
    let raw = read(alloc, listing).map_err(|_| "it is no listing")?;
    let code = validate(alloc, raw).map_err(|_| "its code isn't valid")?;
    let options = RunOptions {
        limits: Limits {
            instants: 100,
            budget: 10_000,
            block: 1_000_000,
        },
        workers: 2,
    };
    run_whole(rt, alloc, &code, &options, gate)?;
    Ok(())
}

/// Each scheduler's instant 1 is held until the other's has come, so both are in an instant at the same time.
#[test]
fn two_schedulers_meet(rt: HostRuntime) -> Result<(), Fail> {
    let gate = InstantsGate {
        meeting: Meeting::new(),
    };
    run_listing(&rt, TWO, &gate)?;
    gate.meeting.meets()
}

/// Blocks of two workers are held at once.
#[test]
fn two_workers_meet(rt: HostRuntime) -> Result<(), Fail> {
    let gate = BlocksGate {
        meeting: Meeting::new(),
    };
    run_listing(&rt, JOBS, &gate)?;
    gate.meeting.meets()
}
