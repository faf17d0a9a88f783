//! One thread runs while 4,095 others wait.

ghost use Rattle.std.specs.Prelude.{◌≡◌, ◌<◌, IfOk};
ghost use Rattle.loft_code.specs.View.{automata_of};
ghost use Rattle.loft_engine.specs.CodeEngine.{code_of, scheduler_of};
ghost use Rattle.loft_sense.specs.Machine.{Code as ByCode};

use crate::batch::Newcomers;
use crate::instant::added;
use loft_base::{Limits, NoMemory, SchedId};
use loft_code::{Code, validate};
use loft_count::Steps;
use loft_engine::CodeEngine;
use loft_listing_reader::read;
use std::alloc::Global;
use std::marker::Brand;
use std::sync::ledger::{Blank, Ledger};
use std::test::Fail;

/// Module 0 waits for an event that never comes. Module 1 generates one and cooperates, for ever.
const LISTING: &[u8] = b"loft-listing 1
scheduler A;
event e in A;
event g in A;
module w() in A
0 A 0 @1 await e;
1 A 0 end
end
module f() in A
0 A 0 branch 4 1
1 A 0 generate g;
2 A 0 @1 cooperate;
3 A 0 jump 0
4 A 0 end
end
";

const LIMITS: Limits = Limits {
    instants: 100,
    budget: 10_000,
    block: 1_000_000,
};

/// Nobody, 4,096 threads, and three more.
const NOBODY: Newcomers = Newcomers {
    first: 0,
    waiting: 0,
    running: 0,
};

const ALL: Newcomers = Newcomers {
    first: 0,
    waiting: 4_095,
    running: 1,
};

const MORE: Newcomers = Newcomers {
    first: 4_096,
    waiting: 3,
    running: 0,
};

/// The code of the listing.
fn code(alloc: Global) -> Result<Code, Fail> {
    let Ok(raw) = read(alloc, LISTING) else {
        return Err("it is no listing".into());
    };
    match validate(alloc, raw) {
        Ok(code) => Ok(code),
        Err(_) => Err("its code isn't valid".into()),
    }
}

/// An engine of this scheduler.
fn engine_of(alloc: Global, code: &Code, scheduler: SchedId) -> Result<CodeEngine<'_>, NoMemory>
    ensures program { IfOk result (λ e. code_of e ≡ ByCode (automata_of code.now)) }
    ensures scheduler { IfOk result (λ e. scheduler_of e ≡ scheduler) }
{
    CodeEngine::new(alloc, code, scheduler, LIMITS)
}

/// What five instants add: as 4,096 threads come, with no orders, again, with three orders for which there is no room, and with
/// none.
fn five<L: Ledger>(
    alloc: Global,
    code: &Code,
    scheduler: SchedId,
    engine: &mut CodeEngine,
    blank: Blank,
) -> [Option<u64>; 5]
    requires name { blank.name ≡ L.name }
    requires parts { blank.parts ≡ L.parts }
    requires some { 0 < L.parts }
    requires program { code_of engine.old ≡ ByCode (automata_of code.now) }
    requires scheduler { scheduler_of engine.old ≡ scheduler }
{
    let mut steps = Steps::<L>::new(blank);
    let begun = added(alloc, code, scheduler, engine, &mut steps, ALL);
    let second = added(alloc, code, scheduler, engine, &mut steps, NOBODY);
    let third = added(alloc, code, scheduler, engine, &mut steps, NOBODY);
    let full = added(alloc, code, scheduler, engine, &mut steps, MORE);
    let last = added(alloc, code, scheduler, engine, &mut steps, NOBODY);
    [begun, second, third, full, last]
}

/// The five instants of an engine of this code's one scheduler.
fn counts(alloc: Global, code: &Code) -> Result<[Option<u64>; 5], NoMemory> {
    let scheduler = SchedId(0);
    let mut engine = engine_of(alloc, code, scheduler)?;
    Ok(five::<Brand>(alloc, code, scheduler, &mut engine, Blank::new(1)))
}

/// An order is counted, a position that runs is, and each step; to begin or to resume is a step, a jump is none. As the
/// threads come there are 4,096 orders and as many positions. Each of the 4,095 makes two steps (it begins, and waits), and
/// the one that runs makes four (it begins, branches, generates and cooperates): 4,096 + 4,096 + 4,095 * 2 + 4 = 16,386. From
/// then on that one alone runs: its position, and four steps (it resumes, branches, generates and cooperates) are 5. Three
/// orders for which there is no room are three more: 8.
#[test]
fn those_that_wait_count_nothing(rt: HostRuntime) -> Result<(), Fail> {
    let alloc = rt.alloc();
    let code = code(alloc)?;
    let counts = counts(alloc, &code)?;
    assert_eq!(rt; counts, [Some(16_386), Some(5), Some(5), Some(8), Some(5)]);
    Ok(())
}
