//! One instant of a scheduler (docs/SEMANTICS.md, "Instant").

ghost use Rattle.std.specs.Prelude.{◌≡◌, ◌+◌, ◌*◌, ◌<◌, ◌≤◌, ◌^◌, ◌++◌, [], false, length, map, filter, IfOk, OnOk};
ghost use Rattle.loft_board.specs.Board.{no_events};
ghost use Rattle.loft_effect.specs.View.{around_of};
ghost use Rattle.loft_instant.specs.States.{machine_before, walk_from};
ghost use Rattle.loft_line.specs.Counts.{runs_and_steps};
ghost use Rattle.loft_line.specs.Line.{runners_in, standings_in, IsLine, IsIdle, IsTold, IsQuiet, KeepsRun};
ghost use Rattle.loft_passes.specs.View.{runners_of, walk_of};
ghost use Rattle.loft_sense.specs.Apply.{apply_orders};
ghost use Rattle.loft_sense.specs.Heads.{shared_of};
ghost use Rattle.loft_sense.specs.Instant.{runner_of as begin_of, instant as instant_of};
ghost use Rattle.loft_sense.specs.Instant.{closed as closed_runner, closed_thread, stays, has_run, machine_closed, note_of};
ghost use Rattle.loft_sense.specs.Instant.{sent_by, leavers, changes as changes_in};
ghost use Rattle.loft_sense.specs.Machine.{heads as heads_of};
ghost use Rattle.loft_sense.specs.Passes.{passes as passes_over};
ghost use Rattle.loft_tree.specs.declared.heads.Place.TheVariants.{Sched as SchedPlace};
ghost use Rattle.loft_waits.specs.Told.{counts_of, closed as closed_told, NobodyFrom};
ghost use Rattle.loft_line_engine.specs.Batches.{applied_of, IsSound};
ghost use Rattle.loft_line_engine.specs.Counts.{most_counted, least_counted};
ghost use Rattle.loft_line_engine.specs.States.{machine_with, IsClosed};

use crate::batch::Batch;
use crate::state::State;
use loft_base::{NoMemory, Sequence};
use loft_board::Board;
use loft_count::Steps;
use loft_counted_run::CountedInterpreter;
use loft_effect::{Around, tell_all};
use loft_ended::Ended;
use loft_instant::{Setting, changes, fitted, keep_values};
use loft_line::Line;
use loft_orders::{Changes, InstantNote, Numbers, Order, Orders, Sents, Threads};
use loft_passes::Interpreter;
use loft_sense::Tally;
use loft_tally::tally_after;
use loft_tree::Place;
use loft_waits::counts_follow_the_board;
use std::alloc::Global;
use std::sync::ledger::Ledger;

/// The batch is applied to these threads. Each order is counted.
fn apply<I: CountedInterpreter, L: Ledger>(
    alloc: Global,
    setting: &Setting<I>,
    line: Line,
    known: Ended,
    board: Board,
    orders: &[Order],
    steps: &mut Steps<L>,
) -> Result<Batch, NoMemory>
    requires idle { IsIdle line }
    requires counts { line.waits.counts ≡ counts_of board }
    requires ended { line.waits.ended ≡ known }
    requires board { board ≡ no_events setting.now.events }
    ensures sound { IfOk result (λ b. IsSound b) }
    ensures budget { IfOk result (λ b. b.line.budget ≡ line.budget) }
    ensures closes { IfOk result (λ b. b.line.waits.closes ≡ line.waits.closes) }
    ensures applied { IfOk result (λ b. let h = heads_of (I.program setting.now.interpreter) in
        applied_of b ≡ apply_orders h setting.now.scheduler (record {
          linked = standings_in (runners_in line);
          known = known;
          board = no_events (length h.events);
          marks = [];
          stopped = [];
          sent = [];
        }) orders.now) }
    ensures counted { OnOk result (steps.new ≡ steps.old + length orders.now) }
    ensures within { steps.new ≤ steps.old + length orders.now }
{
    let mut batch = Batch::new(alloc, line, known, board);
    batch.apply_all(
        alloc,
        setting.interpreter.heads(),
        setting.scheduler,
        orders,
        steps,
    )?;
    Ok(batch)
}

/// What stands around the threads when they have run until nobody can go, where they find these
/// values. Each position at which a thread runs is counted, and each step.
fn run<I: CountedInterpreter, L: Ledger>(
    alloc: Global,
    setting: &Setting<I>,
    line: &mut Line,
    board: Board,
    shared: Numbers,
    known: Ended,
    made: u64,
    steps: &mut Steps<L>,
) -> Result<Around, NoMemory>
    requires idle { IsIdle line.old }
    requires counts { line.old.waits.counts ≡ counts_of board }
    requires ended { line.old.waits.ended ≡ known }
    requires made { made ≤ 2 ^ 63 }
    ensures passes { IfOk result (λ around. walk_of (runners_in line.new) around false
        ≡ passes_over (I.program setting.now.interpreter)
        (map (begin_of line.old.budget) (standings_in (runners_in line.old)))
        (record {
          place = SchedPlace setting.now.scheduler;
          board = board;
          shared = shared;
          known = known;
          made = made;
          entries = 0;
          acts = [];
        })) }
    ensures line { OnOk result (IsLine line.new) }
    ensures over { OnOk result (NobodyFrom line.new.waits 0) }
    ensures told { IfOk result (λ around. IsTold line.new (around_of around)) }
    ensures keeps { OnOk result (KeepsRun line.old line.new) }
    ensures counted { steps.new
        ≤ steps.old + length (standings_in (runners_in line.old)) * (2 * line.old.budget + 2) }
    ensures least { OnOk result (steps.old
        + runs_and_steps line.old.budget (runners_of (runners_in line.new)) ≤ steps.new) }
{
    let mut around = Around {
        place: Place::Sched(setting.scheduler),
        board,
        shared,
        known,
        made,
        entries: 0,
        steps: 0,
        bound: 0,
        acts: Sequence::new(alloc),
    };
    line.run(alloc, &setting.interpreter, &mut around, steps)?;
    Ok(around)
}

/// The threads close, and all that was done is sent. Answers how the threads that ran stand, and
/// which shared variables have another value than before.
fn close<I: Interpreter>(
    alloc: Global,
    setting: &Setting<I>,
    line: &mut Line,
    sent: &mut Sents,
    around: &Around,
    before: &[i64],
) -> Result<(Threads, Changes), NoMemory>
    requires line { IsLine line.old }
    requires over { NobodyFrom line.old.waits 0 }
    requires few { line.old.waits.closes + 1 < 2 ^ 63 }
    ensures idle { OnOk result (IsIdle line.new) }
    ensures linked { OnOk result (standings_in (runners_in line.new)
        ≡ map closed_runner (filter stays (runners_of (runners_in line.old)))) }
    ensures stands { IfOk result (λ did. did.0
        ≡ map closed_thread (filter has_run (filter stays (runners_of (runners_in line.old))))) }
    ensures sent { OnOk result (sent.new
        ≡ (sent.old ++ sent_by (SchedPlace setting.now.scheduler) around.now.acts)
        ++ leavers (runners_of (runners_in line.old))) }
    ensures changed { IfOk result (λ did. did.1 ≡ changes_in
        (shared_of (heads_of (I.program setting.now.interpreter)) setting.now.scheduler)
        before.now around.now.shared) }
    ensures told { OnOk result (line.new.waits ≡ closed_told line.old.waits) }
    ensures budget { OnOk result (line.new.budget ≡ line.old.budget) }
    ensures quiet { OnOk result (IsQuiet line.new) }
{
    let place = Place::Sched(setting.scheduler);
    tell_all(alloc, place, sent, around.acts.as_slice())?;
    let stands = line.close(alloc, sent)?;
    let changed = changes(
        alloc,
        setting.own.as_slice(),
        before,
        around.shared.as_slice(),
    )?;
    Ok((stands, changed))
}

/// What is left of an instant once its batch is applied: the passes, and the close. The shared
/// values stand twice, as the instant finds them and as it changes them. The instant isn't told yet.
fn after_batch<I: CountedInterpreter, L: Ledger>(
    alloc: Global,
    setting: &Setting<I>,
    batch: Batch,
    shared: Numbers,
    before: Numbers,
    made: u64,
    tally: Tally,
    steps: &mut Steps<L>,
) -> Result<(State, InstantNote), NoMemory>
    requires sound { IsSound batch }
    requires budget { batch.line.budget ≡ setting.now.limits.budget }
    requires closes { batch.line.waits.closes ≡ tally.number }
    requires board { length batch.board ≡ setting.now.events }
    requires before { before ≡ shared }
    requires made { made ≤ 2 ^ 63 }
    requires number { tally.number + 1 < 2 ^ 63 }
    ensures machine { IfOk result (λ did.
        let m = machine_before setting.now.scheduler shared made tally in
        machine_with setting.now.scheduler did.0 ≡ machine_closed m
        (walk_from (I.program setting.now.interpreter) setting.now.limits.budget m (applied_of batch))) }
    ensures note { IfOk result (λ did.
        let m = machine_before setting.now.scheduler shared made tally in
        did.1 ≡ note_of (I.program setting.now.interpreter) m (applied_of batch)
        (walk_from (I.program setting.now.interpreter) setting.now.limits.budget m (applied_of batch))) }
    ensures closed { IfOk result (λ did.
        IsClosed setting.now.events setting.now.limits.budget (tally.number + 1) did.0) }
    ensures counted { steps.new ≤ steps.old
        + length (applied_of batch).linked * (2 * setting.now.limits.budget + 2) }
    ensures least { OnOk result (
        let m = machine_before setting.now.scheduler shared made tally in
        steps.old + runs_and_steps setting.now.limits.budget
        (walk_from (I.program setting.now.interpreter) setting.now.limits.budget m (applied_of batch)).runners
        ≤ steps.new) }
{
    let Batch {
        mut line,
        known,
        board,
        marks,
        stopped,
        mut sent,
    } = batch;
    let around = run(alloc, setting, &mut line, board, shared, known, made, steps)?;
    let (stands, changed) = close(
        alloc,
        setting,
        &mut line,
        &mut sent,
        &around,
        before.as_slice(),
    )?;
    let Around {
        mut board,
        shared,
        known,
        made,
        acts,
        ..
    } = around;
    board.reset();
    let acts = fitted(acts);
    let sent = fitted(sent);
    let stands = fitted(stands);
    let note = InstantNote {
        number: tally.number + 1,
        marks,
        stopped,
        acts,
        sent,
        stands,
        changed,
    };
    let state = State {
        line,
        shared,
        before,
        known,
        board,
        made,
        tally,
    };
    Ok((state, note))
}

/// One instant of a scheduler in this state. Each order is counted, each position at which a thread
/// runs, and each step.
pub fn instant<I: CountedInterpreter, L: Ledger>(
    alloc: Global,
    setting: &Setting<I>,
    state: State,
    orders: &Orders,
    steps: &mut Steps<L>,
) -> Result<(State, InstantNote), NoMemory>
    requires closed { IsClosed setting.now.events setting.now.limits.budget state.tally.number state }
    requires made { state.made ≤ 2 ^ 63 }
    requires number { state.tally.number + 1 < 2 ^ 63 }
    ensures machine { IfOk result (λ did. machine_with setting.now.scheduler did.0
        ≡ (instant_of (I.program setting.now.interpreter) setting.now.limits
        (machine_with setting.now.scheduler state) orders.now).machine) }
    ensures note { IfOk result (λ did. did.1
        ≡ (instant_of (I.program setting.now.interpreter) setting.now.limits
        (machine_with setting.now.scheduler state) orders.now).note) }
    ensures closed { IfOk result (λ did.
        IsClosed setting.now.events setting.now.limits.budget did.0.tally.number did.0) }
    ensures counted { steps.new ≤ steps.old + most_counted (I.program setting.now.interpreter)
        setting.now.limits (machine_with setting.now.scheduler state) orders.now }
    ensures least { OnOk result (steps.old + least_counted (I.program setting.now.interpreter)
        setting.now.limits (machine_with setting.now.scheduler state) orders.now ≤ steps.new) }
{
    let State {
        line,
        shared,
        mut before,
        known,
        board,
        made,
        tally,
    } = state;
    keep_values(&mut before, shared.as_slice())?;
    counts_follow_the_board();
    let batch = apply(alloc, setting, line, known, board, orders.as_slice(), steps)?;
    let (mut state, note) = after_batch(alloc, setting, batch, shared, before, made, tally, steps)?;
    let heads = setting.interpreter.heads();
    state.tally = tally_after(heads, setting.scheduler, tally, orders, &note);
    Ok((state, note))
}
