//! Where operations lead (docs/SEMANTICS.md, "Code").

ghost use Rattle.std.specs.Prelude.{◌≡◌, ◌<◌, ◌≤◌, [], length, map, slice_get, unwrap_or, Some, IfSome, IsNone};
ghost use Rattle.std.specs.Option.{option_map};
ghost use Rattle.loft_tree.specs.Resolved.{target_of as variable_of};
ghost use Rattle.loft_code.specs.Operations.{stop_of as stop_of_operation};
ghost use Rattle.loft_code.specs.View.{automata_of, line_of, lines_of, operation_of};
ghost use Rattle.loft_sense.specs.Code.{lines_at, jump_of, landing as landing_of, is_number, stop_from, pause_of_operation, pause_at, pause_in};
ghost use Rattle.loft_sense.specs.Statements.{target_of};
ghost use Rattle.loft_step.specs.Lines.{ends_at, line_in, op_after, HasNoStop, IsLastStop, LiesIn, StopsAreNumbered};

use loft_base::ModuleId;
use loft_code::{Code, CodeLine, ModuleCode, Op};
use loft_tree::{Pause, Target};

/// The operations of a module among these, none where there is no such module.
fn lines_among(modules: &[ModuleCode], module: ModuleId) -> &[CodeLine]
    ensures { map line_of result.now ≡ unwrap_or (slice_get (map lines_of modules.now) «module».0) [] }
{
    match modules.get(module.0 as usize) {
        Some(module) => module.lines.as_slice(),
        None => &[],
    }
}

/// The operations of a module of the code. Each stop among them is found by its number.
pub fn lines_of(code: &Code, module: ModuleId) -> &[CodeLine]
    ensures lines { map line_of result.now ≡ lines_at (automata_of code.now) «module» }
    ensures numbered { StopsAreNumbered (map line_of result.now) }
{
    lines_among(code.program().modules.as_slice(), module)
}

/// Where a `jump` leads.
fn jump_of(op: &Op) -> Option<u64>
    ensures { result ≡ jump_of (operation_of op.now) }
{
    match op {
        Op::Jump { target } => Some(*target),
        Op::Do(_)
        | Op::Hold { .. }
        | Op::Run { .. }
        | Op::Branch { .. }
        | Op::Enter
        | Op::Count(_)
        | Op::Turn { .. }
        | Op::End => None,
    }
}

/// The number of the operation that is reached from this one over jumps: at most as many as there are operations. And the
/// operation with that number, if there is one.
#[inline(always)]
pub fn landing(lines: &[CodeLine], from: usize) -> (usize, Option<&CodeLine>)
    ensures number { result.0 ≡ landing_of (map line_of lines.now) from }
    ensures line { line_in result.1 ≡ slice_get (map line_of lines.now) result.0 }
{
    let mut op = from;
    'jumping: for _jumps in 0..lines.len() {
        let Some(line) = lines.get(op) else {
            return (op, None);
        };
        let Some(target) = jump_of(&line.op) else {
            return (op, Some(line));
        };
        op = target as usize;
    }
    (op, lines.get(op))
}

/// Whether it is there, and an `end`.
#[inline(always)]
pub fn ends_at(line: Option<&CodeLine>) -> bool
    ensures { result ≡ ends_at (line_in line.entry) }
{
    match line {
        None => false,
        Some(line) => match &line.op {
            Op::End => true,
            Op::Do(_)
            | Op::Hold { .. }
            | Op::Run { .. }
            | Op::Branch { .. }
            | Op::Enter
            | Op::Count(_)
            | Op::Turn { .. }
            | Op::Jump { .. } => false,
        },
    }
}

/// The number that the operation has as a stop, if it is one.
fn stop_of(op: &Op) -> Option<u64>
    ensures { result ≡ stop_of_operation (operation_of op.now) }
{
    match op {
        Op::Hold { stop, .. } | Op::Run { stop, .. } => Some(*stop),
        Op::Do(_)
        | Op::Branch { .. }
        | Op::Enter
        | Op::Count(_)
        | Op::Turn { .. }
        | Op::Jump { .. }
        | Op::End => None,
    }
}

/// A stop: the number of its operation, and its own.
#[derive(Clone, Copy)]
struct Found {
    op: usize,
    stop: u64,
}

/// The last stop of the operations from one number to before another.
fn last_stop(lines: &[CodeLine], from: usize, to: usize) -> Option<Found>
    requires { to ≤ length lines.now }
    ensures last { IfSome result (λ found. IsLastStop (map line_of lines.now) from to found.op found.stop) }
    ensures none { IsNone result → HasNoStop (map line_of lines.now) from to }
{
    let mut op = to;
    'back: while op > from {
        op -= 1;
        if let Some(stop) = stop_of(&lines[op].op) {
            return Some(Found { op, stop });
        }
    }
    None
}

/// How many of so many operations are looked at next: as many as stand before them, and one more; but no more than half of
/// them, or the greater half.
fn part(before: usize, left: usize) -> usize
    requires { 0 < left }
    ensures some { 0 < result }
    ensures within { result ≤ left }
{
    let half = left / 2;
    if before < half {
        before + 1
    } else {
        left - half
    }
}

/// The number of the first operation that is stop k, where that is one of those from one number to before another. The
/// last stop of a part of them tells on which side of it stop k is.
fn find_between(lines: &[CodeLine], k: u64, low: usize, high: usize) -> Option<usize>
    requires numbered { StopsAreNumbered (map line_of lines.now) }
    requires most { high ≤ length lines.now }
    requires lies { LiesIn (map line_of lines.now) k low high }
    ensures first { result ≡ stop_from 0 (map line_of lines.now) k }
    ensures within { IfSome result (λ number. number < length lines.now) }
{
    if high <= low {
        return None;
    }
    let to = low + part(low, high - low);
    let Some(found) = last_stop(lines, low, to) else {
        return find_between(lines, k, to, high);
    };
    if found.stop < k {
        find_between(lines, k, to, high)
    } else if k < found.stop {
        find_between(lines, k, low, found.op)
    } else {
        Some(found.op)
    }
}

/// Whether the operation is stop k.
fn is_stop(op: &Op, k: u64) -> bool
    ensures { result ≡ is_number (stop_of_operation (operation_of op.now)) k }
{
    match stop_of(op) {
        Some(stop) => stop == k,
        None => false,
    }
}

/// How many of the first operations are looked at one by one.
const FIRST: usize = 8;

/// The number of the first operation that is stop k. Stops are numbered in the order of the operations, so past the first few
/// they are searched in parts that grow, and then by halves. At most twice as many operations are looked at as
/// stand up to the stop.
fn find_stop(lines: &[CodeLine], k: u32) -> Option<usize>
    requires { StopsAreNumbered (map line_of lines.now) }
    ensures first { result ≡ stop_from 0 (map line_of lines.now) k }
    ensures within { IfSome result (λ number. number < length lines.now) }
{
    let k = u64::from(k);
    let mut op = 0;
    'first: while op < lines.len() && op < FIRST {
        if is_stop(&lines[op].op, k) {
            return Some(op);
        }
        op += 1;
    }
    find_between(lines, k, op, lines.len())
}

/// The variable that a stop sets, where it is a `get`.
fn target_of(op: &Op) -> Option<Target>
    ensures { option_map variable_of result ≡ target_of (pause_of_operation (operation_of op.now)) }
{
    match op {
        Op::Hold {
            stop: _,
            pause: Pause::Get { target, .. },
        } => Some(*target),
        Op::Hold { .. }
        | Op::Do(_)
        | Op::Run { .. }
        | Op::Branch { .. }
        | Op::Enter
        | Op::Count(_)
        | Op::Turn { .. }
        | Op::Jump { .. }
        | Op::End => None,
    }
}

/// The variable that the operation with this number sets as a stop, where it is a `get`.
fn target_at(lines: &[CodeLine], number: usize) -> Option<Target>
    ensures { option_map variable_of result ≡ target_of (pause_at (map line_of lines.now) (Some number)) }
{
    match lines.get(number) {
        Some(line) => target_of(&line.op),
        None => None,
    }
}

/// Where a frame goes on: the number of the operation, and the variable that the stop before it sets.
#[derive(Clone, Copy)]
pub struct Resumed {
    pub op: usize,
    pub target: Option<Target>,
}

/// Where a frame goes on that has stood at this stop, 0 where it has stood at none.
pub fn resume(lines: &[CodeLine], stop: u32) -> Resumed
    requires { StopsAreNumbered (map line_of lines.now) }
    ensures op { result.op ≡ op_after (map line_of lines.now) stop }
    ensures target { option_map variable_of result.target ≡ target_of (pause_in (map line_of lines.now) stop) }
{
    if stop == 0 {
        return Resumed {
            op: 0,
            target: None,
        };
    }
    let Some(number) = find_stop(lines, stop) else {
        return Resumed {
            op: lines.len(),
            target: None,
        };
    };
    Resumed {
        op: number + 1,
        target: target_at(lines, number),
    }
}
