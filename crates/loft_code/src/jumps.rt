//! Targets and stops of operations (docs/CODE.md, "Valid code").

ghost use Rattle.std.specs.Prelude.{◌≡◌, ◌+◌, ◌^◌, ◌<◌, not, nat_lt, nat_le, ◌&&◌, ◌||◌, length, map, slice_get};
ghost use Rattle.loft_code.specs.View.{operation_of, line_of};
ghost use Rattle.loft_code.specs.Operations.{stop_of};
ghost use Rattle.loft_code.specs.Valid.{test_in, leads_out, jumps_out, is_wrong_stop};

use crate::op::{Op, is_last, is_test, stop_of};
use crate::raw::CodeLine;

/// Whether there is a `branch` or a `turn` with this number.
fn is_test_at(lines: &[CodeLine], number: u64) -> bool
    ensures { result ≡ test_in (slice_get (map line_of lines.now) number) }
{
    match lines.get(number as usize) {
        Some(line) => is_test(&line.op),
        None => false,
    }
}

/// Whether a `branch` or a `turn` may not go there: the target isn't there, or doesn't come after it.
fn is_no_later(lines: &[CodeLine], number: u64, target: u64) -> bool
    ensures { result ≡ (not (nat_lt target (length (map line_of lines.now))) || nat_le target number) }
{
    !(target < lines.len() as u64) || target <= number
}

/// Whether a `jump` may not go there: the target isn't there, or comes no later and is no `branch` or `turn`.
fn is_no_test(lines: &[CodeLine], number: u64, target: u64) -> bool
    ensures { result ≡ (not (nat_lt target (length (map line_of lines.now)))
        || (nat_le target number && not (test_in (slice_get (map line_of lines.now) target)))) }
{
    !(target < lines.len() as u64) || (target <= number && !is_test_at(lines, target))
}

/// Whether the operation has a target where it may not go.
fn leads_out(lines: &[CodeLine], number: u64, op: &Op) -> bool
    ensures { result ≡ leads_out (map line_of lines.now) number (operation_of op.now) }
{
    match op {
        Op::Branch { target, .. } | Op::Turn { target } => is_no_later(lines, number, *target),
        Op::Jump { target } => is_no_test(lines, number, *target),
        Op::Do(_) | Op::Hold { .. } | Op::Run { .. } | Op::Enter | Op::Count(_) | Op::End => false,
    }
}

/// Whether the operation with this number goes where it may not, or goes on past the last one.
pub fn jumps_out(lines: &[CodeLine], number: u64, op: &Op) -> bool
    requires { number + 1 < 2 ^ 64 }
    ensures { result ≡ jumps_out (map line_of lines.now) number (operation_of op.now) }
{
    leads_out(lines, number, op) || (number + 1 == lines.len() as u64 && !is_last(op))
}

/// Whether the operation is a stop whose number isn't the next one, after so many stops of its module.
pub fn is_wrong_stop(op: &Op, before: u64) -> bool
    requires { before + 1 < 2 ^ 64 }
    ensures { result ≡ is_wrong_stop (stop_of (operation_of op.now)) before }
{
    match stop_of(op) {
        Some(stop) => stop != before + 1,
        None => false,
    }
}
