//! What leaves a pair.

ghost use Rattle.std.specs.Prelude.{◌≡◌, ◌++◌, ◌≤◌, [], true, map, length, if◌then◌else◌, None, IfOk};
ghost use Rattle.loft_tree.specs.NamedView.{statement_of, statements_of};
ghost use Rattle.loft_tree.specs.ProgramView.{module_of};
ghost use Rattle.loft_sense.specs.Tree.{first_some};
ghost use Rattle.loft_lock_forms.specs.Marks.{AreRising};
ghost use Rattle.loft_lock_forms.specs.Seen.{marks_seen, names_seen, use_seen};
ghost use Rattle.loft_locks.specs.Outline.{Outline, run_part, part, outline, outermost, leave_fault};
ghost use Rattle.loft_lock_pairs.specs.Leaving.{marked_in};
ghost use Rattle.loft_lock_expansion.specs.Expansion.{first_leaving};
ghost use Rattle.loft_lock_pairs.specs.Seen.{lock_seen, fault_seen};
ghost use Rattle.std.specs.Option.{option_map};

use crate::leaving::{is_away, pause_leaves};
use crate::marks::use_at;
use crate::pairs::{around, begin, end, told};
use loft_base::{ModuleId, NoMemory, Room};
use loft_lock_forms::{Mark, Use};
use loft_tree::{Module, NamedStmt};
use std::alloc::Global;

/// The outermost of these locks, those of a body and those around it.
fn outermost<'a>(own: &[&'a [u8]], outer: &[&'a [u8]]) -> Option<&'a [u8]>
    ensures { lock_seen result ≡ outermost (names_seen own.now ++ names_seen outer.now) }
{
    match outer.last() {
        Some(lock) => Some(*lock),
        None => own.last().copied(),
    }
}

/// That lock, where a statement leaves.
fn left<'a>(leaves: bool, own: &[&'a [u8]], outer: &[&'a [u8]]) -> Option<&'a [u8]>
    ensures { lock_seen result ≡ (if leaves then outermost (names_seen own.now ++ names_seen outer.now) else None) }
{
    if leaves { outermost(own, outer) } else { None }
}

/// The lock that a `run` leaves; the `run`s that stand in place of a form stand outside its pair.
fn run_left<'a>(
    room: &mut Room,
    outer: &[&'a [u8]],
    own: &mut Vec<&'a [u8]>,
    leaves: bool,
    used: Option<Use<'a>>,
) -> Option<&'a [u8]>
    ensures before { room.new.is_whole ≡ true → room.old.is_whole ≡ true }
    ensures fault { room.new.is_whole ≡ true → (rest : Outline) → first_some (lock_seen result) (leave_fault (names_seen outer.now) (names_seen own.new.items) rest)
        ≡ leave_fault (names_seen outer.now) (names_seen own.old.items) (run_part leaves (option_map use_seen used.entry) rest) }
{
    match used {
        None => left(leaves, own.as_slice(), outer),
        Some(Use::Take(lock)) => {
            let fault = left(leaves, own.as_slice(), outer);
            begin(room, own, lock);
            fault
        }
        Some(Use::Give(_)) => {
            end(own);
            left(leaves, own.as_slice(), outer)
        }
    }
}

/// The outermost lock around the statement, if it leaves, or around the first in its bodies that does.
#[cycle(leaves)]
#[tactic(auto, using(loft_tree::proofs::NamedTrees::named_statements))]
fn left_at<'a>(
    room: &mut Room,
    marks: &[Mark<'a>],
    away: &[bool],
    outer: &[&'a [u8]],
    own: &mut Vec<&'a [u8]>,
    statement: &NamedStmt,
) -> Option<&'a [u8]>
    requires { AreRising 0 (marks_seen marks.now) }
    ensures before { room.new.is_whole ≡ true → room.old.is_whole ≡ true }
    ensures fault { room.new.is_whole ≡ true → (rest : Outline) → first_some (lock_seen result) (leave_fault (names_seen outer.now) (names_seen own.new.items) rest)
        ≡ leave_fault (names_seen outer.now) (names_seen own.old.items) (part (marks_seen marks.now) (marked_in away.now) (statement_of statement.now) rest) }
{
    match statement {
        NamedStmt::Do { .. } => None,
        NamedStmt::Hold { pause, .. } => left(pause_leaves(pause), own.as_slice(), outer),
        NamedStmt::Run { called, module, .. } => run_left(
            room,
            outer,
            own,
            is_away(away, *module),
            use_at(marks, *called as usize),
        ),
        NamedStmt::If { first, second, .. } => {
            let begun = around(room, own.as_slice(), outer);
            let fault = left_in(room, marks, away, begun.as_slice(), first.as_slice());
            if fault.is_some() {
                return fault;
            }
            left_in(room, marks, away, begun.as_slice(), second.as_slice())
        }
        NamedStmt::While { body, .. } | NamedStmt::Repeat { body, .. } => {
            let begun = around(room, own.as_slice(), outer);
            left_in(room, marks, away, begun.as_slice(), body.as_slice())
        }
    }
}

/// The outermost lock around the first statement of a body that leaves a pair, where the body stands in those of `outer`.
#[cycle(leaves)]
fn left_in<'a>(
    room: &mut Room,
    marks: &[Mark<'a>],
    away: &[bool],
    outer: &[&'a [u8]],
    body: &[NamedStmt],
) -> Option<&'a [u8]>
    requires { AreRising 0 (marks_seen marks.now) }
    ensures before { room.new.is_whole ≡ true → room.old.is_whole ≡ true }
    ensures fault { room.new.is_whole ≡ true → lock_seen result ≡ leave_fault (names_seen outer.now) [] (outline (marks_seen marks.now) (marked_in away.now) (statements_of body.now)) }
{
    let mut own = Vec::new(room.alloc);
    for statement in body {
        let fault = left_at(room, marks, away, outer, &mut own, statement);
        if fault.is_some() {
            return fault;
        }
    }
    None
}

/// The first module that leaves a pair, and the lock of the outermost pair around its first statement that does.
///
/// # Errors
///
/// Out of memory.
pub fn first_leaving<'a>(
    alloc: Global,
    marks: &[Mark<'a>],
    away: &[bool],
    modules: &[Module],
) -> Result<Option<(ModuleId, &'a [u8])>, NoMemory>
    requires few { length modules.now ≤ 256 }
    requires rising { AreRising 0 (marks_seen marks.now) }
    ensures { IfOk result (λ found. fault_seen found ≡ first_leaving (marks_seen marks.now) (marked_in away.now) (map module_of modules.now)) }
{
    let mut room = Room::new(alloc);
    for number in 0..modules.len() {
        let lock = left_in(&mut room, marks, away, &[], modules[number].body.as_slice());
        if lock.is_some() {
            return room.done(told(number, lock));
        }
    }
    room.done(None)
}
