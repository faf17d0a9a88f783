//! The rules of pairs.

ghost use Rattle.std.specs.Prelude.{◌≡◌, ◌++◌, ◌∷◌, [], ◌≤◌, ℕ, List, true, false, drop, map, length, IfOk};
ghost use Rattle.std.specs.List.{list_any};
ghost use Rattle.std.specs.Option.{option_map};
ghost use Rattle.std.specs.Str.{bytes_eq};
ghost use Rattle.loft_tree.specs.NamedView.{statement_of, statements_of};
ghost use Rattle.loft_tree.specs.ProgramView.{module_of};
ghost use Rattle.loft_sense.specs.Tree.{first_some};
ghost use Rattle.loft_lock_forms.specs.Marks.{AreRising};
ghost use Rattle.loft_lock_forms.specs.Seen.{marks_seen, names_seen, use_seen};
ghost use Rattle.loft_locks.specs.Outline.{Outline, Takes, Gives, run_part, part, outline, has, closes, pair_fault};
ghost use Rattle.loft_lock_expansion.specs.Expansion.{first_unpaired};
ghost use Rattle.loft_lock_expansion.specs.Checks.{fault_in};
ghost use Rattle.loft_lock_pairs.specs.Seen.{lock_seen, fault_seen, form_of};

use crate::marks::use_at;
use loft_base::{ModuleId, NoMemory, Room};
use loft_lock_forms::{Mark, Use};
use loft_tree::{Module, NamedStmt};
use std::alloc::Global;

/// Whether one of these locks is called so.
fn has(locks: &[&[u8]], lock: &[u8]) -> bool
    ensures { result ≡ list_any (λ k. bytes_eq lock.now k.now) locks.now }
{
    locks.iter().any(|other| lock == *other)
}

/// What a statement stands for, if it stands in place of a form.
#[tactic(auto, using(loft_tree::proofs::NamedTrees::named_statements))]
fn form_of<'a>(marks: &[Mark<'a>], statement: &NamedStmt) -> Option<Use<'a>>
    requires { AreRising 0 (marks_seen marks.now) }
    ensures { option_map use_seen result ≡ form_of (marks_seen marks.now) (statement_of statement.now) }
{
    match statement {
        NamedStmt::Run { called, .. } => use_at(marks, *called as usize),
        NamedStmt::Do { .. }
        | NamedStmt::Hold { .. }
        | NamedStmt::If { .. }
        | NamedStmt::While { .. }
        | NamedStmt::Repeat { .. } => None,
    }
}

/// Whether the lock that was taken just before these statements is given back among them: an
/// `unlock` is that of the last `lock` that is open.
fn closes(marks: &[Mark], lock: &[u8], statements: &[NamedStmt]) -> bool
    requires { AreRising 0 (marks_seen marks.now) }
    ensures { result ≡ closes lock.now (outline (marks_seen marks.now) (λ i. false) (statements_of statements.now)) }
{
    let mut later = 0usize;
    for statement in statements {
        match form_of(marks, statement) {
            Some(Use::Take(other)) if lock == other => later += 1,
            Some(Use::Give(other)) if lock == other => {
                if later == 0 {
                    return true;
                }
                later -= 1;
            }
            Some(_) | None => {}
        }
    }
    false
}

/// Adds a lock before the others.
pub fn begin<'a>(room: &mut Room, own: &mut Vec<&'a [u8]>, lock: &'a [u8])
    ensures before { room.new.is_whole ≡ true → room.old.is_whole ≡ true }
    ensures own { room.new.is_whole ≡ true → own.new.items ≡ lock.entry ∷ own.old.items }
{
    match own.insert(0, lock) {
        Ok(()) => {}
        Err(_) => room.is_whole = false,
    }
}

/// Takes the first lock away.
pub fn end<'a>(own: &mut Vec<&'a [u8]>)
    ensures { own.new.items ≡ drop 1 own.old.items }
{
    if !own.is_empty() {
        own.remove(0);
    }
}

/// The locks of a body and those around it, innermost first.
pub fn around<'a>(room: &mut Room, own: &[&'a [u8]], outer: &[&'a [u8]]) -> Vec<&'a [u8]>
    ensures before { room.new.is_whole ≡ true → room.old.is_whole ≡ true }
    ensures all { room.new.is_whole ≡ true → result.items ≡ own.now ++ outer.now }
{
    let mut all = Vec::new(room.alloc);
    if all.extend_from_slice(own).is_err() || all.extend_from_slice(outer).is_err() {
        room.is_whole = false;
    }
    all
}

/// Begins a pair, if that breaks no rule; else its lock.
fn take<'a>(
    room: &mut Room,
    outer: &[&'a [u8]],
    own: &mut Vec<&'a [u8]>,
    lock: &'a [u8],
    is_closed: bool,
) -> Option<&'a [u8]>
    ensures before { room.new.is_whole ≡ true → room.old.is_whole ≡ true }
    ensures fault { room.new.is_whole ≡ true → (rest : Outline) → is_closed ≡ closes lock.now rest → first_some (lock_seen result) (pair_fault (names_seen outer.now) (names_seen own.new.items) rest)
        ≡ pair_fault (names_seen outer.now) (names_seen own.old.items) (Takes lock.now rest) }
{
    if has(own.as_slice(), lock) || has(outer, lock) || !is_closed {
        return Some(lock);
    }
    begin(room, own, lock);
    None
}

/// Ends a pair, if that breaks no rule; else its lock.
fn give<'a>(own: &mut Vec<&'a [u8]>, lock: &'a [u8]) -> Option<&'a [u8]>
    ensures fault { (outer : List (List ℕ)) (rest : Outline) → first_some (lock_seen result) (pair_fault outer (names_seen own.new.items) rest)
        ≡ pair_fault outer (names_seen own.old.items) (Gives lock.now rest) }
{
    match own.first() {
        Some(last) if lock == *last => {
            end(own);
            None
        }
        _ => Some(lock),
    }
}

/// The lock of a `run`, if it breaks a rule; `rest` comes after it in its body.
fn run_fault<'a>(
    room: &mut Room,
    marks: &[Mark<'a>],
    outer: &[&'a [u8]],
    own: &mut Vec<&'a [u8]>,
    used: Option<Use<'a>>,
    rest: &[NamedStmt],
) -> Option<&'a [u8]>
    requires { AreRising 0 (marks_seen marks.now) }
    ensures before { room.new.is_whole ≡ true → room.old.is_whole ≡ true }
    ensures fault { room.new.is_whole ≡ true → first_some (lock_seen result) (pair_fault (names_seen outer.now) (names_seen own.new.items) (outline (marks_seen marks.now) (λ i. false) (statements_of rest.now)))
        ≡ pair_fault (names_seen outer.now) (names_seen own.old.items) (run_part false (option_map use_seen used.entry) (outline (marks_seen marks.now) (λ i. false) (statements_of rest.now))) }
{
    match used {
        None => None,
        Some(Use::Take(lock)) => {
            let is_closed = closes(marks, lock, rest);
            take(room, outer, own, lock, is_closed)
        }
        Some(Use::Give(lock)) => give(own, lock),
    }
}

/// The lock of the statement, if it breaks a rule, or of the first in its bodies that does; `rest` comes after it in its body.
#[cycle(pairs)]
#[tactic(auto, using(loft_tree::proofs::NamedTrees::named_statements))]
fn fault_at<'a>(
    room: &mut Room,
    marks: &[Mark<'a>],
    outer: &[&'a [u8]],
    own: &mut Vec<&'a [u8]>,
    statement: &NamedStmt,
    rest: &[NamedStmt],
) -> Option<&'a [u8]>
    requires { AreRising 0 (marks_seen marks.now) }
    ensures before { room.new.is_whole ≡ true → room.old.is_whole ≡ true }
    ensures fault { room.new.is_whole ≡ true → first_some (lock_seen result) (pair_fault (names_seen outer.now) (names_seen own.new.items) (outline (marks_seen marks.now) (λ i. false) (statements_of rest.now)))
        ≡ pair_fault (names_seen outer.now) (names_seen own.old.items) (part (marks_seen marks.now) (λ i. false) (statement_of statement.now) (outline (marks_seen marks.now) (λ i. false) (statements_of rest.now))) }
{
    match statement {
        NamedStmt::Do { .. } | NamedStmt::Hold { .. } => None,
        NamedStmt::Run { called, .. } => {
            let used = use_at(marks, *called as usize);
            run_fault(room, marks, outer, own, used, rest)
        }
        NamedStmt::If { first, second, .. } => {
            let begun = around(room, own.as_slice(), outer);
            let fault = fault_in(room, marks, begun.as_slice(), first.as_slice());
            if fault.is_some() {
                return fault;
            }
            fault_in(room, marks, begun.as_slice(), second.as_slice())
        }
        NamedStmt::While { body, .. } | NamedStmt::Repeat { body, .. } => {
            let begun = around(room, own.as_slice(), outer);
            fault_in(room, marks, begun.as_slice(), body.as_slice())
        }
    }
}

/// The lock of the first statement of a body that breaks a rule, where the body stands in the pairs of `outer`.
#[cycle(pairs)]
fn fault_in<'a>(
    room: &mut Room,
    marks: &[Mark<'a>],
    outer: &[&'a [u8]],
    body: &[NamedStmt],
) -> Option<&'a [u8]>
    requires { AreRising 0 (marks_seen marks.now) }
    ensures before { room.new.is_whole ≡ true → room.old.is_whole ≡ true }
    ensures fault { room.new.is_whole ≡ true → lock_seen result ≡ pair_fault (names_seen outer.now) [] (outline (marks_seen marks.now) (λ i. false) (statements_of body.now)) }
{
    let mut own = Vec::new(room.alloc);
    let mut rest = body;
    for statement in body {
        let (_, after) = rest.split_at(1);
        rest = after;
        let fault = fault_at(room, marks, outer, &mut own, statement, after);
        if fault.is_some() {
            return fault;
        }
    }
    None
}

/// A fault of this module, by its lock.
pub fn told<'a>(number: usize, lock: Option<&'a [u8]>) -> Option<(ModuleId, &'a [u8])>
    requires { number ≤ 256 }
    ensures { fault_seen result ≡ fault_in (record { 0 = number }) (lock_seen lock.entry) }
{
    match lock {
        None => None,
        Some(lock) => Some((ModuleId(number as u32), lock)),
    }
}

/// The first module that breaks a rule of pairs, and the lock of its first statement that does.
///
/// # Errors
///
/// Out of memory.
pub fn first_unpaired<'a>(
    alloc: Global,
    marks: &[Mark<'a>],
    modules: &[Module],
) -> Result<Option<(ModuleId, &'a [u8])>, NoMemory>
    requires few { length modules.now ≤ 256 }
    requires rising { AreRising 0 (marks_seen marks.now) }
    ensures { IfOk result (λ found. fault_seen found ≡ first_unpaired (marks_seen marks.now) (map module_of modules.now)) }
{
    let mut room = Room::new(alloc);
    for number in 0..modules.len() {
        let lock = fault_in(&mut room, marks, &[], modules[number].body.as_slice());
        if lock.is_some() {
            return room.done(told(number, lock));
        }
    }
    room.done(None)
}
