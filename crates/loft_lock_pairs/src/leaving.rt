//! Modules that leave: with a `link` or an `unlink`, or a `run` of a module that leaves.

ghost use Rattle.std.specs.Prelude.{◌≡◌, ℕ, map, length, IfOk, IfSome, IsNone};
ghost use Rattle.loft_tree.specs.NamedView.{statement_of, statements_of};
ghost use Rattle.loft_tree.specs.ProgramView.{module_of};
ghost use Rattle.loft_tree.specs.Source.{Source};
ghost use Rattle.loft_numbers.specs.Numbers.{numbered};
ghost use Rattle.loft_lock_expansion.specs.Expansion.{TellsLeaving};
ghost use Rattle.loft_lock_pairs.specs.Leaving.{marked_in, bodies_of, IsUnmarked};
ghost use Rattle.loft_tree.specs.NamedView as named;
ghost use Rattle.loft_tree.specs.Resolved.{pause_of, step_of, body_of};
ghost use Rattle.loft_locks.specs.Locks.{is_away};
ghost use Rattle.loft_lock_expansion.specs.Going.{step_goes, body_goes};

use loft_base::{ModuleId, NoMemory};
use loft_tree::{Module, NamedStmt, Pause};
use std::alloc::Global;

/// Whether the module is marked.
pub fn is_away(away: &[bool], module: ModuleId) -> bool
    ensures { result ≡ marked_in away.now «module» }
{
    match away.get(module.0 as usize) {
        Some(mark) => *mark,
        None => false,
    }
}

/// Whether the pause is a `link` or an `unlink`.
pub fn pause_leaves(pause: &Pause) -> bool
    ensures { result ≡ is_away (pause_of (named.pause_of pause.now)) }
{
    match pause {
        Pause::Link(_) | Pause::Unlink => true,
        Pause::Cooperate { .. }
        | Pause::Await { .. }
        | Pause::Get { .. }
        | Pause::Join { .. }
        | Pause::Halt => false,
    }
}

/// Whether the statement has a `link` or an `unlink` in it, or a `run` of a marked module.
#[cycle(leaves)]
#[tactic(auto, using(loft_tree::proofs::NamedTrees::named_statements))]
fn statement_leaves(away: &[bool], statement: &NamedStmt) -> bool
    ensures { result ≡ step_goes (marked_in away.now) (step_of (statement_of statement.now)) }
{
    match statement {
        NamedStmt::Do { .. } => false,
        NamedStmt::Hold { pause, .. } => pause_leaves(pause),
        NamedStmt::Run { module, .. } => is_away(away, *module),
        NamedStmt::If { first, second, .. } => {
            body_leaves(away, first.as_slice()) || body_leaves(away, second.as_slice())
        }
        NamedStmt::While { body, .. } | NamedStmt::Repeat { body, .. } => {
            body_leaves(away, body.as_slice())
        }
    }
}

/// The same of a body.
#[cycle(leaves)]
fn body_leaves(away: &[bool], body: &[NamedStmt]) -> bool
    ensures { result ≡ body_goes (marked_in away.now) (body_of (statements_of body.now)) }
{
    for statement in body {
        if statement_leaves(away, statement) {
            return true;
        }
    }
    false
}

/// The first module that leaves and isn't marked.
fn first_unmarked(away: &[bool], modules: &[Module]) -> Option<usize>
    requires { length away.now ≡ length modules.now }
    ensures some { IfSome result (IsUnmarked away.now (bodies_of modules.now)) }
    ensures none { IsNone result → (n : ℕ) → IsUnmarked away.now (bodies_of modules.now) n → ⊥ }
{
    let mut number = 0;
    while number < modules.len() {
        if !away[number] && body_leaves(away, modules[number].body.as_slice()) {
            return Some(number);
        }
        number += 1;
    }
    None
}

/// Marks of the modules that leave.
///
/// # Errors
///
/// Out of memory.
pub fn leaving_modules(alloc: Global, modules: &[Module]) -> Result<Vec<bool>, NoMemory>
    ensures { IfOk result (λ away. (s : Source) → (numbered s).modules ≡ map module_of modules.now → TellsLeaving s (marked_in away.items)) }
{
    let mut away = Vec::new(alloc);
    away.resize(modules.len(), false)?;
    while let Some(number) = first_unmarked(away.as_slice(), modules) {
        away[number] = true;
    }
    Ok(away)
}
