//! The modules that have a bound, with their steps, as a table.

ghost use Rattle.std.specs.Prelude.{◌≡◌, ◌+◌, Option, Some, None, map, max, is_some, IfOk};
ghost use Rattle.loft_tree.specs.Fits.{IfThere as Holds};
ghost use Rattle.loft_tree.specs.declared.named.Module.{Module};
ghost use Rattle.loft_tree.specs.NamedView.{statements_of};
ghost use Rattle.loft_tree.specs.Resolved.{body_of};
ghost use Rattle.loft_bound.specs.declared.bounded.TheConstants.{MOST_BOUND};
ghost use Rattle.loft_budget.specs.Steps.{plus};
ghost use Rattle.loft_budget.specs.Bounds.{or_zero, bound_of, bounded_steps};
ghost use Rattle.loft_body.specs.Capped.{AreSmall, IsSmall, entry, TableIsSmall};
ghost use Rattle.loft_bound.specs.Found.{bounded_marks, count, next_table, IsStable};

use loft_base::NoMemory;
use loft_body::{body_steps, first_endless, first_run};
use loft_budget::Steps;
use loft_tree::{Module, NamedStmt};
use std::alloc::Global;

/// The greatest bound that is told.
pub const MOST_BOUND: u64 = 1_000_000;

/// The larger of two numbers.
fn larger_of(a: u64, b: u64) -> u64
    ensures { result ≡ max a b }
{
    if a < b { b } else { a }
}

/// A number, or 0 where there is none.
fn or_zero(a: Option<u64>) -> u64
    ensures { result ≡ or_zero a }
{
    match a {
        Some(n) => n,
        None => 0,
    }
}

/// The same with the step of going on.
fn going_on(a: Option<u64>) -> u64
    requires { IsSmall a }
    ensures { result ≡ or_zero (plus (Some 1) a) }
{
    match a {
        Some(n) => 1 + n,
        None => 0,
    }
}

/// The most steps of a thread in an instant.
pub fn bound_of(steps: Steps) -> u64
    requires { AreSmall steps }
    ensures { result ≡ bound_of steps }
{
    let to_sure = larger_of(going_on(steps.through), going_on(steps.head));
    larger_of(to_sure, larger_of(or_zero(steps.tail), or_zero(steps.most)))
}

/// The steps of a module with this body, where it has a bound by the table.
fn bounded(table: &[Option<Steps>], marks: &[bool], body: &[NamedStmt]) -> Option<Steps>
    requires small { TableIsSmall table.now }
    requires marks { marks.now ≡ bounded_marks table.now }
    ensures steps { result ≡ bounded_steps (entry table.now) (Some (body_of (statements_of body.now))) }
    ensures small { Holds AreSmall result }
{
    match first_run(marks, false, None, body) {
        Some(_) => None,
        None => match first_endless(table, body) {
            Some(_) => None,
            None => {
                let steps = body_steps(table, body);
                if bound_of(steps) <= MOST_BOUND {
                    Some(steps)
                } else {
                    None
                }
            }
        },
    }
}

/// Which modules have a bound by the table.
pub fn marks_of(alloc: Global, table: &[Option<Steps>]) -> Result<Vec<bool>, NoMemory>
    ensures { IfOk result (λ v. v.items ≡ bounded_marks table.now) }
{
    let mut marks = Vec::new(alloc);
    for steps in table {
        marks.push(steps.is_some())?;
    }
    Ok(marks)
}

/// How many modules have a bound by the table.
fn count(table: &[Option<Steps>]) -> usize
    ensures { result ≡ count table.now }
{
    let mut count = 0;
    for steps in table {
        count += steps.is_some() as usize;
    }
    count
}

/// The table of the next depth.
fn next_table(
    alloc: Global,
    modules: &[Module],
    table: &[Option<Steps>],
) -> Result<Vec<Option<Steps>>, NoMemory>
    requires { TableIsSmall table.now }
    ensures table { IfOk result (λ v. v.items ≡ next_table table.now (map (λ m. statements_of m.body.items) modules.now)) }
    ensures small { IfOk result (λ v. TableIsSmall v.items) }
{
    let marks = marks_of(alloc, table)?;
    let mut next = Vec::new(alloc);
    for module in modules {
        next.push(bounded(table, marks.as_slice(), module.body.as_slice()))?;
    }
    Ok(next)
}

/// The table of all modules that have a bound, with their steps.
pub fn stable_table(alloc: Global, modules: &[Module]) -> Result<Vec<Option<Steps>>, NoMemory>
    ensures table { IfOk result (λ v. IsStable (map (λ m. statements_of m.body.items) modules.now) v.items) }
    ensures small { IfOk result (λ v. TableIsSmall v.items) }
{
    let mut table = next_table(alloc, modules, &[])?;
    let mut known = count(table.as_slice());
    for _ in 0..modules.len() {
        let next = next_table(alloc, modules, table.as_slice())?;
        let more = count(next.as_slice());
        if more <= known {
            return Ok(table);
        }
        table = next;
        known = more;
    }
    Ok(table)
}
