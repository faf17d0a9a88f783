//! The modules that reach one by `run`.

ghost use Rattle.std.specs.Prelude.{◌≡◌, ◌<◌, ◌^◌, Some, true, map, length, IfOk};
ghost use Rattle.std.specs.List.{list_any};
ghost use Rattle.loft_tree.specs.declared.named.Module.{Module};
ghost use Rattle.loft_tree.specs.NamedView.{statements_of};
ghost use Rattle.loft_budget.specs.Verdicts.{runs_in};
ghost use Rattle.loft_body.specs.First.{has_mark};
ghost use Rattle.loft_bound.specs.Found.{next_by, called_to, rows_of, items_of, count_marks, AllReaching};

use loft_base::{ModuleId, NoMemory};
use loft_body::{first_run, has_mark};
use loft_tree::{Module, NamedStmt};
use std::alloc::Global;

/// How many modules are marked.
fn count(marks: &[bool]) -> usize
    ensures { result ≡ count_marks marks.now }
{
    let mut count = 0;
    for mark in marks {
        count += *mark as usize;
    }
    count
}

/// Whether one of these is m or is marked.
fn any_marked(marks: &[bool], m: ModuleId, called: &[ModuleId]) -> bool
    ensures { result ≡ list_any (has_mark marks.now true (Some m)) called.now }
{
    let mut any = false;
    for q in called {
        any = any || has_mark(marks, true, Some(m), *q);
    }
    any
}

/// The modules that run m or a marked one, by those that each one runs.
fn next_reaching(
    alloc: Global,
    rows: &[Vec<ModuleId>],
    m: ModuleId,
    marks: &[bool],
) -> Result<Vec<bool>, NoMemory>
    ensures { IfOk result (λ v. v.items ≡ next_by m marks.now (items_of rows.now)) }
{
    let mut next = Vec::new(alloc);
    for row in rows {
        next.push(any_marked(marks, m, row.as_slice()))?;
    }
    Ok(next)
}

/// The modules that a body runs, each once, of so many modules.
fn row(alloc: Global, many: usize, body: &[NamedStmt]) -> Result<Vec<ModuleId>, NoMemory>
    requires { many < 2 ^ 32 }
    ensures { IfOk result (λ v. v.items ≡ called_to (runs_in (statements_of body.now)) many) }
{
    let mut called = Vec::new(alloc);
    for number in 0..many {
        let m = ModuleId(number as u32);
        if first_run(&[], true, Some(m), body).is_some() {
            called.push(m)?;
        }
    }
    Ok(called)
}

/// The modules that each one runs.
pub fn rows(alloc: Global, modules: &[Module]) -> Result<Vec<Vec<ModuleId>>, NoMemory>
    requires { length modules.now < 2 ^ 32 }
    ensures { IfOk result (λ v. items_of v.items ≡ rows_of (length modules.now) (map (λ m. statements_of m.body.items) modules.now)) }
{
    let mut rows = Vec::new(alloc);
    for module in modules {
        rows.push(row(alloc, modules.len(), module.body.as_slice())?)?;
    }
    Ok(rows)
}

/// The modules that reach m.
pub fn reaching(
    alloc: Global,
    modules: &[Module],
    rows: &[Vec<ModuleId>],
    m: ModuleId,
) -> Result<Vec<bool>, NoMemory>
    requires rows { items_of rows.now ≡ rows_of (length modules.now) (map (λ m. statements_of m.body.items) modules.now) }
    requires there { m.0 < length modules.now }
    ensures { IfOk result (λ v. AllReaching m (map (λ m. statements_of m.body.items) modules.now) v.items) }
{
    let mut marks = next_reaching(alloc, rows, m, &[])?;
    let mut known = count(marks.as_slice());
    for _ in 0..modules.len() {
        let next = next_reaching(alloc, rows, m, marks.as_slice())?;
        let more = count(next.as_slice());
        if more <= known {
            return Ok(marks);
        }
        marks = next;
        known = more;
    }
    Ok(marks)
}
