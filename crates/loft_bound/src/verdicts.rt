//! What is known of the steps of each module's threads.

ghost use Rattle.std.specs.Prelude.{◌≡◌, ◌<◌, ◌^◌, Some, None, map, length, slice_get, IfOk};
ghost use Rattle.loft_tree.specs.declared.named.Module.{Module};
ghost use Rattle.loft_tree.specs.NamedView.{statements_of};
ghost use Rattle.loft_tree.specs.ProgramView.{program_of};
ghost use Rattle.loft_tree.specs.Resolved.{resolved_of};
ghost use Rattle.loft_body.specs.Capped.{TableIsSmall};
ghost use Rattle.loft_bound.specs.Kept.{KeepBounds};
ghost use Rattle.loft_budget.specs.Verdicts.{IsVerdict, AreVerdicts};
ghost use Rattle.loft_bound.specs.Found.{bounded_marks, IsStable, rows_of, items_of, last_verdict, verdict_by};

use crate::bounded::{MOST_BOUND, bound_of, marks_of, stable_table};
use crate::reaching::{reaching, rows};
use loft_base::{ModuleId, NoMemory};
use loft_body::{body_steps, first_endless, first_run};
use loft_budget::{Steps, Verdict, Verdicts};
use loft_place::Placed;
use loft_tree::{Module, NamedProgram, NamedStmt};
use std::alloc::Global;

/// The bound, where it isn't too large.
fn last_verdict(bound: u64) -> Verdict
    ensures { result ≡ last_verdict bound }
{
    if bound <= MOST_BOUND {
        Verdict::Bound(bound)
    } else {
        Verdict::Large
    }
}

/// The verdict of a module with this body, by all that is found.
fn verdict(
    table: &[Option<Steps>],
    marks: &[bool],
    reaching: &[bool],
    m: ModuleId,
    body: &[NamedStmt],
) -> Verdict
    requires small { TableIsSmall table.now }
    requires marks { marks.now ≡ bounded_marks table.now }
    ensures { result ≡ verdict_by table.now reaching.now m (statements_of body.now) }
{
    match first_run(reaching, true, Some(m), body) {
        Some(at) => Verdict::Recursive(at),
        None => match first_run(marks, false, None, body) {
            Some(at) => Verdict::Runs(at),
            None => match first_endless(table, body) {
                Some(at) => Verdict::Endless(at),
                None => last_verdict(bound_of(body_steps(table, body))),
            },
        },
    }
}

/// The verdict of one module.
fn module_verdict(
    alloc: Global,
    p: &NamedProgram,
    table: &[Option<Steps>],
    marks: &[bool],
    rows: &[Vec<ModuleId>],
    m: ModuleId,
    module: &Module,
) -> Result<Verdict, NoMemory>
    requires small { TableIsSmall table.now }
    requires marks { marks.now ≡ bounded_marks table.now }
    requires stable { IsStable (map (λ x. statements_of x.body.items) p.now.modules.items) table.now }
    requires rows { items_of rows.now ≡ rows_of (length p.now.modules.items) (map (λ x. statements_of x.body.items) p.now.modules.items) }
    requires there { slice_get p.now.modules.items m.0 ≡ Some «module».now }
    ensures { IfOk result (IsVerdict (program_of p.now) m) }
{
    let reaching = reaching(alloc, p.modules.as_slice(), rows, m)?;
    Ok(verdict(table, marks, reaching.as_slice(), m, module.body.as_slice()))
}

/// The verdicts of all modules, by their numbers.
fn verdicts_of(alloc: Global, p: &NamedProgram) -> Result<Verdicts, NoMemory>
    requires { length p.now.modules.items < 2 ^ 32 }
    ensures { IfOk result (AreVerdicts (program_of p.now)) }
{
    let table = stable_table(alloc, p.modules.as_slice())?;
    let marks = marks_of(alloc, table.as_slice())?;
    let rows = rows(alloc, p.modules.as_slice())?;
    let mut verdicts = Verdicts::new(alloc);
    for (number, module) in p.modules.as_slice().iter().enumerate() {
        let m = ModuleId(number as u32);
        verdicts.push(module_verdict(
            alloc,
            p,
            table.as_slice(),
            marks.as_slice(),
            rows.as_slice(),
            m,
            module,
        )?)?;
    }
    Ok(verdicts)
}

/// What is known of the steps of each module's threads, in the order of the text: the verdicts of
/// docs/SEMANTICS.md, "Step bounds". Threads keep each bound among them, in every history (`kept`).
///
/// # Errors
///
/// Out of memory for the verdicts.
pub fn bounds(alloc: Global, p: &Placed) -> Result<Verdicts, NoMemory>
    ensures verdicts { IfOk result (AreVerdicts (program_of p.now)) }
    ensures kept { IfOk result (KeepBounds (resolved_of (program_of p.now))) }
{
    verdicts_of(alloc, p.program())
}
