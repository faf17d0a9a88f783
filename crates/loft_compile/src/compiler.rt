//! The compiler: from source trees to code.

ghost use Rattle.std.specs.Prelude.{◌≡◌, ◌+◌, ◌≤◌, ◌<◌, ◌^◌, ◌++◌, ◌∷◌, [], length, map, IfOk, OnOk};
ghost use Rattle.loft_tree.specs.NamedView.{statement_of, statements_of};
ghost use Rattle.loft_tree.specs.ProgramView.{module_of, program_of};
ghost use Rattle.loft_tree.specs.Resolved.{step_of, body_of, resolved_of};
ghost use Rattle.loft_code.specs.Operations.{Jump};
ghost use Rattle.loft_code.specs.View.{operation_of, line_of, lines_of, automata_of};
ghost use Rattle.loft_sense.specs.Stands.{begin_of, end_of, leads_step, leads};
ghost use Rattle.loft_translation.specs.Compiled.{line, step_lines, body_lines, module_lines, modules_from, compiled};
ghost use Rattle.loft_compile.specs.Targets.{lines_with_target, place_past};

use crate::copy;
use crate::operation::{first_operation, set_target};
use loft_base::{ModuleId, NoMemory, TryClone};
use loft_code::{Code, CodeLine, CodeProgram, ModuleCode, Op, RawCode};
use loft_place::Placed;
use loft_translation::compiled_code_is_valid;
use loft_tree::{Heads, Module, NamedStmt, Pause, Place};
use std::alloc::Global;

/// Where the module begins; nowhere, if it isn't declared.
fn begin_of(heads: &Heads, module: ModuleId) -> Place
    ensures { result ≡ begin_of heads.now «module» }
{
    match heads.modules.as_slice().get(module.0 as usize) {
        Some(signature) => signature.begin,
        None => Place::Unlinked,
    }
}

/// Where the module ends; nowhere, if it isn't declared.
fn end_of(heads: &Heads, module: ModuleId) -> Place
    ensures { result ≡ end_of heads.now «module» }
{
    match heads.modules.as_slice().get(module.0 as usize) {
        Some(signature) => signature.end,
        None => Place::Unlinked,
    }
}

/// Where a thread is linked after an operation that it was linked here before.
fn place_past(heads: &Heads, op: &Op, here: Place) -> Place
    ensures { result ≡ place_past heads.now (operation_of op.now) here }
{
    match op {
        Op::Hold { pause, .. } => match pause {
            Pause::Link(scheduler) => Place::Sched(*scheduler),
            Pause::Unlink => Place::Unlinked,
            Pause::Cooperate { .. }
            | Pause::Await { .. }
            | Pause::Get { .. }
            | Pause::Join { .. }
            | Pause::Halt => here,
        },
        Op::Run { module, .. } => end_of(heads, *module),
        Op::Do(_)
        | Op::Branch { .. }
        | Op::Enter
        | Op::Count(_)
        | Op::Turn { .. }
        | Op::Jump { .. }
        | Op::End => here,
    }
}

/// Writes the operations of a module, one after the other.
#[derive(Drop)]
struct Writer {
    alloc: Global,
    lines: Vec<CodeLine>,
}

impl Writer {
    /// One more operation, where the thread is linked here and so many counts are active.
    fn put(&mut self, here: Place, depth: u64, op: Op) -> Result<(), NoMemory>
        ensures { OnOk result (map line_of self.new.lines.items
            ≡ map line_of self.old.lines.items ++ line here depth (operation_of op) ∷ []) }
    {
        self.lines.push(CodeLine {
            place: here,
            depth,
            op,
        })?;
        Ok(())
    }

    /// The `branch`, `turn` or `jump` with this number goes to the operation that is written next.
    fn set_target(&mut self, number: usize)
        requires { number < length self.old.lines.items }
        ensures lines { map line_of self.new.lines.items
            ≡ lines_with_target (map line_of self.old.lines.items) number (length self.old.lines.items) }
        ensures len { length self.new.lines.items ≡ length self.old.lines.items }
    {
        let next = self.lines.len() as u64;
        set_target(&mut self.lines[number].op, next);
    }

    /// Ends a loop: a `jump` back to its `branch` or `turn`, which has this number and goes past the `jump`.
    fn go_back(&mut self, number: usize, here: Place, depth: u64) -> Result<(), NoMemory>
        requires { number < length self.old.lines.items }
        ensures { OnOk result (map line_of self.new.lines.items
            ≡ lines_with_target (map line_of self.old.lines.items ++ line here depth (Jump number) ∷ [])
            number (length self.old.lines.items + 1)) }
    {
        let target = number as u64;
        self.put(here, depth, Op::Jump { target })?;
        self.set_target(number);
        Ok(())
    }

    /// The code of a statement before which the thread is linked here, inside so many `repeat`s; where it is linked after
    /// the statement.
    #[cycle(write)]
    fn statement(
        &mut self,
        heads: &Heads,
        s: &NamedStmt,
        here: Place,
        depth: u64,
    ) -> Result<Place, NoMemory>
        requires { depth ≤ length self.old.lines.items }
        ensures lines { OnOk result (map line_of self.new.lines.items ≡ map line_of self.old.lines.items
            ++ step_lines heads.now (step_of (statement_of s.now)) (length self.old.lines.items) depth here) }
        ensures place { IfOk result (λ there. there ≡ leads_step heads.now (step_of (statement_of s.now)) here) }
    {
        let begin = self.lines.len();
        let first = first_operation(self.alloc, s)?;
        let there = place_past(heads, &first, here);
        self.put(here, depth, first)?;
        match s {
            NamedStmt::If { first, second, .. } => {
                let there = self.body(heads, first.as_slice(), here, depth)?;
                if second.is_empty() {
                    self.set_target(begin);
                    return Ok(there);
                }
                let jump = self.lines.len();
                self.put(there, depth, Op::Jump { target: 0 })?;
                self.set_target(begin);
                self.body(heads, second.as_slice(), here, depth)?;
                self.set_target(jump);
                Ok(there)
            }
            NamedStmt::While { test, body, .. } => {
                let again = self.lines.len();
                let test = copy::whole_expression(self.alloc, test)?;
                self.put(here, depth, Op::Branch { target: 0, test })?;
                let there = self.body(heads, body.as_slice(), here, depth)?;
                self.go_back(again, there, depth)?;
                Ok(here)
            }
            NamedStmt::Repeat { body, .. } => {
                let turn = self.lines.len();
                self.put(here, depth + 1, Op::Turn { target: 0 })?;
                let there = self.body(heads, body.as_slice(), here, depth + 1)?;
                self.go_back(turn, there, depth + 1)?;
                Ok(here)
            }
            NamedStmt::Do { .. } | NamedStmt::Hold { .. } | NamedStmt::Run { .. } => Ok(there),
        }
    }

    /// The same of a body.
    #[cycle(write)]
    fn body(
        &mut self,
        heads: &Heads,
        body: &[NamedStmt],
        begin: Place,
        depth: u64,
    ) -> Result<Place, NoMemory>
        requires { depth ≤ length self.old.lines.items }
        ensures lines { OnOk result (map line_of self.new.lines.items ≡ map line_of self.old.lines.items
            ++ body_lines heads.now (body_of (statements_of body.now)) (length self.old.lines.items) depth begin) }
        ensures place { IfOk result (λ there. there ≡ leads heads.now (body_of (statements_of body.now)) begin) }
    {
        let mut here = begin;
        for s in body {
            here = self.statement(heads, s, here, depth)?;
        }
        Ok(here)
    }
}

/// The code of a module.
fn module_code(
    alloc: Global,
    heads: &Heads,
    number: ModuleId,
    module: &Module,
) -> Result<ModuleCode, NoMemory>
    ensures { IfOk result (λ code. lines_of code
        ≡ module_lines heads.now number (body_of (module_of «module».now).body)) }
{
    let mut writer = Writer {
        alloc,
        lines: Vec::new(alloc),
    };
    let there = writer.body(heads, module.body.as_slice(), begin_of(heads, number), 0)?;
    writer.put(there, 0, Op::End)?;
    Ok(ModuleCode {
        lines: writer.lines,
    })
}

/// The code of modules, by their numbers.
fn modules_code(
    alloc: Global,
    heads: &Heads,
    modules: &[Module],
) -> Result<Vec<ModuleCode>, NoMemory>
    requires { length modules.now < 2 ^ 32 }
    ensures { IfOk result (λ code. map lines_of code.items
        ≡ modules_from heads.now 0 (map (λ m. body_of m.body) (map module_of modules.now))) }
{
    let mut code = Vec::new(alloc);
    for (number, module) in modules.iter().enumerate() {
        code.push(module_code(alloc, heads, ModuleId(number as u32), module)?)?;
    }
    Ok(code)
}

/// The code of a program (docs/CODE.md, "The compiler's code"). It keeps the limits of a listing and is valid
/// (docs/CODE.md, "Limits" and "Valid code"): the type `Code` keeps that, and nothing is tested again. `NoMemory` comes where
/// it is out of memory for the code.
pub fn compile(alloc: Global, p: &Placed) -> Result<Code, NoMemory>
    ensures { IfOk result (λ c. automata_of c ≡ compiled (resolved_of (program_of p.now))) }
{
    compiled_code_is_valid();
    let program = p.program();
    let modules = modules_code(alloc, &program.heads, program.modules.as_slice())?;
    let heads = program.heads.try_clone(alloc)?;
    Ok(Code::new(RawCode::new(CodeProgram { heads, modules })))
}
