//! Code whose operations are valid.

ghost use Rattle.std.specs.Prelude.{◌≡◌, ◌<◌, ◌^◌, Some, None, length, map, if◌then◌else◌, MatchResult, IfOk, IfErr, OnOk, IsOk};
ghost use Rattle.loft_tree.specs.Fits.{Each};
ghost use Rattle.loft_code.specs.View.{line_of, lines_of, code_of, automata_of};
ghost use Rattle.loft_code.specs.Fits.{AreFew, RawFits};
ghost use Rattle.loft_code.specs.Valid.{is_stop, stops_before, line_error, errors_in, error_at, NoError, FirstError, Valid, CodeFault};

use crate::counts::has_bad_count;
use crate::error::{CodeError, OpAt};
use crate::jumps::{is_wrong_stop, jumps_out};
use crate::kinds::has_bad_kind;
use crate::names::has_bad_name;
use crate::op::stop_of;
use crate::places::has_bad_place;
use crate::raw::{CodeLine, CodeProgram, ModuleCode, RawCode};
use loft_base::ModuleId;
use loft_tree::{Heads, Signature};
use std::alloc::Global;
use std::marker::Model;

/// Code that keeps the limits of a listing, and none of whose operations has an error (docs/CODE.md, "Valid code").
#[derive(Drop)]
pub struct Code {
    raw: RawCode,
}

impl Model for Code {
    ghost use Rattle.loft_code.specs.declared.raw.CodeProgram.{CodeProgram};

    ghost Value = { CodeProgram };

    ghost use Rattle.loft_tree.specs.contracts.named.NamedExpr as term;
    ghost use Rattle.std.specs.Coded.{codes};

    ghost coded = { Prim.hlevel (codes, term.the_row.coded) };

    ghost view = { λ c. c.raw };

    ghost use Rattle.loft_code.specs.View.{automata_of};
    ghost use Rattle.loft_code.specs.Valid.{Valid};

    ghost invariant = { λ c. Valid (automata_of c.raw) };
}

impl Code {
    /// The code, where no operation has an error.
    pub fn new(raw: RawCode) -> Code
        requires { Valid (automata_of raw) }
        ensures { result ≡ raw }
    {
        Code { raw }
    }

    /// What the code consists of.
    pub fn program(&self) -> &CodeProgram
        ensures program { result.now ≡ self.now }
        ensures fits { RawFits (automata_of self.now) }
        ensures valid { Valid (automata_of self.now) }
    {
        self.raw.program()
    }

    /// The same without the knowledge that it is valid.
    pub fn raw(&self) -> &RawCode
        ensures { result.now ≡ self.now }
    {
        &self.raw
    }

    /// What the code declares.
    pub fn heads(&self) -> &Heads
        ensures { result.now ≡ self.now.heads }
    {
        &self.raw.program().heads
    }
}

/// Whether an operation has an error, and which is the first. So many stops of its module stand before it.
fn check_line(
    heads: &Heads,
    signature: &Signature,
    lines: &[CodeLine],
    at: OpAt,
    line: &CodeLine,
    before: u64,
) -> Result<(), CodeError>
    requires op { at.op < 2 ^ 32 }
    requires before { before ≡ stops_before (map line_of lines.now) at.op }
    requires few { before < 2 ^ 32 }
    ensures { MatchResult result
        (λ _. line_error heads.now at.«module» signature.now
        (map line_of lines.now) at.op (line_of line.now) ≡ None)
        (λ e. line_error heads.now at.«module» signature.now
        (map line_of lines.now) at.op (line_of line.now) ≡ Some e) }
{
    let number = u64::from(at.op);
    if jumps_out(lines, number, &line.op) {
        return Err(CodeError::JumpOut(at));
    }
    if has_bad_name(heads, signature, line) {
        return Err(CodeError::BadName(at));
    }
    if is_wrong_stop(&line.op, before) {
        return Err(CodeError::BadStop(at));
    }
    if has_bad_place(heads, signature, lines, number, line) {
        return Err(CodeError::BadPlace(at));
    }
    if has_bad_count(lines, number, line) {
        return Err(CodeError::BadCount(at));
    }
    if has_bad_kind(heads, signature, line) {
        return Err(CodeError::KindMismatch(at));
    }
    Ok(())
}

/// One for a stop, else none.
fn stops_of(line: &CodeLine) -> u64
    ensures { result ≡ (if is_stop (line_of line.now) then 1 else 0) }
{
    match stop_of(&line.op) {
        Some(_) => 1,
        None => 0,
    }
}

/// Whether an operation of a module has an error: the first of the first.
fn check_lines(
    heads: &Heads,
    signature: &Signature,
    module: ModuleId,
    lines: &[CodeLine],
) -> Result<(), CodeError>
    requires { AreFew (map line_of lines.now) }
    ensures { MatchResult result
        (λ _. NoError (errors_in heads.now «module» signature.now (map line_of lines.now)))
        (FirstError (errors_in heads.now «module» signature.now (map line_of lines.now))) }
{
    if lines.is_empty() {
        return Err(CodeError::JumpOut(OpAt { module, op: 0 }));
    }
    let mut before = 0;
    for (number, line) in lines.iter().enumerate() {
        let at = OpAt {
            module,
            op: number as u32,
        };
        check_line(heads, signature, lines, at, line, before)?;
        before += stops_of(line);
    }
    Ok(())
}

/// The same of the module with this number.
fn check_module(heads: &Heads, modules: &[ModuleCode], module: ModuleId) -> Result<(), CodeError>
    requires { Each AreFew (map lines_of modules.now) }
    ensures { MatchResult result
        (λ _. NoError (error_at (code_of heads.now modules.now) «module»))
        (FirstError (error_at (code_of heads.now modules.now) «module»)) }
{
    let Some(signature) = heads.modules.as_slice().get(module.0 as usize) else {
        return Ok(());
    };
    let Some(code) = modules.get(module.0 as usize) else {
        return Ok(());
    };
    check_lines(heads, signature, module, code.lines.as_slice())
}

/// The same of all modules, in the order of the text.
pub fn check_modules(heads: &Heads, modules: &[ModuleCode]) -> Result<(), CodeError>
    requires few { length modules.now < 2 ^ 32 }
    requires each { Each AreFew (map lines_of modules.now) }
    ensures { MatchResult result
        (λ _. Valid (code_of heads.now modules.now))
        (CodeFault (code_of heads.now modules.now)) }
{
    for number in 0..modules.len() {
        check_module(heads, modules, ModuleId(number as u32))?;
    }
    Ok(())
}

/// The same code, if none of its operations has an error (docs/CODE.md, "Valid code"); else the first error of the first
/// operation that has one, modules in the order of the text. It takes no memory.
pub fn validate(_alloc: Global, raw: RawCode) -> Result<Code, CodeError>
    ensures code { IfOk result (λ code. code ≡ raw) }
    ensures valid { OnOk result (Valid (automata_of raw)) }
    ensures fault { IfErr result (CodeFault (automata_of raw)) }
    ensures accepted { Valid (automata_of raw) → IsOk result }
{
    let program = raw.program();
    check_modules(&program.heads, program.modules.as_slice())?;
    Ok(Code::new(raw))
}
