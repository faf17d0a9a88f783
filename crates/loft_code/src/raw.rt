//! Code that keeps the limits of a listing.

use crate::op::Op;
use loft_tree::{Heads, Place};
use std::marker::Model;

/// An operation, the place where its thread is linked as it begins, and its depth: how many counts of `repeat`s are active
/// then.
#[derive(Drop)]
pub struct CodeLine {
    pub place: Place,
    pub depth: u64,
    pub op: Op,
}

/// The code of a module: its operations, numbered from 0.
#[derive(Drop)]
pub struct ModuleCode {
    pub lines: Vec<CodeLine>,
}

/// A program as code: what it declares, and the code of each of its modules, by their numbers.
#[derive(Drop)]
pub struct CodeProgram {
    pub heads: Heads,
    pub modules: Vec<ModuleCode>,
}

/// Code that keeps the limits of a listing (docs/CODE.md, "Limits"), and whose starts and clients' creates fit what it
/// declares. Nothing is known of its operations: `validate` asks for that.
#[derive(Drop)]
pub struct RawCode {
    program: CodeProgram,
}

impl Model for RawCode {
    ghost use Rattle.loft_code.specs.declared.raw.CodeProgram.{CodeProgram};

    ghost Value = { CodeProgram };

    ghost use Rattle.loft_tree.specs.contracts.named.NamedExpr as term;
    ghost use Rattle.std.specs.Coded.{codes};

    ghost coded = { Prim.hlevel (codes, term.the_row.coded) };

    ghost view = { λ c. c.program };

    ghost use Rattle.loft_code.specs.View.{automata_of};
    ghost use Rattle.loft_code.specs.Fits.{RawFits};

    ghost invariant = { λ c. RawFits (automata_of c.program) };
}

impl RawCode {
    ghost use Rattle.std.specs.Prelude.{◌≡◌};
    ghost use Rattle.loft_code.specs.View.{automata_of};
    ghost use Rattle.loft_code.specs.Fits.{RawFits};

    /// The code, where it keeps the limits.
    pub fn new(program: CodeProgram) -> RawCode
        requires { RawFits (automata_of program) }
        ensures { result ≡ program }
    {
        RawCode { program }
    }

    /// What the code consists of.
    pub fn program(&self) -> &CodeProgram
        ensures program { result.now ≡ self.now }
        ensures fits { RawFits (automata_of self.now) }
    {
        &self.program
    }
}
