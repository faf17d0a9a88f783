//! Programs whose threads are linked wherever their statements need it.

ghost use Rattle.std.specs.Prelude.{◌≡◌, IfOk, IfErr, OnOk};
ghost use Rattle.loft_tree.specs.ProgramView.{program_of};
ghost use Rattle.loft_tree.specs.NamedFits.{NamedFits};
ghost use Rattle.loft_place.specs.Links.{IsPlaced, PlaceFault};

use crate::error::PlaceError;
use crate::links::check_links;
use loft_tree::{Heads, Module, Named, NamedProgram};
use std::alloc::Global;
use std::marker::Model;

/// A program in numbers, whose numbers, kinds and sizes are those of the language, and whose threads are linked wherever
/// its statements need it (docs/LANGUAGE.md, "Links").
#[derive(Drop)]
pub struct Placed {
    named: Named,
}

impl Model for Placed {
    ghost use Rattle.loft_tree.specs.declared.named.NamedProgram.{NamedProgram};

    ghost Value = { NamedProgram };

    ghost use Rattle.loft_tree.specs.contracts.named.NamedStmt as statement;
    ghost use Rattle.std.specs.Coded.{codes};

    ghost coded = { Prim.hlevel (codes, statement.the_row.coded) };

    ghost view = { λ p. p.named };

    ghost use Rattle.loft_tree.specs.ProgramView.{program_of};
    ghost use Rattle.loft_place.specs.Links.{IsPlaced};

    ghost invariant = { λ p. IsPlaced (program_of p.named) };
}

impl Placed {
    /// What the program consists of.
    pub fn program(&self) -> &NamedProgram
        ensures program { result.now ≡ self.now }
        ensures fits { NamedFits (program_of self.now) }
        ensures placed { IsPlaced (program_of self.now) }
    {
        self.named.program()
    }

    /// What the program declares outside module bodies.
    pub fn heads(&self) -> &Heads
        ensures { result.now ≡ self.now.heads }
    {
        &self.named.program().heads
    }

    /// The modules of the program, by their numbers.
    pub fn modules(&self) -> &[Module]
        ensures { result.now ≡ self.now.modules.items }
    {
        self.named.program().modules.as_slice()
    }
}

/// The same program, if its threads are linked wherever its statements need it (docs/LANGUAGE.md, "Links"); else its first
/// fault, declarations in the order of the text. It takes no memory.
pub fn place(_alloc: Global, n: Named) -> Result<Placed, PlaceError>
    ensures program { IfOk result (λ p. p ≡ n) }
    ensures placed { OnOk result (IsPlaced (program_of n)) }
    ensures fault { IfErr result (PlaceFault (program_of n)) }
{
    let program = n.program();
    check_links(
        &program.heads,
        program.modules.as_slice(),
        program.links.as_slice(),
    )?;
    Ok(Placed { named: n })
}
