//! Code that no listing says: of a module without a name, and with numbers that nothing declares.

ghost use Rattle.std.specs.Prelude.{◌≡◌, [], ◌∷◌, IfOk};
ghost use Rattle.loft_tree.specs.declared.heads.Place.TheVariants.{Unlinked};
ghost use Rattle.loft_tree.specs.declared.heads.HeadItem.TheVariants.{Module as AModule};
ghost use Rattle.loft_code.specs.View.{lines_of};
ghost use Rattle.loft_code.specs.Fits.{LinesFit};

use super::at;
use loft_base::{ModuleId, NoMemory, SchedId, Sequence};
use loft_code::{CodeError, CodeLine, CodeProgram, ModuleCode, Op, RawCode, validate};
use loft_tree::{HeadItem, Heads, NamedExpr, Pause, Place, SharedHeads, Signature};
use std::alloc::Global;
use std::test::Fail;

/// `module m() in unlinked`
fn heads(alloc: Global) -> Result<Heads, NoMemory>
    ensures { IfOk result (λ h. h ≡ record {
      schedulers = [];
      events = [];
      shared = [];
      modules = record {
        name = 109 ∷ [];
        parameters = [];
        locals = [];
        begin = Unlinked;
        end = Unlinked;
      } ∷ [];
      starts = [];
      clients = [];
      items = AModule (record { 0 = 0 }) ∷ [];
    }) }
{
    let mut modules = Sequence::new(alloc);
    modules.push(Signature {
        name: Sequence::from_slice(alloc, b"m")?,
        parameters: Sequence::new(alloc),
        locals: Sequence::new(alloc),
        begin: Place::Unlinked,
        end: Place::Unlinked,
    })?;
    Ok(Heads {
        schedulers: Sequence::new(alloc),
        events: Sequence::new(alloc),
        shared: SharedHeads::none(alloc),
        modules,
        starts: Sequence::new(alloc),
        clients: Sequence::new(alloc),
        items: Sequence::from_slice(alloc, &[HeadItem::Module(ModuleId(0))])?,
    })
}

/// Code of that module.
fn code(alloc: Global, lines: Vec<CodeLine>) -> Result<RawCode, NoMemory>
    requires { LinesFit (lines_of (record { lines = lines })) }
{
    let heads = heads(alloc)?;
    let mut modules = Vec::new(alloc);
    modules.push(ModuleCode { lines })?;
    Ok(RawCode::new(CodeProgram { heads, modules }))
}

#[test]
fn an_end_is_enough(rt: HostRuntime) -> Result<(), Fail> {
    let mut lines = Vec::new(rt.alloc());
    lines.push(CodeLine {
        place: Place::Unlinked,
        depth: 0,
        op: Op::End,
    })?;
    let valid = validate(rt.alloc(), code(rt.alloc(), lines)?).expect(&rt, "valid");
    assert_eq!(rt; valid.heads().modules.len(), 1);
    assert_eq!(rt; valid.program().modules.len(), 1);
    assert_eq!(rt; valid.raw().program().modules.len(), 1);
    Ok(())
}

/// The error of code of that module.
fn error(alloc: Global, lines: Vec<CodeLine>) -> Result<Option<CodeError>, NoMemory>
    requires { LinesFit (lines_of (record { lines = lines })) }
{
    let raw = code(alloc, lines)?;
    Ok(validate(alloc, raw).err())
}

/// A module has an end.
fn without_an_end(alloc: Global) -> Result<Option<CodeError>, NoMemory> {
    error(alloc, Vec::new(alloc))
}

/// A number that nothing declares is asked after targets.
fn with_a_target_and_a_name(alloc: Global) -> Result<Option<CodeError>, NoMemory> {
    let mut lines = Vec::new(alloc);
    lines.push(CodeLine {
        place: Place::Unlinked,
        depth: 0,
        op: Op::Branch {
            target: 1,
            test: NamedExpr::Slot(0),
        },
    })?;
    error(alloc, lines)
}

/// It is asked before the numbers of stops.
fn with_a_name_and_a_stop(alloc: Global) -> Result<Option<CodeError>, NoMemory> {
    let mut lines = Vec::new(alloc);
    lines.push(CodeLine {
        place: Place::Unlinked,
        depth: 0,
        op: Op::Hold {
            stop: 2,
            pause: Pause::Link(SchedId(0)),
        },
    })?;
    lines.push(CodeLine {
        place: Place::Unlinked,
        depth: 0,
        op: Op::End,
    })?;
    error(alloc, lines)
}

#[test]
fn names_are_asked_after_targets_and_before_stops(rt: HostRuntime) {
    let alloc = rt.alloc();
    let errors = [
        without_an_end(alloc),
        with_a_target_and_a_name(alloc),
        with_a_name_and_a_stop(alloc),
    ];
    let wanted = [
        Ok(Some(CodeError::JumpOut(at(0)))),
        Ok(Some(CodeError::JumpOut(at(0)))),
        Ok(Some(CodeError::BadName(at(0)))),
    ];
    assert_eq!(rt; errors, wanted);
}
