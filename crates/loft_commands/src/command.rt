//! What each command does with what it read.

ghost use Rattle.std.specs.Prelude.{◌≡◌, ◌≤◌, ℕ, List, IfOk, IsErrOf, OnOk, OnErr, IsTrue};
ghost use Rattle.loft_base.specs.Outside.{Rose};
ghost use Rattle.loft_tree.specs.Resolved.{resolved_of};
ghost use Rattle.loft_tree.specs.ProgramView.{program_of};
ghost use Rattle.loft_tree.specs.View.{source_of};
ghost use Rattle.loft_code.specs.View.{automata_of};
ghost use Rattle.loft_sense.specs.Machine.{Tree};
ghost use Rattle.loft_translation.specs.Compiled.{compiled};
ghost use Rattle.loft_listing.specs.Listing.{listing_text};
ghost use Rattle.loft_arguments.specs.Command.{Run, Exec, Show, Check, Compile, Bound, Expand};
ghost use Rattle.loft_base.specs.Options.{AreInRange};
ghost use Rattle.loft_commands.specs.Written.{AppendsSome, IsPrefix, HasNoRoom};
ghost use Rattle.loft_refusal.specs.Input.{ASource, AListing, AnExpansion};
ghost use Rattle.loft_commands.specs.Promise.{IsReport};
ghost use Rattle.loft_commands.specs.Doing.{DoesTo};

use crate::code_run::{RunError, run_code};
use loft_base::{Gate, NoMemory, RunOptions, Sink, write_lines};
use loft_bound::bound_text;
use loft_code::Code;
use loft_compile::compile;
use loft_listing::write as write_listing;
use loft_place::Placed;
use loft_refusal::{Stopped, place_program};
use loft_show::show;
use loft_translation::compiled_code_has_the_same_histories;
use loft_tree::Program;
use std::alloc::Global;
use std::sync::Wait;
use std::thread::Threads;

/// Runs a program by its code, and writes its report.
fn run_program<R: Threads + Wait + Sync, S: Sink, G: Gate>(
    rt: &R,
    alloc: Global,
    placed: &Placed,
    options: &RunOptions,
    sink: &mut S,
    gate: &G,
) -> Result<(), RunError>
    requires range { AreInRange options.now }
    ensures report { OnOk result (AppendsSome (S.written sink.old) (S.written sink.new)
        (IsReport (Tree (resolved_of (program_of placed.now))) options.now)) }
    ensures failed { OnErr result (AppendsSome (S.written sink.old) (S.written sink.new)
        (IsPrefix (IsReport (Tree (resolved_of (program_of placed.now))) options.now))) }
    ensures sink { IsErrOf result RunError.Sink → Rose (S.faults sink.old) (S.faults sink.new) }
    ensures never_falls { S.faults sink.old ≤ S.faults sink.new }
    ensures no_room { IsErrOf result RunError.Sink
        → HasNoRoom (S.room sink.old) (IsReport (Tree (resolved_of (program_of placed.now))) options.now) }
    ensures by_lines { IsTrue (S.by_lines sink.old) → IsTrue (S.by_lines sink.new) }
{
    compiled_code_has_the_same_histories();
    placed.program();
    let code = compile(alloc, placed)?;
    run_code(
        rt,
        alloc,
        &code,
        options.limits,
        options.workers,
        sink,
        gate,
    )
}

/// `run`: the report of a run with these options.
pub fn run<R: Threads + Wait + Sync, S: Sink, G: Gate>(
    rt: &R,
    alloc: Global,
    program: Program,
    options: &RunOptions,
    sink: &mut S,
    gate: &G,
) -> Result<(), Stopped>
    requires range { AreInRange options.now }
    ensures does { (file : List ℕ) → DoesTo S.written S.room S.by_lines sink.old sink.new result
        (Run file options.now) (ASource (source_of program)) }
    ensures sink_fault { IsErrOf result Stopped.SinkFault → Rose (S.faults sink.old) (S.faults sink.new) }
    ensures never_falls { S.faults sink.old ≤ S.faults sink.new }
{
    let placed = place_program(alloc, program)?;
    run_program(rt, alloc, &placed, options, sink, gate)?;
    Ok(())
}

/// `exec`: the report of a run of valid code with these options.
pub fn exec<R: Threads + Wait + Sync, S: Sink, G: Gate>(
    rt: &R,
    alloc: Global,
    code: &Code,
    options: &RunOptions,
    sink: &mut S,
    gate: &G,
) -> Result<(), Stopped>
    requires range { AreInRange options.now }
    ensures does { (file : List ℕ) → DoesTo S.written S.room S.by_lines sink.old sink.new result
        (Exec file options.now) (AListing (automata_of code.now)) }
    ensures sink_fault { IsErrOf result Stopped.SinkFault → Rose (S.faults sink.old) (S.faults sink.new) }
    ensures never_falls { S.faults sink.old ≤ S.faults sink.new }
{
    code.program();
    run_code(rt, alloc, code, options.limits, options.workers, sink, gate)?;
    Ok(())
}

/// `check`: `ok`, where names and links are correct.
pub fn check<S: Sink>(alloc: Global, program: Program, sink: &mut S) -> Result<(), Stopped>
    ensures does { (file : List ℕ) → DoesTo S.written S.room S.by_lines sink.old sink.new result
        (Check file) (ASource (source_of program)) }
    ensures sink_fault { IsErrOf result Stopped.SinkFault → Rose (S.faults sink.old) (S.faults sink.new) }
    ensures never_falls { S.faults sink.old ≤ S.faults sink.new }
{
    place_program(alloc, program)?;
    sink.put(b"ok\n")?;
    Ok(())
}

/// The listing of a program's code.
fn listing_of(alloc: Global, placed: &Placed) -> Result<Vec<u8>, NoMemory>
    ensures { IfOk result (λ text. text.items
        ≡ listing_text (compiled (resolved_of (program_of placed.now)))) }
{
    let code = compile(alloc, placed)?;
    write_listing(alloc, &code)
}

/// `compile`: the listing of the program's code, where names and links are correct.
pub fn list_code<S: Sink>(alloc: Global, program: Program, sink: &mut S) -> Result<(), Stopped>
    ensures does { (file : List ℕ) → DoesTo S.written S.room S.by_lines sink.old sink.new result
        (Compile file) (ASource (source_of program)) }
    ensures sink_fault { IsErrOf result Stopped.SinkFault → Rose (S.faults sink.old) (S.faults sink.new) }
    ensures never_falls { S.faults sink.old ≤ S.faults sink.new }
{
    let placed = place_program(alloc, program)?;
    let text = listing_of(alloc, &placed)?;
    write_lines(text.as_slice(), sink)?;
    Ok(())
}

/// `bound`: the step bounds of the modules, where names and links are correct.
pub fn tell_bounds<S: Sink>(alloc: Global, program: Program, sink: &mut S) -> Result<(), Stopped>
    ensures does { (file : List ℕ) → DoesTo S.written S.room S.by_lines sink.old sink.new result
        (Bound file) (ASource (source_of program)) }
    ensures sink_fault { IsErrOf result Stopped.SinkFault → Rose (S.faults sink.old) (S.faults sink.new) }
    ensures never_falls { S.faults sink.old ≤ S.faults sink.new }
{
    let placed = place_program(alloc, program)?;
    let text = bound_text(alloc, &placed)?;
    write_lines(text.as_slice(), sink)?;
    Ok(())
}

/// `show`: the canonical text; and `expand`: that of the program that a text with locks stands for.
pub fn show_text<S: Sink>(alloc: Global, program: &Program, sink: &mut S) -> Result<(), Stopped>
    ensures does { (file : List ℕ) → DoesTo S.written S.room S.by_lines sink.old sink.new result
        (Show file) (ASource (source_of program.now)) }
    ensures expands { (file : List ℕ) → DoesTo S.written S.room S.by_lines sink.old sink.new result
        (Expand file) (AnExpansion (source_of program.now)) }
    ensures sink_fault { IsErrOf result Stopped.SinkFault → Rose (S.faults sink.old) (S.faults sink.new) }
    ensures never_falls { S.faults sink.old ≤ S.faults sink.new }
{
    let text = show(alloc, program)?;
    write_lines(text.as_slice(), sink)?;
    Ok(())
}
