//! A command is done: its file is read, and what it says is made and written.

ghost use Rattle.std.specs.Prelude.{◌≢◌, ◌≤◌, Err, IsTrue, IsErrOf};
ghost use Rattle.loft_base.specs.Outside.{Rose};
ghost use Rattle.loft_arguments.specs.Command.{file_of};
ghost use Rattle.loft_arguments.specs.Ranges.{KeepsRanges};
ghost use Rattle.loft_arguments.specs.CommandView.{file_command_of};
ghost use Rattle.loft_commands.specs.Doing.{AttemptsTo};

use crate::command::{check, exec, list_code, run, show_text, tell_bounds};
use loft_arguments::FileCommand;
use loft_base::{Files, Gate, Sink};
use loft_refusal::{Stopped, expand_program, read_code, read_program};
use std::alloc::Global;
use std::sync::Wait;
use std::thread::Threads;

/// Does what a command says with the source or the listing in its file.
pub fn attempt<R: Threads + Wait + Sync, F: Files, S: Sink, G: Gate>(
    rt: &R,
    alloc: Global,
    command: FileCommand,
    files: &mut F,
    sink: &mut S,
    gate: &G,
) -> Result<(), Stopped>
    requires file { IsTrue (F.may_ask files.old (file_of (file_command_of command))) }
    requires ranges { KeepsRanges (file_command_of command) }
    ensures attempts { AttemptsTo S.written S.room S.by_lines sink.old sink.new result
        (file_command_of command.entry) (F.contents files.old (file_of (file_command_of command.entry))) }
    ensures file_fault { IsErrOf result Stopped.FileFault → Rose (F.faults files.old) (F.faults files.new) }
    ensures sink_fault { IsErrOf result Stopped.SinkFault → Rose (S.faults sink.old) (S.faults sink.new) }
    ensures never_falls { S.faults sink.old ≤ S.faults sink.new }
    ensures files_never_fall { F.faults files.old ≤ F.faults files.new }
    ensures sure { IsTrue (F.never_fails files.old (file_of (file_command_of command.entry)))
        → result ≢ Err Stopped.FileFault }
{
    match command {
        FileCommand::Run { file, options } => {
            let program = read_program(alloc, files, file)?;
            run(rt, alloc, program, &options, sink, gate)
        }
        FileCommand::Exec { file, options } => {
            let code = read_code(alloc, files, file)?;
            exec(rt, alloc, &code, &options, sink, gate)
        }
        FileCommand::Show(file) => {
            let program = read_program(alloc, files, file)?;
            show_text(alloc, &program, sink)
        }
        FileCommand::Check(file) => {
            let program = read_program(alloc, files, file)?;
            check(alloc, program, sink)
        }
        FileCommand::Compile(file) => {
            let program = read_program(alloc, files, file)?;
            list_code(alloc, program, sink)
        }
        FileCommand::Bound(file) => {
            let program = read_program(alloc, files, file)?;
            tell_bounds(alloc, program, sink)
        }
        FileCommand::Expand(file) => {
            let program = expand_program(alloc, files, file)?;
            show_text(alloc, &program, sink)
        }
    }
}
