//! The program over files and a sink in memory: where no call of theirs can fail, it ends without a fault.
#![tactic(auto)]

ghost use Rattle.std.specs.Prelude.{◌≡◌, ◌⊎◌, ℕ, List, IsTrue, Some};
ghost use Rattle.loft_base.specs.MemFiles.{contents_of, never_fails};
ghost use Rattle.loft_base.specs.MemSink.{bytes_of, known_room, by_lines_of};
ghost use Rattle.loft_base.specs.declared.options.RunOptions.{RunOptions};
ghost use Rattle.loft_tree.specs.Source.{Source};
ghost use Rattle.loft_arguments.specs.Command.{Command, OfFile, Run, command, files_of};
ghost use Rattle.loft_arguments.specs.Words.{words_of};
ghost use Rattle.loft_refusal.specs.Refusals.{IsSourceOf, Well};
ghost use Rattle.loft_commands.specs.Written.{AppendsSome};
ghost use Rattle.loft_top.specs.Reads.{contents_of as contents_of_each};
ghost use Rattle.loft_top.specs.Answer.{IsAnswer, AreTaken};
ghost use Rattle.loft_in_memory.specs.NoFault.{MeetsNoFault, EndsWell};

use loft_base::{Gate, MemFiles, MemSink};
use loft_top::{Status, loft_main};
use std::alloc::Global;
use std::sync::Wait;
use std::thread::Threads;

/// Does what the words after the program's name ask for, with files and a sink in memory (docs/OUTSIDE.md, "The outside").
pub fn main_in_memory<R: Threads + Wait + Sync, G: Gate>(
    rt: &R,
    alloc: Global,
    words: &[String],
    files: &mut MemFiles,
    sink: &mut MemSink,
    gate: &G,
) -> Status
    // Where no part of the files can fail, and all that may be written fits, there is no fault.
    ensures no_fault { MeetsNoFault (command (words_of words.now)) (never_fails files.old)
        (contents_of files.old) (known_room sink.old) → EndsWell result }
    // Then what a command takes is answered, unless the program is out of memory, and so a program whose names and links are
    // correct is run.
    ensures taken { (c : Command) (contents : List (List ℕ))
        → MeetsNoFault (command (words_of words.now)) (never_fails files.old) (contents_of files.old) (known_room sink.old)
        → command (words_of words.now) ≡ Some c → contents_of_each (contents_of files.old) (files_of c) ≡ Some contents
        → AreTaken c contents → result ≡ Status.Done ⊎ result ≡ Status.NoMemory }
    ensures run { (file contents : List ℕ) (o : RunOptions) (p : Source)
        → MeetsNoFault (command (words_of words.now)) (never_fails files.old) (contents_of files.old) (known_room sink.old)
        → command (words_of words.now) ≡ Some (OfFile (Run file o)) → contents_of files.old file ≡ Some contents
        → IsSourceOf contents p → Well p → result ≡ Status.Done ⊎ result ≡ Status.NoMemory }
    // An answer is appended to what the sink had.
    ensures done { (c : Command) (contents : List (List ℕ)) → command (words_of words.now) ≡ Some c
        → contents_of_each (contents_of files.old) (files_of c) ≡ Some contents → result ≡ Status.Done
        → AppendsSome (Some (bytes_of sink.old)) (Some (bytes_of sink.new)) (IsAnswer c contents) }
    // Each piece that the sink took is a line.
    ensures by_lines { IsTrue (by_lines_of sink.old) → IsTrue (by_lines_of sink.new) }
{
    loft_main(rt, alloc, words, files, sink, gate)
}
