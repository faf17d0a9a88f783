//! The call that the program makes.

ghost use Rattle.std.specs.Prelude.{◌≡◌, ◌≢◌, ◌≤◌, ◌⊎◌, ◌∷◌, [], ℕ, List, IsTrue, IsSome, Some, None, codes};
ghost use Rattle.std.specs.List.{Contains};
ghost use Rattle.loft_base.specs.Outside.{Rose};
ghost use Rattle.loft_arguments.specs.Command.{Command as PlainCommand, OfFile, command, file_of, files_of};
ghost use Rattle.loft_arguments.specs.Ranges.{KeepsRanges, IsInRanges};
ghost use Rattle.loft_arguments.specs.Words.{words_of};
ghost use Rattle.loft_arguments.specs.CommandView.{command_of, file_command_of};
ghost use Rattle.loft_commands.specs.Written.{AppendsSome, IsLineOf, IsPrefix, HasNoRoom};
ghost use Rattle.loft_top.specs.Status.{IsRefusedStatus, IsLogRefused, IsAccepted};
ghost use Rattle.loft_top.specs.Reads.{contents_of};
ghost use Rattle.loft_top.specs.Answer.{IsAnswer, Refuses, RefusesLog, IsRefusal, IsLogRefusal, AreTaken, ReadsReport, IsText, Answers};

use crate::generated::{generate, summarize};
use crate::replaying::check_report;
use crate::status::Status;
use crate::telling::{refuse, tell};
use loft_arguments::{Command, FileCommand, read_words};
use loft_base::{Files, Gate, Sink};
use loft_code::code_is_decided;
use loft_commands::attempt;
use loft_listing_roundtrip::texts_have_one_answer;
use loft_lock_expansion::texts_come_to_one_answer;
use loft_names::names_are_decided;
use loft_parse::texts_are_decided;
use loft_place::links_are_decided;
use loft_refusal::Stopped;
use std::alloc::Global;
use std::sync::Wait;
use std::thread::Threads;

/// The answer of a command that reads one file.
fn file_answer<R: Threads + Wait + Sync, F: Files, S: Sink, G: Gate>(
    rt: &R,
    alloc: Global,
    command: FileCommand,
    files: &mut F,
    sink: &mut S,
    gate: &G,
) -> Status
    requires file { IsTrue (F.may_ask files.old (file_of (file_command_of command))) }
    requires ranges { KeepsRanges (file_command_of command) }
    ensures answers { Answers (OfFile (file_command_of command.entry))
        (contents_of (F.contents files.old) (file_of (file_command_of command.entry) ∷ [])) result
        (S.written sink.old) (S.written sink.new) (F.faults files.old) (F.faults files.new)
        (S.room sink.old) (S.by_lines sink.old) (S.by_lines sink.new) }
    ensures file_fault { result ≡ Status.FileFault → Rose (F.faults files.old) (F.faults files.new) }
    ensures sink_fault { result ≡ Status.SinkFault → Rose (S.faults sink.old) (S.faults sink.new) }
    ensures files_never_fall { F.faults files.old ≤ F.faults files.new }
    ensures sink_never_falls { S.faults sink.old ≤ S.faults sink.new }
    ensures sure { IsTrue (F.never_fails files.old (file_of (file_command_of command.entry)))
        → result ≢ Status.FileFault }
{
    texts_are_decided();
    names_are_decided();
    links_are_decided();
    texts_have_one_answer();
    code_is_decided();
    texts_come_to_one_answer();
    match attempt(rt, alloc, command, files, sink, gate) {
        Ok(()) => Status::Done,
        Err(Stopped::Refused(refusal)) => refuse(alloc, sink, &refusal),
        Err(Stopped::FileFault) => tell(sink, b"files: fault\n", Status::FileFault),
        Err(Stopped::SinkFault) => Status::SinkFault,
        Err(Stopped::NoMemory) => Status::NoMemory,
    }
}

/// The answer of a command.
fn answer<R: Threads + Wait + Sync, F: Files, S: Sink, G: Gate>(
    rt: &R,
    alloc: Global,
    command: Command,
    files: &mut F,
    sink: &mut S,
    gate: &G,
) -> Status
    requires files { (file : List ℕ) → Contains (files_of (command_of command)) file
        → IsTrue (F.may_ask files.old file) }
    requires ranges { IsInRanges (command_of command) }
    ensures answers { Answers (command_of command.entry)
        (contents_of (F.contents files.old) (files_of (command_of command.entry))) result
        (S.written sink.old) (S.written sink.new) (F.faults files.old) (F.faults files.new)
        (S.room sink.old) (S.by_lines sink.old) (S.by_lines sink.new) }
    ensures file_fault { result ≡ Status.FileFault → Rose (F.faults files.old) (F.faults files.new) }
    ensures sink_fault { result ≡ Status.SinkFault → Rose (S.faults sink.old) (S.faults sink.new) }
    ensures files_never_fall { F.faults files.old ≤ F.faults files.new }
    ensures sink_never_falls { S.faults sink.old ≤ S.faults sink.new }
    ensures sure { ((file : List ℕ) → Contains (files_of (command_of command.entry)) file
        → IsTrue (F.never_fails files.old file)) → result ≢ Status.FileFault }
{
    match command {
        Command::OfFile(command) => file_answer(rt, alloc, command, files, sink, gate),
        Command::Replay {
            source,
            report,
            only,
        } => check_report(alloc, source, report, only, files, sink),
        Command::Gen(number) => generate(alloc, number, sink),
        Command::GenRun(number) => summarize(rt, alloc, number, sink, gate),
    }
}

/// Does what the words after the program's name ask for: reads, answers, and says how it ended.
pub fn loft_main<R: Threads + Wait + Sync, F: Files, S: Sink, G: Gate>(
    rt: &R,
    alloc: Global,
    words: &[String],
    files: &mut F,
    sink: &mut S,
    gate: &G,
) -> Status
    // The files of the command may be asked.
    requires { (c : PlainCommand) (file : List ℕ) → command (words_of words.now) ≡ Some c
        → Contains (files_of c) file → IsTrue (F.may_ask files.old file) }
    // The promise of each command: a report of a run, a canonical text, a listing, step bounds, `ok`, a block of a report that
    // is replayed, the source of a number, or the summary of its run.
    ensures done { (c : PlainCommand) (contents : List (List ℕ)) → command (words_of words.now) ≡ Some c
        → contents_of (F.contents files.old) (files_of c) ≡ Some contents → result ≡ Status.Done
        → AppendsSome (S.written sink.old) (S.written sink.new) (IsAnswer c contents) }
    ensures done_runs { result ≡ Status.Done → IsSome (command (words_of words.now)) }
    // Usage comes exactly where the words are no command, unless the sink fails.
    ensures usage { result ≡ Status.Usage → command (words_of words.now) ≡ None }
    ensures usage_line { result ≡ Status.Usage
        → AppendsSome (S.written sink.old) (S.written sink.new) (IsLineOf (codes "loft: usage")) }
    ensures no_command { command (words_of words.now) ≡ None
        → result ≡ Status.Usage ⊎ result ≡ Status.SinkFault }
    // Source comes exactly where a source, a listing or a text with locks is refused, unless a file or the sink fails or the
    // program is out of memory.
    ensures source_runs { result ≡ Status.Source → IsSome (command (words_of words.now)) }
    ensures source { (c : PlainCommand) (contents : List (List ℕ)) → command (words_of words.now) ≡ Some c
        → contents_of (F.contents files.old) (files_of c) ≡ Some contents → result ≡ Status.Source
        → AppendsSome (S.written sink.old) (S.written sink.new) (IsRefusal c contents) }
    ensures refused { (c : PlainCommand) (contents : List (List ℕ)) (line : List ℕ)
        → command (words_of words.now) ≡ Some c
        → contents_of (F.contents files.old) (files_of c) ≡ Some contents → Refuses c contents line
        → IsRefusedStatus result }
    // Log comes exactly where a report is refused, with the same exceptions, and so only of a command that reads one.
    ensures log_runs { result ≡ Status.Log → IsSome (command (words_of words.now)) }
    ensures log_reads { (c : PlainCommand) → command (words_of words.now) ≡ Some c → result ≡ Status.Log → ReadsReport c }
    ensures log { (c : PlainCommand) (contents : List (List ℕ)) → command (words_of words.now) ≡ Some c
        → contents_of (F.contents files.old) (files_of c) ≡ Some contents → result ≡ Status.Log
        → AppendsSome (S.written sink.old) (S.written sink.new) (IsLogRefusal c contents) }
    ensures log_refused { (c : PlainCommand) (contents : List (List ℕ)) (line : List ℕ)
        → command (words_of words.now) ≡ Some c
        → contents_of (F.contents files.old) (files_of c) ≡ Some contents → RefusesLog c contents line
        → IsLogRefused result }
    // What a command takes is answered, with the same exceptions.
    ensures accepted { (c : PlainCommand) (contents : List (List ℕ))
        → command (words_of words.now) ≡ Some c
        → contents_of (F.contents files.old) (files_of c) ≡ Some contents → AreTaken c contents
        → IsAccepted result }

    // Where the sink fails or the program is out of memory, a prefix of what is to be written stands there.
    ensures prefix { (c : PlainCommand) (contents : List (List ℕ)) → command (words_of words.now) ≡ Some c
        → contents_of (F.contents files.old) (files_of c) ≡ Some contents
        → result ≡ Status.SinkFault ⊎ result ≡ Status.NoMemory
        → AppendsSome (S.written sink.old) (S.written sink.new)
        (IsPrefix (IsText c contents (F.faults files.old) (F.faults files.new))) }
    ensures usage_prefix { command (words_of words.now) ≡ None → result ≡ Status.SinkFault
        → AppendsSome (S.written sink.old) (S.written sink.new) (IsPrefix (IsLineOf (codes "loft: usage"))) }

    // A failure has its cause in this call.
    ensures file_fault { result ≡ Status.FileFault → Rose (F.faults files.old) (F.faults files.new) }
    ensures file_line { result ≡ Status.FileFault
        → AppendsSome (S.written sink.old) (S.written sink.new) (IsLineOf (codes "files: fault")) }
    ensures sink_fault { result ≡ Status.SinkFault → Rose (S.faults sink.old) (S.faults sink.new) }

    // The counts of faults never fall, and files that never fail for the names of the command make no fault.
    ensures files_never_fall { F.faults files.old ≤ F.faults files.new }
    ensures sink_never_falls { S.faults sink.old ≤ S.faults sink.new }
    ensures files_are_sure { (c : PlainCommand) → command (words_of words.now) ≡ Some c
        → ((file : List ℕ) → Contains (files_of c) file → IsTrue (F.never_fails files.old file))
        → result ≢ Status.FileFault }

    // The sink fails only where a text that the command may write has more bytes than the sink was known to take.
    ensures no_room { (c : PlainCommand) (contents : List (List ℕ)) → command (words_of words.now) ≡ Some c
        → contents_of (F.contents files.old) (files_of c) ≡ Some contents → result ≡ Status.SinkFault
        → HasNoRoom (S.room sink.old) (IsText c contents (F.faults files.old) (F.faults files.new)) }
    ensures usage_no_room { command (words_of words.now) ≡ None → result ≡ Status.SinkFault
        → HasNoRoom (S.room sink.old) (IsLineOf (codes "loft: usage")) }
    // What is written goes out line by line, whatever the command and however it ends.
    ensures by_lines { IsTrue (S.by_lines sink.old) → IsTrue (S.by_lines sink.new) }
{
    match read_words(words) {
        Some(command) => answer(rt, alloc, command, files, sink, gate),
        None => tell(sink, b"loft: usage\n", Status::Usage),
    }
}
