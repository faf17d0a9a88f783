//! What the words after the program's name ask for (docs/COMMANDS.md, "Words").

ghost use Rattle.std.specs.Prelude.{◌≡◌, Some};
ghost use Rattle.std.specs.Option.{option_copied, option_map};
ghost use Rattle.loft_base.specs.declared.options.RunOptions.{RunOptions};
ghost use Rattle.loft_arguments.specs.Words.{words_of, is_file_name};
ghost use Rattle.loft_arguments.specs.Ranges.{IsInRanges};
ghost use Rattle.loft_arguments.specs.Command.{Command as PlainCommand, Exec, Run, Show, Check, Compile, Bound, Expand, command, file_of, only_file, number_of};
ghost use Rattle.loft_arguments.specs.CommandView.{meant, file_meant, file_command_of};
ghost use Rattle.loft_arguments.specs.Parts.{parts_of, plain_of};
ghost use Rattle.loft_arguments.specs.FromParts.{option_list, run_from, run_options_from, only_options_from, file_from, file_command_from, only_word, number_from, gen_from, replay_from, command_from};
ghost use Rattle.loft_base.specs.declared.options.TheConstants.{MAX_WORKERS};
ghost use Rattle.loft_arguments.specs.declared.defaults.TheConstants.{DEFAULT_WORKERS};

use crate::defaults::{DEFAULT_BLOCK, DEFAULT_BUDGET, DEFAULT_INSTANTS, DEFAULT_WORKERS};
use crate::number::number_in;
use crate::parts::{Parts, PlainWords};
use loft_base::{Limits, MAX_BLOCK, MAX_BUDGET, MAX_INSTANTS, MAX_WORKERS, RunOptions};
use loft_gen::GENERATED_MAX;

/// A command that reads a source or a listing, and nothing else, with the name of that file.
#[derive(Clone, Copy)]
pub enum FileCommand<'a> {
    /// To run the source in this file. Each number of the options is in its range (`MAX_INSTANTS` and the others).
    Run { file: &'a str, options: RunOptions },
    /// To run the code of the listing in this file, with the same options.
    Exec { file: &'a str, options: RunOptions },
    /// To show the source in this file in its canonical text.
    Show(&'a str),
    /// To check the source in this file.
    Check(&'a str),
    /// To compile the source in this file, and to list its code.
    Compile(&'a str),
    /// To tell the step bounds of the modules of the source in this file.
    Bound(&'a str),
    /// To show the program that the text with locks in this file stands for.
    Expand(&'a str),
}

/// A command, by what it reads.
#[derive(Clone, Copy)]
pub enum Command<'a> {
    /// To read one file.
    OfFile(FileCommand<'a>),
    /// To replay the report in a file by the source in another one: the whole report, or the block of the scheduler that is
    /// named.
    Replay {
        source: &'a str,
        report: &'a str,
        only: Option<&'a str>,
    },
    /// To write the source of this number, which is from 1 to `GENERATED_MAX`.
    Gen(u32),
    /// To run the source of this number, from 1 to `GENERATED_MAX`, and to tell the summary of the run.
    GenRun(u32),
}

impl<'a> FileCommand<'a> {
    /// The file that is to be read.
    pub fn file(self) -> &'a str
        ensures { result.now ≡ file_of (file_command_of self.entry) }
    {
        match self {
            FileCommand::Run { file, .. }
            | FileCommand::Exec { file, .. }
            | FileCommand::Show(file)
            | FileCommand::Check(file)
            | FileCommand::Compile(file)
            | FileCommand::Bound(file)
            | FileCommand::Expand(file) => file,
        }
    }
}

/// Whether a word can be a file's name: it isn't empty, and isn't `-`.
fn is_file_name(word: &str) -> bool
    ensures { result ≡ is_file_name word.now }
{
    match word.as_bytes() {
        [] => false,
        [only] => *only != b'-',
        [_, _, ..] => true,
    }
}

/// The file, where one word is given and can be a file's name.
fn only_file<'a>(words: PlainWords<'a>) -> Option<&'a str>
    ensures { option_copied result ≡ only_file (plain_of words.entry) }
{
    match words {
        PlainWords::One(word) => { if is_file_name(word) { Some(word) } else { None } }
        _ => None,
    }
}

/// The file, where no option is given.
fn file_alone<'a>(parts: Parts<'a>) -> Option<&'a str>
    ensures { option_copied result ≡ file_from (parts_of parts.entry) }
{
    if parts.has_no_options() {
        only_file(parts.plain)
    } else {
        None
    }
}

/// The number that the value of an option spells, from 1 to the most: its default where the option isn't given.
fn number_of(most: u64, default: u64, value: Option<&str>) -> Option<u64>
    ensures { result ≡ number_of most default (option_list (option_copied value.entry)) }
{
    match value {
        Some(word) => number_in(most, word),
        None => Some(default),
    }
}

/// The number of workers.
fn number_of_workers(value: Option<&str>) -> Option<u32>
    ensures { result ≡ number_of MAX_WORKERS DEFAULT_WORKERS (option_list (option_copied value.entry)) }
{
    let number = number_of(u64::from(MAX_WORKERS), u64::from(DEFAULT_WORKERS), value)?;
    u32::try_from(number).ok()
}

/// The options of a run.
fn run_options(parts: Parts<'_>) -> Option<RunOptions>
    ensures { result ≡ run_options_from (parts_of parts.entry) }
{
    let limits = Limits {
        instants: number_of(MAX_INSTANTS, DEFAULT_INSTANTS, parts.instants)?,
        budget: number_of(MAX_BUDGET, DEFAULT_BUDGET, parts.budget)?,
        block: number_of(MAX_BLOCK, DEFAULT_BLOCK, parts.block)?,
    };
    let workers = number_of_workers(parts.workers)?;
    Some(RunOptions { limits, workers })
}

/// The options of a run, where no other option is given.
fn only_run_options(parts: Parts<'_>) -> Option<RunOptions>
    ensures { result ≡ only_options_from (parts_of parts.entry) }
{
    if parts.run.is_none() && parts.only.is_none() {
        run_options(parts)
    } else {
        None
    }
}

/// To run a source with the options of a run.
fn run<'a>(parts: Parts<'a>) -> Option<FileCommand<'a>>
    ensures { file_meant result ≡ run_from Run (parts_of parts.entry) }
{
    let file = only_file(parts.plain)?;
    let options = only_run_options(parts)?;
    Some(FileCommand::Run { file, options })
}

/// To run a listing with the options of a run.
fn exec<'a>(parts: Parts<'a>) -> Option<FileCommand<'a>>
    ensures { file_meant result ≡ run_from Exec (parts_of parts.entry) }
{
    let file = only_file(parts.plain)?;
    let options = only_run_options(parts)?;
    Some(FileCommand::Exec { file, options })
}

/// To show a source.
fn show<'a>(parts: Parts<'a>) -> Option<FileCommand<'a>>
    ensures { file_meant result ≡ option_map Show (file_from (parts_of parts.entry)) }
{
    Some(FileCommand::Show(file_alone(parts)?))
}

/// To check a source.
fn check<'a>(parts: Parts<'a>) -> Option<FileCommand<'a>>
    ensures { file_meant result ≡ option_map Check (file_from (parts_of parts.entry)) }
{
    Some(FileCommand::Check(file_alone(parts)?))
}

/// To compile a source.
fn compile<'a>(parts: Parts<'a>) -> Option<FileCommand<'a>>
    ensures { file_meant result ≡ option_map Compile (file_from (parts_of parts.entry)) }
{
    Some(FileCommand::Compile(file_alone(parts)?))
}

/// To tell step bounds.
fn bound<'a>(parts: Parts<'a>) -> Option<FileCommand<'a>>
    ensures { file_meant result ≡ option_map Bound (file_from (parts_of parts.entry)) }
{
    Some(FileCommand::Bound(file_alone(parts)?))
}

/// To show what a text with locks stands for.
fn expand<'a>(parts: Parts<'a>) -> Option<FileCommand<'a>>
    ensures { file_meant result ≡ option_map Expand (file_from (parts_of parts.entry)) }
{
    Some(FileCommand::Expand(file_alone(parts)?))
}

/// The word, where one is given.
fn only_word<'a>(words: PlainWords<'a>) -> Option<&'a str>
    ensures { option_copied result ≡ only_word (plain_of words.entry) }
{
    match words {
        PlainWords::One(word) => Some(word),
        _ => None,
    }
}

/// The number of a source, where no option with a value is given.
fn number_alone(parts: Parts<'_>) -> Option<u32>
    ensures { result ≡ number_from (parts_of parts.entry) }
{
    if !(parts.has_no_run_options() && parts.only.is_none()) {
        return None;
    }
    let number = number_in(u64::from(GENERATED_MAX), only_word(parts.plain)?)?;
    u32::try_from(number).ok()
}

/// To make a source of a number, or to run it.
fn generate<'a>(parts: Parts<'a>) -> Option<Command<'a>>
    ensures { meant result ≡ gen_from (parts_of parts.entry) }
{
    let number = number_alone(parts)?;
    if parts.run.is_some() {
        Some(Command::GenRun(number))
    } else {
        Some(Command::Gen(number))
    }
}

/// To replay a report by a source, where no option but `--only` is given.
fn replay<'a>(parts: Parts<'a>) -> Option<Command<'a>>
    ensures { meant result ≡ replay_from (parts_of parts.entry) }
{
    if !(parts.has_no_run_options() && parts.run.is_none()) {
        return None;
    }
    let PlainWords::Two(source, report) = parts.plain else {
        return None;
    };
    if is_file_name(source) && is_file_name(report) {
        let only = parts.only;
        Some(Command::Replay {
            source,
            report,
            only,
        })
    } else {
        None
    }
}

/// The command with this name, of those that read one file.
fn file_command_named<'a>(word: &str, parts: Parts<'a>) -> Option<FileCommand<'a>>
    ensures { file_meant result ≡ file_command_from word.now (parts_of parts.entry) }
{
    if word == "run" {
        run(parts)
    } else if word == "exec" {
        exec(parts)
    } else if word == "show" {
        show(parts)
    } else if word == "check" {
        check(parts)
    } else if word == "compile" {
        compile(parts)
    } else if word == "bound" {
        bound(parts)
    } else if word == "expand" {
        expand(parts)
    } else {
        None
    }
}

/// The command with this name.
fn command_named<'a>(word: &str, parts: Parts<'a>) -> Option<Command<'a>>
    ensures { meant result ≡ command_from word.now (parts_of parts.entry) }
{
    if word == "gen" {
        return generate(parts);
    }
    if word == "replay" {
        return replay(parts);
    }
    Some(Command::OfFile(file_command_named(word, parts)?))
}

/// What the words after the program's name ask for (docs/COMMANDS.md, "Words"). The first is the
/// command: `run`, `exec`, `show`, `check`, `compile`, `bound`, `expand`, `replay` or `gen`. After it
/// stand one file (of `replay`, a source and a report; of `gen`, a number) and options in any order:
/// for `run` and `exec` `--instants N`, `--budget B`, `--block U` and `--workers W`, for `replay`
/// `--only NAME`, each once at most, as two words or as one with `=`; for `gen`, perhaps the option
/// `--run`. After `--` no word is an option. All other words are no command: None. It takes no memory.
#[tactic(auto, using(crate::proofs::Commands::command_from_parts))]
pub fn read_words(words: &[String]) -> Option<Command<'_>>
    ensures meant { meant result ≡ command (words_of words.now) }
    // the numbers of a command have their ranges
    ensures in_range { (c : PlainCommand) → command (words_of words.now) ≡ Some c → IsInRanges c }
{
    let (word, rest) = words.split_first()?;
    command_named(word.as_str(), Parts::read(rest)?)
}
