//! The line of a refusal (docs/COMMANDS.md, "Fault lines").

ghost use Rattle.std.specs.Prelude.{◌≡◌, [], ◌∷◌, ◌++◌, true, IfOk, slice_get, string_bytes, unwrap_or};
ghost use Rattle.std.specs.Fmt.{decimal};
ghost use Rattle.loft_refusal.specs.Refusals.{lexical_line, text_line, name_line, place_text, two_places, link_line, listing_line, operation_line, code_line, line_of};

use crate::lock_line::lock_line;
use crate::refusal::Refusal;
use loft_base::{ModuleId, NoMemory, Out};
use loft_code::{CodeError, OpAt};
use loft_lex::LexError;
use loft_listing_reader::ListError;
use loft_parse::ParseError;
use loft_place::PlaceError;
use loft_scopes::NameError;
use loft_tree::{Names, Place};
use std::alloc::Global;

/// The line of a lexical fault, with its line feed. `NoMemory` where it is out of memory, or the fault is that.
pub fn lexical_line(alloc: Global, fault: &LexError) -> Result<String, NoMemory>
    ensures { IfOk result (λ line. string_bytes line ≡ lexical_line fault.now ++ 10 ∷ []) }
{
    let line = match fault {
        LexError::BadByte(at) => format!(in alloc; "source: bad byte at {at}\n"),
        LexError::OpenText(at) => format!(in alloc; "source: open text at {at}\n"),
        LexError::LongName(at) => format!(in alloc; "source: long name at {at}\n"),
        LexError::LongText(at) => format!(in alloc; "source: long text at {at}\n"),
        LexError::BadNumber(at) => format!(in alloc; "source: bad number at {at}\n"),
        LexError::NoMemory => return Err(NoMemory),
    };
    Ok(line?)
}

/// The line of a fault of a text, with its line feed. `NoMemory` where it is out of memory, or the fault is that.
pub fn text_line(alloc: Global, fault: &ParseError) -> Result<String, NoMemory>
    ensures { IfOk result (λ line. string_bytes line ≡ text_line fault.now ++ 10 ∷ []) }
{
    let line = match fault {
        ParseError::Lex(fault) => return lexical_line(alloc, fault),
        ParseError::Expected(at) => format!(in alloc; "source: expected at {at}\n"),
        ParseError::TooDeep(at) => format!(in alloc; "source: too deep at {at}\n"),
        ParseError::TooMany { at, limit } => {
            format!(in alloc; "source: too many at {at} (limit {limit})\n")
        }
        ParseError::TooLong => String::from_str(alloc, "source: too long\n"),
        ParseError::NoMemory => return Err(NoMemory),
    };
    Ok(line?)
}

/// A line of two offsets in the text, each after its words, with its line feed.
fn two_numbers(
    alloc: Global,
    what: &str,
    at: u32,
    between: &str,
    first: u32,
) -> Result<String, NoMemory>
    ensures { IfOk result (λ line. string_bytes line
        ≡ (what.now ++ (decimal at ++ (between.now ++ decimal first))) ++ 10 ∷ []) }
{
    Ok(format!(in alloc; "{what}{at}{between}{first}\n")?)
}

/// The line of a fault of names and kinds, with its line feed. `NoMemory` where it is out of memory, or the
/// fault is that.
pub fn name_line(alloc: Global, fault: &NameError) -> Result<String, NoMemory>
    ensures { IfOk result (λ line. string_bytes line ≡ name_line fault.now ++ 10 ∷ []) }
{
    let line = match fault {
        NameError::NoScheduler => String::from_str(alloc, "source: no scheduler\n"),
        NameError::Unknown(at) => format!(in alloc; "source: unknown name at {at}\n"),
        NameError::Twice { at, first } => {
            return two_numbers(
                alloc,
                "source: name at ",
                *at,
                " declared twice, first at ",
                *first,
            );
        }
        NameError::Arity(at) => format!(in alloc; "source: arity at {at}\n"),
        NameError::Kind(at) => format!(in alloc; "source: kind at {at}\n"),
        NameError::NoMemory => return Err(NoMemory),
    };
    Ok(line?)
}

/// Where a thread is linked: the name of the scheduler with this number, or `unlinked`.
fn place_text(schedulers: &Names, place: Place) -> &[u8]
    ensures { result.now ≡ place_text schedulers.now place }
{
    match place {
        Place::Sched(scheduler) => match schedulers.as_slice().get(scheduler.0 as usize) {
            Some(name) => name.as_slice(),
            None => b"",
        },
        Place::Unlinked => b"unlinked",
    }
}

/// Appends words, and where a thread is linked.
fn put_place(line: &mut Out, schedulers: &Names, words: &str, place: Place)
    ensures before { line.new.is_whole ≡ true → line.old.is_whole ≡ true }
    ensures text { line.new.is_whole ≡ true → line.new.text.items
        ≡ line.old.text.items ++ (words.now ++ place_text schedulers.now place) }
{
    line.put(words.as_bytes());
    line.put(place_text(schedulers, place));
}

/// A line of an offset in the text and two places of threads, each after its words, with its line feed.
fn two_places(
    alloc: Global,
    schedulers: &Names,
    what: &str,
    at: u32,
    first: (&str, Place),
    second: (&str, Place),
) -> Result<Vec<u8>, NoMemory>
    ensures { IfOk result (λ line. line.items ≡ two_places schedulers.now what.now at
        first.entry.0.now first.entry.1 second.entry.0.now second.entry.1 ++ 10 ∷ []) }
{
    let mut line = Out {
        text: format!(in alloc; "{what}{at}")?.into_bytes(),
        is_whole: true,
    };
    put_place(&mut line, schedulers, first.0, first.1);
    put_place(&mut line, schedulers, second.0, second.1);
    line.put(b"\n");
    line.done()
}

/// The line of a fault of links, with its line feed. `NoMemory` where it is out of memory, or the fault is that.
pub fn link_line(alloc: Global, schedulers: &Names, fault: &PlaceError) -> Result<Vec<u8>, NoMemory>
    ensures { IfOk result (λ line. line.items ≡ link_line schedulers.now fault.now ++ 10 ∷ []) }
{
    match fault {
        PlaceError::NotHere { at, needs, has } => {
            let needed = (", needs ", *needs);
            let found = (", has ", *has);
            two_places(
                alloc,
                schedulers,
                "source: not here at ",
                *at,
                needed,
                found,
            )
        }
        PlaceError::Unlinked(at) => {
            Ok(format!(in alloc; "source: unlinked at {at}\n")?.into_bytes())
        }
        PlaceError::Branches { at, left, right } => {
            let left = (" end at ", *left);
            let right = (" and ", *right);
            two_places(alloc, schedulers, "source: branches at ", *at, left, right)
        }
        PlaceError::LoopEnds { at, start, end } => {
            let start = (" begins at ", *start);
            let end = (", ends at ", *end);
            two_places(alloc, schedulers, "source: loop at ", *at, start, end)
        }
        PlaceError::ModuleEnds { at, declared, end } => {
            let declared = (" declares ", *declared);
            let end = (", ends at ", *end);
            two_places(alloc, schedulers, "source: module at ", *at, declared, end)
        }
        PlaceError::NoMemory => Err(NoMemory),
    }
}

/// The line of a fault of a listing's lines, with its line feed. `NoMemory` where it is out of memory, or the fault is
/// that.
fn listing_line(alloc: Global, fault: &ListError) -> Result<String, NoMemory>
    ensures { IfOk result (λ line. string_bytes line ≡ listing_line fault.now ++ 10 ∷ []) }
{
    let line = match fault {
        ListError::Line(number) => format!(in alloc; "listing: line {number}\n"),
        ListError::TooLong => String::from_str(alloc, "listing: too long\n"),
        ListError::NoMemory => return Err(NoMemory),
    };
    Ok(line?)
}

/// The name of the module with this number.
pub fn module_name(modules: &Names, module: ModuleId) -> &[u8]
    ensures { result.now ≡ unwrap_or (slice_get modules.now «module».0) [] }
{
    match modules.as_slice().get(module.0 as usize) {
        Some(name) => name.as_slice(),
        None => b"",
    }
}

/// The line of an operation that is refused, with its line feed.
fn operation_line(alloc: Global, modules: &Names, at: OpAt) -> Result<Vec<u8>, NoMemory>
    ensures { IfOk result (λ line. line.items ≡ operation_line modules.now at ++ 10 ∷ []) }
{
    let mut line = Out {
        text: format!(in alloc; "listing: operation {}", at.op)?.into_bytes(),
        is_whole: true,
    };
    line.put(b" of ");
    line.put(module_name(modules, at.module));
    line.put(b"\n");
    line.done()
}

/// The line of an error of code, with its line feed. `NoMemory` where it is out of memory, or the error is that.
fn code_line(alloc: Global, modules: &Names, fault: &CodeError) -> Result<Vec<u8>, NoMemory>
    ensures { IfOk result (λ line. line.items ≡ code_line modules.now fault.now ++ 10 ∷ []) }
{
    match fault {
        CodeError::JumpOut(at)
        | CodeError::BadName(at)
        | CodeError::BadStop(at)
        | CodeError::BadPlace(at)
        | CodeError::BadCount(at)
        | CodeError::KindMismatch(at) => operation_line(alloc, modules, *at),
        CodeError::NoMemory => Err(NoMemory),
    }
}

impl Refusal {
    /// The line of the refusal, with its line feed. `NoMemory` where it is out of memory, or the refusal is that.
    pub fn line(&self, alloc: Global) -> Result<Vec<u8>, NoMemory>
        ensures { IfOk result (λ line. line.items ≡ line_of self.now ++ 10 ∷ []) }
    {
        match self {
            Refusal::Text(fault) => Ok(text_line(alloc, fault)?.into_bytes()),
            Refusal::Names(fault) => Ok(name_line(alloc, fault)?.into_bytes()),
            Refusal::Links { fault, schedulers } => link_line(alloc, schedulers, fault),
            Refusal::Listing(fault) => Ok(listing_line(alloc, fault)?.into_bytes()),
            Refusal::Code { fault, modules } => code_line(alloc, modules, fault),
            Refusal::Locks { fault, names } => lock_line(alloc, names, fault),
        }
    }
}
