//! Of which sort a line, an operation and a statement are.

ghost use Rattle.std.specs.Prelude.{◌≡◌, ◌==◌, true, if◌then◌else◌};
ghost use Rattle.loft_tree.specs.View.{statement_of};
ghost use Rattle.loft_listing_line.specs.Instructions.{Instruction, instruction_text};
ghost use Rattle.loft_listing_line.specs.Rows.{ListingLine};
ghost use Rattle.loft_listing_line.specs.RowsFit.{InstructionFits, IsLine};
ghost use Rattle.loft_listing_line.specs.declared.sort.DeedSort.TheVariants as deed;
ghost use Rattle.loft_listing_line.specs.Sorts.{begins_deed, begins_line, sort_of, sort_of_instruction, sort_of_statement};

use loft_tree::Stmt;

/// The first line of a listing.
const TITLE: &[u8] = b"loft-listing 1\n";

/// The line after the operations of a module.
const END: &[u8] = b"end\n";

/// The operation `enter`.
const ENTER: &[u8] = b"enter\n";

/// The sorts of lines.
#[derive(Clone, Copy)]
pub enum LineSort {
    Title,
    Item,
    Head,
    Local,
    Operation,
    End,
    Client,
    Order,
    Close,
}

/// The sorts of what operations do.
#[derive(Clone, Copy)]
pub enum DeedSort {
    Do,
    Stop,
    Branch,
    Enter,
    Count,
    Turn,
    Jump,
    End,
}

/// The sorts of statements: those that go on at once, stops, and those with bodies.
#[derive(Clone, Copy, PartialEq, Eq)]
pub enum StatementSort {
    Action,
    Stop,
    Compound,
}

/// The sort of the lines that begin with this byte.
fn line_sort_by(first: u8) -> LineSort
    ensures { (sort : LineSort) → begins_line sort first ≡ true → result ≡ sort }
{
    match first {
        b'0'..=b'9' => LineSort::Operation,
        b' ' => LineSort::Order,
        b'l' => LineSort::Local,
        b'm' => LineSort::Head,
        b'o' => LineSort::Client,
        b'}' => LineSort::Close,
        _ => LineSort::Item,
    }
}

/// The sort of the lines that may have this text.
pub fn line_sort(line: &[u8]) -> LineSort
    ensures { (l : ListingLine) → IsLine line.now l → result ≡ sort_of l }
{
    if line == TITLE {
        return LineSort::Title;
    }
    if line == END {
        return LineSort::End;
    }
    match line {
        [first, ..] => line_sort_by(*first),
        [] => LineSort::Item,
    }
}

/// The sort of what the operations do whose text begins with this byte, and has no semicolon.
fn deed_sort_by(first: u8) -> DeedSort
    ensures { (sort : DeedSort) → begins_deed sort first ≡ true → result ≡ sort }
{
    match first {
        b'b' => DeedSort::Branch,
        b'c' => DeedSort::Count,
        b't' => DeedSort::Turn,
        b'j' => DeedSort::Jump,
        _ => DeedSort::End,
    }
}

/// The sort of what the operations do that are statements and begin with this byte.
fn statement_deed_sort(first: u8) -> DeedSort
    ensures { result ≡ if first == 64 then deed.Stop else deed.Do }
{
    if first == b'@' {
        DeedSort::Stop
    } else {
        DeedSort::Do
    }
}

/// The sort of what the operations do that may have this text.
pub fn deed_sort(text: &[u8]) -> DeedSort
    ensures { (i : Instruction) → InstructionFits i → text.now ≡ instruction_text i
        → result ≡ sort_of_instruction i }
{
    let [first, ..] = text else {
        return DeedSort::End;
    };
    if text.contains(&b';') {
        statement_deed_sort(*first)
    } else if text == ENTER {
        DeedSort::Enter
    } else {
        deed_sort_by(*first)
    }
}

/// The sort of a statement.
#[tactic(auto, using(loft_tree::proofs::Trees::statements))]
pub fn statement_sort(statement: &Stmt) -> StatementSort
    ensures { result ≡ sort_of_statement (statement_of statement.now) }
{
    match statement {
        Stmt::Assign { .. }
        | Stmt::AssignCreate { .. }
        | Stmt::Create { .. }
        | Stmt::PrintText { .. }
        | Stmt::PrintValue { .. }
        | Stmt::Generate { .. }
        | Stmt::Control { .. }
        | Stmt::Broadcast { .. } => StatementSort::Action,
        Stmt::Cooperate { .. }
        | Stmt::Await { .. }
        | Stmt::Select { .. }
        | Stmt::Get { .. }
        | Stmt::Join { .. }
        | Stmt::Link { .. }
        | Stmt::Unlink { .. }
        | Stmt::Run { .. }
        | Stmt::Halt { .. } => StatementSort::Stop,
        Stmt::If { .. } | Stmt::While { .. } | Stmt::Repeat { .. } => StatementSort::Compound,
    }
}
