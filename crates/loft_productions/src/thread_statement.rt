//! Reading statements about threads, and `link` and `unlink`.

ghost use Rattle.loft_tree.specs.View.{statement_of};
ghost use Rattle.loft_form.specs.Form.{made};
ghost use Rattle.loft_grammar.specs.Symbols.{first_word};
ghost use Rattle.loft_grammar.specs.Statements.{cooperate, join, control_word, control, run, halt, link, unlink, thread_statement};
ghost use Rattle.loft_grammar.specs.Readers.{Takes};
ghost use Rattle.loft_grammar.specs.View.{reads, reads_flat};

use crate::argument::arguments;
use crate::expression::whole;
use crate::optional::{limit_end, name_end, optional_whole};
use loft_grammar::lookahead::{next_control, next_is_word};
use loft_grammar::token::{first_word, name, sign};
use loft_grammar::{Counted, Limited, Reader};
use loft_lex::{Sign, Word};
use loft_tree::{Control, Stmt};

#[tactic(auto, unfolding(loft_grammar::specs::Statements::cooperate), using(loft_tree::proofs::Trees::statement_cooperate))]
fn cooperate<'a, L: Limited>(deeper: u32, at: &mut Reader<'a>) -> Stmt
    ensures { Takes at.old at.new (statement_of result) (reads L.limits deeper cooperate at.old.cursor) }
{
    let place = first_word::<L>(Counted::Statement, Word::Cooperate, at);
    let instants = optional_whole::<L>(deeper, at);
    sign::<L>(Sign::Semicolon, at);
    Stmt::Cooperate {
        at: place,
        instants,
    }
}

#[tactic(auto, unfolding(loft_grammar::specs::Statements::join), using(loft_tree::proofs::Trees::statement_join))]
fn join<'a, L: Limited>(deeper: u32, at: &mut Reader<'a>) -> Stmt
    ensures { Takes at.old at.new (statement_of result) (reads L.limits deeper join at.old.cursor) }
{
    let place = first_word::<L>(Counted::Statement, Word::Join, at);
    let thread = whole::<L>(deeper, at);
    let limit = limit_end::<L>(deeper, at);
    Stmt::Join {
        at: place,
        thread,
        limit,
    }
}

/// Reads the word of this order to a thread, which begins one more of these, with its place.
fn control_as<'a, L: Limited>(
    what: Counted,
    wanted: Word,
    control: Control,
    at: &mut Reader<'a>,
) -> (u32, Control)
    ensures { Takes at.old at.new result (reads_flat L.limits
        (made (λ at. (at, control)) (first_word what wanted)) at.old.cursor) }
{
    let place = first_word::<L>(what, wanted, at);
    (place, control)
}

/// Reads `stop`, `suspend` or `resume`, which begins one more of these, with its place.
pub fn control_word<'a, L: Limited>(what: Counted, at: &mut Reader<'a>) -> (u32, Control)
    ensures { Takes at.old at.new result (reads_flat L.limits (control_word what) at.old.cursor) }
{
    if next_is_word(Word::Stop, &at.cursor) {
        control_as::<L>(what, Word::Stop, Control::Stop, at)
    } else if next_is_word(Word::Suspend, &at.cursor) {
        control_as::<L>(what, Word::Suspend, Control::Suspend, at)
    } else {
        control_as::<L>(what, Word::Resume, Control::Resume, at)
    }
}

#[tactic(auto, unfolding(loft_grammar::specs::Statements::control), using(loft_tree::proofs::Trees::statement_control))]
fn control<'a, L: Limited>(deeper: u32, at: &mut Reader<'a>) -> Stmt
    ensures { Takes at.old at.new (statement_of result) (reads L.limits deeper control at.old.cursor) }
{
    let (place, control) = control_word::<L>(Counted::Statement, at);
    let thread = whole::<L>(deeper, at);
    let scheduler = name_end::<L>(Word::In, at);
    Stmt::Control {
        at: place,
        control,
        thread,
        scheduler,
    }
}

#[tactic(auto, unfolding(loft_grammar::specs::Statements::run), using(loft_tree::proofs::Trees::statement_run))]
fn run<'a, L: Limited>(deeper: u32, at: &mut Reader<'a>) -> Stmt
    ensures { Takes at.old at.new (statement_of result) (reads L.limits deeper run at.old.cursor) }
{
    let place = first_word::<L>(Counted::Statement, Word::Run, at);
    let called = name::<L>(None, at);
    let arguments = arguments::<L>(deeper, at);
    sign::<L>(Sign::Semicolon, at);
    Stmt::Run {
        at: place,
        called,
        arguments,
    }
}

#[tactic(auto, unfolding(loft_grammar::specs::Statements::halt), using(loft_tree::proofs::Trees::statement_halt))]
fn halt<'a, L: Limited>(at: &mut Reader<'a>) -> Stmt
    ensures { Takes at.old at.new (statement_of result) (reads_flat L.limits halt at.old.cursor) }
{
    let place = first_word::<L>(Counted::Statement, Word::Halt, at);
    sign::<L>(Sign::Semicolon, at);
    Stmt::Halt { at: place }
}

/// Reads a statement about threads.
#[tactic(auto, unfolding(loft_grammar::specs::Statements::thread_statement, loft_grammar::specs::Statements::cooperate, loft_grammar::specs::Statements::join, loft_grammar::specs::Statements::control, loft_grammar::specs::Statements::run, loft_grammar::specs::Statements::halt))]
pub fn thread_statement<'a, L: Limited>(deeper: u32, at: &mut Reader<'a>) -> Stmt
    ensures { Takes at.old at.new (statement_of result) (reads L.limits deeper thread_statement at.old.cursor) }
{
    if next_is_word(Word::Cooperate, &at.cursor) {
        cooperate::<L>(deeper, at)
    } else if next_is_word(Word::Join, &at.cursor) {
        join::<L>(deeper, at)
    } else if next_control(&at.cursor) {
        control::<L>(deeper, at)
    } else if next_is_word(Word::Run, &at.cursor) {
        run::<L>(deeper, at)
    } else {
        halt::<L>(at)
    }
}

/// Reads a `link`.
#[tactic(auto, unfolding(loft_grammar::specs::Statements::link), using(loft_tree::proofs::Trees::statement_link))]
pub fn link<'a, L: Limited>(at: &mut Reader<'a>) -> Stmt
    ensures { Takes at.old at.new (statement_of result) (reads_flat L.limits link at.old.cursor) }
{
    let place = first_word::<L>(Counted::Statement, Word::Link, at);
    let scheduler = name::<L>(None, at);
    sign::<L>(Sign::Semicolon, at);
    Stmt::Link {
        at: place,
        scheduler,
    }
}

/// Reads an `unlink`.
#[tactic(auto, unfolding(loft_grammar::specs::Statements::unlink), using(loft_tree::proofs::Trees::statement_unlink))]
pub fn unlink<'a, L: Limited>(at: &mut Reader<'a>) -> Stmt
    ensures { Takes at.old at.new (statement_of result) (reads_flat L.limits unlink at.old.cursor) }
{
    let place = first_word::<L>(Counted::Statement, Word::Unlink, at);
    sign::<L>(Sign::Semicolon, at);
    Stmt::Unlink { at: place }
}
