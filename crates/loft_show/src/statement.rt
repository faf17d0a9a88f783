//! Statements, with the bodies in them.

ghost use Rattle.std.specs.Prelude.{◌≡◌, ◌++◌, ◌+◌, ◌-◌, ◌*◌, ◌<◌, true};
ghost use Rattle.loft_tree.specs.View.{statement_of, statements_of};
ghost use Rattle.loft_tree.specs.Fits.{StatementFits, StatementsFit};
ghost use Rattle.loft_show.specs.Canon.{statement_lines, body_lines, else_lines, lines_text};
ghost use Rattle.loft_show.specs.PartReads.{IsOneLine};

use crate::line::{put_bare_line, put_name_line, put_test_line, put_word_line};
use crate::simple::{
    put_assign, put_assign_create, put_await, put_control, put_cooperate, put_create, put_event,
    put_get, put_join, put_print_text, put_print_value, put_run, put_select,
};
use loft_base::Out;
use loft_lex::Word;
use loft_tree::Stmt;

/// How deep statements stand at most: those of a module itself stand 1 deep, and 32 others may be
/// open around a statement.
pub const DEEPEST: u8 = 33;

/// Appends the line of a statement without bodies.
#[tactic(auto, using(crate::proofs::Texts::bodies))]
pub fn put_statement_line(out: &mut Out, indent: usize, statement: &Stmt)
    requires { IsOneLine (statement_of statement.now) }
    ensures before { out.new.is_whole ≡ true → out.old.is_whole ≡ true }
    ensures text { out.new.is_whole ≡ true → out.new.text.items ≡ out.old.text.items ++ lines_text
        (statement_lines (statement_of statement.now) indent) }
{
    match statement {
        Stmt::Assign { target, value } => put_assign(out, indent, target, value),
        Stmt::AssignCreate {
            target,
            creation,
            ..
        } => put_assign_create(out, indent, target, creation),
        Stmt::Create { creation, .. } => put_create(out, indent, creation),
        Stmt::PrintText { text, value, .. } => put_print_text(out, indent, text, value),
        Stmt::PrintValue { value, .. } => put_print_value(out, indent, value),
        Stmt::Cooperate { instants, .. } => put_cooperate(out, indent, instants),
        Stmt::Generate { event, value, .. } => {
            put_event(out, indent, Word::Generate, event, value)
        }
        Stmt::Await { event, limit, .. } => put_await(out, indent, event, limit),
        Stmt::Select { events, limit, .. } => put_select(out, indent, events.as_slice(), limit),
        Stmt::Get {
            event,
            index,
            target,
            ..
        } => put_get(out, indent, event, index, target),
        Stmt::Join { thread, limit, .. } => put_join(out, indent, thread, limit),
        Stmt::Control {
            control,
            thread,
            scheduler,
            ..
        } => put_control(out, indent, *control, thread, scheduler),
        Stmt::Broadcast { event, value, .. } => {
            put_event(out, indent, Word::Broadcast, event, value)
        }
        Stmt::Link { scheduler, .. } => put_name_line(out, indent, Word::Link, scheduler),
        Stmt::Unlink { .. } => put_word_line(out, indent, Word::Unlink),
        Stmt::Run {
            called,
            arguments,
            ..
        } => put_run(out, indent, called, arguments.as_slice()),
        Stmt::Halt { .. } => put_word_line(out, indent, Word::Halt),
        Stmt::If { .. } | Stmt::While { .. } | Stmt::Repeat { .. } => unreachable!(),
    }
}

/// A statement that stands so deep.
#[cycle(statement)]
#[tactic(auto, using(crate::proofs::Texts::bodies))]
fn put_statement(out: &mut Out, statement: &Stmt, depth: u8)
    requires { StatementFits (statement_of statement.now) (DEEPEST - depth) }
    ensures before { out.new.is_whole ≡ true → out.old.is_whole ≡ true }
    ensures text { out.new.is_whole ≡ true → out.new.text.items ≡ out.old.text.items ++ lines_text
        (statement_lines (statement_of statement.now) (2 * depth)) }
{
    let indent = 2 * usize::from(depth);
    match statement {
        Stmt::If {
            test,
            first,
            second,
            ..
        } => {
            put_test_line(out, indent, Word::If, test, Word::Then);
            put_body(out, first.as_slice(), depth + 1);
            put_else(out, second.as_slice(), depth);
            put_bare_line(out, indent, Word::End)
        }
        Stmt::While { test, body, .. } => {
            put_test_line(out, indent, Word::While, test, Word::Do);
            put_body(out, body.as_slice(), depth + 1);
            put_bare_line(out, indent, Word::End)
        }
        Stmt::Repeat { count, body, .. } => {
            put_test_line(out, indent, Word::Repeat, count, Word::Do);
            put_body(out, body.as_slice(), depth + 1);
            put_bare_line(out, indent, Word::End)
        }
        _ => put_statement_line(out, indent, statement),
    }
}

/// The statements of a body that stand so deep.
#[cycle(statement)]
#[tactic(auto, using(crate::proofs::Texts::bodies))]
pub fn put_body(out: &mut Out, body: &[Stmt], depth: u8)
    requires { StatementsFit (statements_of body.now) (DEEPEST - depth) }
    ensures before { out.new.is_whole ≡ true → out.old.is_whole ≡ true }
    ensures text { out.new.is_whole ≡ true → out.new.text.items ≡ out.old.text.items ++ lines_text
        (body_lines (statements_of body.now) (2 * depth)) }
{
    for statement in body {
        put_statement(out, statement, depth);
    }
}

/// The `else` of an `if` that stands so deep, and what stands after it, where there is anything.
#[cycle(statement)]
#[tactic(auto, using(crate::proofs::Texts::bodies))]
fn put_else(out: &mut Out, body: &[Stmt], depth: u8)
    requires deeper { depth < DEEPEST }
    requires fits { StatementsFit (statements_of body.now) (DEEPEST - (depth + 1)) }
    ensures before { out.new.is_whole ≡ true → out.old.is_whole ≡ true }
    ensures text { out.new.is_whole ≡ true → out.new.text.items ≡ out.old.text.items ++ lines_text
        (else_lines (statements_of body.now) (2 * depth)) }
{
    if body.is_empty() {
        return;
    }
    put_bare_line(out, 2 * usize::from(depth), Word::Else);
    put_body(out, body, depth + 1)
}
