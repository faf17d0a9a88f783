//! Statements without bodies, a line each.

ghost use Rattle.std.specs.Prelude.{◌≡◌, ◌++◌, ◌∷◌, [], map, true};
ghost use Rattle.loft_tree.specs.Source.{Assign, AssignCreate, Create, PrintText, PrintValue, Cooperate, Await, Select, Get, Join, ControlThread, Run};
ghost use Rattle.loft_tree.specs.View.{expression_of, value_of, creation_of, event_name_of};
ghost use Rattle.loft_show.specs.Canon.{control_word, comma_part, lines_text, statement_lines, word_line, spaced, name};

use crate::expression::put_expression;
use crate::line::{begin_assignment, begin_line, end_statement};
use crate::list::{put_further, put_list};
use crate::part::{put_creation, put_limit_part, put_value_alone, put_value_part};
use crate::pieces::{put_name, put_text, put_word};
use loft_base::Out;
use loft_lex::Word;
use loft_tree::{Control, Creation, EventName, Expr, Ident, Text};

/// Appends the line `x = E;`.
#[tactic(auto, using(crate::proofs::Texts::texts))]
pub fn put_assign(out: &mut Out, indent: usize, target: &Ident, value: &Expr)
    ensures before { out.new.is_whole ≡ true → out.old.is_whole ≡ true }
    ensures text { out.new.is_whole ≡ true → out.new.text.items ≡ out.old.text.items ++ lines_text
        (statement_lines (Assign target.now (expression_of value.now)) indent) }
{
    begin_assignment(out, indent, target);
    put_expression(out, b" ", value);
    end_statement(out)
}

/// Appends the line `t = create S.m(E, F);`.
#[tactic(auto, using(crate::proofs::Texts::texts))]
pub fn put_assign_create(out: &mut Out, indent: usize, target: &Ident, creation: &Creation)
    ensures before { out.new.is_whole ≡ true → out.old.is_whole ≡ true }
    ensures text { out.new.is_whole ≡ true → out.new.text.items ≡ out.old.text.items ++ lines_text
        (statement_lines (AssignCreate target.now 0 (creation_of creation.now)) indent) }
{
    begin_assignment(out, indent, target);
    put_word(out, b" ", Word::Create);
    put_creation(out, creation);
    end_statement(out)
}

/// Appends the line `create S.m(E, F);`.
#[tactic(auto, using(crate::proofs::Texts::texts))]
pub fn put_create(out: &mut Out, indent: usize, creation: &Creation)
    ensures before { out.new.is_whole ≡ true → out.old.is_whole ≡ true }
    ensures text { out.new.is_whole ≡ true → out.new.text.items ≡ out.old.text.items ++ lines_text
        (statement_lines (Create 0 (creation_of creation.now)) indent) }
{
    begin_line(out, indent, Word::Create);
    put_creation(out, creation);
    end_statement(out)
}

/// Appends the line `print "..";` or `print "..", E;`.
#[tactic(auto, using(crate::proofs::Texts::texts))]
pub fn put_print_text(out: &mut Out, indent: usize, text: &Text, value: &Option<Expr>)
    ensures before { out.new.is_whole ≡ true → out.old.is_whole ≡ true }
    ensures text { out.new.is_whole ≡ true → out.new.text.items ≡ out.old.text.items ++ lines_text
        (statement_lines (PrintText 0 text.now (value_of value.now)) indent) }
{
    begin_line(out, indent, Word::Print);
    put_text(out, text);
    put_value_part(out, value);
    end_statement(out)
}

/// Appends the line `print E;`.
#[tactic(auto, using(crate::proofs::Texts::texts))]
pub fn put_print_value(out: &mut Out, indent: usize, value: &Expr)
    ensures before { out.new.is_whole ≡ true → out.old.is_whole ≡ true }
    ensures text { out.new.is_whole ≡ true → out.new.text.items ≡ out.old.text.items ++ lines_text
        (statement_lines (PrintValue 0 (expression_of value.now)) indent) }
{
    begin_line(out, indent, Word::Print);
    put_expression(out, b" ", value);
    end_statement(out)
}

/// Appends the line `cooperate;` or `cooperate E;`.
#[tactic(auto, using(crate::proofs::Texts::texts))]
pub fn put_cooperate(out: &mut Out, indent: usize, instants: &Option<Expr>)
    ensures before { out.new.is_whole ≡ true → out.old.is_whole ≡ true }
    ensures text { out.new.is_whole ≡ true → out.new.text.items ≡ out.old.text.items ++ lines_text
        (statement_lines (Cooperate 0 (value_of instants.now)) indent) }
{
    begin_line(out, indent, Word::Cooperate);
    put_value_alone(out, instants);
    end_statement(out)
}

/// Appends the line `generate e;` or `generate e, E;`, or the same with `broadcast`.
#[tactic(auto, using(crate::proofs::Texts::texts))]
pub fn put_event(out: &mut Out, indent: usize, word: Word, event: &EventName, value: &Option<Expr>)
    ensures before { out.new.is_whole ≡ true → out.old.is_whole ≡ true }
    ensures text { out.new.is_whole ≡ true → out.new.text.items ≡ out.old.text.items ++ lines_text
        (word_line indent word (spaced (name event.now.name) ∷ comma_part (value_of value.now)) ∷ []) }
{
    begin_line(out, indent, word);
    put_name(out, b" ", &event.name);
    put_value_part(out, value);
    end_statement(out)
}

/// Appends the line `await e;` or `await e for E;`.
#[tactic(auto, using(crate::proofs::Texts::texts))]
pub fn put_await(out: &mut Out, indent: usize, event: &EventName, limit: &Option<Expr>)
    ensures before { out.new.is_whole ≡ true → out.old.is_whole ≡ true }
    ensures text { out.new.is_whole ≡ true → out.new.text.items ≡ out.old.text.items ++ lines_text
        (statement_lines (Await 0 (event_name_of event.now) (value_of limit.now)) indent) }
{
    begin_line(out, indent, Word::Await);
    put_name(out, b" ", &event.name);
    put_limit_part(out, limit);
    end_statement(out)
}

/// Appends the line `select e, g;` or `select e, g for E;`.
#[tactic(auto, using(crate::proofs::Texts::texts))]
pub fn put_select(out: &mut Out, indent: usize, events: &[EventName], limit: &Option<Expr>)
    ensures before { out.new.is_whole ≡ true → out.old.is_whole ≡ true }
    ensures text { out.new.is_whole ≡ true → out.new.text.items ≡ out.old.text.items ++ lines_text
        (statement_lines (Select 0 (map event_name_of events.now) (value_of limit.now)) indent) }
{
    begin_line(out, indent, Word::Select);
    if let [first, rest @ ..] = events {
        put_name(out, b" ", &first.name);
        put_further(out, rest);
    }
    put_limit_part(out, limit);
    end_statement(out)
}

/// Appends the line `get e at E into x;`.
#[tactic(auto, using(crate::proofs::Texts::texts))]
pub fn put_get(out: &mut Out, indent: usize, event: &EventName, index: &Expr, target: &Ident)
    ensures before { out.new.is_whole ≡ true → out.old.is_whole ≡ true }
    ensures text { out.new.is_whole ≡ true → out.new.text.items ≡ out.old.text.items ++ lines_text
        (statement_lines (Get 0 (event_name_of event.now) (expression_of index.now) target.now) indent) }
{
    begin_line(out, indent, Word::Get);
    put_name(out, b" ", &event.name);
    put_word(out, b" ", Word::At);
    put_expression(out, b" ", index);
    put_word(out, b" ", Word::Into);
    put_name(out, b" ", target);
    end_statement(out)
}

/// Appends the line `join E;` or `join E for F;`.
#[tactic(auto, using(crate::proofs::Texts::texts))]
pub fn put_join(out: &mut Out, indent: usize, thread: &Expr, limit: &Option<Expr>)
    ensures before { out.new.is_whole ≡ true → out.old.is_whole ≡ true }
    ensures text { out.new.is_whole ≡ true → out.new.text.items ≡ out.old.text.items ++ lines_text
        (statement_lines (Join 0 (expression_of thread.now) (value_of limit.now)) indent) }
{
    begin_line(out, indent, Word::Join);
    put_expression(out, b" ", thread);
    put_limit_part(out, limit);
    end_statement(out)
}

/// The word of an order to a thread.
pub fn control_word(control: Control) -> Word
    ensures { result ≡ control_word control }
{
    match control {
        Control::Stop => Word::Stop,
        Control::Suspend => Word::Suspend,
        Control::Resume => Word::Resume,
    }
}

/// Appends the line `stop E in S;`, `suspend E in S;` or `resume E in S;`.
#[tactic(auto, using(crate::proofs::Texts::texts))]
pub fn put_control(out: &mut Out, indent: usize, control: Control, thread: &Expr, scheduler: &Ident)
    ensures before { out.new.is_whole ≡ true → out.old.is_whole ≡ true }
    ensures text { out.new.is_whole ≡ true → out.new.text.items ≡ out.old.text.items ++ lines_text
        (statement_lines
        (ControlThread 0 control (expression_of thread.now) scheduler.now) indent) }
{
    begin_line(out, indent, control_word(control));
    put_expression(out, b" ", thread);
    put_word(out, b" ", Word::In);
    put_name(out, b" ", scheduler);
    end_statement(out)
}

/// Appends the line `run m(E, F);`.
#[tactic(auto, using(crate::proofs::Texts::texts))]
pub fn put_run(out: &mut Out, indent: usize, called: &Ident, arguments: &[Expr])
    ensures before { out.new.is_whole ≡ true → out.old.is_whole ≡ true }
    ensures text { out.new.is_whole ≡ true → out.new.text.items ≡ out.old.text.items ++ lines_text
        (statement_lines (Run 0 called.now (map expression_of arguments.now)) indent) }
{
    begin_line(out, indent, Word::Run);
    put_name(out, b" ", called);
    put_list(out, arguments);
    end_statement(out)
}
