//! Reading statements about events.

ghost use Rattle.loft_tree.specs.View.{event_name_of, statement_of};
ghost use Rattle.loft_form.specs.Form.{many};
ghost use Rattle.loft_productions.specs.Ends.{get_end, get_end_of};
ghost use Rattle.loft_grammar.specs.Symbols.{counting};
ghost use Rattle.loft_grammar.specs.Expressions.{further};
ghost use Rattle.loft_grammar.specs.Statements.{event_name, generate, await_event, choice, choices, select, get, broadcast, event_statement};
ghost use Rattle.loft_grammar.specs.Readers.{Takes};
ghost use Rattle.loft_grammar.specs.View.{reads, reads_flat, with_front, event_names_of};

use crate::expression::whole;
use crate::optional::{limit_end, name_end, value_end};
use loft_grammar::lookahead::{next_is_sign, next_is_word};
use loft_grammar::token::{first_word, name, sign, word};
use loft_grammar::{Counted, Limited, Reader};
use loft_lex::{Sign, Word};
use loft_tree::{EventName, Expr, Ident, Stmt};

/// Reads the name of an event.
#[tactic(auto, using(loft_grammar::proofs::Leaves::counting_is))]
pub fn event_name<'a, L: Limited>(what: Option<Counted>, at: &mut Reader<'a>) -> EventName
    ensures { Takes at.old at.new (event_name_of result) (reads_flat L.limits (counting what event_name) at.old.cursor) }
{
    let name = name::<L>(what, at);
    EventName { name }
}

#[tactic(auto, unfolding(loft_grammar::specs::Statements::generate), using(loft_tree::proofs::Trees::statement_generate))]
fn generate<'a, L: Limited>(deeper: u32, at: &mut Reader<'a>) -> Stmt
    ensures { Takes at.old at.new (statement_of result) (reads L.limits deeper generate at.old.cursor) }
{
    let place = first_word::<L>(Counted::Statement, Word::Generate, at);
    let event = event_name::<L>(None, at);
    let value = value_end::<L>(deeper, at);
    Stmt::Generate {
        at: place,
        event,
        value,
    }
}

#[tactic(auto, unfolding(loft_grammar::specs::Statements::await_event), using(loft_tree::proofs::Trees::statement_await))]
fn await_event<'a, L: Limited>(deeper: u32, at: &mut Reader<'a>) -> Stmt
    ensures { Takes at.old at.new (statement_of result) (reads L.limits deeper await_event at.old.cursor) }
{
    let place = first_word::<L>(Counted::Statement, Word::Await, at);
    let event = event_name::<L>(None, at);
    let limit = limit_end::<L>(deeper, at);
    Stmt::Await {
        at: place,
        event,
        limit,
    }
}

#[tactic(auto, unfolding(loft_grammar::specs::Statements::choice))]
fn choice<'a, L: Limited>(at: &mut Reader<'a>) -> EventName
    ensures { Takes at.old at.new (event_name_of result) (reads_flat L.limits choice at.old.cursor) }
{
    event_name::<L>(Some(Counted::Choice), at)
}

#[tactic(auto, unfolding(loft_grammar::specs::Statements::choice))]
fn further_choice<'a, L: Limited>(at: &mut Reader<'a>) -> EventName
    ensures { Takes at.old at.new (event_name_of result) (reads_flat L.limits (further choice) at.old.cursor) }
{
    sign::<L>(Sign::Comma, at);
    choice::<L>(at)
}

/// Reads further events after these.
fn further_choices<'a, L: Limited>(events: Vec<EventName>, at: &mut Reader<'a>) -> Vec<EventName>
    ensures { Takes at.old at.new (event_names_of result) (with_front (event_names_of events) (reads_flat L.limits (many (further choice)) at.old.cursor)) }
{
    let mut events = events;
    'all: while at.goes_on() && next_is_sign(Sign::Comma, &at.cursor) {
        let one = further_choice::<L>(at);
        at.push(&mut events, one);
    }
    events
}

#[tactic(auto, unfolding(loft_grammar::specs::Statements::choices, loft_grammar::specs::Statements::choice))]
fn choices<'a, L: Limited>(at: &mut Reader<'a>) -> Vec<EventName>
    ensures { Takes at.old at.new (event_names_of result) (reads_flat L.limits choices at.old.cursor) }
{
    let mut events = Vec::new(at.alloc);
    let first = choice::<L>(at);
    at.push(&mut events, first);
    let second = further_choice::<L>(at);
    at.push(&mut events, second);
    further_choices::<L>(events, at)
}

#[tactic(auto, unfolding(loft_grammar::specs::Statements::select, loft_grammar::specs::Statements::choices, loft_grammar::specs::Statements::choice), using(loft_tree::proofs::Trees::statement_select))]
fn select<'a, L: Limited>(deeper: u32, at: &mut Reader<'a>) -> Stmt
    ensures { Takes at.old at.new (statement_of result) (reads L.limits deeper select at.old.cursor) }
{
    let place = first_word::<L>(Counted::Statement, Word::Select, at);
    at.count_anew(Counted::Choice);
    let events = choices::<L>(at);
    let limit = limit_end::<L>(deeper, at);
    Stmt::Select {
        at: place,
        events,
        limit,
    }
}

/// Reads what stands after the event of a `get`.
fn get_end<'a, L: Limited>(deeper: u32, at: &mut Reader<'a>) -> (Expr, Ident)
    ensures { Takes at.old at.new (get_end_of result) (reads L.limits deeper get_end at.old.cursor) }
{
    word::<L>(Word::At, at);
    let index = whole::<L>(deeper, at);
    let target = name_end::<L>(Word::Into, at);
    (index, target)
}

#[tactic(auto, unfolding(loft_grammar::specs::Statements::get), using(loft_tree::proofs::Trees::statement_get))]
fn get<'a, L: Limited>(deeper: u32, at: &mut Reader<'a>) -> Stmt
    ensures { Takes at.old at.new (statement_of result) (reads L.limits deeper get at.old.cursor) }
{
    let place = first_word::<L>(Counted::Statement, Word::Get, at);
    let event = event_name::<L>(None, at);
    let (index, target) = get_end::<L>(deeper, at);
    Stmt::Get {
        at: place,
        event,
        index,
        target,
    }
}

#[tactic(auto, unfolding(loft_grammar::specs::Statements::broadcast), using(loft_tree::proofs::Trees::statement_broadcast))]
fn broadcast<'a, L: Limited>(deeper: u32, at: &mut Reader<'a>) -> Stmt
    ensures { Takes at.old at.new (statement_of result) (reads L.limits deeper broadcast at.old.cursor) }
{
    let place = first_word::<L>(Counted::Statement, Word::Broadcast, at);
    let event = event_name::<L>(None, at);
    let value = value_end::<L>(deeper, at);
    Stmt::Broadcast {
        at: place,
        event,
        value,
    }
}

/// Reads a statement about events.
#[tactic(auto, unfolding(loft_grammar::specs::Statements::event_statement, loft_grammar::specs::Statements::generate, loft_grammar::specs::Statements::await_event, loft_grammar::specs::Statements::select, loft_grammar::specs::Statements::get))]
pub fn event_statement<'a, L: Limited>(deeper: u32, at: &mut Reader<'a>) -> Stmt
    ensures { Takes at.old at.new (statement_of result) (reads L.limits deeper event_statement at.old.cursor) }
{
    if next_is_word(Word::Generate, &at.cursor) {
        generate::<L>(deeper, at)
    } else if next_is_word(Word::Await, &at.cursor) {
        await_event::<L>(deeper, at)
    } else if next_is_word(Word::Select, &at.cursor) {
        select::<L>(deeper, at)
    } else if next_is_word(Word::Get, &at.cursor) {
        get::<L>(deeper, at)
    } else {
        broadcast::<L>(deeper, at)
    }
}
