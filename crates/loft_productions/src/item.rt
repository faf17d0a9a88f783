//! Reading declarations.

ghost use Rattle.loft_tree.specs.View.{declaration_of};
ghost use Rattle.loft_form.specs.Form.{maybe};
ghost use Rattle.loft_grammar.specs.Limits.{limits, nesting};
ghost use Rattle.loft_productions.specs.Ends.{body_end, shared_end, start_end, body_end_of, shared_end_of, start_end_of};
ghost use Rattle.loft_grammar.specs.Items.{module_item, scheduler_item, event_item, shared_item, alias, start_item, outside_item, item, program};
ghost use Rattle.loft_grammar.specs.Readers.{Takes};
ghost use Rattle.loft_grammar.specs.View.{reads, reads_flat, declarations_of};

use crate::body::body;
use crate::constant_argument::{outer_arguments, signed};
use crate::head::{head, locals};
use crate::optional::name_end;
use crate::order::orders;
use loft_grammar::lookahead::{next_is_word, next_item};
use loft_grammar::token::{first_word, name, sign, word};
use loft_grammar::{Counted, Reader, SourceLimits};
use loft_lex::{Sign, Word};
use loft_tree::limits::MAX_NESTING;
use loft_tree::{Argument, Ident, Item, Stmt};

/// How many nestings may be open.
pub const NESTING: u32 = MAX_NESTING as u32;

/// Reads the body of a module, and the word after it.
fn body_end<'a>(at: &mut Reader<'a>) -> Vec<Stmt>
    ensures { Takes at.old at.new (body_end_of result) (reads limits nesting body_end at.old.cursor) }
{
    at.count_anew(Counted::Statement);
    let body = body::<SourceLimits>(NESTING, at);
    word::<SourceLimits>(Word::End, at);
    body
}

#[tactic(auto, unfolding(loft_grammar::specs::Items::module_item), using(crate::proofs::Flat::flat_head))]
fn module_item<'a>(at: &mut Reader<'a>) -> Item
    ensures { Takes at.old at.new (declaration_of result) (reads limits nesting module_item at.old.cursor) }
{
    let head = head(at);
    let locals = locals(at);
    let body = body_end(at);
    Item::Module { head, locals, body }
}

#[tactic(auto, unfolding(loft_grammar::specs::Items::scheduler_item))]
fn scheduler_item<'a>(at: &mut Reader<'a>) -> Item
    ensures { Takes at.old at.new (declaration_of result) (reads limits nesting scheduler_item at.old.cursor) }
{
    first_word::<SourceLimits>(Counted::Scheduler, Word::Scheduler, at);
    let name = name::<SourceLimits>(None, at);
    sign::<SourceLimits>(Sign::Semicolon, at);
    Item::Scheduler(name)
}

#[tactic(auto, unfolding(loft_grammar::specs::Items::event_item))]
fn event_item<'a>(at: &mut Reader<'a>) -> Item
    ensures { Takes at.old at.new (declaration_of result) (reads limits nesting event_item at.old.cursor) }
{
    first_word::<SourceLimits>(Counted::Event, Word::Event, at);
    let event = name::<SourceLimits>(None, at);
    let scheduler = name_end::<SourceLimits>(Word::In, at);
    Item::Event {
        name: event,
        scheduler,
    }
}

/// Reads what stands after the name of a shared variable: its scheduler, and its value with the offset of that.
#[tactic(auto, unfolding(loft_grammar::specs::Items::signed, loft_grammar::specs::Items::negative))]
fn shared_end<'a>(at: &mut Reader<'a>) -> (Ident, (u32, i64))
    ensures { Takes at.old at.new (shared_end_of result) (reads limits nesting shared_end at.old.cursor) }
{
    word::<SourceLimits>(Word::In, at);
    let scheduler = name::<SourceLimits>(None, at);
    sign::<SourceLimits>(Sign::Equals, at);
    let value = signed(at);
    sign::<SourceLimits>(Sign::Semicolon, at);
    (scheduler, value)
}

#[tactic(auto, unfolding(loft_grammar::specs::Items::shared_item, loft_grammar::specs::Items::signed, loft_grammar::specs::Items::negative))]
fn shared_item<'a>(at: &mut Reader<'a>) -> Item
    ensures { Takes at.old at.new (declaration_of result) (reads limits nesting shared_item at.old.cursor) }
{
    first_word::<SourceLimits>(Counted::Shared, Word::Shared, at);
    let shared = name::<SourceLimits>(None, at);
    let (scheduler, (_, value)) = shared_end(at);
    Item::Shared {
        name: shared,
        scheduler,
        value,
    }
}

/// Reads the name of a thread, if `as` stands here.
#[tactic(auto, unfolding(loft_grammar::specs::Items::alias))]
fn optional_alias<'a>(at: &mut Reader<'a>) -> Option<Ident>
    ensures { Takes at.old at.new result (reads_flat limits (maybe alias) at.old.cursor) }
{
    if next_is_word(Word::As, &at.cursor) {
        word::<SourceLimits>(Word::As, at);
        let alias = name::<SourceLimits>(None, at);
        Some(alias)
    } else {
        None
    }
}

/// Reads what stands after the module of a start.
#[tactic(auto, unfolding(loft_grammar::specs::Items::alias), using(crate::proofs::Flat::flat_arguments))]
fn start_end<'a>(at: &mut Reader<'a>) -> (Vec<Argument>, Option<Ident>)
    ensures { Takes at.old at.new (start_end_of result) (reads limits nesting start_end at.old.cursor) }
{
    let arguments = outer_arguments(at);
    let name = optional_alias(at);
    sign::<SourceLimits>(Sign::Semicolon, at);
    (arguments, name)
}

#[tactic(auto, unfolding(loft_grammar::specs::Items::start_item, loft_grammar::specs::Items::alias), using(crate::proofs::Flat::flat_arguments))]
fn start_item<'a>(at: &mut Reader<'a>) -> Item
    ensures { Takes at.old at.new (declaration_of result) (reads limits nesting start_item at.old.cursor) }
{
    first_word::<SourceLimits>(Counted::Start, Word::Start, at);
    let scheduler = name::<SourceLimits>(None, at);
    sign::<SourceLimits>(Sign::Dot, at);
    let called = name::<SourceLimits>(None, at);
    let (arguments, name) = start_end(at);
    Item::Start {
        scheduler,
        called,
        arguments,
        name,
    }
}

#[tactic(auto, unfolding(loft_grammar::specs::Items::outside_item))]
fn outside_item<'a>(at: &mut Reader<'a>) -> Item
    ensures { Takes at.old at.new (declaration_of result) (reads limits nesting outside_item at.old.cursor) }
{
    first_word::<SourceLimits>(Counted::Client, Word::Outside, at);
    let name = name::<SourceLimits>(None, at);
    sign::<SourceLimits>(Sign::OpenBrace, at);
    let orders = orders(at);
    sign::<SourceLimits>(Sign::CloseBrace, at);
    Item::Outside { name, orders }
}

/// Reads a declaration.
#[tactic(auto, unfolding(loft_grammar::specs::Items::item, loft_grammar::specs::Items::scheduler_item, loft_grammar::specs::Items::event_item, loft_grammar::specs::Items::shared_item, loft_grammar::specs::Items::module_item, loft_grammar::specs::Items::head, loft_grammar::specs::Items::start_item, loft_grammar::specs::Items::outside_item))]
pub fn item<'a>(at: &mut Reader<'a>) -> Item
    ensures { Takes at.old at.new (declaration_of result) (reads limits nesting item at.old.cursor) }
{
    if next_is_word(Word::Scheduler, &at.cursor) {
        scheduler_item(at)
    } else if next_is_word(Word::Event, &at.cursor) {
        event_item(at)
    } else if next_is_word(Word::Shared, &at.cursor) {
        shared_item(at)
    } else if next_is_word(Word::Module, &at.cursor) {
        module_item(at)
    } else if next_is_word(Word::Start, &at.cursor) {
        start_item(at)
    } else {
        outside_item(at)
    }
}

/// Reads the declarations of a program.
#[tactic(auto, unfolding(loft_grammar::specs::Items::program))]
pub fn items<'a>(at: &mut Reader<'a>) -> Vec<Item>
    ensures { Takes at.old at.new (declarations_of result) (reads limits nesting program at.old.cursor) }
{
    let mut items = Vec::new(at.alloc);
    'all: while at.goes_on() && next_item(&at.cursor) {
        let one = item(at);
        at.push(&mut items, one);
    }
    items
}
