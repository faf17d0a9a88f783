//! Reading the heads of modules, and their local variables.

ghost use Rattle.std.specs.Prelude.{◌≡◌, None};
ghost use Rattle.std.specs.Option.{option_map};
ghost use Rattle.loft_tree.specs.View.{named_of, place_name_of, head_of};
ghost use Rattle.loft_tree.specs.Fits.{same_place};
ghost use Rattle.loft_form.specs.Form.{maybe, many, fresh};
ghost use Rattle.loft_grammar.specs.Limits.{limits};
ghost use Rattle.loft_productions.specs.Ends.{head_end, head_end_of};
ghost use Rattle.loft_grammar.specs.Expressions.{further, listed};
ghost use Rattle.loft_grammar.specs.Items.{kind, parameter, parameters, local, place, ending, end_of, head};
ghost use Rattle.loft_grammar.specs.Readers.{Takes};
ghost use Rattle.loft_grammar.specs.View.{reads_flat, with_front, variables_of};

use loft_grammar::lookahead::{
    next_is_name, next_is_sign, next_is_word, next_local, next_parameter,
};
use loft_grammar::token::{counted_word, first_word, name, sign, word};
use loft_grammar::{Counted, Reader, SourceLimits};
use loft_lex::{Sign, Word};
use loft_tree::{Kind, ModuleHead, PlaceName, Variable};

/// Reads a kind, which is counted if `what` says so.
#[tactic(auto, using(loft_grammar::proofs::Leaves::counting_begins))]
fn kind<'a>(what: Option<Counted>, at: &mut Reader<'a>) -> Kind
    ensures { Takes at.old at.new result (reads_flat limits (kind what) at.old.cursor) }
{
    if next_is_word(Word::Int, &at.cursor) {
        counted_word::<SourceLimits>(what, Word::Int, at);
        Kind::Int
    } else {
        counted_word::<SourceLimits>(what, Word::Thread, at);
        Kind::Thread
    }
}

#[tactic(auto, unfolding(loft_grammar::specs::Items::parameter))]
fn parameter<'a>(at: &mut Reader<'a>) -> Variable
    ensures { Takes at.old at.new (named_of result) (reads_flat limits parameter at.old.cursor) }
{
    let kind = kind(Some(Counted::Parameter), at);
    let name = name::<SourceLimits>(None, at);
    Variable { kind, name }
}

#[tactic(auto, unfolding(loft_grammar::specs::Items::parameter))]
fn further_parameter<'a>(at: &mut Reader<'a>) -> Variable
    ensures { Takes at.old at.new (named_of result) (reads_flat limits (further parameter) at.old.cursor) }
{
    sign::<SourceLimits>(Sign::Comma, at);
    parameter(at)
}

/// Reads further parameters after these.
fn further_parameters<'a>(parameters: Vec<Variable>, at: &mut Reader<'a>) -> Vec<Variable>
    ensures { Takes at.old at.new (variables_of result) (with_front (variables_of parameters) (reads_flat limits (many (further parameter)) at.old.cursor)) }
{
    let mut parameters = parameters;
    'all: while at.goes_on() && next_is_sign(Sign::Comma, &at.cursor) {
        let one = further_parameter(at);
        at.push(&mut parameters, one);
    }
    parameters
}

#[tactic(auto, unfolding(loft_grammar::specs::Items::parameter))]
fn listed<'a>(at: &mut Reader<'a>) -> Vec<Variable>
    ensures { Takes at.old at.new (variables_of result) (reads_flat limits (listed parameter) at.old.cursor) }
{
    let mut parameters = Vec::new(at.alloc);
    if next_parameter(&at.cursor) {
        let first = parameter(at);
        at.push(&mut parameters, first);
        further_parameters(parameters, at)
    } else {
        parameters
    }
}

#[tactic(auto, unfolding(loft_grammar::specs::Items::parameters))]
fn parameters<'a>(at: &mut Reader<'a>) -> Vec<Variable>
    ensures { Takes at.old at.new (variables_of result) (reads_flat limits parameters at.old.cursor) }
{
    sign::<SourceLimits>(Sign::Open, at);
    at.count_anew(Counted::Parameter);
    let parameters = listed(at);
    sign::<SourceLimits>(Sign::Close, at);
    parameters
}

/// Reads the declaration of a local variable.
#[tactic(auto, unfolding(loft_grammar::specs::Items::local))]
pub fn local<'a>(at: &mut Reader<'a>) -> Variable
    ensures { Takes at.old at.new (named_of result) (reads_flat limits local at.old.cursor) }
{
    first_word::<SourceLimits>(Counted::Local, Word::Local, at);
    let kind = kind(None, at);
    let name = name::<SourceLimits>(None, at);
    sign::<SourceLimits>(Sign::Semicolon, at);
    Variable { kind, name }
}

/// Reads the local variables of a module.
pub fn locals<'a>(at: &mut Reader<'a>) -> Vec<Variable>
    ensures { Takes at.old at.new (variables_of result) (reads_flat limits (fresh Counted.Local (many local)) at.old.cursor) }
{
    let mut locals = Vec::new(at.alloc);
    at.count_anew(Counted::Local);
    'all: while at.goes_on() && next_local(&at.cursor) {
        let one = local(at);
        at.push(&mut locals, one);
    }
    locals
}

#[tactic(auto, unfolding(loft_grammar::specs::Items::place))]
fn place<'a>(at: &mut Reader<'a>) -> PlaceName
    ensures { Takes at.old at.new (place_name_of result) (reads_flat limits place at.old.cursor) }
{
    if next_is_name(&at.cursor) {
        let name = name::<SourceLimits>(None, at);
        PlaceName::Scheduler(name)
    } else {
        word::<SourceLimits>(Word::Unlinked, at);
        PlaceName::Unlinked
    }
}

/// Reads an end place, if `to` stands here.
#[tactic(auto, unfolding(loft_grammar::specs::Items::ending))]
fn optional_ending<'a>(at: &mut Reader<'a>) -> Option<PlaceName>
    ensures { Takes at.old at.new (option_map place_name_of result) (reads_flat limits (maybe ending) at.old.cursor) }
{
    if next_is_word(Word::To, &at.cursor) {
        word::<SourceLimits>(Word::To, at);
        let end = place(at);
        Some(end)
    } else {
        None
    }
}

/// Reads where the threads of a module begin and end, as they are written.
fn head_end<'a>(at: &mut Reader<'a>) -> (PlaceName, Option<PlaceName>)
    ensures { Takes at.old at.new (head_end_of result) (reads_flat limits head_end at.old.cursor) }
{
    word::<SourceLimits>(Word::In, at);
    let begin = place(at);
    let end = optional_ending(at);
    (begin, end)
}

/// Whether both mean the same place.
fn same_place(begin: &PlaceName, end: &PlaceName) -> bool
    ensures { result ≡ same_place (place_name_of begin.now) (place_name_of end.now) }
{
    match (begin, end) {
        (PlaceName::Scheduler(begin), PlaceName::Scheduler(end)) => begin.text() == end.text(),
        (PlaceName::Unlinked, PlaceName::Unlinked) => true,
        _ => false,
    }
}

/// The end place, if it isn't the begin place.
fn other_end(begin: &PlaceName, end: Option<PlaceName>) -> Option<PlaceName>
    ensures { option_map place_name_of result ≡ end_of (place_name_of begin.now) (option_map place_name_of end) }
{
    match end {
        Some(end) => {
            if same_place(begin, &end) {
                None
            } else {
                Some(end)
            }
        }
        None => None,
    }
}

/// Reads the line of a module up to its local variables.
#[tactic(auto, unfolding(loft_grammar::specs::Items::head))]
pub fn head<'a>(at: &mut Reader<'a>) -> ModuleHead
    ensures { Takes at.old at.new (head_of result) (reads_flat limits head at.old.cursor) }
{
    first_word::<SourceLimits>(Counted::Module, Word::Module, at);
    let name = name::<SourceLimits>(None, at);
    let parameters = parameters(at);
    let (begin, end) = head_end(at);
    let end = other_end(&begin, end);
    ModuleHead {
        name,
        parameters,
        begin,
        end,
    }
}
