//! What the next symbol begins.

ghost use Rattle.std.specs.Prelude.{◌≡◌};
ghost use Rattle.loft_form.specs.Form.{next_begins};
ghost use Rattle.loft_grammar.specs.Symbols.{word, sign, name, text, numeral};
ghost use Rattle.loft_grammar.specs.Expressions.{builtin, atom, whole, equality, ordering, compared};
ghost use Rattle.loft_grammar.specs.Statements.{statement, value_statement, event_statement, thread_statement, moving_statement, control_word};
ghost use Rattle.loft_grammar.specs.Items.{signed, parameter, outer_argument, local, order, item};
ghost use Rattle.loft_grammar.specs.Alone.{stands_alone};
ghost use Rattle.loft_grammar.specs.Levels.{operation_at};
ghost use Rattle.loft_grammar.specs.View.{symbols_at};

use crate::counts::Counted;
use crate::cursor::Cursor;
use crate::operator::Level;
use crate::symbol::{goes_on, is_plain, is_sign, is_word};
use loft_lex::{Sign, What, Word};

/// Whether the next symbol is the word.
pub fn next_is_word<'a>(wanted: Word, at: &Cursor<'a>) -> bool
    ensures { result ≡ next_begins (word wanted) (symbols_at at.now) }
{
    match at.symbols {
        [] => false,
        [symbol, ..] => is_word(symbol.what, wanted),
    }
}

/// Whether the next symbol is the sign.
pub fn next_is_sign<'a>(wanted: Sign, at: &Cursor<'a>) -> bool
    ensures { result ≡ next_begins (sign wanted) (symbols_at at.now) }
{
    match at.symbols {
        [] => false,
        [symbol, ..] => is_sign(symbol.what, wanted),
    }
}

/// Whether the next symbol is a name.
pub fn next_is_name<'a>(at: &Cursor<'a>) -> bool
    ensures { result ≡ next_begins name (symbols_at at.now) }
{
    match at.symbols {
        [] => false,
        [symbol, ..] => matches!(symbol.what, What::Name(_)),
    }
}

/// Whether the next symbol is a text.
pub fn next_is_text<'a>(at: &Cursor<'a>) -> bool
    ensures { result ≡ next_begins text (symbols_at at.now) }
{
    match at.symbols {
        [] => false,
        [symbol, ..] => matches!(symbol.what, What::Text(_)),
    }
}

/// Whether the next symbol is a number.
pub fn next_is_number<'a>(at: &Cursor<'a>) -> bool
    ensures { result ≡ next_begins numeral (symbols_at at.now) }
{
    match at.symbols {
        [] => false,
        [symbol, ..] => matches!(symbol.what, What::Number(_)),
    }
}

/// Whether the next symbol is `self`, `code` or `mask`.
#[tactic(auto, unfolding(crate::specs::Expressions::builtin))]
pub fn next_builtin<'a>(at: &Cursor<'a>) -> bool
    ensures { result ≡ next_begins builtin (symbols_at at.now) }
{
    next_is_word(Word::SelfWord, at) || next_is_word(Word::Code, at) || next_is_word(Word::Mask, at)
}

/// Whether the next symbol begins an atom.
#[tactic(auto, unfolding(crate::specs::Expressions::atom, crate::specs::Expressions::bracketed))]
fn next_atom<'a>(at: &Cursor<'a>) -> bool
    ensures { result ≡ next_begins atom (symbols_at at.now) }
{
    next_is_number(at) || next_is_name(at) || next_builtin(at) || next_is_sign(Sign::Open, at)
}

/// Whether the next symbol begins an expression.
#[tactic(auto, unfolding(crate::specs::Expressions::whole, crate::specs::Expressions::expression, crate::specs::Expressions::conjunction, crate::specs::Expressions::comparison, crate::specs::Expressions::sum, crate::specs::Expressions::term, crate::specs::Expressions::unary, crate::specs::Expressions::negated, crate::specs::Expressions::inverted))]
pub fn next_expression<'a>(at: &Cursor<'a>) -> bool
    ensures { result ≡ next_begins whole (symbols_at at.now) }
{
    next_is_sign(Sign::Minus, at) || next_is_sign(Sign::Not, at) || next_atom(at)
}

/// Whether the next symbol is `==` or `!=`.
#[tactic(auto, unfolding(crate::specs::Expressions::equality))]
pub fn next_equality<'a>(at: &Cursor<'a>) -> bool
    ensures { result ≡ next_begins equality (symbols_at at.now) }
{
    next_is_sign(Sign::Same, at) || next_is_sign(Sign::Differs, at)
}

/// Whether the next symbol is `<`, `<=`, `>` or `>=`.
#[tactic(auto, unfolding(crate::specs::Expressions::ordering))]
fn next_ordering<'a>(at: &Cursor<'a>) -> bool
    ensures { result ≡ next_begins ordering (symbols_at at.now) }
{
    next_is_sign(Sign::Less, at)
        || next_is_sign(Sign::LessOrSame, at)
        || next_is_sign(Sign::Greater, at)
        || next_is_sign(Sign::GreaterOrSame, at)
}

/// Whether the next symbol compares what stands before it.
#[tactic(auto, unfolding(crate::specs::Expressions::compared))]
pub fn next_compared<'a>(at: &Cursor<'a>) -> bool
    ensures { result ≡ next_begins compared (symbols_at at.now) }
{
    next_equality(at) || next_ordering(at)
}

/// Whether the next symbol is an operator of the level.
pub fn next_operation<'a>(level: Level, at: &Cursor<'a>) -> bool
    ensures { result ≡ next_begins (operation_at level) (symbols_at at.now) }
{
    match level {
        Level::Product => {
            next_is_sign(Sign::Star, at)
                || next_is_sign(Sign::Slash, at)
                || next_is_sign(Sign::Percent, at)
        }
        Level::Sum => next_is_sign(Sign::Plus, at) || next_is_sign(Sign::Minus, at),
        Level::Conjunction => next_is_sign(Sign::And, at),
        Level::Disjunction => next_is_sign(Sign::Or, at),
    }
}

/// Whether a number or a name comes next, and after it no operator of the level or of one that binds more.
pub fn next_stands_alone<'a>(level: Level, at: &Cursor<'a>) -> bool
    ensures { result ≡ stands_alone level (symbols_at at.now) }
{
    match at.symbols {
        [first, second, ..] => is_plain(first.what) && !goes_on(level, second.what),
        _ => false,
    }
}

/// Whether the next symbol is `stop`, `suspend` or `resume`.
pub fn next_control<'a>(at: &Cursor<'a>) -> bool
    ensures { result ≡ next_begins (control_word Counted.Statement) (symbols_at at.now) }
{
    next_is_word(Word::Stop, at)
        || next_is_word(Word::Suspend, at)
        || next_is_word(Word::Resume, at)
}

/// Whether the next symbol begins an assignment, a `print` or a `create`.
#[tactic(auto, unfolding(crate::specs::Statements::value_statement, crate::specs::Statements::assignment, crate::specs::Statements::print, crate::specs::Statements::create))]
pub fn next_value_statement<'a>(at: &Cursor<'a>) -> bool
    ensures { result ≡ next_begins value_statement (symbols_at at.now) }
{
    next_is_name(at) || next_is_word(Word::Print, at) || next_is_word(Word::Create, at)
}

/// Whether the next symbol begins a statement about events.
#[tactic(auto, unfolding(crate::specs::Statements::event_statement, crate::specs::Statements::generate, crate::specs::Statements::await_event, crate::specs::Statements::select, crate::specs::Statements::get, crate::specs::Statements::broadcast))]
pub fn next_event_statement<'a>(at: &Cursor<'a>) -> bool
    ensures { result ≡ next_begins event_statement (symbols_at at.now) }
{
    next_is_word(Word::Generate, at)
        || next_is_word(Word::Await, at)
        || next_is_word(Word::Select, at)
        || next_is_word(Word::Get, at)
        || next_is_word(Word::Broadcast, at)
}

/// Whether the next symbol begins a statement about threads.
#[tactic(auto, unfolding(crate::specs::Statements::thread_statement, crate::specs::Statements::cooperate, crate::specs::Statements::join, crate::specs::Statements::control, crate::specs::Statements::run, crate::specs::Statements::halt))]
pub fn next_thread_statement<'a>(at: &Cursor<'a>) -> bool
    ensures { result ≡ next_begins thread_statement (symbols_at at.now) }
{
    next_is_word(Word::Cooperate, at)
        || next_is_word(Word::Join, at)
        || next_control(at)
        || next_is_word(Word::Run, at)
        || next_is_word(Word::Halt, at)
}

/// Whether the next symbol begins a statement that moves the thread or holds others.
#[tactic(auto, unfolding(crate::specs::Statements::moving_statement, crate::specs::Statements::link, crate::specs::Statements::unlink, crate::specs::Statements::conditional, crate::specs::Statements::while_loop, crate::specs::Statements::repeat))]
fn next_moving_statement<'a>(at: &Cursor<'a>) -> bool
    ensures { result ≡ next_begins moving_statement (symbols_at at.now) }
{
    next_is_word(Word::Link, at)
        || next_is_word(Word::Unlink, at)
        || next_is_word(Word::If, at)
        || next_is_word(Word::While, at)
        || next_is_word(Word::Repeat, at)
}

/// Whether the next symbol begins a statement.
#[tactic(auto, unfolding(crate::specs::Statements::statement))]
pub fn next_statement<'a>(at: &Cursor<'a>) -> bool
    ensures { result ≡ next_begins statement (symbols_at at.now) }
{
    next_value_statement(at)
        || next_event_statement(at)
        || next_thread_statement(at)
        || next_moving_statement(at)
}

/// Whether the next symbol begins a parameter.
#[tactic(auto, unfolding(crate::specs::Items::parameter))]
pub fn next_parameter<'a>(at: &Cursor<'a>) -> bool
    ensures { result ≡ next_begins parameter (symbols_at at.now) }
{
    next_is_word(Word::Int, at) || next_is_word(Word::Thread, at)
}

/// Whether the next symbol begins a local variable.
#[tactic(auto, unfolding(crate::specs::Items::local))]
pub fn next_local<'a>(at: &Cursor<'a>) -> bool
    ensures { result ≡ next_begins local (symbols_at at.now) }
{
    next_is_word(Word::Local, at)
}

/// Whether the next symbol begins a number, with a sign or without.
#[tactic(auto, unfolding(crate::specs::Items::signed, crate::specs::Items::negative))]
pub fn next_signed<'a>(at: &Cursor<'a>) -> bool
    ensures { result ≡ next_begins signed (symbols_at at.now) }
{
    next_is_number(at) || next_is_sign(Sign::Minus, at)
}

/// Whether the next symbol begins an argument outside bodies.
#[tactic(auto, unfolding(crate::specs::Items::outer_argument))]
pub fn next_outer_argument<'a>(at: &Cursor<'a>) -> bool
    ensures { result ≡ next_begins outer_argument (symbols_at at.now) }
{
    next_signed(at) || next_is_name(at)
}

/// Whether the next symbol begins an order.
#[tactic(auto, unfolding(crate::specs::Items::order, crate::specs::Items::create_order, crate::specs::Items::control_order, crate::specs::Items::broadcast_order))]
pub fn next_order<'a>(at: &Cursor<'a>) -> bool
    ensures { result ≡ next_begins order (symbols_at at.now) }
{
    next_is_word(Word::Create, at) || next_control(at) || next_is_word(Word::Broadcast, at)
}

/// Whether the next symbol begins a declaration.
#[tactic(auto, unfolding(crate::specs::Items::item, crate::specs::Items::scheduler_item, crate::specs::Items::event_item, crate::specs::Items::shared_item, crate::specs::Items::module_item, crate::specs::Items::head, crate::specs::Items::start_item, crate::specs::Items::outside_item))]
pub fn next_item<'a>(at: &Cursor<'a>) -> bool
    ensures { result ≡ next_begins item (symbols_at at.now) }
{
    next_is_word(Word::Scheduler, at)
        || next_is_word(Word::Event, at)
        || next_is_word(Word::Shared, at)
        || next_is_word(Word::Module, at)
        || next_is_word(Word::Start, at)
        || next_is_word(Word::Outside, at)
}
