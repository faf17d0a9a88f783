//! Declarations.

ghost use Rattle.std.specs.Prelude.{◌≡◌, ◌++◌, ◌∷◌, [], map, true};
ghost use Rattle.std.specs.Option.{option_map};
ghost use Rattle.loft_lex.specs.declared.word.Word.TheVariants as w;
ghost use Rattle.loft_tree.specs.Source.{Event, Shared, Module, Start, Outside};
ghost use Rattle.loft_tree.specs.View.{named_of, place_name_of, head_of, statements_of, argument_of, order_of, declaration_of};
ghost use Rattle.loft_tree.specs.Fits.{StatementsFit};
ghost use Rattle.loft_show.specs.Canon.{led_by, brace_line, declaration_lines, head_line, kind_word, lines_text, local_line, local_lines, name_pieces, named_pieces, outside_line, pieces_text, place_pieces, space, spaced, word};
ghost use Rattle.loft_show.specs.PartReads.{BodyFits};

use crate::line::{begin_line, end_line, end_statement, put_bare_line, put_name_line};
use crate::list::{Listed, put_list};
use crate::order::{put_orders, put_outer_call};
use crate::pieces::{put_name, put_number, put_sign, put_word};
use crate::statement::put_body;
use loft_base::Out;
use loft_lex::{Sign, Word};
use loft_tree::{Argument, Ident, Item, Kind, ModuleHead, OutsideOrder, PlaceName, Stmt, Variable};

/// The word of a kind.
fn kind_word(kind: Kind) -> Word
    ensures { result ≡ kind_word kind }
{
    match kind {
        Kind::Int => Word::Int,
        Kind::Thread => Word::Thread,
    }
}

impl Listed for Variable {
    ghost pieces = { λ v. named_pieces (named_of v) };

    #[tactic(auto, using(crate::proofs::Items::items))]
    fn put(&self, out: &mut Out, gap: &[u8]) {
        put_word(out, gap, kind_word(self.kind));
        put_name(out, b" ", &self.name)
    }
}

/// Appends a blank and a place.
#[tactic(auto, using(crate::proofs::Items::items))]
pub fn put_place(out: &mut Out, place: &PlaceName)
    ensures before { out.new.is_whole ≡ true → out.old.is_whole ≡ true }
    ensures text { out.new.is_whole ≡ true → out.new.text.items ≡ out.old.text.items ++ pieces_text
        (place_pieces (place_name_of place.now) space) }
{
    match place {
        PlaceName::Scheduler(name) => put_name(out, b" ", name),
        PlaceName::Unlinked => put_word(out, b" ", Word::Unlinked),
    }
}

/// Appends where the threads of a module end, if that isn't where they begin.
#[tactic(auto, using(crate::proofs::Items::items))]
fn put_end_place(out: &mut Out, end: &Option<PlaceName>)
    ensures before { out.new.is_whole ≡ true → out.old.is_whole ≡ true }
    ensures text { out.new.is_whole ≡ true → out.new.text.items ≡ out.old.text.items ++ pieces_text
        (led_by place_pieces (spaced (word w.To) ∷ []) (option_map place_name_of end.now)) }
{
    let Some(end) = end else {
        return;
    };
    put_word(out, b" ", Word::To);
    put_place(out, end)
}

/// Appends the line `module m(int x, thread t) in A to B`.
#[tactic(auto, using(crate::proofs::Items::items))]
pub fn put_head(out: &mut Out, head: &ModuleHead)
    ensures before { out.new.is_whole ≡ true → out.old.is_whole ≡ true }
    ensures text { out.new.is_whole ≡ true → out.new.text.items ≡ out.old.text.items ++ lines_text
        (head_line (head_of head.now) ∷ []) }
{
    put_word(out, b"", Word::Module);
    put_name(out, b" ", &head.name);
    put_list(out, head.parameters.as_slice());
    put_word(out, b" ", Word::In);
    put_place(out, &head.begin);
    put_end_place(out, &head.end);
    end_line(out)
}

/// Appends the line `local int x;`, with so many blanks at its front.
#[tactic(auto, using(crate::proofs::Items::items))]
pub fn put_local(out: &mut Out, indent: usize, local: &Variable)
    ensures before { out.new.is_whole ≡ true → out.old.is_whole ≡ true }
    ensures text { out.new.is_whole ≡ true → out.new.text.items ≡ out.old.text.items ++ lines_text
        (local_line indent (named_of local.now) ∷ []) }
{
    begin_line(out, indent, Word::Local);
    local.put(out, b" ");
    end_statement(out)
}

/// The local variables of a module.
fn put_locals(out: &mut Out, locals: &[Variable])
    ensures before { out.new.is_whole ≡ true → out.old.is_whole ≡ true }
    ensures text { out.new.is_whole ≡ true → out.new.text.items ≡ out.old.text.items ++ lines_text
        (local_lines (map named_of locals.now)) }
{
    for local in locals {
        put_local(out, 2, local);
    }
}

/// Appends the line `event e in A;`.
#[tactic(auto, using(crate::proofs::Items::items))]
pub fn put_event_head(out: &mut Out, name: &Ident, scheduler: &Ident)
    ensures before { out.new.is_whole ≡ true → out.old.is_whole ≡ true }
    ensures text { out.new.is_whole ≡ true → out.new.text.items ≡ out.old.text.items ++ lines_text
        (declaration_lines (Event name.now scheduler.now)) }
{
    begin_line(out, 0, Word::Event);
    put_name(out, b" ", name);
    put_word(out, b" ", Word::In);
    put_name(out, b" ", scheduler);
    end_statement(out)
}

/// Appends the line `shared x in A = 1;`.
#[tactic(auto, using(crate::proofs::Items::items))]
pub fn put_shared(out: &mut Out, name: &Ident, scheduler: &Ident, value: i64)
    ensures before { out.new.is_whole ≡ true → out.old.is_whole ≡ true }
    ensures text { out.new.is_whole ≡ true → out.new.text.items ≡ out.old.text.items ++ lines_text
        (declaration_lines (Shared name.now scheduler.now value)) }
{
    begin_line(out, 0, Word::Shared);
    put_name(out, b" ", name);
    put_word(out, b" ", Word::In);
    put_name(out, b" ", scheduler);
    put_sign(out, b" ", Sign::Equals);
    put_number(out, b" ", value);
    end_statement(out)
}

/// A module: its head, its local variables, its statements and `end`.
#[tactic(auto, using(crate::proofs::Texts::bodies))]
fn put_module(out: &mut Out, head: &ModuleHead, locals: &[Variable], body: &[Stmt])
    requires { StatementsFit (statements_of body.now) 32 }
    ensures before { out.new.is_whole ≡ true → out.old.is_whole ≡ true }
    ensures text { out.new.is_whole ≡ true → out.new.text.items ≡ out.old.text.items ++ lines_text
        (declaration_lines
        (Module (head_of head.now) (map named_of locals.now) (statements_of body.now))) }
{
    put_head(out, head);
    put_locals(out, locals);
    put_body(out, body, 1);
    put_bare_line(out, 0, Word::End)
}

/// Appends what a start names its thread, where it does.
#[tactic(auto, using(crate::proofs::Items::items))]
fn put_start_name(out: &mut Out, name: &Option<Ident>)
    ensures before { out.new.is_whole ≡ true → out.old.is_whole ≡ true }
    ensures text { out.new.is_whole ≡ true → out.new.text.items ≡ out.old.text.items ++ pieces_text
        (led_by name_pieces (spaced (word w.As) ∷ []) name.now) }
{
    let Some(name) = name else {
        return;
    };
    put_word(out, b" ", Word::As);
    put_name(out, b" ", name)
}

/// Appends the line `start A.m(1, t);` or `start A.m(1, t) as n;`.
#[tactic(auto, using(crate::proofs::Items::items))]
pub fn put_start(
    out: &mut Out,
    scheduler: &Ident,
    called: &Ident,
    arguments: &[Argument],
    name: &Option<Ident>,
)
    ensures before { out.new.is_whole ≡ true → out.old.is_whole ≡ true }
    ensures text { out.new.is_whole ≡ true → out.new.text.items ≡ out.old.text.items ++ lines_text
        (declaration_lines
        (Start scheduler.now called.now (map argument_of arguments.now) name.now)) }
{
    begin_line(out, 0, Word::Start);
    put_outer_call(out, scheduler, called, arguments);
    put_start_name(out, name);
    end_statement(out)
}

/// Appends the line `outside c {`.
#[tactic(auto, using(crate::proofs::Items::items))]
pub fn put_outside_line(out: &mut Out, name: &Ident)
    ensures before { out.new.is_whole ≡ true → out.old.is_whole ≡ true }
    ensures text { out.new.is_whole ≡ true → out.new.text.items ≡ out.old.text.items
        ++ lines_text (outside_line name.now ∷ []) }
{
    put_word(out, b"", Word::Outside);
    put_name(out, b" ", name);
    put_sign(out, b" ", Sign::OpenBrace);
    end_line(out)
}

/// Appends the line `}`.
#[tactic(auto, using(crate::proofs::Items::items))]
pub fn put_brace_line(out: &mut Out)
    ensures before { out.new.is_whole ≡ true → out.old.is_whole ≡ true }
    ensures text { out.new.is_whole ≡ true → out.new.text.items ≡ out.old.text.items
        ++ lines_text (brace_line ∷ []) }
{
    put_sign(out, b"", Sign::CloseBrace);
    end_line(out)
}

/// Appends the lines of an outside client: its name, and its orders between braces.
#[tactic(auto, using(crate::proofs::Items::items))]
pub fn put_outside(out: &mut Out, name: &Ident, orders: &[OutsideOrder])
    ensures before { out.new.is_whole ≡ true → out.old.is_whole ≡ true }
    ensures text { out.new.is_whole ≡ true → out.new.text.items ≡ out.old.text.items ++ lines_text
        (declaration_lines (Outside name.now (map order_of orders.now))) }
{
    put_outside_line(out, name);
    put_orders(out, orders);
    put_brace_line(out)
}

/// Appends the lines of a declaration.
#[tactic(auto, using(crate::proofs::Items::items))]
pub fn put_item(out: &mut Out, item: &Item)
    requires { BodyFits (declaration_of item.now) }
    ensures before { out.new.is_whole ≡ true → out.old.is_whole ≡ true }
    ensures text { out.new.is_whole ≡ true → out.new.text.items ≡ out.old.text.items ++ lines_text
        (declaration_lines (declaration_of item.now)) }
{
    match item {
        Item::Scheduler(name) => put_name_line(out, 0, Word::Scheduler, name),
        Item::Event { name, scheduler } => put_event_head(out, name, scheduler),
        Item::Shared {
            name,
            scheduler,
            value,
        } => put_shared(out, name, scheduler, *value),
        Item::Module { head, locals, body } => {
            put_module(out, head, locals.as_slice(), body.as_slice())
        }
        Item::Start {
            scheduler,
            called,
            arguments,
            name,
        } => put_start(out, scheduler, called, arguments.as_slice(), name),
        Item::Outside { name, orders } => put_outside(out, name, orders.as_slice()),
    }
}
