//! Lists between brackets, with commas.

ghost use Rattle.std.specs.Prelude.{◌≡◌, ◌++◌, ◌∷◌, ℕ, List, true};
ghost use Rattle.loft_show.specs.Canon.{Piece, pieces_text, further_pieces, list_pieces, bracketed_pieces, spaced, tight, name, name_pieces, event_pieces, sign};
ghost use Rattle.loft_tree.specs.View.{event_name_of};
ghost use Rattle.loft_lex.specs.declared.sign.Sign.TheVariants as s;

use crate::pieces::{put_name, put_sign};
use loft_base::Out;
use loft_lex::Sign;
use loft_tree::{EventName, Ident};

/// What can stand in a list.
pub trait Listed {
    /// Its pieces after these blanks.
    ghost pieces: { Self → List ℕ → List Piece };

    /// Appends blanks and its pieces.
    fn put(&self, out: &mut Out, gap: &[u8])
        ensures before { out.new.is_whole ≡ true → out.old.is_whole ≡ true }
        ensures text { out.new.is_whole ≡ true → out.new.text.items ≡ out.old.text.items
            ++ pieces_text
            (pieces self.now gap.now) };
}

impl Listed for Ident {
    ghost pieces = { name_pieces };

    fn put(&self, out: &mut Out, gap: &[u8]) {
        put_name(out, gap, self)
    }
}

impl Listed for EventName {
    ghost pieces = { λ event. event_pieces (event_name_of event) };

    fn put(&self, out: &mut Out, gap: &[u8]) {
        put_name(out, gap, &self.name)
    }
}

/// Appends these, each after a comma and a blank.
#[tactic(auto, using(crate::proofs::Texts::texts))]
pub fn put_further<T: Listed>(out: &mut Out, items: &[T])
    ensures before { out.new.is_whole ≡ true → out.old.is_whole ≡ true }
    ensures text { out.new.is_whole ≡ true → out.new.text.items ≡ out.old.text.items ++ pieces_text
        (further_pieces T.pieces items.now) }
{
    for item in items {
        put_sign(out, b"", Sign::Comma);
        item.put(out, b" ");
    }
}

/// Appends these, with a comma and a blank between each two.
#[tactic(auto, using(crate::proofs::Texts::texts))]
fn put_separated<T: Listed>(out: &mut Out, items: &[T])
    ensures before { out.new.is_whole ≡ true → out.old.is_whole ≡ true }
    ensures text { out.new.is_whole ≡ true → out.new.text.items ≡ out.old.text.items ++ pieces_text
        (list_pieces T.pieces items.now) }
{
    let [first, rest @ ..] = items else {
        return;
    };
    first.put(out, b"");
    put_further(out, rest)
}

/// Appends these between brackets.
#[tactic(auto, using(crate::proofs::Texts::texts))]
pub fn put_list<T: Listed>(out: &mut Out, items: &[T])
    ensures before { out.new.is_whole ≡ true → out.old.is_whole ≡ true }
    ensures text { out.new.is_whole ≡ true → out.new.text.items ≡ out.old.text.items ++ pieces_text
        (bracketed_pieces T.pieces items.now) }
{
    put_sign(out, b"", Sign::Open);
    put_separated(out, items);
    put_sign(out, b"", Sign::Close)
}

/// Appends a blank, and a thread to be made: its scheduler, its module and the arguments.
#[tactic(auto, using(crate::proofs::Texts::texts))]
pub fn put_call<T: Listed>(out: &mut Out, scheduler: &Ident, called: &Ident, arguments: &[T])
    ensures before { out.new.is_whole ≡ true → out.old.is_whole ≡ true }
    ensures text { out.new.is_whole ≡ true → out.new.text.items ≡ out.old.text.items ++ pieces_text
        (spaced (name scheduler.now) ∷ tight (sign s.Dot) ∷ tight (name called.now)
        ∷ bracketed_pieces T.pieces arguments.now) }
{
    put_name(out, b" ", scheduler);
    put_sign(out, b"", Sign::Dot);
    put_name(out, b"", called);
    put_list(out, arguments)
}
