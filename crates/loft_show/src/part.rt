//! Parts of statements.

ghost use Rattle.std.specs.Prelude.{◌≡◌, ◌++◌, [], true};
ghost use Rattle.loft_tree.specs.View.{value_of, creation_of};
ghost use Rattle.loft_show.specs.Canon.{creation_pieces, comma_part, for_part, led_by, expression_pieces, pieces_text};

use crate::expression::put_expression;
use crate::list::put_call;
use crate::pieces::{put_sign, put_word};
use loft_base::Out;
use loft_lex::{Sign, Word};
use loft_tree::{Creation, Expr};

/// Appends a blank and what a `create` makes.
#[tactic(auto, using(crate::proofs::Texts::texts))]
pub fn put_creation(out: &mut Out, creation: &Creation)
    ensures before { out.new.is_whole ≡ true → out.old.is_whole ≡ true }
    ensures text { out.new.is_whole ≡ true → out.new.text.items ≡ out.old.text.items ++ pieces_text
        (creation_pieces (creation_of creation.now)) }
{
    let arguments = creation.arguments.as_slice();
    put_call(out, &creation.scheduler, &creation.called, arguments)
}

/// Appends a comma, a blank and the value, where there is one.
#[tactic(auto, using(crate::proofs::Texts::texts))]
pub fn put_value_part(out: &mut Out, value: &Option<Expr>)
    ensures before { out.new.is_whole ≡ true → out.old.is_whole ≡ true }
    ensures text { out.new.is_whole ≡ true → out.new.text.items ≡ out.old.text.items ++ pieces_text
        (comma_part (value_of value.now)) }
{
    let Some(value) = value else {
        return;
    };
    put_sign(out, b"", Sign::Comma);
    put_expression(out, b" ", value)
}

/// Appends a blank, `for`, a blank and the limit, where there is one.
#[tactic(auto, using(crate::proofs::Texts::texts))]
pub fn put_limit_part(out: &mut Out, limit: &Option<Expr>)
    ensures before { out.new.is_whole ≡ true → out.old.is_whole ≡ true }
    ensures text { out.new.is_whole ≡ true → out.new.text.items ≡ out.old.text.items ++ pieces_text
        (for_part (value_of limit.now)) }
{
    let Some(limit) = limit else {
        return;
    };
    put_word(out, b" ", Word::For);
    put_expression(out, b" ", limit)
}

/// Appends a blank and the value, where there is one.
#[tactic(auto, using(crate::proofs::Texts::texts))]
pub fn put_value_alone(out: &mut Out, value: &Option<Expr>)
    ensures before { out.new.is_whole ≡ true → out.old.is_whole ≡ true }
    ensures text { out.new.is_whole ≡ true → out.new.text.items ≡ out.old.text.items ++ pieces_text
        (led_by expression_pieces [] (value_of value.now)) }
{
    match value {
        Some(value) => put_expression(out, b" ", value),
        None => {}
    }
}
