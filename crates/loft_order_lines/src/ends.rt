//! How threads end.

ghost use Rattle.std.specs.Prelude.{◌≡◌, Some, IfSome};
ghost use Rattle.loft_orders.specs.declared.order.End.{End};
ghost use Rattle.loft_orders.specs.Text.{end_text};
ghost use Rattle.loft_tree.specs.declared.heads.Heads.{Heads};
ghost use Rattle.loft_order_lines.specs.Texts.{OwnNames, PointHasText, EndHasText};
ghost use Rattle.loft_order_lines.specs.Words.{word_of_end, plain_of, point_in};

use crate::cut::cut_at;
use crate::value::point_of;
use loft_orders::{At, End};
use loft_report_sets::word_of;
use loft_report_shape::Word;
use loft_tree::Heads;

/// The end of this word, if it is one without a point.
fn plain_end(word: Word) -> Option<End>
    ensures text { (h : Heads) → IfSome result (EndHasText h) }
    ensures read { (e : End) → word_of_end e ≡ word → result ≡ plain_of e }
{
    match word {
        Word::Done => Some(End::Done),
        Word::Stopped => Some(End::Stopped),
        Word::Full => Some(End::Full),
        _ => None,
    }
}

/// The end of this word at this point, if it is one at a point.
fn fault_end(word: Word, at: At) -> Option<End>
    ensures text { (h : Heads) → PointHasText h at → IfSome result (EndHasText h) }
    ensures read { (e : End) → word_of_end e ≡ word → point_in e ≡ Some at → result ≡ Some e }
{
    match word {
        Word::Div => Some(End::Div(at)),
        Word::Deep => Some(End::Deep(at)),
        Word::Over => Some(End::Over(at)),
        Word::Flood => Some(End::Flood(at)),
        _ => None,
    }
}

/// The end that has this text, if one has.
pub fn end_of(heads: &Heads, bytes: &[u8]) -> Option<End>
    requires { OwnNames heads.now }
    ensures text { IfSome result (EndHasText heads.now) }
    ensures read { (e : End) → EndHasText heads.now e → bytes.now ≡ end_text heads.now e
        → result ≡ Some e }
{
    let (word, at) = cut_at(bytes, b' ');
    let word = word_of(word)?;
    match plain_end(word) {
        Some(end) => Some(end),
        None => {
            let at = point_of(heads, at)?;
            fault_end(word, at)
        }
    }
}
