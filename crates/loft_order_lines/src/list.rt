//! Lists in a line.

ghost use Rattle.std.specs.Prelude.{◌≡◌, ◌<◌, ℕ, List, [], ◌∷◌, length, true, Some, IfSome};
ghost use Rattle.loft_tree.specs.declared.heads.Heads.{Heads};
ghost use Rattle.loft_tree.specs.Fits.{Each};
ghost use Rattle.loft_orders.specs.Text.{separated_by};
ghost use Rattle.loft_order_lines.specs.Texts.{OwnNames};
ghost use Rattle.loft_order_lines.specs.Cut.{Lacks};

use crate::cut::cut_at;
use loft_base::{Room, Sequence};
use loft_tree::Heads;

/// What lists in a line consist of.
pub trait Item: Drop {
    /// Its text, where a program declares these heads.
    ghost text: { Heads → Self → List ℕ };

    /// Whether it has a text of its own.
    ghost has_text: { Heads → Self → Type 0 };

    /// What has this text, if there is something.
    fn read(room: &mut Room, heads: &Heads, bytes: &[u8]) -> Option<Self>
        requires { OwnNames heads.now }
        ensures before { room.new.is_whole ≡ true → room.old.is_whole ≡ true }
        ensures text { room.new.is_whole ≡ true → IfSome result (has_text heads.now) }
        ensures read { room.new.is_whole ≡ true → (x : Self) → has_text heads.now x
            → bytes.now ≡ text heads.now x → result ≡ Some x };
}

/// The items whose texts these bytes are, with the byte between each two, if there are such items. The byte isn't in a
/// text, and no text is empty.
pub fn read_list<T: Item>(
    room: &mut Room,
    heads: &Heads,
    bytes: &[u8],
    between: u8,
) -> Option<Sequence<T>>
    requires own { OwnNames heads.now }
    requires apart { (x : T) → T.has_text heads.now x
        → (0 < length (T.text heads.now x)) × Lacks between (T.text heads.now x) }
    ensures before { room.new.is_whole ≡ true → room.old.is_whole ≡ true }
    ensures text { room.new.is_whole ≡ true → IfSome result (Each (T.has_text heads.now)) }
    ensures read { room.new.is_whole ≡ true → (xs : List T) → Each (T.has_text heads.now) xs
        → bytes.now ≡ separated_by (between ∷ []) (T.text heads.now) xs → result ≡ Some xs }
{
    let mut items = Sequence::new(room.alloc);
    let mut left = bytes;
    'parts: while !left.is_empty() {
        let (text, rest) = cut_at(left, between);
        let item = T::read(room, heads, text)?;
        room.push(&mut items, item);
        left = rest;
    }
    Some(items)
}
