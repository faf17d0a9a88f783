//! Words, signs, names, texts and numbers, each after blanks.

ghost use Rattle.std.specs.Prelude.{◌≡◌, ◌++◌, true, codes};
ghost use Rattle.std.specs.Fmt.{signed_decimal};
ghost use Rattle.loft_lex.specs.Word.{spelling as word_spelling};
ghost use Rattle.loft_lex.specs.Sign.{spelling as sign_spelling};

use loft_base::Out;
use loft_lex::{Sign, Word};
use loft_tree::{Ident, Text};

/// Appends blanks and bytes.
#[inline(always)]
fn put(out: &mut Out, gap: &[u8], bytes: &[u8])
    ensures before { out.new.is_whole ≡ true → out.old.is_whole ≡ true }
    ensures text { out.new.is_whole ≡ true → out.new.text.items ≡ out.old.text.items
        ++ (gap.now ++ bytes.now) }
{
    out.put(gap);
    out.put(bytes);
}

/// Appends blanks and a word.
#[inline(always)]
pub fn put_word(out: &mut Out, gap: &[u8], word: Word)
    ensures before { out.new.is_whole ≡ true → out.old.is_whole ≡ true }
    ensures text { out.new.is_whole ≡ true → out.new.text.items ≡ out.old.text.items
        ++ (gap.now ++ word_spelling word) }
{
    put(out, gap, word.spelling())
}

/// Appends blanks and a sign.
#[inline(always)]
pub fn put_sign(out: &mut Out, gap: &[u8], sign: Sign)
    ensures before { out.new.is_whole ≡ true → out.old.is_whole ≡ true }
    ensures text { out.new.is_whole ≡ true → out.new.text.items ≡ out.old.text.items
        ++ (gap.now ++ sign_spelling sign) }
{
    put(out, gap, sign.spelling())
}

/// Appends blanks and a name.
#[inline(always)]
pub fn put_name(out: &mut Out, gap: &[u8], name: &Ident)
    ensures before { out.new.is_whole ≡ true → out.old.is_whole ≡ true }
    ensures text { out.new.is_whole ≡ true → out.new.text.items ≡ out.old.text.items
        ++ (gap.now ++ name.now.text) }
{
    put(out, gap, name.text())
}

/// Appends blanks and a number, with a sign where it is negative.
pub fn put_number(out: &mut Out, gap: &[u8], number: i64)
    ensures before { out.new.is_whole ≡ true → out.old.is_whole ≡ true }
    ensures text { out.new.is_whole ≡ true → out.new.text.items ≡ out.old.text.items
        ++ (gap.now ++ signed_decimal number) }
{
    match number.to_string(*out.text.allocator()) {
        Ok(digits) => put(out, gap, digits.as_bytes()),
        Err(_) => out.is_whole = false,
    }
}

/// Appends a blank and a text between its quotes.
pub fn put_text(out: &mut Out, text: &Text)
    ensures before { out.new.is_whole ≡ true → out.old.is_whole ≡ true }
    ensures text { out.new.is_whole ≡ true → out.new.text.items ≡ out.old.text.items ++
        (codes " \"" ++ (text.now ++ codes "\"")) }
{
    put(out, b" \"", text.bytes());
    put(out, b"", b"\"")
}
