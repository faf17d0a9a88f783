//! Lines, and how they begin and end.

ghost use Rattle.std.specs.Prelude.{◌≡◌, ◌++◌, ◌∷◌, [], true, codes, replicate};
ghost use Rattle.loft_lex.specs.Word.{spelling as word_spelling};
ghost use Rattle.loft_lex.specs.declared.sign.Sign.TheVariants as s;
ghost use Rattle.loft_tree.specs.View.{expression_of};
ghost use Rattle.loft_show.specs.Canon.{pieces_text, lines_text, test_line, word_line, spaced, tight, sign, name};

use crate::expression::put_expression;
use crate::pieces::{put_name, put_sign, put_word};
use loft_base::Out;
use loft_lex::{Sign, Word};
use loft_tree::{Expr, Ident};

/// Appends so many blanks.
pub fn put_indent(out: &mut Out, indent: usize)
    ensures before { out.new.is_whole ≡ true → out.old.is_whole ≡ true }
    ensures text { out.new.is_whole ≡ true → out.new.text.items ≡ out.old.text.items
        ++ replicate indent 32 }
{
    for _ in 0..indent {
        out.put(b" ");
    }
}

/// Begins a line with so many blanks and a word.
pub fn begin_line(out: &mut Out, indent: usize, word: Word)
    ensures before { out.new.is_whole ≡ true → out.old.is_whole ≡ true }
    ensures text { out.new.is_whole ≡ true → out.new.text.items ≡ out.old.text.items ++
        (replicate indent 32 ++ word_spelling word) }
{
    put_indent(out, indent);
    put_word(out, b"", word)
}

/// Ends a line.
pub fn end_line(out: &mut Out)
    ensures before { out.new.is_whole ≡ true → out.old.is_whole ≡ true }
    ensures text { out.new.is_whole ≡ true → out.new.text.items ≡ out.old.text.items ++ 10 ∷ [] }
{
    out.put(b"\n");
}

/// Ends a line with a semicolon.
pub fn end_statement(out: &mut Out)
    ensures before { out.new.is_whole ≡ true → out.old.is_whole ≡ true }
    ensures text { out.new.is_whole ≡ true → out.new.text.items ≡ out.old.text.items
        ++ (codes ";" ++ 10 ∷ []) }
{
    put_sign(out, b"", Sign::Semicolon);
    end_line(out)
}

/// Appends a line that is a word alone.
pub fn put_bare_line(out: &mut Out, indent: usize, word: Word)
    ensures before { out.new.is_whole ≡ true → out.old.is_whole ≡ true }
    ensures text { out.new.is_whole ≡ true → out.new.text.items ≡ out.old.text.items ++
        (replicate indent 32 ++ (word_spelling word ++ 10 ∷ [])) }
{
    begin_line(out, indent, word);
    end_line(out)
}

/// Begins the line of an assignment.
#[tactic(auto, using(crate::proofs::Texts::texts))]
pub fn begin_assignment(out: &mut Out, indent: usize, target: &Ident)
    ensures before { out.new.is_whole ≡ true → out.old.is_whole ≡ true }
    ensures text { out.new.is_whole ≡ true → out.new.text.items ≡ out.old.text.items
        ++ (replicate indent 32 ++ pieces_text
        (tight (name target.now) ∷ spaced (sign s.Equals) ∷ [])) }
{
    put_indent(out, indent);
    put_name(out, b"", target);
    put_sign(out, b" ", Sign::Equals)
}

/// A line that is a word, a test between brackets and a word.
#[tactic(auto, using(crate::proofs::Texts::texts))]
pub fn put_test_line(out: &mut Out, indent: usize, before: Word, test: &Expr, after: Word)
    ensures before { out.new.is_whole ≡ true → out.old.is_whole ≡ true }
    ensures text { out.new.is_whole ≡ true → out.new.text.items ≡ out.old.text.items ++ lines_text
        (test_line indent before (expression_of test.now) after ∷ []) }
{
    begin_line(out, indent, before);
    put_sign(out, b" ", Sign::Open);
    put_expression(out, b"", test);
    put_sign(out, b"", Sign::Close);
    put_word(out, b" ", after);
    end_line(out)
}

/// Appends a line that is a word, a blank and a name, and ends with a semicolon.
#[tactic(auto, using(crate::proofs::Texts::texts))]
pub fn put_name_line(out: &mut Out, indent: usize, word: Word, named: &Ident)
    ensures before { out.new.is_whole ≡ true → out.old.is_whole ≡ true }
    ensures text { out.new.is_whole ≡ true → out.new.text.items ≡ out.old.text.items ++ lines_text
        (word_line indent word (spaced (name named.now) ∷ []) ∷ []) }
{
    begin_line(out, indent, word);
    put_name(out, b" ", named);
    end_statement(out)
}

/// Appends a line that is a word, and ends with a semicolon.
#[tactic(auto, using(crate::proofs::Texts::texts))]
pub fn put_word_line(out: &mut Out, indent: usize, word: Word)
    ensures before { out.new.is_whole ≡ true → out.old.is_whole ≡ true }
    ensures text { out.new.is_whole ≡ true → out.new.text.items ≡ out.old.text.items ++ lines_text
        (word_line indent word [] ∷ []) }
{
    begin_line(out, indent, word);
    end_statement(out)
}
