//! The text that is read in place of a source with locks.

ghost use Rattle.std.specs.Prelude.{◌≡◌, ◌<◌, ◌≤◌, ◌^◌, ◌++◌, ◌∷◌, [], ℕ, List, true, length, All, IfOk, IfSome, IsNone};
ghost use Rattle.std.specs.Option.{option_map};
ghost use Rattle.loft_lex.specs.declared.TheConstants.{MAX_TEXT_LEN};
ghost use Rattle.loft_lex.specs.declared.token.Token.{Token};
ghost use Rattle.loft_lex.specs.Fits.{Fits};
ghost use Rattle.loft_lex.specs.Tokens.{Rising};
ghost use Rattle.loft_lex.specs.TextSymbols.{symbols_seen};
ghost use Rattle.loft_lex.specs.Symbol.{symbols as symbols_in};
ghost use Rattle.loft_lock_forms.specs.Rewriting.{form_text, more_of, written};
ghost use Rattle.loft_lock_forms.specs.Marks.{Mark as MarkOf, form_mark, text_marks};
ghost use Rattle.loft_lock_forms.specs.Seen.{form_seen, mark_seen, marks_seen, with_mark};
ghost use Rattle.loft_lock_forms.specs.Whole.{whole};

use crate::form::{Form, first_form};
use crate::writing::{Mark, Use, put_form};
use loft_base::{NoMemory, Out};
use loft_lex::{MAX_TEXT_LEN, Symbol, Token};
use std::alloc::Global;

/// A text in place of a source with locks.
#[derive(Drop)]
pub struct Written<'a> {
    /// Its bytes.
    pub text: Vec<u8>,
    /// The `run`s in it that stand in place of forms, in order.
    pub marks: Vec<Mark<'a>>,
}

/// What is written so far.
#[derive(Drop)]
struct Writer<'a> {
    out: Out,
    marks: Vec<Mark<'a>>,
    /// The offset up to which the source is read.
    at: usize,
    /// How many of the next tokens belong to a form.
    skip: usize,
}

/// The mark of a form that is a statement and is written from this offset on.
fn mark_of<'a>(start: usize, form: Form<'a>) -> Option<Mark<'a>>
    requires { start < 2 ^ 32 }
    ensures { (rest : List MarkOf) → with_mark (option_map mark_seen result) rest ≡ form_mark (form_seen form.entry) start rest }
{
    let used = match form {
        Form::Declares { .. } => return None,
        Form::Takes(lock) => Use::Take(lock),
        Form::Gives(lock) => Use::Give(lock),
    };
    Some(Mark {
        at: start + 4,
        used,
    })
}

/// Appends a mark, if there is one; whether memory was enough.
fn note<'a>(marks: &mut Vec<Mark<'a>>, mark: Option<Mark<'a>>) -> bool
    ensures { result ≡ true → (rest : List MarkOf)
        → marks_seen marks.new.items ++ rest ≡ marks_seen marks.old.items ++ with_mark (option_map mark_seen mark.entry) rest }
{
    match mark {
        None => true,
        Some(mark) => marks.push(mark).is_ok(),
    }
}

impl<'a> Writer<'a> {
    /// Writes what replaces the form.
    fn replace(&mut self, form: Form<'a>)
        requires { self.old.out.is_whole ≡ true → length self.old.out.text.items < 2 ^ 32 }
        ensures before { self.new.out.is_whole ≡ true → self.old.out.is_whole ≡ true }
        ensures text { self.new.out.is_whole ≡ true → (rest : List ℕ)
            → self.new.out.text.items ++ rest ≡ self.old.out.text.items ++ form_text (form_seen form.entry) rest }
        ensures marks { self.new.out.is_whole ≡ true → (rest : List MarkOf)
            → marks_seen self.new.marks.items ++ rest
            ≡ marks_seen self.old.marks.items ++ form_mark (form_seen form.entry) (length self.old.out.text.items) rest }
        ensures skip { self.new.skip ≡ more_of (form_seen form.entry) }
        ensures at { self.new.at ≡ self.old.at }
    {
        self.skip = form.more();
        if !self.out.is_whole {
            return;
        }
        let mark = mark_of(self.out.text.len(), form);
        if note(&mut self.marks, mark) {
            put_form(&mut self.out, form);
        } else {
            self.out.is_whole = false;
        }
    }

    /// Goes over a token, the first of these symbols, and writes what stands in place of it.
    fn go(&mut self, text: &[u8], token: Token, symbols: &[Symbol<'a>])
        requires short { length text.now ≤ MAX_TEXT_LEN }
        requires room { self.old.out.is_whole ≡ true → length self.old.out.text.items ≤ MAX_TEXT_LEN }
        requires from { self.old.at ≤ token.from }
        requires some { token.from ≤ token.to }
        requires within { token.to ≤ length text.now }
        ensures before { self.new.out.is_whole ≡ true → self.old.out.is_whole ≡ true }
        ensures at { self.new.at ≡ token.to }
        ensures whole { self.new.out.is_whole ≡ true → (ts : List Token) → symbols_seen symbols.now ≡ symbols_in text.now (token ∷ ts)
            → whole text.now self.new ts ≡ whole text.now self.old (token ∷ ts) }
    {
        let from = self.at;
        self.at = token.to as usize;
        if self.skip > 0 {
            self.skip -= 1;
            return;
        }
        match first_form(symbols) {
            None => self.out.put(&text[from..token.to as usize]),
            Some(form) => {
                self.out.put(&text[from..token.from as usize]);
                self.replace(form);
            }
        }
    }

    /// Writes what comes after the last token.
    fn finish(&mut self, text: &[u8])
        requires { self.old.at ≤ length text.now }
        ensures before { self.new.out.is_whole ≡ true → self.old.out.is_whole ≡ true }
        ensures text { self.new.out.is_whole ≡ true → self.new.out.text.items ≡ self.old.out.text.items ++ written text.now self.old.at self.old.skip [] }
        ensures marks { self.new.marks ≡ self.old.marks }
    {
        if self.skip == 0 {
            self.out.put(&text[self.at..]);
        }
    }
}

/// The text that is read in place of the one with these tokens, if it has at most 4 MiB.
///
/// # Errors
///
/// Out of memory.
pub fn rewrite<'a>(
    alloc: Global,
    text: &'a [u8],
    tokens: &[Token],
    symbols: &[Symbol<'a>],
) -> Result<Option<Written<'a>>, NoMemory>
    requires short { length text.now ≤ MAX_TEXT_LEN }
    requires fits { All (Fits text.now) tokens.now }
    requires rising { Rising 0 tokens.now }
    requires symbols { symbols_seen symbols.now ≡ symbols_in text.now tokens.now }
    ensures text { IfOk result (λ found. IfSome found (λ w. w.text.items ≡ written text.now 0 0 tokens.now)) }
    ensures fits { IfOk result (λ found. IfSome found (λ w. length w.text.items ≤ MAX_TEXT_LEN)) }
    ensures marks { IfOk result (λ found. IfSome found (λ w. marks_seen w.marks.items ≡ text_marks text.now tokens.now)) }
    ensures long { IfOk result (λ found. IsNone found → MAX_TEXT_LEN < length (written text.now 0 0 tokens.now)) }
{
    let mut writer = Writer {
        out: Out::new(alloc),
        marks: Vec::new(alloc),
        at: 0,
        skip: 0,
    };
    let mut index = 0;
    while index < tokens.len() && writer.out.text.len() <= MAX_TEXT_LEN {
        let (_, said) = symbols.split_at(index);
        writer.go(text, tokens[index], said);
        index += 1;
    }
    writer.finish(text);
    let Writer { out, marks, .. } = writer;
    let text = out.done()?;
    if text.len() > MAX_TEXT_LEN {
        return Ok(None);
    }
    Ok(Some(Written { text, marks }))
}
