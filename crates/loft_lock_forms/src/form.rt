//! The three forms.

ghost use Rattle.std.specs.Prelude.{◌≡◌};
ghost use Rattle.std.specs.Option.{option_map};
ghost use Rattle.loft_lex.specs.declared.word.Word.TheVariants as word;
ghost use Rattle.loft_lex.specs.TextSymbols.{symbols_seen};
ghost use Rattle.loft_lex.specs.Seen.{what_seen};
ghost use Rattle.loft_grammar.specs.Language.{kind_of, is_word};
ghost use Rattle.loft_lock_forms.specs.Rewriting.{is_end, ended, placed, after_lock, lock_form, unlock_form, lock_of, more_of};
ghost use Rattle.loft_lock_forms.specs.Seen.{form_seen, forms_of_name, first_form, whats};

use loft_lex::{Sign, Symbol, What, Word};

/// A form of a lock, with the names that stand in it.
#[derive(Clone, Copy)]
pub enum Form<'a> {
    /// `lock l in A;`
    Declares { lock: &'a [u8], at: &'a [u8] },
    /// `lock l;`
    Takes(&'a [u8]),
    /// `unlock l;`
    Gives(&'a [u8]),
}

impl<'a> Form<'a> {
    /// The name of the lock.
    pub fn lock(self) -> &'a [u8]
        ensures { result.now ≡ lock_of (form_seen self.entry) }
    {
        match self {
            Form::Declares { lock, .. } => lock,
            Form::Takes(lock) => lock,
            Form::Gives(lock) => lock,
        }
    }

    /// How many tokens follow the first.
    pub fn more(self) -> usize
        ensures { result ≡ more_of (form_seen self.entry) }
    {
        match self {
            Form::Declares { .. } => 4,
            Form::Takes(_) | Form::Gives(_) => 2,
        }
    }
}

/// Whether it is `;`.
fn is_end<'a>(what: What<'a>) -> bool
    ensures { result ≡ is_end (what_seen what.entry) }
{
    match what {
        What::Sign(found) => found == Sign::Semicolon,
        _ => false,
    }
}

/// Whether it is `in`.
fn is_in<'a>(what: What<'a>) -> bool
    ensures { result ≡ is_word word.In (kind_of (what_seen what.entry)) }
{
    match what {
        What::Word(found) => found == Word::In,
        _ => false,
    }
}

/// The form, if it ends here.
fn ended<'a>(form: Form<'a>, symbols: &[Symbol<'a>]) -> Option<Form<'a>>
    ensures { option_map form_seen result ≡ ended (form_seen form.entry) (whats (symbols_seen symbols.now)) }
{
    match symbols {
        [] => None,
        [symbol, ..] => {
            if is_end(symbol.what) {
                Some(form)
            } else {
                None
            }
        }
    }
}

/// The form that declares the lock, where the name of its scheduler and its end come.
fn placed<'a>(lock: &'a [u8], symbols: &[Symbol<'a>]) -> Option<Form<'a>>
    ensures { option_map form_seen result ≡ placed lock.now (whats (symbols_seen symbols.now)) }
{
    match symbols {
        [] => None,
        [symbol, rest @ ..] => match symbol.what {
            What::Name(at) => ended(Form::Declares { lock, at }, rest),
            _ => None,
        },
    }
}

/// The form that begins with `lock` and this name.
fn after_lock<'a>(lock: &'a [u8], symbols: &[Symbol<'a>]) -> Option<Form<'a>>
    ensures { option_map form_seen result ≡ after_lock lock.now (whats (symbols_seen symbols.now)) }
{
    match symbols {
        [] => None,
        [symbol, rest @ ..] => {
            if is_end(symbol.what) {
                Some(Form::Takes(lock))
            } else if is_in(symbol.what) {
                placed(lock, rest)
            } else {
                None
            }
        }
    }
}

/// The form that begins with `lock`.
fn lock_form<'a>(symbols: &[Symbol<'a>]) -> Option<Form<'a>>
    ensures { option_map form_seen result ≡ lock_form (whats (symbols_seen symbols.now)) }
{
    match symbols {
        [] => None,
        [symbol, rest @ ..] => match symbol.what {
            What::Name(lock) => after_lock(lock, rest),
            _ => None,
        },
    }
}

/// The form that begins with `unlock`.
fn unlock_form<'a>(symbols: &[Symbol<'a>]) -> Option<Form<'a>>
    ensures { option_map form_seen result ≡ unlock_form (whats (symbols_seen symbols.now)) }
{
    match symbols {
        [] => None,
        [symbol, rest @ ..] => match symbol.what {
            What::Name(lock) => ended(Form::Gives(lock), rest),
            _ => None,
        },
    }
}

/// The form that begins with this name, before these symbols.
fn form_of_name<'a>(name: &[u8], rest: &[Symbol<'a>]) -> Option<Form<'a>>
    ensures { option_map form_seen result ≡ forms_of_name name.now (whats (symbols_seen rest.now)) }
{
    if name == b"lock".as_slice() {
        lock_form(rest)
    } else if name == b"unlock".as_slice() {
        unlock_form(rest)
    } else {
        None
    }
}

/// The form that begins with the first of these symbols, if one does.
pub fn first_form<'a>(symbols: &[Symbol<'a>]) -> Option<Form<'a>>
    ensures { option_map form_seen result ≡ first_form (whats (symbols_seen symbols.now)) }
{
    match symbols {
        [] => None,
        [symbol, rest @ ..] => match symbol.what {
            What::Name(name) => form_of_name(name, rest),
            _ => None,
        },
    }
}
