//! What words say, gathered so that each command finds what it takes.

ghost use Rattle.std.specs.Prelude.{◌≡◌, ◌≤◌, length, ◌∷◌, None, map, IfSome, IfNone};
ghost use Rattle.std.specs.Option.{option_map, option_copied};
ghost use Rattle.loft_arguments.specs.Words.{words_of};
ghost use Rattle.loft_arguments.specs.Arguments.{Plain, Given, Flag};
ghost use Rattle.loft_arguments.specs.Parts.{argument_of, plain_of, parts_of, no_parts, first_value, next_word, with_argument, with_arguments, with_words, has_no_run_options, has_no_options};

use crate::argument::{Argument, next_argument};

/// The words that are no options, at most two, in their order.
#[derive(Clone, Copy)]
pub enum PlainWords<'a> {
    /// There is none.
    Nothing,
    /// There is one.
    One(&'a str),
    /// There are two.
    Two(&'a str, &'a str),
}

/// The words that are no options, the values of the options, and the flag of `gen`.
#[derive(Clone, Copy)]
pub struct Parts<'a> {
    /// The words that are no options.
    pub plain: PlainWords<'a>,
    /// The value of `--instants`.
    pub instants: Option<&'a str>,
    /// The value of `--budget`.
    pub budget: Option<&'a str>,
    /// The value of `--block`.
    pub block: Option<&'a str>,
    /// The value of `--workers`.
    pub workers: Option<&'a str>,
    /// The flag `--run`.
    pub run: Option<&'a str>,
    /// The value of `--only`.
    pub only: Option<&'a str>,
}

/// A value where there was none.
fn first_value<'a>(before: Option<&'a str>, value: &'a str) -> Option<&'a str>
    ensures { option_copied result ≡ first_value (option_copied before.entry) value.now }
{
    match before {
        None => Some(value),
        Some(_) => None,
    }
}

/// With one more word, where there were fewer than two.
fn next_word<'a>(words: PlainWords<'a>, word: &'a str) -> Option<PlainWords<'a>>
    ensures { option_map plain_of result ≡ next_word (plain_of words.entry) word.now }
{
    match words {
        PlainWords::Nothing => Some(PlainWords::One(word)),
        PlainWords::One(first) => Some(PlainWords::Two(first, word)),
        PlainWords::Two(..) => None,
    }
}

impl<'a> Parts<'a> {
    /// What words say. None where three of them are no options, where an option stands twice or isn't known, and where
    /// it has no value and needs one.
    pub fn read(words: &'a [String]) -> Option<Self>
        ensures { option_map parts_of result ≡ with_words no_parts (words_of words.now) }
    {
        Parts::none().with_words(words)
    }

    /// Whether no option is given.
    pub fn has_no_options(self) -> bool
        ensures { result ≡ has_no_options (parts_of self.entry) }
    {
        self.has_no_run_options() && self.run.is_none() && self.only.is_none()
    }

    /// Whether no option of a run is given.
    pub fn has_no_run_options(self) -> bool
        ensures { result ≡ has_no_run_options (parts_of self.entry) }
    {
        self.instants.is_none()
            && self.budget.is_none()
            && self.block.is_none()
            && self.workers.is_none()
    }

    /// What no words say.
    fn none() -> Self
        ensures { parts_of result ≡ no_parts }
    {
        Parts {
            plain: PlainWords::Nothing,
            instants: None,
            budget: None,
            block: None,
            workers: None,
            run: None,
            only: None,
        }
    }

    /// With one more word that is no option.
    fn with_plain(self, word: &'a str) -> Option<Self>
        ensures { option_map parts_of result ≡ with_argument (Plain word.now) (parts_of self.entry) }
    {
        let plain = next_word(self.plain, word)?;
        Some(Parts { plain, ..self })
    }

    /// With one more option that has a value.
    fn with_option(self, name: &str, value: &'a str) -> Option<Self>
        ensures { option_map parts_of result ≡ with_argument (Given name.now value.now) (parts_of self.entry) }
    {
        let mut parts = self;
        let before = if name == "--instants" {
            parts.instants.replace(value)
        } else if name == "--budget" {
            parts.budget.replace(value)
        } else if name == "--block" {
            parts.block.replace(value)
        } else if name == "--workers" {
            parts.workers.replace(value)
        } else if name == "--only" {
            parts.only.replace(value)
        } else {
            return None;
        };
        if before.is_none() { Some(parts) } else { None }
    }

    /// With one more option that has none.
    fn with_flag(self, name: &'a str) -> Option<Self>
        ensures { option_map parts_of result ≡ with_argument (Flag name.now) (parts_of self.entry) }
    {
        if name != "--run" {
            return None;
        }
        let run = Some(first_value(self.run, name)?);
        Some(Parts { run, ..self })
    }

    /// With one more argument.
    fn with_argument(self, argument: Argument<'a>) -> Option<Self>
        ensures { option_map parts_of result ≡ with_argument (argument_of argument.entry) (parts_of self.entry) }
    {
        match argument {
            Argument::Plain(word) => self.with_plain(word),
            Argument::Given { name, value } => self.with_option(name, value),
            Argument::Flag(name) => self.with_flag(name),
        }
    }

    /// With words of which none is an option.
    fn with_plains(self, words: &'a [String]) -> Option<Self>
        ensures { option_map parts_of result
            ≡ with_arguments (parts_of self.entry) (map Plain (words_of words.now)) }
    {
        match words {
            [] => Some(self),
            [word] => self.with_plain(word.as_str()),
            [word, other] => self.with_plain(word.as_str())?.with_plain(other.as_str()),
            [_, _, _, ..] => None,
        }
    }

    /// With what a word and perhaps the next one say, and the words after that.
    fn with_next(self, word: &'a str, words: &'a [String]) -> Option<(Self, &'a [String])>
        ensures none { IfNone result (with_words (parts_of self.entry) (word.now ∷ words_of words.now) ≡ None) }
        ensures some { IfSome result (λ r. with_words (parts_of self.entry) (word.now ∷ words_of words.now)
            ≡ with_words (parts_of r.0) (words_of r.1.now)) }
        ensures shorter { IfSome result (λ r. length r.1.now ≤ length words.now) }
    {
        if word == "--" {
            return Some((self.with_plains(words)?, &[]));
        }
        let (argument, rest) = next_argument(word, words)?;
        Some((self.with_argument(argument)?, rest))
    }

    /// With what more words say. Each call adds a word or one of six options, so nine calls lie in one another at most,
    /// however many words there are.
    fn with_words(self, words: &'a [String]) -> Option<Self>
        ensures { option_map parts_of result ≡ with_words (parts_of self.entry) (words_of words.now) }
    {
        let Some((word, more)) = words.split_first() else {
            return Some(self);
        };
        let (parts, rest) = self.with_next(word.as_str(), more)?;
        parts.with_words(rest)
    }
}
