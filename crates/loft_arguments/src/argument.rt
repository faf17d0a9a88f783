//! What one or two words say.

ghost use Rattle.std.specs.Prelude.{◌≡◌, ◌≤◌, length, ◌∷◌, None, false, codes, IfSome, IfNone};
ghost use Rattle.std.specs.Str.{bytes_eq};
ghost use Rattle.loft_arguments.specs.Words.{is_option, is_flag, words_of};
ghost use Rattle.loft_arguments.specs.Arguments.{arguments, value_first, one_more};
ghost use Rattle.loft_arguments.specs.Parts.{argument_of};

/// A word that is no option, or an option, with its value where it has one.
#[derive(Clone, Copy)]
pub enum Argument<'a> {
    /// A word that is no option, as a file's name.
    Plain(&'a str),
    /// An option with its value. The name has its dashes.
    Given { name: &'a str, value: &'a str },
    /// An option that has no value. The name has its dashes.
    Flag(&'a str),
}

/// Whether a word begins as an option does.
fn is_option(word: &str) -> bool
    ensures { result ≡ is_option word.now }
{
    match word.as_bytes() {
        [] => false,
        [first, ..] => *first == b'-',
    }
}

/// Whether a word is an option that has no value.
fn is_flag(word: &str) -> bool
    ensures { result ≡ is_flag word.now }
{
    word == "--run"
}

/// An option whose value is the first of the words, and the words after that. None where there is no value.
fn with_value<'a>(name: &'a str, words: &'a [String]) -> Option<(Argument<'a>, &'a [String])>
    ensures none { IfNone result (value_first name.now (words_of words.now) ≡ None) }
    ensures some { IfSome result (λ r. value_first name.now (words_of words.now)
        ≡ one_more (argument_of r.0) (arguments (words_of r.1.now))) }
    ensures shorter { IfSome result (λ r. length r.1.now ≤ length words.now) }
{
    let [value, rest @ ..] = words else {
        return None;
    };
    if is_option(value.as_str()) {
        return None;
    }
    let value = value.as_str();
    Some((Argument::Given { name, value }, rest))
}

/// What a word other than `--` says, perhaps with the next one, and the words after that. None where it is an option
/// without a value.
pub fn next_argument<'a>(word: &'a str, words: &'a [String]) -> Option<(Argument<'a>, &'a [String])>
    requires { bytes_eq word.now (codes "--") ≡ false }
    ensures none { IfNone result (arguments (word.now ∷ words_of words.now) ≡ None) }
    ensures some { IfSome result (λ r. arguments (word.now ∷ words_of words.now)
        ≡ one_more (argument_of r.0) (arguments (words_of r.1.now))) }
    ensures shorter { IfSome result (λ r. length r.1.now ≤ length words.now) }
{
    if !is_option(word) {
        return Some((Argument::Plain(word), words));
    }
    match word.split_once('=') {
        Some((name, value)) => Some((Argument::Given { name, value }, words)),
        None if is_flag(word) => Some((Argument::Flag(word), words)),
        None => with_value(word, words),
    }
}
