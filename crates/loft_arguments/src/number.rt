//! Numbers in words.

ghost use Rattle.std.specs.Prelude.{◌≡◌};
ghost use Rattle.loft_arguments.specs.Words.{number_in};

/// The number that a word spells, where it is from 1 to the most.
pub fn number_in(most: u64, word: &str) -> Option<u64>
    ensures { result ≡ number_in most word.now }
{
    // `parse` takes a `+` in front, which is no digit
    if word.starts_with('+') {
        return None;
    }
    let number = word.parse::<u64>().ok()?;
    if 1 <= number && number <= most {
        Some(number)
    } else {
        None
    }
}
