//! The words of reports and their spellings.

ghost use Rattle.std.specs.Prelude.{◌≡◌, ◌==◌};
ghost use Rattle.std.specs.List.{find, filter};
ghost use Rattle.std.specs.Str.{bytes_eq};
ghost use Rattle.loft_lex.specs.Bytes.{begins};
ghost use Rattle.loft_report_shape.specs.Word.{spelling, all_words, word_of};

use loft_report_shape::Word;

/// The words that begin with this byte.
fn beginning_with(first: u8) -> &'static [Word]
    ensures { result.now ≡ filter (λ one. begins (λ b. b == first) (spelling one)) all_words }
{
    match first {
        b'a' => &[Word::At, Word::Arrive, Word::Await],
        b'b' => &[Word::Budget, Word::Block, Word::Broadcast],
        b'c' => &[Word::Client, Word::Create, Word::Coop],
        b'd' => &[Word::Done, Word::Div, Word::Deep],
        b'e' => &[Word::End, Word::Ended],
        b'f' => &[Word::Full, Word::Flood],
        b'g' => &[Word::Give, Word::Gen],
        b'h' => &[Word::History, Word::Halt],
        b'i' => &[Word::Instants, Word::Instant, Word::In],
        b'j' => &[Word::Join],
        b'l' => &[Word::Report, Word::Leave, Word::Linked, Word::Left],
        b'n' => &[Word::New, Word::Next],
        b'o' => &[Word::Out, Word::Over],
        b'p' => &[Word::Pick, Word::Post, Word::Print],
        b'r' => &[Word::Resume],
        b's' => &[
            Word::Scheduler,
            Word::Shared,
            Word::State,
            Word::Suspended,
            Word::Stop,
            Word::Suspend,
            Word::Select,
            Word::Stopped,
        ],
        b't' => &[Word::Take],
        b'u' => &[Word::Unlinked],
        b'v' => &[Word::Void],
        b'w' => &[Word::Workers],
        _ => &[],
    }
}

/// The first of the words that the bytes spell.
fn find_spelled(words: &[Word], bytes: &[u8]) -> Option<Word>
    ensures { result ≡ find (λ one. bytes_eq (spelling one) bytes.now) words.now }
{
    words.iter().copied().find(|one| spelling_of(*one) == bytes)
}

/// The word that the bytes spell, if they spell one.
pub fn word_of(bytes: &[u8]) -> Option<Word>
    ensures { result ≡ word_of bytes.now }
{
    match bytes {
        [] => None,
        [first, ..] => find_spelled(beginning_with(*first), bytes),
    }
}

/// The bytes that spell the word.
pub fn spelling_of(word: Word) -> &'static [u8]
    ensures { result.now ≡ spelling word }
{
    match word {
        Word::Report => b"loft-report 1",
        Word::Instants => b"instants",
        Word::Budget => b"budget",
        Word::Block => b"block",
        Word::Workers => b"workers",
        Word::History => b"history",
        Word::Take => b"take",
        Word::Give => b"give",
        Word::Pick => b"pick",
        Word::Post => b"post",
        Word::Client => b"client",
        Word::Scheduler => b"scheduler",
        Word::Instant => b"instant",
        Word::In => b"in",
        Word::Void => b"void",
        Word::Full => b"full",
        Word::Print => b"print",
        Word::Gen => b"gen",
        Word::Out => b"out",
        Word::End => b"end",
        Word::Leave => b"leave",
        Word::At => b"at",
        Word::Shared => b"shared",
        Word::State => b"state",
        Word::Linked => b"linked",
        Word::Suspended => b"suspended",
        Word::Left => b"left",
        Word::Create => b"create",
        Word::Arrive => b"arrive",
        Word::Stop => b"stop",
        Word::Suspend => b"suspend",
        Word::Resume => b"resume",
        Word::Broadcast => b"broadcast",
        Word::Ended => b"ended",
        Word::New => b"new",
        Word::Coop => b"coop",
        Word::Await => b"await",
        Word::Select => b"select",
        Word::Next => b"next",
        Word::Join => b"join",
        Word::Halt => b"halt",
        Word::Done => b"done",
        Word::Stopped => b"stopped",
        Word::Div => b"div",
        Word::Deep => b"deep",
        Word::Over => b"over",
        Word::Flood => b"flood",
        Word::Unlinked => b"unlinked",
    }
}
