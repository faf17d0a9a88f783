//! The words of the language (docs/LANGUAGE.md, "Words of the language").

ghost use Rattle.std.specs.Prelude.{◌≡◌, ◌==◌, Some, IfSome};
ghost use Rattle.std.specs.List.{find, filter};
ghost use Rattle.std.specs.Str.{bytes_eq};
ghost use Rattle.loft_lex.specs.Bytes.{begins};
ghost use Rattle.loft_lex.specs.Word.{spelling, words, word_of};

/// The words of the language, which are no names. Each is called as it is spelled; `SelfWord` is `self`.
#[derive(Clone, Copy, PartialEq, Eq)]
pub enum Word {
    Scheduler,
    Event,
    In,
    Shared,
    Module,
    To,
    Local,
    Int,
    Thread,
    Start,
    As,
    Outside,
    End,
    Print,
    Cooperate,
    Generate,
    Await,
    For,
    Select,
    Get,
    At,
    Into,
    Join,
    Create,
    Stop,
    Suspend,
    Resume,
    Broadcast,
    Link,
    Unlink,
    If,
    Then,
    Else,
    While,
    Do,
    Repeat,
    Run,
    Halt,
    SelfWord,
    Code,
    Mask,
    Unlinked,
}

/// The words that begin with this byte.
fn beginning_with(first: u8) -> &'static [Word]
    ensures { result.now ≡ filter (λ word. begins (λ b. b == first) (spelling word)) words }
{
    match first {
        b'a' => &[Word::As, Word::Await, Word::At],
        b'b' => &[Word::Broadcast],
        b'c' => &[Word::Cooperate, Word::Create, Word::Code],
        b'd' => &[Word::Do],
        b'e' => &[Word::Event, Word::End, Word::Else],
        b'f' => &[Word::For],
        b'g' => &[Word::Generate, Word::Get],
        b'h' => &[Word::Halt],
        b'i' => &[Word::In, Word::Int, Word::Into, Word::If],
        b'j' => &[Word::Join],
        b'l' => &[Word::Local, Word::Link],
        b'm' => &[Word::Module, Word::Mask],
        b'o' => &[Word::Outside],
        b'p' => &[Word::Print],
        b'r' => &[Word::Resume, Word::Repeat, Word::Run],
        b's' => &[
            Word::Scheduler,
            Word::Shared,
            Word::Start,
            Word::Select,
            Word::Stop,
            Word::Suspend,
            Word::SelfWord,
        ],
        b't' => &[Word::To, Word::Thread, Word::Then],
        b'u' => &[Word::Unlink, Word::Unlinked],
        b'w' => &[Word::While],
        _ => &[],
    }
}

/// The first of the words that the bytes spell.
fn find_spelled(words: &[Word], bytes: &[u8]) -> Option<Word>
    ensures { result ≡ find (λ word. bytes_eq (spelling word) bytes.now) words.now }
{
    words.iter().copied().find(|word| word.spelling() == bytes)
}

impl Word {
    /// The word that the bytes spell, if they spell one.
    pub fn of(bytes: &[u8]) -> Option<Word>
        ensures value { result ≡ word_of bytes.now }
        ensures spelled { IfSome result (λ word. spelling word ≡ bytes.now) }
        ensures every { (word : Word) → spelling word ≡ bytes.now → result ≡ Some word }
    {
        match bytes {
            [] => None,
            [first, ..] => find_spelled(beginning_with(*first), bytes),
        }
    }

    /// The bytes that spell the word.
    pub fn spelling(self) -> &'static [u8]
        ensures { result.now ≡ spelling self }
    {
        match self {
            Word::Scheduler => b"scheduler",
            Word::Event => b"event",
            Word::In => b"in",
            Word::Shared => b"shared",
            Word::Module => b"module",
            Word::To => b"to",
            Word::Local => b"local",
            Word::Int => b"int",
            Word::Thread => b"thread",
            Word::Start => b"start",
            Word::As => b"as",
            Word::Outside => b"outside",
            Word::End => b"end",
            Word::Print => b"print",
            Word::Cooperate => b"cooperate",
            Word::Generate => b"generate",
            Word::Await => b"await",
            Word::For => b"for",
            Word::Select => b"select",
            Word::Get => b"get",
            Word::At => b"at",
            Word::Into => b"into",
            Word::Join => b"join",
            Word::Create => b"create",
            Word::Stop => b"stop",
            Word::Suspend => b"suspend",
            Word::Resume => b"resume",
            Word::Broadcast => b"broadcast",
            Word::Link => b"link",
            Word::Unlink => b"unlink",
            Word::If => b"if",
            Word::Then => b"then",
            Word::Else => b"else",
            Word::While => b"while",
            Word::Do => b"do",
            Word::Repeat => b"repeat",
            Word::Run => b"run",
            Word::Halt => b"halt",
            Word::SelfWord => b"self",
            Word::Code => b"code",
            Word::Mask => b"mask",
            Word::Unlinked => b"unlinked",
        }
    }
}
