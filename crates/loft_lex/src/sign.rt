//! The signs of the language (docs/LANGUAGE.md, "Signs").

ghost use Rattle.std.specs.Prelude.{◌≡◌, ◌==◌, Some, IfSome};
ghost use Rattle.std.specs.List.{find, filter};
ghost use Rattle.std.specs.Str.{bytes_eq};
ghost use Rattle.loft_lex.specs.Bytes.{begins};
ghost use Rattle.loft_lex.specs.Sign.{spelling, signs, sign_of};

/// The signs of the language.
#[derive(Clone, Copy, PartialEq, Eq)]
pub enum Sign {
    /// `;`
    Semicolon,
    /// `,`
    Comma,
    /// `.`
    Dot,
    /// `(`
    Open,
    /// `)`
    Close,
    /// `{`
    OpenBrace,
    /// `}`
    CloseBrace,
    /// `=`
    Equals,
    /// `+`
    Plus,
    /// `-`
    Minus,
    /// `*`
    Star,
    /// `/`
    Slash,
    /// `%`
    Percent,
    /// `!`
    Not,
    /// `==`
    Same,
    /// `!=`
    Differs,
    /// `<`
    Less,
    /// `<=`
    LessOrSame,
    /// `>`
    Greater,
    /// `>=`
    GreaterOrSame,
    /// `&&`
    And,
    /// `||`
    Or,
}

/// The signs that begin with this byte.
fn beginning_with(first: u8) -> &'static [Sign]
    ensures { result.now ≡ filter (λ sign. begins (λ b. b == first) (spelling sign)) signs }
{
    match first {
        b';' => &[Sign::Semicolon],
        b',' => &[Sign::Comma],
        b'.' => &[Sign::Dot],
        b'(' => &[Sign::Open],
        b')' => &[Sign::Close],
        b'{' => &[Sign::OpenBrace],
        b'}' => &[Sign::CloseBrace],
        b'=' => &[Sign::Equals, Sign::Same],
        b'+' => &[Sign::Plus],
        b'-' => &[Sign::Minus],
        b'*' => &[Sign::Star],
        b'/' => &[Sign::Slash],
        b'%' => &[Sign::Percent],
        b'!' => &[Sign::Not, Sign::Differs],
        b'<' => &[Sign::Less, Sign::LessOrSame],
        b'>' => &[Sign::Greater, Sign::GreaterOrSame],
        b'&' => &[Sign::And],
        b'|' => &[Sign::Or],
        _ => &[],
    }
}

/// The first of the signs that the bytes spell.
fn find_spelled(signs: &[Sign], bytes: &[u8]) -> Option<Sign>
    ensures { result ≡ find (λ sign. bytes_eq (spelling sign) bytes.now) signs.now }
{
    signs.iter().copied().find(|sign| sign.spelling() == bytes)
}

impl Sign {
    /// The sign that the bytes spell, if they spell one.
    pub fn of(bytes: &[u8]) -> Option<Sign>
        ensures value { result ≡ sign_of bytes.now }
        ensures spelled { IfSome result (λ sign. spelling sign ≡ bytes.now) }
        ensures every { (sign : Sign) → spelling sign ≡ bytes.now → result ≡ Some sign }
    {
        match bytes {
            [] => None,
            [first, ..] => find_spelled(beginning_with(*first), bytes),
        }
    }

    /// The bytes that spell the sign.
    pub fn spelling(self) -> &'static [u8]
        ensures { result.now ≡ spelling self }
    {
        match self {
            Sign::Semicolon => b";",
            Sign::Comma => b",",
            Sign::Dot => b".",
            Sign::Open => b"(",
            Sign::Close => b")",
            Sign::OpenBrace => b"{",
            Sign::CloseBrace => b"}",
            Sign::Equals => b"=",
            Sign::Plus => b"+",
            Sign::Minus => b"-",
            Sign::Star => b"*",
            Sign::Slash => b"/",
            Sign::Percent => b"%",
            Sign::Not => b"!",
            Sign::Same => b"==",
            Sign::Differs => b"!=",
            Sign::Less => b"<",
            Sign::LessOrSame => b"<=",
            Sign::Greater => b">",
            Sign::GreaterOrSame => b">=",
            Sign::And => b"&&",
            Sign::Or => b"||",
        }
    }
}
