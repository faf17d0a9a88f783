//! Printed lines.

ghost use Rattle.std.specs.Prelude.{◌≡◌};

use loft_tree::SharedText;
use std::marker::Model;

/// Where the bytes of a line are.
#[derive(Drop)]
enum Bytes {
    Own(Vec<u8>),
    OfText(SharedText),
}

/// The bytes of one printed line, without its end. Contracts see it as their list.
#[derive(Drop)]
pub struct Line {
    bytes: Bytes,
}

impl Model for Line {
    ghost use Rattle.std.specs.Prelude.{ℕ, List};
    ghost use Rattle.loft_orders.specs.Printed.{bytes_of};

    ghost Value = { List ℕ };

    ghost view = { λ line. bytes_of line.bytes };
}

impl Line {
    /// The line with these bytes.
    pub fn from_vec(bytes: Vec<u8>) -> Line
        ensures { result ≡ bytes.items }
    {
        Line {
            bytes: Bytes::Own(bytes),
        }
    }

    /// The line of a text.
    pub fn from_text(text: SharedText) -> Line
        ensures { result ≡ text }
    {
        Line {
            bytes: Bytes::OfText(text),
        }
    }

    /// The bytes in order.
    pub fn as_slice(&self) -> &[u8]
        ensures { result.now ≡ self.now }
    {
        match &self.bytes {
            Bytes::Own(bytes) => bytes.as_slice(),
            Bytes::OfText(text) => text.bytes(),
        }
    }
}
