//! Statements.

ghost use Rattle.std.specs.Prelude.{◌≡◌};

use crate::expression::Expr;
use crate::ident::Ident;
use crate::kinds::Control;
use std::marker::Model;

/// The bytes between the quotes of a text.
#[derive(Drop)]
pub struct Text {
    bytes: Vec<u8>,
}

impl Model for Text {
    ghost use Rattle.std.specs.Prelude.{ℕ, List};

    ghost Value = { List ℕ };

    ghost view = { λ t. t.bytes.items };
}

impl Text {
    /// The text with these bytes.
    pub fn new(bytes: Vec<u8>) -> Text
        ensures { result ≡ bytes.items }
    {
        Text { bytes }
    }

    /// The bytes of the text.
    pub fn bytes(&self) -> &[u8]
        ensures { result.now ≡ self.now }
    {
        self.bytes.as_slice()
    }
}

/// `create SCHEDULER.MODULE(E, F)`
#[derive(Drop)]
pub struct Creation {
    /// Where the new thread begins.
    pub scheduler: Ident,
    /// The module that it runs.
    pub called: Ident,
    /// The values of the module's parameters.
    pub arguments: Vec<Expr>,
}

/// An event that a statement or an order of a client names.
#[derive(Drop)]
pub struct EventName {
    pub name: Ident,
}

/// A statement of a module. `at` is the offset of its first byte: of its word, where it begins with one.
#[derive(Drop)]
pub enum Stmt {
    /// `x = E;`
    Assign {
        target: Ident,
        value: Expr,
    },
    /// `t = create S.m(E, F);` Its `at` is the offset of `create`.
    AssignCreate {
        target: Ident,
        at: u32,
        creation: Creation,
    },
    /// `create S.m(E, F);`
    Create {
        at: u32,
        creation: Creation,
    },
    /// `print "..";` or `print "..", E;`
    PrintText {
        at: u32,
        text: Text,
        value: Option<Expr>,
    },
    /// `print E;`
    PrintValue {
        at: u32,
        value: Expr,
    },
    /// `cooperate;` or `cooperate E;`
    Cooperate {
        at: u32,
        instants: Option<Expr>,
    },
    /// `generate e;` or `generate e, E;`
    Generate {
        at: u32,
        event: EventName,
        value: Option<Expr>,
    },
    /// `await e;` or `await e for E;`
    Await {
        at: u32,
        event: EventName,
        limit: Option<Expr>,
    },
    /// `select e, g;` or `select e, g for E;`, with 2 to 8 events.
    Select {
        at: u32,
        events: Vec<EventName>,
        limit: Option<Expr>,
    },
    /// `get e at E into x;`
    Get {
        at: u32,
        event: EventName,
        index: Expr,
        target: Ident,
    },
    /// `join E;` or `join E for F;`
    Join {
        at: u32,
        thread: Expr,
        limit: Option<Expr>,
    },
    /// `stop E in S;`, `suspend E in S;` or `resume E in S;`
    Control {
        at: u32,
        control: Control,
        thread: Expr,
        scheduler: Ident,
    },
    /// `broadcast e;` or `broadcast e, E;`
    Broadcast {
        at: u32,
        event: EventName,
        value: Option<Expr>,
    },
    /// `link S;`
    Link {
        at: u32,
        scheduler: Ident,
    },
    /// `unlink;`
    Unlink {
        at: u32,
    },
    /// `run m(E, F);`
    Run {
        at: u32,
        called: Ident,
        arguments: Vec<Expr>,
    },
    /// `halt;`
    Halt {
        at: u32,
    },
    /// `if (E) then X end` or `if (E) then X else Y end`; no `else` is an empty one.
    If {
        at: u32,
        test: Expr,
        first: Vec<Stmt>,
        second: Vec<Stmt>,
    },
    /// `while (E) do X end`
    While {
        at: u32,
        test: Expr,
        body: Vec<Stmt>,
    },
    /// `repeat (E) do X end`
    Repeat {
        at: u32,
        count: Expr,
        body: Vec<Stmt>,
    },
}
