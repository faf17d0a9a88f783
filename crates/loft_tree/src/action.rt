//! What statements and operations do at once, and what they wait for.

use crate::kinds::Control;
use crate::named::{EventUse, NamedCreation, NamedExpr, Target};
use crate::shared_text::SharedText;
use loft_base::SchedId;

/// What a statement or an operation does that goes on at the next one at once, or ends its thread.
#[derive(Drop)]
pub enum Action {
    /// `x = E;`
    Assign {
        target: Target,
        value: NamedExpr,
    },
    /// `create S.m(E, F);` or `t = create S.m(E, F);`
    Make {
        target: Option<Target>,
        creation: NamedCreation,
    },
    /// `print "..";` or `print "..", E;`
    PrintText {
        text: SharedText,
        value: Option<NamedExpr>,
    },
    /// `print E;`
    PrintValue(NamedExpr),
    /// `generate e;` or `generate e, E;`
    Generate {
        event: EventUse,
        value: Option<NamedExpr>,
    },
    /// `stop E in S;`, `suspend E in S;` or `resume E in S;`
    Control {
        control: Control,
        thread: NamedExpr,
        scheduler: SchedId,
    },
    /// `broadcast e;` or `broadcast e, E;`
    Broadcast {
        event: EventUse,
        value: Option<NamedExpr>,
    },
}

/// What a stop waits for, but for `run`.
#[derive(Drop)]
pub enum Pause {
    /// `cooperate;` or `cooperate E;`
    Cooperate {
        instants: Option<NamedExpr>,
    },
    /// One event of these: `await e;` with one, `select e, g;` with two or more; both also with `for E`.
    Await {
        events: Vec<EventUse>,
        limit: Option<NamedExpr>,
    },
    /// `get e at E into x;`
    Get {
        event: EventUse,
        index: NamedExpr,
        target: Target,
    },
    /// `join E;` or `join E for F;`
    Join {
        thread: NamedExpr,
        limit: Option<NamedExpr>,
    },
    /// `link S;`
    Link(SchedId),
    /// `unlink;`
    Unlink,
    /// `halt;`
    Halt,
}
