//! Which limits hold for what is read.

ghost use Rattle.std.specs.Prelude.{◌≡◌};
ghost use Rattle.loft_form.specs.Form.{Limits};
ghost use Rattle.loft_grammar.specs.Language.{Language};
ghost use Rattle.loft_grammar.specs.Limits.{limits as source_limits, line_limits};

use crate::counts::Counted;

/// Limits on what is counted (docs/LANGUAGE.md, "Limits").
pub trait Limited {
    /// How many of each there may be.
    ghost limits: { Limits Language };

    /// How many of these there may be, if that is limited.
    fn most(what: Counted) -> Option<u32>
        ensures { result ≡ limits.most what };
}

/// The limits of sources: all that is counted has one.
pub struct SourceLimits;

impl Limited for SourceLimits {
    ghost limits = { source_limits };

    fn most(what: Counted) -> Option<u32> {
        Some(what.most())
    }
}

/// The limits of a statement that is a line by itself: those of sources, but as many arguments of a call, events of a
/// `select` and statements as there are.
pub struct LineLimits;

impl Limited for LineLimits {
    ghost limits = { line_limits };

    fn most(what: Counted) -> Option<u32> {
        match what {
            Counted::Statement | Counted::Argument | Counted::Choice => None,
            _ => Some(what.most()),
        }
    }
}
