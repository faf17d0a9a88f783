//! What is kept of one event.

ghost use Rattle.std.specs.Prelude.{◌≡◌, ◌++◌, ◌∷◌, [], Some, None, OnOk, OnErr, is_some, unwrap_or};

use loft_base::NoMemory;
use std::alloc::Global;
use std::marker::Model;

/// Whether an event is present, and the values that came with it, in order. Contracts see the values
/// where it is present.
#[derive(Drop)]
pub struct Presence {
    is_present: bool,
    values: Vec<i64>,
}

impl Model for Presence {
    ghost use Rattle.std.specs.Prelude.{◌≡◌, List, [], ℤ, Option, Some, None, false, if◌then◌else◌};

    ghost Value = { Option (List ℤ) };

    ghost view = { λ p. if p.is_present then Some p.values.items else None };

    ghost invariant = { λ p. p.is_present ≡ false → p.values.items ≡ [] };
}

impl Presence {
    /// An event that isn't present; it allocates nothing.
    pub fn absent(alloc: Global) -> Self
        ensures { result ≡ None }
    {
        Presence {
            is_present: false,
            values: Vec::new(alloc),
        }
    }

    /// The event isn't present from now on. The room of its values is kept.
    pub fn clear(&mut self)
        ensures { self.new ≡ None }
    {
        self.is_present = false;
        self.values.clear();
    }

    /// The event is present from now on, with the values that it has.
    pub fn mark(&mut self)
        ensures { self.new ≡ Some (unwrap_or self.old []) }
    {
        self.is_present = true;
    }

    /// The event is present from now on, with one more value. Where it is out of memory nothing
    /// changes.
    pub fn push(&mut self, v: i64) -> Result<(), NoMemory>
        ensures ok { OnOk result (self.new ≡ Some (unwrap_or self.old [] ++ v ∷ [])) }
        ensures err { OnErr result (self.new ≡ self.old) }
    {
        self.values.push(v)?;
        self.is_present = true;
        Ok(())
    }

    /// Whether the event is present.
    pub fn is_present(&self) -> bool
        ensures { result ≡ is_some self.now }
    {
        self.is_present
    }

    /// Its values, in order; none where it isn't present.
    pub fn values(&self) -> &[i64]
        ensures { result.now ≡ unwrap_or self.now [] }
    {
        self.values.as_slice()
    }
}
