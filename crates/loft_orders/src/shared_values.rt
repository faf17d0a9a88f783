//! Values that several orders share.

ghost use Rattle.std.specs.Prelude.{◌≡◌, IfOk};

use loft_base::{NoMemory, Value};
use std::alloc::Global;
use std::marker::Model;
use std::sync::ArcSlice;

/// The arguments of a create. All copies of the order share them. Contracts see them as their list.
#[derive(Drop)]
pub struct SharedValues {
    values: ArcSlice<Value>,
}

impl Model for SharedValues {
    ghost use Rattle.std.specs.Prelude.{List};
    ghost use Rattle.std.specs.Arc.{arc_slice_items};
    ghost use Rattle.loft_base.specs.declared.ids.Value.{Value as PlainValue};

    ghost Value = { List PlainValue };

    ghost view = { λ v. arc_slice_items v.values };
}

impl SharedValues {
    /// These values.
    ///
    /// # Errors
    ///
    /// Out of memory for them.
    pub fn from_slice(alloc: Global, values: &[Value]) -> Result<SharedValues, NoMemory>
        ensures { IfOk result (λ shared. shared ≡ values.now) }
    {
        let values = ArcSlice::from_slice(alloc, values)?;
        Ok(SharedValues { values })
    }

    /// The same values, shared.
    ///
    /// # Errors
    ///
    /// Too many share them.
    pub fn share(&self) -> Result<SharedValues, NoMemory>
        ensures { IfOk result (λ shared. shared ≡ self.now) }
    {
        let values = self.values.clone()?;
        Ok(SharedValues { values })
    }

    /// The values in order.
    pub fn as_slice(&self) -> &[Value]
        ensures { result.now ≡ self.now }
    {
        self.values.as_slice()
    }
}
