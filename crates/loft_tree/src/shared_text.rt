//! Texts that printed lines share.

ghost use Rattle.std.specs.Prelude.{◌≡◌, IfOk};

use loft_base::NoMemory;
use std::alloc::Global;
use std::marker::Model;
use std::sync::ArcSlice;

/// The bytes between the quotes of a text. Each line that is the text alone shares them. Contracts
/// see it as their list.
#[derive(Drop)]
pub struct SharedText {
    bytes: ArcSlice<u8>,
}

impl Model for SharedText {
    ghost use Rattle.std.specs.Prelude.{ℕ, List};
    ghost use Rattle.std.specs.Arc.{arc_slice_items};

    ghost Value = { List ℕ };

    ghost view = { λ t. arc_slice_items t.bytes };
}

impl SharedText {
    /// A text with these bytes. `NoMemory` comes where there is none for them.
    pub fn from_slice(alloc: Global, bytes: &[u8]) -> Result<SharedText, NoMemory>
        ensures { IfOk result (λ text. text ≡ bytes.now) }
    {
        let bytes = ArcSlice::from_slice(alloc, bytes)?;
        Ok(SharedText { bytes })
    }

    /// The same bytes, shared. `NoMemory` comes where too many share them.
    pub fn share(&self) -> Result<SharedText, NoMemory>
        ensures { IfOk result (λ text. text ≡ self.now) }
    {
        let bytes = self.bytes.clone()?;
        Ok(SharedText { bytes })
    }

    /// The bytes of the text.
    pub fn bytes(&self) -> &[u8]
        ensures { result.now ≡ self.now }
    {
        self.bytes.as_slice()
    }
}
