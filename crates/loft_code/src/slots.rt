//! The slots of a module.

ghost use Rattle.std.specs.Prelude.{◌≡◌, slice_get};
ghost use Rattle.loft_tree.specs.HeadsFit.{kinds_of};
ghost use Rattle.loft_tree.specs.NamedFits.{slots_of};

use loft_tree::{Kind, Signature, SlotHead};

/// The kind of the variable with this number among these, where there is one.
fn kind_at(variables: &[SlotHead], number: usize) -> Option<Kind>
    ensures { result ≡ slice_get (kinds_of variables.now) number }
{
    match variables.get(number) {
        Some(variable) => Some(variable.kind),
        None => None,
    }
}

/// The kind of a parameter or local variable, where there is one with this number.
pub fn slot_kind(signature: &Signature, slot: u32) -> Option<Kind>
    ensures { result ≡ slice_get (slots_of signature.now) slot }
{
    let parameters = signature.parameters.as_slice();
    let locals = signature.locals.as_slice();
    let number = slot as usize;
    if number < parameters.len() {
        kind_at(parameters, number)
    } else {
        kind_at(locals, number - parameters.len())
    }
}
