//! Values that agree with the parameters and local variables of a module.

ghost use Rattle.std.specs.Prelude.{◌≡◌, ◌↔◌, ◌++◌, IsTrue, slice_get};
ghost use Rattle.loft_tree.specs.HeadsFit.{is_of, agree, kinds_of};
ghost use Rattle.loft_sense.specs.Stands.{ValuesAgree};

use loft_base::{ModuleId, Value};
use loft_tree::{Heads, Kind, SlotHead};

/// Whether the value is of this kind.
fn is_of(value: Value, kind: Kind) -> bool
    ensures { result ≡ is_of value kind }
{
    match (value, kind) {
        (Value::Int(_), Kind::Int) | (Value::Thread(_), Kind::Thread) => true,
        (Value::Int(_), Kind::Thread) | (Value::Thread(_), Kind::Int) => false,
    }
}

/// Whether there are as many values as slots, each of its slot's kind.
fn agree(slots: &[SlotHead], values: &[Value]) -> bool
    ensures { result ≡ agree (kinds_of slots.now) values.now }
{
    match slots {
        [] => match values {
            [] => true,
            [_, ..] => false,
        },
        [slot, slots @ ..] => match values {
            [] => false,
            [value, values @ ..] => is_of(*value, slot.kind) && agree(slots, values),
        },
    }
}

/// The same of the parameters, and then the local variables.
fn agree_in_turn(parameters: &[SlotHead], locals: &[SlotHead], values: &[Value]) -> bool
    ensures { result ≡ agree (kinds_of parameters.now ++ kinds_of locals.now) values.now }
{
    match parameters {
        [] => agree(locals, values),
        [parameter, parameters @ ..] => match values {
            [] => false,
            [value, values @ ..] => {
                is_of(*value, parameter.kind) && agree_in_turn(parameters, locals, values)
            }
        },
    }
}

/// Whether the module is declared, and the values agree with its parameters and local variables (docs/SEMANTICS.md,
/// "Stands").
pub fn values_agree(heads: &Heads, module: ModuleId, values: &[Value]) -> bool
    ensures { IsTrue result ↔ ValuesAgree (slice_get heads.now.modules «module».0) values.now }
{
    match heads.modules.as_slice().get(module.0 as usize) {
        Some(signature) => agree_in_turn(
            signature.parameters.as_slice(),
            signature.locals.as_slice(),
            values,
        ),
        None => false,
    }
}
