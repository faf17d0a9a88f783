//! The values of a new frame (docs/SEMANTICS.md, "Machine").

ghost use Rattle.std.specs.Prelude.{◌≡◌, IfOk};
ghost use Rattle.loft_sense.specs.Heads.{locals_of, first_value as first_value_of, first_values as first_values_of};

use loft_base::{ModuleId, NoMemory, Sequence, ThreadId, Value, Values};
use loft_tree::{Heads, Kind, SlotHead};

/// The local variables of a module, none where there is no such module.
fn locals(heads: &Heads, module: ModuleId) -> &[SlotHead]
    ensures { result.now ≡ locals_of heads.now «module» }
{
    match heads.modules.as_slice().get(module.0 as usize) {
        Some(signature) => signature.locals.as_slice(),
        None => &[],
    }
}

/// What a local variable begins as: 0, or the thread itself.
fn first_value(thread: ThreadId, kind: Kind) -> Value
    ensures { result ≡ first_value_of thread kind }
{
    match kind {
        Kind::Int => Value::Int(0),
        Kind::Thread => Value::Thread(thread),
    }
}

/// The values of a module's new frame: the arguments, then the local variables. The list has no more room than they need,
/// but for room that the arguments had.
pub fn first_values(
    heads: &Heads,
    thread: ThreadId,
    module: ModuleId,
    values: Values,
) -> Result<Values, NoMemory>
    ensures { IfOk result (λ all. all ≡ first_values_of heads.now thread «module» values) }
{
    let locals = locals(heads, module);
    let mut all = values.into_vec();
    all.reserve_exact(locals.len())?;
    for local in locals {
        all.push(first_value(thread, local.kind))?;
    }
    Ok(Sequence::from_vec(all))
}
