//! The value of an expression (docs/SEMANTICS.md, "Expressions").

ghost use Rattle.std.specs.Prelude.{◌≡◌};
ghost use Rattle.loft_code.specs.View.{automata_of, exp_in};
ghost use Rattle.loft_sense.specs.Around.{Around};
ghost use Rattle.loft_sense.specs.Eval.{eval as eval_in};
ghost use Rattle.loft_sense.specs.Run.{beside};
ghost use Rattle.loft_effect.specs.View.{answer_of};
ghost use Rattle.loft_step.specs.Runs.{innermost_values};

use loft_base::{Div, Value};
use loft_code::Code;
use loft_effect::Sight;
use loft_orders::{Frame, Numbers, Thread};
use loft_tree::NamedExpr;

/// The values of the innermost of these frames, outermost first; none where there is no frame.
fn innermost_values(frames: &[Frame]) -> &[Value]
    ensures { result.now ≡ innermost_values frames.now }
{
    match frames.last() {
        Some(frame) => frame.values.as_slice(),
        None => &[],
    }
}

/// The value of an expression in the innermost frame of the thread, which sees these shared variables of its place; a
/// thread without frames has no values. `Div` comes exactly where a divisor is 0. It takes no memory.
pub fn eval(c: &Code, e: &NamedExpr, t: &Thread, shared: &Numbers) -> Result<Value, Div>
    ensures { (around : Around) → around.shared ≡ shared.now
        → answer_of result ≡ eval_in (automata_of c.now).heads (innermost_values t.now.frames) (beside t.now around) (exp_in e.now) }
{
    let sight = Sight {
        heads: c.heads(),
        values: innermost_values(t.frames.as_slice()),
        shared: shared.as_slice(),
        id: t.id,
        code: t.code,
        mask: t.mask,
    };
    sight.value(e)
}
