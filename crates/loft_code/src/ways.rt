//! Where operations go on (docs/CODE.md, "Operations").

ghost use Rattle.std.specs.Prelude.{◌≡◌, ◌+◌, ◌^◌, ◌<◌, ◌++◌, Option, Some, None};
ghost use Rattle.std.specs.Option.{option_to_list};
ghost use Rattle.loft_code.specs.View.{operation_of};
ghost use Rattle.loft_code.specs.Operations.{goes_on_at};

use crate::op::Op;

/// An operation of the same module, and how many counts are active there.
#[derive(Clone, Copy)]
pub struct Way {
    pub at: u64,
    pub depth: u64,
}

/// The operations at which one goes on: none, one or two.
#[derive(Clone, Copy)]
pub struct Ways {
    pub first: Option<Way>,
    pub second: Option<Way>,
}

/// One way.
fn one(at: u64, depth: u64) -> Ways
    ensures { result ≡ record { first = Some (record { at = at; depth = depth }); second = None } }
{
    Ways {
        first: Some(Way { at, depth }),
        second: None,
    }
}

/// Two ways.
fn two(first: Way, second: Way) -> Ways
    ensures { result ≡ record { first = Some first; second = Some second } }
{
    Ways {
        first: Some(first),
        second: Some(second),
    }
}

/// Where the operation with this number goes on, with so many active counts.
pub fn goes_on_at(op: &Op, number: u64, depth: u64) -> Ways
    requires number { number + 1 < 2 ^ 64 }
    requires depth { depth + 1 < 2 ^ 64 }
    ensures { option_to_list result.first ++ option_to_list result.second
        ≡ goes_on_at (operation_of op.now) number depth }
{
    let next = number + 1;
    match op {
        Op::Do(_) | Op::Hold { .. } | Op::Run { .. } | Op::Enter => one(next, depth),
        Op::Count(_) => one(next, depth + 1),
        Op::Branch { target, .. } => { two(Way { at: next, depth }, Way { at: *target, depth }) }
        Op::Turn { target } => {
            let there = Way {
                at: *target,
                depth: depth.saturating_sub(1),
            };
            two(Way { at: next, depth }, there)
        }
        Op::Jump { target } => one(*target, depth),
        Op::End => Ways {
            first: None,
            second: None,
        },
    }
}
