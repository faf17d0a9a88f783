//! Operations of statements.

ghost use Rattle.std.specs.Prelude.{◌≡◌};
ghost use Rattle.loft_tree.specs.NamedView.{statement_of};
ghost use Rattle.loft_tree.specs.Resolved.{step_of};
ghost use Rattle.loft_code.specs.View.{operation_of as operation_in};
ghost use Rattle.loft_listing_reader.specs.Numbered.{operation_of};

use loft_code::Op;
use loft_tree::NamedStmt;

/// The operation that a statement is, with this number if it is a stop (docs/CODE.md, "Listings that
/// are read").
///
/// No operation is a statement with bodies.
#[tactic(auto, using(loft_tree::proofs::NamedTrees::named_statements))]
pub fn operation(stop: u64, s: NamedStmt) -> Op
    ensures { operation_in result ≡ operation_of stop (step_of (statement_of s)) }
{
    match s {
        NamedStmt::Do { action, .. } => Op::Do(action),
        NamedStmt::Hold { pause, .. } => Op::Hold { stop, pause },
        NamedStmt::Run {
            module,
            arguments,
            ..
        } => Op::Run {
            stop,
            module,
            arguments,
        },
        with_bodies => {
            drop(with_bodies);
            Op::End
        }
    }
}
