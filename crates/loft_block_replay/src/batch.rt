//! The batch of an instant, from its lines.

ghost use Rattle.std.specs.Prelude.{◌≡◌, ℕ, List, [], ◌∷◌, ◌++◌, filter, true, false, Some, IfOk, IfSome};
ghost use Rattle.loft_orders.specs.declared.order.Order.{Order};
ghost use Rattle.loft_sense.specs.Fits.{Fits};
ghost use Rattle.loft_standing.specs.Stops.{tree_of};
ghost use Rattle.loft_order_lines.specs.Texts.{OwnNames};
ghost use Rattle.loft_order_lines.specs.Says.{Says};
ghost use Rattle.loft_block_replay.specs.Batch.{is_order_line, order_lines, AreGiven};
ghost use Rattle.loft_block_replay.specs.Reading.{Read};

use loft_base::{NoMemory, SchedId};
use loft_fits::fits;
use loft_order_lines::{cut_at, read_order};
use loft_orders::{Order, Orders};
use loft_place::Placed;
use loft_tree::Heads;
use std::alloc::Global;

/// Whether the line is that of an order of the batch.
fn is_order_line(line: &[u8]) -> bool
    ensures { result ≡ is_order_line line.now }
{
    line.starts_with(b"in ") || line.starts_with(b"void ") || line.starts_with(b"full ")
}

/// What the program declares, no two of one name.
fn own_heads(p: &Placed) -> &Heads
    ensures heads { result.now ≡ p.now.heads }
    ensures own { OwnNames result.now }
{
    let program = p.program();
    &program.heads
}

/// The order that the line says, if it says one that the scheduler may be given.
fn given_order(
    alloc: Global,
    p: &Placed,
    s: SchedId,
    line: &[u8],
) -> Result<Option<Order>, NoMemory>
    ensures given { IfOk result (λ found. IfSome found (λ o. Says p.now.heads line.now o × Fits (tree_of p.now) s o)) }
    ensures exact { (o : Order) → Says p.now.heads line.now o → Fits (tree_of p.now) s o
        → IfOk result (λ found. found ≡ Some o) }
{
    let heads = own_heads(p);
    match read_order(alloc, heads, line)? {
        Some(order) => {
            if fits(p, s, &order) {
                Ok(Some(order))
            } else {
                Ok(None)
            }
        }
        None => Ok(None),
    }
}

/// Adds the order of a line to a batch, if it is the line of one; false if it says none that the scheduler may be given.
fn read_line(
    alloc: Global,
    p: &Placed,
    s: SchedId,
    line: &[u8],
    batch: &mut Orders,
) -> Result<bool, NoMemory>
    ensures goes_on { IfOk result (λ on. on ≡ true → (all rest : List (List ℕ))
        → Read (tree_of p.now) s all (filter is_order_line (line.now ∷ []) ++ rest) batch.old
        → Read (tree_of p.now) s all rest batch.new) }
    ensures stops { IfOk result (λ on. on ≡ false → (all rest : List (List ℕ))
        → Read (tree_of p.now) s all (filter is_order_line (line.now ∷ []) ++ rest) batch.old
        → (given : List Order) → AreGiven (tree_of p.now) s all given → ⊥) }
{
    if !is_order_line(line) {
        return Ok(true);
    }
    match given_order(alloc, p, s, line)? {
        Some(order) => {
            batch.push(order)?;
            Ok(true)
        }
        None => Ok(false),
    }
}

/// The batch that the lines of an instant say, if each of its orders may be given to the scheduler.
pub fn read_batch(
    alloc: Global,
    p: &Placed,
    s: SchedId,
    instant: &[u8],
) -> Result<Option<Orders>, NoMemory>
    ensures given { IfOk result (λ found. IfSome found (λ batch. AreGiven (tree_of p.now) s (order_lines instant.now) batch)) }
    ensures exact { (batch : List Order) → AreGiven (tree_of p.now) s (order_lines instant.now) batch
        → IfOk result (λ found. found ≡ Some batch) }
{
    let mut batch = Orders::new(alloc);
    let mut left = instant;
    'lines: while !left.is_empty() {
        let (line, rest) = cut_at(left, b'\n');
        let goes_on = read_line(alloc, p, s, line, &mut batch)?;
        if !goes_on {
            return Ok(None);
        }
        left = rest;
    }
    Ok(Some(batch))
}
