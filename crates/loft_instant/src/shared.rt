//! The shared variables of a scheduler (docs/SEMANTICS.md, "Instant").

ghost use Rattle.std.specs.Prelude.{◌≡◌, ◌≤◌, ◌+◌, ◌^◌, ◌++◌, map, filter, length, IfOk, OnOk};
ghost use Rattle.loft_sense.specs.Heads.{shared_from};
ghost use Rattle.loft_tree.specs.Ranks.{is_at};
ghost use Rattle.loft_sense.specs.Instant.{changes as changes_in};

use loft_base::{NoMemory, SchedId, Sequence, SharedId};
use loft_orders::{Change, Changes, Numbers};
use loft_tree::SharedHead;
use std::alloc::Global;

/// The numbers of a scheduler's shared variables, where the first of these has number k.
fn push_own(
    own: &mut Vec<SharedId>,
    scheduler: SchedId,
    k: u32,
    shared: &[SharedHead],
) -> Result<(), NoMemory>
    requires { k + length shared.now ≤ 2 ^ 32 }
    ensures { OnOk result (own.new.items ≡ own.old.items ++ shared_from k scheduler shared.now) }
{
    let Some((first, rest)) = shared.split_first() else {
        return Ok(());
    };
    if scheduler.0 == first.scheduler.0 {
        own.push(SharedId(k))?;
    }
    if rest.is_empty() {
        return Ok(());
    }
    push_own(own, scheduler, k + 1, rest)
}

/// The numbers of a scheduler's shared variables, in the order of their declarations.
pub fn own_of(
    alloc: Global,
    scheduler: SchedId,
    shared: &[SharedHead],
) -> Result<Vec<SharedId>, NoMemory>
    requires { length shared.now ≤ 2 ^ 32 }
    ensures { IfOk result (λ own. own.items ≡ shared_from 0 scheduler shared.now) }
{
    let mut own = Vec::new(alloc);
    push_own(&mut own, scheduler, 0, shared)?;
    Ok(own)
}

/// The values of a scheduler's shared variables before its first instant.
pub fn shared_values(
    alloc: Global,
    scheduler: SchedId,
    shared: &[SharedHead],
) -> Result<Numbers, NoMemory>
    ensures { IfOk result (λ values. values
        ≡ map (λ x. x.value) (filter (is_at scheduler) shared.now)) }
{
    let mut values = Sequence::new(alloc);
    for one in shared {
        if scheduler.0 == one.scheduler.0 {
            values.push(one.value)?;
        }
    }
    Ok(values)
}

/// Copies values into a list, in place of those that it has.
pub fn keep_values(kept: &mut Numbers, values: &[i64]) -> Result<(), NoMemory>
    ensures { OnOk result (kept.new ≡ values.now) }
{
    kept.clear();
    kept.extend_from_slice(values)
}

/// Adds the variables whose value has changed, with the new one.
fn push_changes(
    changes: &mut Changes,
    own: &[SharedId],
    old: &[i64],
    new: &[i64],
) -> Result<(), NoMemory>
    ensures { OnOk result (changes.new ≡ changes.old ++ changes_in own.now old.now new.now) }
{
    let Some((shared, own)) = own.split_first() else {
        return Ok(());
    };
    let Some((before, old)) = old.split_first() else {
        return Ok(());
    };
    let Some((value, new)) = new.split_first() else {
        return Ok(());
    };
    if before != value {
        changes.push(Change {
            shared: *shared,
            value: *value,
        })?;
    }
    push_changes(changes, own, old, new)
}

/// The variables whose value has changed, with the new one.
pub fn changes(
    alloc: Global,
    own: &[SharedId],
    old: &[i64],
    new: &[i64],
) -> Result<Changes, NoMemory>
    ensures { IfOk result (λ changes. changes ≡ changes_in own.now old.now new.now) }
{
    let mut changes = Sequence::new(alloc);
    push_changes(&mut changes, own, old, new)?;
    Ok(changes)
}
