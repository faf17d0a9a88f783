//! The first of the faults that are found.

ghost use Rattle.std.specs.Prelude.{◌≡◌, [], ◌∷◌};
ghost use Rattle.loft_scopes.specs.Faults.{rank_of, first_of};
ghost use Rattle.loft_scopes.specs.FirstFault.{precedes, least_of};

use crate::error::NameError;

/// The order of faults at one offset.
fn rank_of(fault: NameError) -> u8
    ensures { result ≡ rank_of fault }
{
    match fault {
        NameError::NoScheduler => 0,
        NameError::Unknown(_) => 1,
        NameError::Twice { .. } => 2,
        NameError::Kind(_) => 3,
        NameError::Arity(_) => 4,
        NameError::NoMemory => 5,
    }
}

/// The offset of the first declaration of a name that is declared twice, else 0. It decides only
/// between faults that no text has, where two declarations stand at one offset.
fn first_of(fault: NameError) -> u32
    ensures { result ≡ first_of fault }
{
    match fault {
        NameError::Twice { first, .. } => first,
        _ => 0,
    }
}

/// Whether a fault comes before another.
fn precedes(fault: NameError, other: NameError) -> bool
    ensures { result ≡ precedes fault other }
{
    let (offset, other_offset) = (fault.offset(), other.offset());
    let (rank, other_rank) = (rank_of(fault), rank_of(other));
    let first_is_sooner = first_of(fault) < first_of(other);
    offset < other_offset
        || (offset == other_offset
            && (rank < other_rank || (rank == other_rank && first_is_sooner)))
}

/// Keeps the first of the fault so far and this one.
pub fn note(least: &mut Option<NameError>, fault: NameError)
    ensures { least.new ≡ least_of least.old (fault ∷ []) }
{
    match *least {
        Some(first) if !precedes(fault, first) => {}
        _ => *least = Some(fault),
    }
}
