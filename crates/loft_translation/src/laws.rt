//! Laws of the compiler's code. Each is what the contract of an empty function says.

ghost use Rattle.loft_tree.specs.NamedTree.{NamedProgram};
ghost use Rattle.loft_tree.specs.NamedFits.{NamedFits};
ghost use Rattle.loft_tree.specs.Resolved.{Resolved, resolved_of};
ghost use Rattle.loft_place.specs.Links.{IsPlaced};
ghost use Rattle.loft_code.specs.Fits.{RawFits};
ghost use Rattle.loft_code.specs.Valid.{Valid};
ghost use Rattle.loft_translation.specs.Compiled.{compiled};
ghost use Rattle.loft_translation.specs.Implements.{Implements};
ghost use Rattle.loft_translation.specs.Whole.{IsWhole};

/// The code of a program whose names, kinds and links are correct keeps the limits of a listing (docs/CODE.md, "Limits"),
/// and no operation of it has an error (docs/CODE.md, "Valid code").
pub fn compiled_code_is_valid()
    ensures fits { (n : NamedProgram) → NamedFits n → IsPlaced n → RawFits (compiled (resolved_of n)) }
    ensures valid { (n : NamedProgram) → NamedFits n → IsPlaced n → Valid (compiled (resolved_of n)) }
{}

/// The code of a program does what the program does: it has the same declarations and as many
/// stops, the same threads stand in both, at the same places, and each of them has the same outcome
/// in both, wherever it stands, whatever stands around it and however many steps it may make. So it
/// is for every placed program, and for each other one in which modules that are declared or run
/// have bodies and both branches of an `if` end in one place.
pub fn compiled_code_implements()
    ensures whole { (p : Resolved) → IsWhole p → Implements (compiled p) p }
    ensures placed { (n : NamedProgram) → NamedFits n → IsPlaced n
        → Implements (compiled (resolved_of n)) (resolved_of n) }
{}
