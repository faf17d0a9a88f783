//! The law of programs that differ in their offsets alone.

ghost use Rattle.std.specs.Prelude.{◌≡◌};
ghost use Rattle.loft_tree.specs.Source.{Source};
ghost use Rattle.loft_tree.specs.Resolved.{resolved_of};
ghost use Rattle.loft_show.specs.Places.{without_places};
ghost use Rattle.loft_scopes.specs.Faults.{NamesFit};
ghost use Rattle.loft_numbers.specs.Numbers.{numbered};
ghost use Rattle.loft_place.specs.Links.{IsPlaced};

/// Two programs that are the same but for the offsets of their words, as those of two texts that
/// differ in blanks and comments: where the names and kinds of one are correct, those of the other
/// are, so it is with links, and they run alike, since what runs is the same.
pub fn offsets_dont_matter()
    ensures names { (p q : Source) → without_places p ≡ without_places q → NamesFit p → NamesFit q }
    ensures links { (p q : Source) → without_places p ≡ without_places q
        → IsPlaced (numbered p) → IsPlaced (numbered q) }
    ensures runs { (p q : Source) → without_places p ≡ without_places q
        → resolved_of (numbered p) ≡ resolved_of (numbered q) }
{}
