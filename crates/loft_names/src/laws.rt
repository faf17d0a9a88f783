//! What holds of names and kinds by their definitions.

ghost use Rattle.std.specs.Prelude.{◌≡◌, ℕ, ◌⊎◌, List, []};
ghost use Rattle.std.specs.List.{Contains};
ghost use Rattle.loft_tree.specs.Source.{Source};
ghost use Rattle.loft_tree.specs.Fits.{Each, SourceFits};
ghost use Rattle.loft_tree.specs.NamedFits.{NamedFits};
ghost use Rattle.loft_tree.specs.Stops.{AreNumbered};
ghost use Rattle.loft_scopes.specs.declared.error.NameError.{NameError};
ghost use Rattle.loft_scopes.specs.declared.scope.Scope.{Scope};
ghost use Rattle.loft_scopes.specs.Scopes.{Sort, Declared, declared};
ghost use Rattle.loft_scopes.specs.Faults.{NameFault, NamesFit, faults};
ghost use Rattle.loft_names.specs.NamesHold.{NamesHold};
ghost use Rattle.loft_names.specs.HeadOf.{HasHead, IsHeadIn, IsDeclared};
ghost use Rattle.loft_names.specs.HeadsKept.{HeadsKept};
ghost use Rattle.loft_numbers.specs.Numbers.{numbered};

/// Each program has one answer: its names and kinds are correct, or they have one first fault, and
/// never both (docs/LANGUAGE.md, "Names").
pub fn names_are_decided()
    ensures some { (p : Source) → NamesFit p ⊎ ((e : NameError) × NameFault p e) }
    ensures never_both { (p : Source) (e : NameError) → NamesFit p → ¬ NameFault p e }
    ensures one_fault { (p : Source) (d e : NameError) → NameFault p d → NameFault p e → d ≡ e }
{}

/// The names and kinds of a program are correct where it declares a scheduler, declarations that can
/// be seen together have different names, and each use is of what it has to be, and only there. In
/// correct uses each name means a declaration of the needed sort, each call has as many arguments as
/// parameters, each of its parameter's kind, and each operator has operands of the kinds that it
/// takes (docs/LANGUAGE.md, "Names" and "Kinds").
pub fn names_fit_means()
    ensures holds { (p : Source) → NamesFit p → NamesHold p }
    ensures fits { (p : Source) → NamesHold p → NamesFit p }
{}

/// The number of each declaration stands for the head with its name, and each head for a declaration
/// with its name; the stops of each body are numbered 1, 2, .. in the order of the text; and where
/// names and kinds are correct, the program with numbers is one of the language
/// (docs/LANGUAGE.md, "Numbers of names").
pub fn numbers_name_heads()
    ensures heads { (p : Source) (d : Declared)
        → Contains (declared p) d → HasHead (numbered p).heads d }
    ensures names { (p : Source) (scope : Scope) (sort : Sort) (number : ℕ) (name : List ℕ)
        → IsHeadIn (numbered p).heads scope sort number name
        → IsDeclared (declared p) scope sort number name }
    ensures stops { (p : Source) → Each (λ m. AreNumbered m.body 0) (numbered p).modules }
    ensures fits { (p : Source) → SourceFits p → NamesFit p → NamedFits (numbered p) }
{}

/// Where nothing is wrong with names and kinds, what is declared keeps the limits of the language,
/// and its names differ. It may have no scheduler (docs/LANGUAGE.md, "Limits").
pub fn heads_are_kept()
    ensures { (p : Source) → SourceFits p → faults p ≡ [] → HeadsKept (numbered p).heads }
{}
