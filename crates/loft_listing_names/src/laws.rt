//! What holds of wrong lines by their definitions.

ghost use Rattle.std.specs.Prelude.{◌≡◌, [], List};
ghost use Rattle.std.specs.List.{flat_map};
ghost use Rattle.loft_tree.specs.Fits.{Each, SourceFits};
ghost use Rattle.loft_tree.specs.Source.{Source};
ghost use Rattle.loft_scopes.specs.Faults.{faults};
ghost use Rattle.loft_numbers.specs.Numbers.{numbered};
ghost use Rattle.loft_scopes.specs.Scopes.{Declared, declared};
ghost use Rattle.loft_scopes.specs.declared.scope.Scope.{Scope};
ghost use Rattle.loft_code.specs.Fits.{ClientFits, StartFits};
ghost use Rattle.loft_listing_draft.specs.Drafts.{DraftOperation};
ghost use Rattle.loft_listing_draft.specs.InMemory.{bare_operation};
ghost use Rattle.loft_listing_names.specs.Named.{operation_names};
ghost use Rattle.loft_listing_names.specs.Wrong.{declaration_misplaced, heads_in};

/// The names of an operation are right or wrong wherever it stands in a text.
pub fn offsets_are_free()
    ensures { (ds : List Declared) (scope : Scope) (o : DraftOperation)
        → operation_names ds scope (bare_operation o) ≡ operation_names ds scope o }
{}

/// Where names are right outside operations and each thread is made where it can begin, each start
/// and each create of a client fits what is declared (docs/CODE.md, "Limits").
pub fn threads_begin_where_made()
    ensures starts { (p : Source) → SourceFits p → faults p ≡ []
        → flat_map (declaration_misplaced (declared p) (heads_in p)) p ≡ []
        → Each (StartFits (numbered p).heads) (numbered p).heads.starts }
    ensures clients { (p : Source) → SourceFits p → faults p ≡ []
        → flat_map (declaration_misplaced (declared p) (heads_in p)) p ≡ []
        → Each (ClientFits (numbered p).heads) (numbered p).heads.clients }
{}
