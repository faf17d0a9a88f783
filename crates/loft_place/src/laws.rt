//! What holds of links by their definitions.

ghost use Rattle.std.specs.Prelude.{◌≡◌, ◌⊎◌, ℕ, List, Some, slice_get};
ghost use Rattle.loft_base.specs.declared.ids.SchedId.{SchedId};
ghost use Rattle.loft_base.specs.declared.ids.ModuleId.{ModuleId};
ghost use Rattle.loft_base.specs.declared.ids.Value.{Value};
ghost use Rattle.loft_tree.specs.declared.heads.Place.{Place};
ghost use Rattle.loft_tree.specs.declared.heads.Signature.{Signature};
ghost use Rattle.loft_tree.specs.declared.heads.Start.{Start};
ghost use Rattle.loft_tree.specs.declared.heads.Client.{Client};
ghost use Rattle.loft_tree.specs.declared.heads.ClientOrder.TheVariants as order;
ghost use Rattle.loft_tree.specs.declared.heads.Heads.{Heads};
ghost use Rattle.loft_tree.specs.HeadsFit.{HeadsFit};
ghost use Rattle.loft_tree.specs.NamedTree.{NamedStatement, NamedStatements, NamedModule, NamedProgram};
ghost use Rattle.loft_tree.specs.NamedFits.{NamedFits};
ghost use Rattle.loft_place.specs.declared.error.PlaceError.{PlaceError};
ghost use Rattle.loft_place.specs.Links.{begin_of, Goes, MayStand, IsPlaced, PlaceFault};
ghost use Rattle.loft_place.specs.Reaches.{BodyLeads, MayMeet, IsModule, MeetsWithin, BeginsWithin};

/// Each program has one answer: its links are correct, or they have a fault, and never both; there is one first fault; and
/// a body that begins at one place ends in one place.
#[tactic(auto, using(crate::proofs::Decided::decided))]
pub fn links_are_decided()
    ensures some { (n : NamedProgram) → IsPlaced n ⊎ ((e : PlaceError) × PlaceFault n e) }
    ensures placed { (n : NamedProgram) → IsPlaced n → (e : PlaceError) → ¬ PlaceFault n e }
    ensures one_fault { (n : NamedProgram) (d e : PlaceError) → PlaceFault n d → PlaceFault n e → d ≡ e }
    ensures one_end { (h : Heads) (p q r : Place) (body : NamedStatements)
        → Goes h p body q → Goes h p body r → q ≡ r }
{}

/// A placed program never meets a statement in a place that doesn't allow it, whichever branches are taken and however
/// often loops turn: no body that goes from one place to another does, no module begun where it declares, which ends
/// where it declares too, and no thread, whoever makes it and whatever it runs. `Placed::program` gives both premises.
#[tactic(auto, using(crate::proofs::Reaching::reaching))]
pub fn placed_programs_never_meet()
    ensures bodies { (h : Heads) (p q : Place) (body : NamedStatements) → Goes h p body q
        → (s : NamedStatement) (r : Place) → MayMeet h body p s r → MayStand h r s }
    ensures modules { (n : NamedProgram) → NamedFits n → IsPlaced n
        → (m : ModuleId) (signature : Signature) (x : NamedModule) → IsModule n m signature x
        → (s : NamedStatement) (q : Place) → MayMeet n.heads x.body signature.begin s q
        → MayStand n.heads q s }
    ensures ends { (n : NamedProgram) → NamedFits n → IsPlaced n
        → (m : ModuleId) (signature : Signature) (x : NamedModule) → IsModule n m signature x
        → (q : Place) → BodyLeads n.heads x.body signature.begin q → q ≡ signature.end }
    ensures threads { (n : NamedProgram) → NamedFits n → IsPlaced n
        → (away depth : ℕ) (m : ModuleId) (p : Place) → BeginsWithin n away m p
        → (s : NamedStatement) (q : Place) → MeetsWithin n depth m p s q → MayStand n.heads q s }
{}

/// In a placed program each thread begins where its module begins. What a start or a client makes can begin in its
/// scheduler: scheduler and module are declared, and the arguments agree with the module's parameters.
#[tactic(auto, using(crate::proofs::Reaching::reaching))]
pub fn threads_begin_in_their_place()
    ensures starts { (n : NamedProgram) → NamedFits n → IsPlaced n
        → (number : ℕ) (t : Start) → slice_get n.heads.starts number ≡ Some t
        → HeadsFit n.heads t.scheduler t.module t.arguments }
    ensures creates { (n : NamedProgram) → NamedFits n → IsPlaced n
        → (client : ℕ) (c : Client) → slice_get n.heads.clients client ≡ Some c
        → (number : ℕ) (s : SchedId) (m : ModuleId) (arguments : List Value)
        → slice_get c.orders number ≡ Some (order.Create s m arguments)
        → HeadsFit n.heads s m arguments }
    ensures threads { (n : NamedProgram) → NamedFits n → IsPlaced n
        → (away : ℕ) (m : ModuleId) (p : Place) → BeginsWithin n away m p
        → begin_of (slice_get n.heads.modules m.0) ≡ p }
{}
