//! How many declarations there are of each sort.

ghost use Rattle.std.specs.Prelude.{◌↔◌, ◌∷◌, ◌++◌, [], IsTrue};
ghost use Rattle.loft_tree.specs.Source.{Source};
ghost use Rattle.loft_tree.specs.View.{declaration_of};
ghost use Rattle.loft_listing_draft.specs.Held.{AreCounts};
ghost use Rattle.loft_listing_draft.specs.Taking.{HasRoom};

use loft_tree::Item;
use loft_tree::limits::{
    MAX_CLIENTS, MAX_EVENTS, MAX_MODULES, MAX_SCHEDULERS, MAX_SHARED, MAX_STARTS,
};

/// How many declarations there are of each sort.
#[derive(Clone, Copy)]
pub struct Counts {
    pub schedulers: usize,
    pub events: usize,
    pub shared: usize,
    pub modules: usize,
    pub starts: usize,
    pub clients: usize,
}

impl Counts {
    /// None.
    pub fn none() -> Counts
        ensures { AreCounts result [] }
    {
        Counts {
            schedulers: 0,
            events: 0,
            shared: 0,
            modules: 0,
            starts: 0,
            clients: 0,
        }
    }

    /// Whether one declaration more of this sort is within the limits.
    pub fn has_room(self, item: &Item) -> bool
        ensures { (p : Source) → AreCounts self p
            → IsTrue result ↔ HasRoom p (declaration_of item.now) }
    {
        match item {
            Item::Scheduler(_) => self.schedulers < MAX_SCHEDULERS,
            Item::Event { .. } => self.events < MAX_EVENTS,
            Item::Shared { .. } => self.shared < MAX_SHARED,
            Item::Module { .. } => self.modules < MAX_MODULES,
            Item::Start { .. } => self.starts < MAX_STARTS,
            Item::Outside { .. } => self.clients < MAX_CLIENTS,
        }
    }

    /// One declaration more.
    pub fn after(self, item: &Item) -> Counts
        ensures { (p : Source) → AreCounts self p → HasRoom p (declaration_of item.now)
            → AreCounts result (p ++ declaration_of item.now ∷ []) }
    {
        let mut counts = self;
        match item {
            Item::Scheduler(_) => counts.schedulers = self.schedulers.saturating_add(1),
            Item::Event { .. } => counts.events = self.events.saturating_add(1),
            Item::Shared { .. } => counts.shared = self.shared.saturating_add(1),
            Item::Module { .. } => counts.modules = self.modules.saturating_add(1),
            Item::Start { .. } => counts.starts = self.starts.saturating_add(1),
            Item::Outside { .. } => counts.clients = self.clients.saturating_add(1),
        }
        counts
    }
}
