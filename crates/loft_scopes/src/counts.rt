//! How many declarations there were.

ghost use Rattle.std.specs.Prelude.{◌≡◌, ◌+◌, ◌<◌, ◌^◌};
ghost use Rattle.loft_tree.specs.View.{declaration_of};
ghost use Rattle.loft_scopes.specs.Modules.{next_module};

use loft_tree::Item;

/// How many declarations there were of each sort.
#[derive(Clone, Copy)]
pub struct DeclarationCounts {
    pub schedulers: u32,
    pub events: u32,
    pub shared: u32,
    pub modules: u32,
    pub starts: u32,
    pub clients: u32,
}

impl DeclarationCounts {
    ghost use Rattle.loft_scopes.specs.Scopes.{after, none_yet};
    ghost use Rattle.loft_scopes.specs.Counts.{HasRoom};

    /// None.
    pub fn none() -> DeclarationCounts
        ensures { result ≡ none_yet }
    {
        DeclarationCounts {
            schedulers: 0,
            events: 0,
            shared: 0,
            modules: 0,
            starts: 0,
            clients: 0,
        }
    }

    /// One declaration more.
    pub fn after(self, item: &Item) -> DeclarationCounts
        requires { HasRoom self 1 }
        ensures { result ≡ after self (declaration_of item.now) }
    {
        let mut sofar = self;
        match item {
            Item::Scheduler(_) => sofar.schedulers += 1,
            Item::Event { .. } => sofar.events += 1,
            Item::Shared { .. } => sofar.shared += 1,
            Item::Module { .. } => sofar.modules += 1,
            Item::Start { .. } => sofar.starts += 1,
            Item::Outside { .. } => sofar.clients += 1,
        }
        sofar
    }
}

/// The number of the next module, after a declaration.
pub fn next_module(number: u32, declared: &Item) -> u32
    requires { number + 1 < 2 ^ 32 }
    ensures { result ≡ next_module number (declaration_of declared.now) }
{
    match declared {
        Item::Module { .. } => number + 1,
        _ => number,
    }
}
