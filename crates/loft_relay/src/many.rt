//! Any number of clients give orders, each from a thread of its own.

ghost use Rattle.std.specs.Prelude.{◌≡◌, [], ℕ, ◌<◌, IfOk, IfSome, IsTrue, length, slice_index_or, true, false};
ghost use Rattle.std.specs.List.{All};
ghost use Rattle.loft_orders.specs.declared.entry.Actor.TheVariants as actor;
ghost use Rattle.loft_history.specs.Legal.{actor_of, of};
ghost use Rattle.loft_baton.specs.Knowing.{among, IsIdle};
ghost use Rattle.loft_relay.specs.declared.many.Hand.{Hand};
ghost use Rattle.loft_relay.specs.Gives.{entries_of, IsOrder};
ghost use Rattle.loft_relay.specs.Hands.{IsReady, MayGive, IsDone, AreApart, IsMain, IsWhole, actors_of, clients_of, owns_in};

use crate::one::give;
use loft_base::NoMemory;
use loft_baton::{Baton, Pass};
use loft_code::Code;
use loft_orders::{Actor, Sent};
use loft_world::World;
use std::alloc::Global;
use std::sync::Wait;
use std::thread;
use std::thread::Threads;

/// A client with its pass, and whether each of its orders was accepted.
#[derive(Drop)]
pub struct Hand {
    pub pass: Pass,
    pub client: u32,
    pub done: bool,
}

/// A client gives its orders, and notes whether each was accepted.
fn work<R: Wait>(rt: &R, alloc: Global, b: &Baton, hand: &mut Hand, sents: &[Sent])
    requires ready { MayGive b.now sents.now hand.old }
    ensures client { hand.new.client ≡ hand.old.client }
    ensures done { IsTrue hand.new.done → IsDone b.now sents.now hand.new }
{
    let client = hand.client;
    for sent in sents {
        if give(rt, alloc, b, &mut hand.pass, client, sent).is_err() {
            hand.done = false;
            return;
        }
    }
    hand.done = true;
}

/// Each client gives its orders, all at once.
fn work_each<R: Threads + Wait + Sync>(
    rt: &R,
    alloc: Global,
    b: &Baton,
    hands: &mut [Hand],
    sents: &[Sent],
)
    requires ready { All (MayGive b.now sents.now) hands.old }
    ensures done { All (λ h. IsTrue h.done → IsDone b.now sents.now h) hands.new }
    ensures clients { (i : ℕ) (d : Hand) → i < length hands.old
        → (slice_index_or hands.new i d).client ≡ (slice_index_or hands.old i d).client }
{
    let threads = hands.len().max(1);
    thread::for_each_mut(
        rt,
        hands,
        threads,
        &|_, hand| work(rt, alloc, b, hand, sents),
    );
}

/// The same for hands that are owned.
fn work_all<R: Threads + Wait + Sync>(
    rt: &R,
    alloc: Global,
    b: &Baton,
    hands: Vec<Hand>,
    sents: &[Sent],
) -> Vec<Hand>
    requires ready { All (MayGive b.now sents.now) hands.items }
    ensures done { All (λ h. IsTrue h.done → IsDone b.now sents.now h) result.items }
    ensures clients { clients_of result.items ≡ clients_of hands.items }
{
    let mut hands = hands;
    work_each(rt, alloc, b, hands.as_mut_slice(), sents);
    hands
}

/// A pass for each client.
fn hands_of(
    alloc: Global,
    b: &Baton,
    main: &mut Pass,
    clients: &[u32],
) -> Result<Vec<Hand>, NoMemory>
    requires main { IsMain b.now main.old.knows.code [] main.old }
    requires apart { AreApart clients.now }
    ensures main { IfOk result (λ _. IsMain b.now main.old.knows.code (actors_of clients.now) main.new) }
    ensures ready { IfOk result (λ hands. All (IsReady b.now main.old.knows.code) hands.items) }
    ensures clients { IfOk result (λ hands. clients_of hands.items ≡ clients.now) }
{
    let mut hands = Vec::new(alloc);
    for client in clients {
        let pass = b.split(main, Actor::Client(*client));
        hands.push(Hand {
            pass,
            client: *client,
            done: false,
        })?;
    }
    Ok(hands)
}

/// All passes in one, where each client is done.
fn join_all(b: &Baton, main: Pass, hands: Vec<Hand>) -> Option<Pass>
    requires main { IsWhole b.now main.knows main }
    requires none { main.knows.own ≡ [] }
    requires hands { All (λ h. IsTrue h.done → (h.pass.baton ≡ b.now) × IsIdle h.pass.knows) hands.items }
    ensures pass { IfSome result (IsWhole b.now main.knows) }
    ensures own { IfSome result (λ p. p.knows.own ≡ owns_in hands.items) }
    ensures done { IfSome result (λ _. All (λ h. IsTrue h.done) hands.items) }
{
    let mut main = main;
    for hand in hands {
        if !hand.done {
            return None;
        }
        main = b.join(main, hand.pass);
    }
    Some(main)
}

/// Each of these clients gives the same orders to a new world of this code, each from a thread of its
/// own. The world then has just these, each client's in their order.
pub fn give_each<R: Threads + Wait + Sync>(
    rt: &R,
    alloc: Global,
    code: &Code,
    clients: &[u32],
    sents: &[Sent],
) -> Result<World, NoMemory>
    requires apart { AreApart clients.now }
    requires orders { All (IsOrder code.now) sents.now }
    ensures each { IfOk result (λ w. All (λ c. of (actor.Client c) w.history
        ≡ entries_of c sents.now) clients.now) }
    ensures only { IfOk result (λ w. All (λ e. among (actors_of clients.now) (actor_of e) ≡ true)
        w.history) }
{
    let world = World::make(alloc, code.heads())?;
    let (baton, mut main) = Baton::make(rt, alloc, code, world)?;
    let hands = hands_of(alloc, &baton, &mut main, clients)?;
    let hands = work_all(rt, alloc, &baton, hands, sents);
    let Some(main) = join_all(&baton, main, hands) else {
        return Err(NoMemory);
    };
    Ok(baton.close(rt, main))
}
