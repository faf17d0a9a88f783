//! A client of the source that goes on by itself.

ghost use Rattle.std.specs.Prelude.{◌≡◌, ◌+◌, ◌^◌, ◌<◌, length, if◌then◌else◌, Some, IfOk, OnErr, OnOk};
ghost use Rattle.loft_code.specs.declared.raw.CodeProgram.{CodeProgram};
ghost use Rattle.loft_orders.specs.declared.entry.Actor.TheVariants as actor;
ghost use Rattle.loft_history.specs.History.{is_create};
ghost use Rattle.loft_seat.specs.Seats.{entries_of, IsNewPass};
ghost use Rattle.loft_station.specs.Outsiders.{IsReady, IsSame, IsNext, Gave, GaveOrder, HasGiven, WentOn};

use crate::room::make_room;
use loft_base::NoMemory;
use loft_baton::{Baton, Pass};
use loft_code::Code;
use loft_orders::{Order, Sent};
use loft_seat::{Seat, code_is_well_formed, give_order};
use loft_turn_parts::next_order;
use std::alloc::Global;
use std::sync::Wait;

/// A client with its pass, how many orders it has given and how many creates among them; and whether
/// memory was refused in its last phase.
#[derive(Drop)]
pub struct Outsider {
    pub seat: Seat,
    pub client: u32,
    pub given: usize,
    pub creates: u64,
    pub refused: bool,
}

/// How many creates there are with this order, where so many come before it.
fn creates_with(creates: u64, order: &Order) -> u64
    requires { creates + 1 < 2 ^ 64 }
    ensures { result ≡ (if is_create order.now then creates + 1 else creates) }
{
    match order {
        Order::Create { .. } => creates + 1,
        _ => creates,
    }
}

impl Outsider {
    /// A client of the source with a pass without entries. It takes no memory.
    pub fn new(pass: Pass, client: u32) -> Outsider
        requires pass { IsNewPass (actor.Client client) pass }
        ensures ready { (x : CodeProgram) → pass.knows.code ≡ Some x
            → client < length x.heads.clients → IsReady pass.baton x result }
        ensures client { result.client ≡ client }
        ensures pass { result.seat ≡ record { pass = pass; length = 0 } }
    {
        Outsider {
            seat: Seat { pass, length: 0 },
            client,
            given: 0,
            creates: 0,
            refused: false,
        }
    }

    /// The pass. It takes no memory.
    pub fn end(self) -> Pass
        ensures { result ≡ self.seat.pass }
    {
        self.seat.pass
    }

    /// Gives its next order.
    fn give<R: Wait>(
        &mut self,
        rt: &R,
        alloc: Global,
        b: &Baton,
        c: &Code,
        sent: &Sent,
    ) -> Result<(), NoMemory>
        requires ready { IsReady b.now c.now self.old }
        requires next { IsNext c.now self.old sent.now }
        requires room { self.old.given + 1 < 2 ^ 64 }
        ensures ready { IsReady b.now c.now self.new }
        ensures same { IsSame self.old self.new }
        ensures gave { OnOk result (GaveOrder c.now self.old self.new sent.now) }
        ensures err { OnErr result (entries_of self.new.seat ≡ entries_of self.old.seat) }
    {
        code_is_well_formed(c);
        give_order(rt, alloc, b, c, &mut self.seat, self.client, sent)?;
        self.given += 1;
        self.creates = creates_with(self.creates, &sent.order);
        Ok(())
    }

    /// One turn, where it has an order to give: the client gives the next of those that the source has
    /// for it. Answers whether it had one. Out of memory, it has the entries that it had.
    pub fn turn<R: Wait>(
        &mut self,
        rt: &R,
        alloc: Global,
        b: &Baton,
        c: &Code,
    ) -> Result<bool, NoMemory>
        requires ready { IsReady b.now c.now self.old }
        ensures ready { IsReady b.now c.now self.new }
        ensures same { IsSame self.old self.new }
        ensures gave { IfOk result (Gave c.now self.old self.new) }
        ensures err { OnErr result (entries_of self.new.seat ≡ entries_of self.old.seat) }
    {
        code_is_well_formed(c);
        let next = next_order(alloc, c.heads(), self.client, self.given, self.creates)?;
        let Some(sent) = next else {
            return Ok(false);
        };
        self.give(rt, alloc, b, c, &sent)?;
        Ok(true)
    }

    /// At most 32 turns, as many as there are orders.
    fn turns<R: Wait>(&mut self, rt: &R, alloc: Global, b: &Baton, c: &Code) -> Result<(), NoMemory>
        requires ready { IsReady b.now c.now self.old }
        ensures ready { IsReady b.now c.now self.new }
        ensures same { IsSame self.old self.new }
        ensures made { OnOk result (HasGiven 32 c.now self.old self.new) }
    {
        for turn in 0..32u32 {
            if !self.turn(rt, alloc, b, c)? {
                return Ok(());
            }
        }
        Ok(())
    }

    /// Its share of a phase: at most 32 turns, as many as there are orders. It notes whether memory was
    /// refused.
    pub fn go_on<R: Wait>(&mut self, rt: &R, alloc: Global, b: &Baton, c: &Code)
        requires ready { IsReady b.now c.now self.old }
        ensures { WentOn b.now c.now self.old self.new }
    {
        make_room(alloc);
        let done = self.turns(rt, alloc, b, c);
        self.refused = done.is_err();
    }
}
