//! A caller with its pass.

ghost use Rattle.loft_host.specs.Callers.{IsAtWork, GoesOn};

use crate::caller::{Caller, Next};
use loft_base::NoMemory;
use loft_baton::{Baton, Pass};
use loft_code::Code;
use std::alloc::Global;
use std::sync::Wait;

/// A caller with its pass, and what it wants next; and whether memory was refused in its last turn.
#[derive(Drop)]
pub(crate) struct Desk<C: Caller> {
    pub pass: Pass,
    pub caller: C,
    pub next: Next,
    pub refused: bool,
}

impl<C: Caller> Desk<C> {
    /// Its turn, where it has one in this round. It notes whether memory was refused.
    pub(crate) fn go_on<R: Wait>(
        &mut self,
        rt: &R,
        alloc: Global,
        b: &Baton,
        c: &Code,
        is_quiet: bool,
    )
        requires at_work { IsAtWork b.now c.now self.old.pass }
        ensures { GoesOn b.now c.now self.old.pass self.new.pass }
    {
        if !self.next.is_due(is_quiet) {
            return;
        }
        match self.caller.turn(rt, alloc, b, c, &mut self.pass) {
            Ok(next) => self.next = next,
            Err(NoMemory) => self.refused = true,
        }
    }
}

/// Whether each caller has had its last turn.
pub(crate) fn are_done<C: Caller>(desks: &[Desk<C>]) -> bool {
    desks.iter().all(|desk| desk.next.is_done())
}

/// Whether memory was refused to one of the callers.
pub(crate) fn were_refused<C: Caller>(desks: &[Desk<C>]) -> bool {
    desks.iter().any(|desk| desk.refused)
}
