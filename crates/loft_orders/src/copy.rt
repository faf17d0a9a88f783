//! Copies of what holds memory. Each answers `NoMemory` where there is none for the copy.

use crate::order::{Order, Sent};
use crate::thread::{Frame, Thread, Wait};
use loft_base::{NoMemory, Sequence, TryClone, try_clone_all};
use std::alloc::Global;

impl TryClone for Wait {
    fn try_clone(&self, alloc: Global) -> Result<Wait, NoMemory> {
        Ok(match self {
            Wait::New => Wait::New,
            Wait::Coop(left) => Wait::Coop(*left),
            Wait::Events { events, left } => Wait::Events {
                events: Sequence::from_slice(alloc, events.as_slice())?,
                left: *left,
            },
            Wait::Index { event, at } => Wait::Index {
                event: *event,
                at: *at,
            },
            Wait::Next => Wait::Next,
            Wait::Join { thread, left } => Wait::Join {
                thread: *thread,
                left: *left,
            },
            Wait::Halt => Wait::Halt,
        })
    }
}

impl TryClone for Frame {
    fn try_clone(&self, alloc: Global) -> Result<Frame, NoMemory> {
        Ok(Frame {
            module: self.module,
            stop: self.stop,
            counts: Sequence::from_slice(alloc, self.counts.as_slice())?,
            values: Sequence::from_slice(alloc, self.values.as_slice())?,
        })
    }
}

impl TryClone for Thread {
    fn try_clone(&self, alloc: Global) -> Result<Thread, NoMemory> {
        Ok(Thread {
            id: self.id,
            code: self.code,
            mask: self.mask,
            wait: self.wait.try_clone(alloc)?,
            frames: try_clone_all(alloc, self.frames.as_slice())?,
        })
    }
}

impl TryClone for Order {
    fn try_clone(&self, alloc: Global) -> Result<Order, NoMemory> {
        Ok(match self {
            Order::Create {
                thread,
                module,
                args,
            } => Order::Create {
                thread: *thread,
                module: *module,
                args: args.share()?,
            },
            Order::Arrive(thread) => Order::Arrive(thread.share()?),
            Order::Stop(thread) => Order::Stop(*thread),
            Order::Suspend(thread) => Order::Suspend(*thread),
            Order::Resume(thread) => Order::Resume(*thread),
            Order::Broadcast { event, value } => Order::Broadcast {
                event: *event,
                value: *value,
            },
            Order::Ended { thread, end } => Order::Ended {
                thread: *thread,
                end: *end,
            },
        })
    }
}

impl TryClone for Sent {
    fn try_clone(&self, alloc: Global) -> Result<Sent, NoMemory> {
        Ok(Sent {
            to: self.to,
            order: self.order.try_clone(alloc)?,
        })
    }
}
