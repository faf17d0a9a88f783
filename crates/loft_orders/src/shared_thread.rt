//! Threads that several owners share.

ghost use Rattle.std.specs.Prelude.{◌≡◌, ◌<◌, length, IfOk};
ghost use Rattle.loft_orders.specs.Group.{member};

use crate::thread::Thread;
use loft_base::NoMemory;
use std::alloc::Global;
use std::marker::Model;
use std::sync::Arc;

/// Threads that lie in memory together, and are shared one by one. Contracts see their list.
#[derive(Drop)]
pub struct ThreadGroup {
    threads: Arc<Vec<Thread>>,
}

impl Model for ThreadGroup {
    ghost use Rattle.std.specs.Prelude.{List};
    ghost use Rattle.std.specs.Arc.{arc_value};
    ghost use Rattle.loft_orders.specs.declared.thread.Thread.{Thread};

    ghost Value = { List Thread };

    ghost view = { λ group. (arc_value group.threads).items };
}

impl ThreadGroup {
    /// Puts threads into memory that can be shared. `NoMemory` comes where there is none.
    pub fn new(alloc: Global, threads: Vec<Thread>) -> Result<ThreadGroup, NoMemory>
        ensures { IfOk result (λ group. group ≡ threads.items) }
    {
        let threads = Arc::new(alloc, threads)?;
        Ok(ThreadGroup { threads })
    }

    /// The thread with this index, shared. `NoMemory` comes where too many share the group.
    pub fn share(&self, index: usize) -> Result<SharedThread, NoMemory>
        requires { index < length self.now }
        ensures { IfOk result (λ shared. shared ≡ member self.now index) }
    {
        let group = self.threads.clone()?;
        Ok(SharedThread {
            memory: Memory::OfGroup(group, index),
        })
    }
}

/// The memory in which a shared thread is: its own, or that of a group in which it has this index.
#[derive(Drop)]
enum Memory {
    Own(Arc<Thread>),
    OfGroup(Arc<Vec<Thread>>, usize),
}

/// A thread on its way from one place to another. The entries that tell of it and the orders that
/// wait share it. Contracts see the thread.
#[derive(Drop)]
pub struct SharedThread {
    memory: Memory,
}

impl Model for SharedThread {
    ghost use Rattle.loft_orders.specs.declared.thread.Thread.{Thread};
    ghost use Rattle.loft_orders.specs.Group.{thread_in, IsThere};

    ghost Value = { Thread };

    ghost view = { λ shared. thread_in shared.memory };

    ghost invariant = { λ shared. IsThere shared.memory };
}

impl SharedThread {
    /// Puts a thread into memory that can be shared. `NoMemory` comes where there is none.
    pub fn new(alloc: Global, thread: Thread) -> Result<SharedThread, NoMemory>
        ensures { IfOk result (λ shared. shared ≡ thread) }
    {
        let thread = Arc::new(alloc, thread)?;
        Ok(SharedThread {
            memory: Memory::Own(thread),
        })
    }

    /// The same thread, shared. `NoMemory` comes where too many share it or its group.
    pub fn share(&self) -> Result<SharedThread, NoMemory>
        ensures { IfOk result (λ shared. shared ≡ self.now) }
    {
        let memory = match &self.memory {
            Memory::Own(thread) => Memory::Own(thread.clone()?),
            Memory::OfGroup(group, index) => Memory::OfGroup(group.clone()?, *index),
        };
        Ok(SharedThread { memory })
    }

    /// The thread.
    pub fn as_thread(&self) -> &Thread
        ensures { result.now ≡ self.now }
    {
        match &self.memory {
            Memory::Own(thread) => thread,
            Memory::OfGroup(group, index) => &group[*index],
        }
    }
}
