//! A thread, and what stands around it, taken out of where they belong.

ghost use Rattle.std.specs.Prelude.{◌≡◌, IfOk};

use crate::around::Around;
use loft_base::{NoMemory, Sequence};
use loft_board::Board;
use loft_ended::Ended;
use loft_orders::{Thread, Wait};
use loft_tree::Place;
use std::alloc::Global;
use std::mem;

/// Takes a thread; one without frames stands in its place from now on.
pub fn take_thread(alloc: Global, thread: &mut Thread) -> Thread
    ensures { result ≡ thread.old }
{
    let bare = Thread {
        id: thread.id,
        code: 0,
        mask: 0,
        wait: Wait::New,
        frames: Sequence::new(alloc),
    };
    mem::replace(thread, bare)
}

/// Takes what stands around a thread; nothing does from now on.
pub fn take_around(alloc: Global, around: &mut Around) -> Result<Around, NoMemory>
    ensures { IfOk result (λ taken. taken ≡ around.old) }
{
    let nothing = Around {
        place: Place::Unlinked,
        board: Board::new(alloc, 0)?,
        shared: Sequence::new(alloc),
        known: Ended::new(alloc),
        made: 0,
        entries: 0,
        steps: 0,
        bound: 0,
        acts: Sequence::new(alloc),
    };
    Ok(mem::replace(around, nothing))
}
