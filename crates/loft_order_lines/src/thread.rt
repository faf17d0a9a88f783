//! Threads that arrive.

ghost use Rattle.std.specs.Prelude.{◌≡◌, true, Some, IfSome};
ghost use Rattle.loft_orders.specs.declared.thread.Frame.{Frame};
ghost use Rattle.loft_orders.specs.declared.thread.Thread.{Thread};
ghost use Rattle.loft_orders.specs.Text.{frame_text, thread_text};
ghost use Rattle.loft_order_lines.specs.Texts.{OwnNames, FrameHasText, ThreadHasText};

use crate::cut::cut_at;
use crate::list::{Item, read_list};
use crate::names::module_named;
use crate::number::integer_of;
use crate::value::{id_of, stop_of};
use loft_base::Room;
use loft_orders::{Frame, Thread, Wait};
use loft_tree::Heads;

/// The frame that has this text, if one has.
fn frame_of(room: &mut Room, heads: &Heads, bytes: &[u8]) -> Option<Frame>
    requires { OwnNames heads.now }
    ensures before { room.new.is_whole ≡ true → room.old.is_whole ≡ true }
    ensures text { room.new.is_whole ≡ true → IfSome result (FrameHasText heads.now) }
    ensures read { room.new.is_whole ≡ true → (f : Frame) → FrameHasText heads.now f
        → bytes.now ≡ frame_text heads.now f → result ≡ Some f }
{
    let (module, rest) = cut_at(bytes, b':');
    let (stop, rest) = cut_at(rest, b'[');
    let (counts, rest) = cut_at(rest, b']');
    let (_, rest) = cut_at(rest, b'(');
    let (values, _) = cut_at(rest, b')');
    let module = module_named(heads, module)?;
    let stop = stop_of(stop)?;
    let counts = read_list(room, heads, counts, b',')?;
    let values = read_list(room, heads, values, b',')?;
    Some(Frame {
        module,
        stop,
        counts,
        values,
    })
}

impl Item for Frame {
    ghost text = { frame_text };

    ghost has_text = { FrameHasText };

    fn read(room: &mut Room, heads: &Heads, bytes: &[u8]) -> Option<Frame> {
        frame_of(room, heads, bytes)
    }
}

/// The thread that has this text, if one has that hasn't run yet where it is linked.
pub fn thread_of(room: &mut Room, heads: &Heads, bytes: &[u8]) -> Option<Thread>
    requires { OwnNames heads.now }
    ensures before { room.new.is_whole ≡ true → room.old.is_whole ≡ true }
    ensures text { room.new.is_whole ≡ true → IfSome result (ThreadHasText heads.now) }
    ensures read { room.new.is_whole ≡ true → (t : Thread) → ThreadHasText heads.now t
        → bytes.now ≡ thread_text heads.now t → result ≡ Some t }
{
    let (id, rest) = cut_at(bytes, b' ');
    let (code, rest) = cut_at(rest, b' ');
    let (mask, rest) = cut_at(rest, b' ');
    let (_, frames) = cut_at(rest, b' ');
    let id = id_of(heads, id)?;
    let code = integer_of(code)?;
    let mask = integer_of(mask)?;
    let frames = read_list(room, heads, frames, b' ')?;
    Some(Thread {
        id,
        code,
        mask,
        wait: Wait::New,
        frames,
    })
}
