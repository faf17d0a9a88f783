//! Texts that grow.

ghost use Rattle.std.specs.Prelude.{◌≡◌, ◌++◌, true};
ghost use Rattle.loft_report_shape.specs.Last.{on_last};

use loft_base::{Room, Sequence};
use std::alloc::Global;
use std::mem;

/// Appends bytes to a text.
pub fn append(room: &mut Room, text: &mut Sequence<u8>, bytes: &[u8])
    ensures before { room.new.is_whole ≡ true → room.old.is_whole ≡ true }
    ensures text { room.new.is_whole ≡ true → text.new ≡ text.old ++ bytes.now }
{
    match text.extend_from_slice(bytes) {
        Ok(()) => {}
        Err(_) => room.is_whole = false,
    }
}

/// Appends bytes to the last of several texts, if there is one.
pub fn append_to_last(room: &mut Room, texts: &mut Sequence<Sequence<u8>>, bytes: &[u8])
    ensures before { room.new.is_whole ≡ true → room.old.is_whole ≡ true }
    ensures texts { room.new.is_whole ≡ true → texts.new ≡ on_last (λ text. text ++ bytes.now) texts.old }
{
    let count = texts.len();
    if count > 0 {
        append(room, &mut texts[count - 1], bytes);
    }
}

/// From how many bytes on a text isn't copied to give back memory.
const LONG: usize = 65536;

/// Moves a text to memory of its length, if there is some.
fn copy(alloc: Global, text: &mut Sequence<u8>)
    ensures { text.new ≡ text.old }
{
    if let Ok(copied) = Sequence::from_slice(alloc, text.as_slice()) {
        *text = copied;
    }
}

/// Gives back the memory that a text doesn't use, if that can be done. A short text is copied, and the memory that it
/// leaves serves the next text that grows; what would be cut off it is too small for that.
fn shrink(alloc: Global, text: &mut Sequence<u8>)
    ensures { text.new ≡ text.old }
{
    if text.len() < LONG {
        return copy(alloc, text);
    }
    let mut bytes = mem::replace(text, Sequence::new(alloc)).into_vec();
    bytes.shrink_to_fit();
    *text = Sequence::from_vec(bytes);
}

/// Gives back the memory that the last of several texts doesn't use.
pub fn shrink_last(alloc: Global, texts: &mut Sequence<Sequence<u8>>)
    ensures { texts.new ≡ texts.old }
{
    let count = texts.len();
    if count > 0 {
        shrink(alloc, &mut texts[count - 1]);
    }
}
