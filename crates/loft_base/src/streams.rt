//! Reading and writing over any reader or writer of std.

ghost use Rattle.std.specs.Prelude.{◌<◌, ◌≤◌, length, IfOk, OnOk, OnErr};
ghost use Rattle.std.specs.Io.KnownBytes.{Appends, ReadConsumes, WriteAppends};
ghost use Rattle.loft_base.specs.Streams.{AppendsPrefix};

use crate::errors::Failed;
use std::io::{Read, Write};

/// Reads some bytes into the front of a slice that isn't empty, and gives how many these are: 0
/// only at the end. `Failed` comes where the reader failed; an error is never taken for the end.
pub fn read_some<R: Read>(reader: &mut R, into: &mut [u8]) -> Result<usize, Failed>
    ensures count { IfOk result (λ k. k ≤ length into.old) }
    ensures bytes { ReadConsumes (R.remaining reader.old) (R.remaining reader.new) result into.new }
{
    reader.read(into).map_err(|_| Failed)
}

/// Writes the whole of a piece, however little the writer takes at once. `Failed` comes where a
/// write failed or took nothing; a prefix of the piece was then written.
pub fn write_whole<W: Write>(writer: &mut W, piece: &[u8]) -> Result<(), Failed>
    ensures ok { OnOk result (Appends (W.contents writer.old) (W.contents writer.new) piece.now) }
    ensures failed { OnErr result
        (AppendsPrefix (W.contents writer.old) (W.contents writer.new) piece.now) }
{
    let mut rest = piece;
    'rest: while !rest.is_empty() {
        let count = write_some(writer, rest)?;
        rest = &rest[count..];
    }
    Ok(())
}

/// Writes some bytes of a piece, and gives how many. `Failed` comes where the write failed or took
/// nothing.
fn write_some<W: Write>(writer: &mut W, piece: &[u8]) -> Result<usize, Failed>
    requires { 0 < length piece.now }
    ensures some { IfOk result (λ n. 0 < n) }
    ensures within { IfOk result (λ n. n ≤ length piece.now) }
    ensures bytes { WriteAppends (W.contents writer.old) (W.contents writer.new) result piece.now }
{
    match writer.write(piece) {
        Ok(0) | Err(_) => Err(Failed),
        Ok(count) => Ok(count),
    }
}
