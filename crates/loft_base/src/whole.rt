//! Reading a whole file.

ghost use Rattle.std.specs.Prelude.{◌≡◌, ◌≢◌, ◌⊎◌, ◌^◌, ◌<◌, ◌≤◌, length, vec_len, IsTrue, IfOk, IfSome, IsErrOf};
ghost use Rattle.loft_base.specs.Outside.{Rose};

use crate::errors::FileError;
use crate::outside::Files;
use crate::walk::FileWalk;
use std::alloc::Global;

/// How many bytes of a file are asked for at once.
const PART: usize = 16384;

/// Reads the whole file of a name. `TooLong` comes where it has more bytes than the limit,
/// `Failed` only where the count of faults rose, `NoMemory` where it is out of memory for the
/// bytes; what was read is then dropped. Each part that isn't the last takes at least one byte.
pub fn read_whole<F: Files>(
    alloc: Global,
    files: &mut F,
    name: &str,
    limit: u64,
) -> Result<Vec<u8>, FileError>
    requires asked { IsTrue (F.may_ask files.old name.now) }
    requires bounded { limit < 2 ^ 62 }

    // The answer is the file, where its contents are known, and has at most `limit` bytes.
    ensures whole { IfOk result
        (λ v. IfSome (F.contents files.old name.now) (λ file. v.items ≡ file)) }
    ensures within { IfOk result (λ v. vec_len v ≤ limit) }
    ensures ended { IfOk result (λ v. F.place files.new ≡ vec_len v) }

    // A file that is too long ended past the limit, and is longer where its contents are known.
    ensures past_limit { IsErrOf result FileError.TooLong → limit < F.place files.new }
    ensures longer { IsErrOf result FileError.TooLong →
        IfSome (F.contents files.old name.now) (λ file. limit < length file) }

    // A failure has its cause in this call.
    ensures cause { IsErrOf result FileError.Failed →
        Rose (F.faults files.old) (F.faults files.new) }
    ensures restarted { IsErrOf result FileError.Failed → F.place files.new ≡ 0 }
    ensures never_falls { F.faults files.old ≤ F.faults files.new }

    // What is known of a name's faults is known of the answer.
    ensures sure { IsTrue (F.never_fails files.old name.now) → result ≢ Err FileError.Failed }
    ensures no_fault { IsTrue (F.never_fails files.old name.now) →
        F.faults files.new ≡ F.faults files.old }
    ensures refused { IsTrue (F.always_fails files.old name.now) →
        IsErrOf result FileError.Failed ⊎ IsErrOf result FileError.NoMemory }

    ensures same_contents { F.contents files.new ≡ F.contents files.old }
    ensures same_names { F.may_ask files.new ≡ F.may_ask files.old }
    ensures same_sure { F.never_fails files.new ≡ F.never_fails files.old }
    ensures same_refused { F.always_fails files.new ≡ F.always_fails files.old }
{
    let mut walk = FileWalk::new(alloc, PART)?;
    let mut whole = Vec::new(alloc);
    while walk.advance(files, name)? {
        if limit < walk.count() {
            return Err(FileError::TooLong);
        }
        whole.extend_from_slice(walk.part())?;
    }
    Ok(whole)
}
