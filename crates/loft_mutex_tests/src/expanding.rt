//! What `expand` answers.

use loft_mutex::{MutexError, expand};
use std::test::Fail;

/// Texts with the reason for which they are refused, and the offset or the number of the module that it tells.
static REFUSED: [(&[u8], &str, u32); 5] = [
    (
        b"scheduler A;shared held_l in A = 0;lock l in A;",
        "name",
        19,
    ),
    (b"scheduler A;lock a in A;lock lock_a in A;", "name", 29),
    (
        b"scheduler A;lock l in A;module u() in A lock l;end",
        "pair of l",
        2,
    ),
    (
        b"scheduler A;lock l in A;module u() in A lock l; link A; unlock l;end",
        "l left",
        2,
    ),
    // its links are asked for before its pairs
    (
        b"scheduler A;scheduler B;lock l in A;module u() in B lock l;end",
        "links",
        0,
    ),
];

/// What an error tells.
fn told(error: &MutexError) -> (&'static str, u32) {
    match error {
        MutexError::Reserved(at) => ("name", *at),
        MutexError::Pair { module, lock } if lock.as_slice() == b"l".as_slice() => (
            "pair of l",
            module.0,
        ),
        MutexError::Leaves { module, lock } if lock.as_slice() == b"l".as_slice() => (
            "l left", module.0,
        ),
        MutexError::Place(_) => ("links", 0),
        _ => ("another reason", 0),
    }
}

/// A lock is four declarations, and all others stay.
#[test]
fn a_lock_is_four_declarations(rt: HostRuntime) -> Result<(), Fail> {
    let text =
        b"scheduler A; lock l in A; module u() in A lock l; print 1; unlock l; end start A.u();";
    match expand(rt.alloc(), text) {
        Ok(program) => assert_eq!(rt; program.items().len(), 7),
        Err(_) => return Err("it is refused".into()),
    }
    Ok(())
}

/// Each of the texts is refused for its reason.
#[test]
fn texts_are_refused(rt: HostRuntime) -> Result<(), Fail> {
    for (text, reason, number) in REFUSED {
        match expand(rt.alloc(), text) {
            Ok(_) => return Err("it is a program".into()),
            Err(error) => assert_eq!(rt; told(&error), (reason, number)),
        }
    }
    Ok(())
}
