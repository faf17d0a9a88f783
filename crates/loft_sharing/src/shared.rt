//! Threads may share valid code.

use loft_code::Code;

/// Takes a value that threads may share.
fn is_shared<T: Sync>(_value: &T) {}

/// Threads may share valid code. The call does nothing: it is there so that its proof is asked for, and
/// a change after which code could no longer be shared is refused.
pub fn code_is_shared(code: &Code) {
    is_shared(code);
}
