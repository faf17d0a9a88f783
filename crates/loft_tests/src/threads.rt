//! What may go to another thread and what threads may share, by asking the compiler.

use loft_tree::Heads;
use loft_world::World;

/// Takes types whose values may go to another thread.
fn goes_to_threads<T: Send>() {}

/// Takes types whose values threads may share.
fn is_shared<T: Sync>() {}

/// The world goes round among the threads of its actors, and these share what is declared.
#[test]
fn actors_may_have_threads(_rt: HostRuntime) {
    goes_to_threads::<World>();
    is_shared::<Heads>();
}
