//! What is known of the steps of a module's threads.

use loft_base::Sequence;

/// What is known of the steps of a module's threads, by the first of these that applies, from
/// `Recursive` on; offsets are those of words in the source (docs/SEMANTICS.md, "Step bounds").
#[derive(Clone, Copy)]
pub enum Verdict {
    /// They never make more in an instant or a block.
    Bound(u64),
    /// The module reaches itself by `run`: its first `run` of a module that reaches it.
    Recursive(u32),
    /// Its first `run` of a module without a bound.
    Runs(u32),
    /// Of its loops that may turn without a sure statement, the one that ends first.
    Endless(u32),
    /// The bound would be greater than 1,000,000.
    Large,
}

/// One for each module, by the numbers of the modules.
pub type Verdicts = Sequence<Verdict>;
