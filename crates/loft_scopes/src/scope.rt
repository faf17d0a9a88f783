//! Where declarations can be seen.

/// Where a declaration can be seen (docs/LANGUAGE.md, "Names").
#[derive(Clone, Copy, PartialEq, Eq, Hash)]
pub enum Scope {
    /// In the whole program.
    Everywhere,
    /// In the module with this number.
    Within(u32),
}
