//! Where and why reading stops.

/// Why a list of symbols stops to be of a form. Where is given by how many symbols are left there, so 0 is the end
/// (docs/LANGUAGE.md, "The fault of a text").
#[derive(Clone, Copy)]
pub enum Fault {
    /// No symbol that may stand here.
    Expected(usize),
    /// A symbol that opens one nesting more than may be open.
    TooDeep(usize),
    /// A symbol that begins one thing more than the limit allows.
    TooMany { left: usize, limit: u32 },
}
