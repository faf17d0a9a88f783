//! Programs.

ghost use Rattle.std.specs.Prelude.{◌≡◌, IfOk};
ghost use Rattle.loft_tree.specs.View.{source_of};
ghost use Rattle.loft_show.specs.Canon.{Canon};

use crate::item::put_item;
use loft_base::{NoMemory, Out};
use loft_tree::Program;
use std::alloc::Global;

/// The canonical text of a program (docs/LANGUAGE.md, "Canonical text").
///
/// # Errors
///
/// `NoMemory` where there was no memory for the text.
pub fn show(alloc: Global, p: &Program) -> Result<Vec<u8>, NoMemory>
    ensures { IfOk result (λ text. text.items ≡ Canon (source_of p.now)) }
{
    let mut out = Out::new(alloc);
    for item in p.items() {
        put_item(&mut out, item);
    }
    out.done()
}
