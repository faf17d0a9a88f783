//! Stops of a program in memory.

use loft_base::ModuleId;
use loft_tree::{Pause, Place};

/// What a stop of a module is.
#[derive(Clone, Copy)]
pub enum Kind<'a> {
    /// The beginning of the module.
    Begin,
    /// What a thread waits for there.
    Pause(&'a Pause),
    /// A `run` of this module.
    Run(ModuleId),
}

/// A stop of a module: what it is, how many `repeat`s it stands in, and where a thread is linked after it.
#[derive(Clone, Copy)]
pub struct Stop<'a> {
    pub kind: Kind<'a>,
    pub depth: u32,
    pub after: Place,
}

/// How a search for a stop ended.
#[derive(Clone, Copy)]
pub(crate) enum Search<'a> {
    /// At the stop.
    At(Stop<'a>),
    /// Past all statements, where a thread that comes from there is linked.
    Past(Place),
}
