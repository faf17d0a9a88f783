//! A reader of symbols, which keeps why it stopped.

ghost use Rattle.std.specs.Prelude.{◌≡◌, ◌⊎◌, ◌++◌, ◌∷◌, [], Ok, Err, Some, None, true};
ghost use Rattle.loft_form.specs.declared.fault.Fault.{Fault};
ghost use Rattle.loft_form.specs.declared.stop.Stop.TheVariants as stop;
ghost use Rattle.loft_grammar.specs.Counts.{put, none};

use crate::counts::{Counted, Counts};
use crate::cursor::Cursor;
use loft_form::Stop;
use loft_lex::Symbol;
use std::alloc::{AllocError, Global};

/// What reads a text part by part. Once it has stopped it stays so, and what it returns says
/// nothing.
#[derive(Drop)]
pub struct Reader<'a> {
    /// Where memory for what is read comes from.
    pub alloc: Global,
    /// Where it stands.
    pub cursor: Cursor<'a>,
    /// Why it stopped, if it did.
    pub stopped: Option<Stop>,
}

impl<'a> Reader<'a> {
    /// The reader before these symbols, where nothing is counted.
    pub fn new(alloc: Global, symbols: &'a [Symbol<'a>]) -> Reader<'a>
        ensures place { result.cursor ≡ record { symbols = symbols.entry; counts = none; due = None } }
        ensures going { result.stopped ≡ None }
    {
        Reader {
            alloc,
            cursor: Cursor::after(symbols, Counts::none()),
            stopped: None,
        }
    }

    /// Whether it has not stopped.
    pub fn goes_on(&self) -> bool
        ensures going { result ≡ true → self.now.stopped ≡ None }
        ensures stopped { self.now.stopped ≡ None → result ≡ true }
    {
        self.stopped.is_none()
    }

    /// Stops, unless it has stopped before.
    fn stop(&mut self, why: Stop)
        ensures never { ¬ (self.new.stopped ≡ None) }
        ensures cause { (f : Fault) → self.new.stopped ≡ Some (stop.Fault f)
            → (self.old.stopped ≡ Some (stop.Fault f)) ⊎ ((self.old.stopped ≡ None) × (why ≡ stop.Fault f)) }
        ensures cursor { self.new.cursor ≡ self.old.cursor }
    {
        if self.stopped.is_none() {
            self.stopped = Some(why);
        }
    }

    /// What was read from where it stands, or the other value in its place.
    pub fn follow<T: Drop>(&mut self, read: Result<(T, Cursor<'a>), Stop>, other: T) -> T
        ensures read { self.new.stopped ≡ None
            → (self.old.stopped ≡ None) × (read.entry ≡ Ok (result, self.new.cursor)) }
        ensures fault { (f : Fault) → self.new.stopped ≡ Some (stop.Fault f)
            → (self.old.stopped ≡ Some (stop.Fault f)) ⊎ ((self.old.stopped ≡ None) × (read.entry ≡ Err (stop.Fault f))) }
    {
        match read {
            Ok((value, cursor)) => {
                self.cursor = cursor;
                value
            }
            Err(why) => {
                self.stop(why);
                other
            }
        }
    }

    /// What was made, or where memory ran out the other value in its place.
    pub fn or<T: Drop>(&mut self, made: Result<T, AllocError>, other: T) -> T
        ensures made { self.new.stopped ≡ None → (self.old.stopped ≡ None) × (made ≡ Ok result) }
        ensures fault { (f : Fault) → self.new.stopped ≡ Some (stop.Fault f) → self.old.stopped ≡ Some (stop.Fault f) }
        ensures cursor { self.new.cursor ≡ self.old.cursor }
    {
        match made {
            Ok(made) => made,
            Err(_) => {
                self.stop(Stop::NoMemory);
                other
            }
        }
    }

    /// Appends an item.
    pub fn push<T: Drop>(&mut self, all: &mut Vec<T>, item: T)
        ensures item { self.new.stopped ≡ None → (self.old.stopped ≡ None) × (all.new.items ≡ all.old.items ++ item ∷ []) }
        ensures fault { (f : Fault) → self.new.stopped ≡ Some (stop.Fault f) → self.old.stopped ≡ Some (stop.Fault f) }
        ensures cursor { self.new.cursor ≡ self.old.cursor }
    {
        match all.push(item) {
            Ok(()) => {}
            Err(_) => self.stop(Stop::NoMemory),
        }
    }

    /// Counts these from 0.
    pub fn count_anew(&mut self, what: Counted)
        ensures counts { self.new.cursor ≡ record self.old.cursor { counts = put what 0 self.old.cursor.counts } }
        ensures same { self.new.stopped ≡ self.old.stopped }
    {
        self.cursor.counts = self.cursor.counts.without(what);
    }

    /// Lets the next symbol count as one more of these.
    pub fn owe(&mut self, what: Counted)
        ensures due { self.new.cursor ≡ record self.old.cursor { due = Some what } }
        ensures same { self.new.stopped ≡ self.old.stopped }
    {
        self.cursor.due = Some(what);
    }
}
