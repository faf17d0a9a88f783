//! A sink that compares.

ghost use Rattle.std.specs.Prelude.{◌≡◌, [], ◌++◌, IfOk, ℕ, List, true, false};
ghost use Rattle.loft_report_shape.specs.Text.{text_of};
ghost use Rattle.loft_report_reader.specs.Answer.{report_in};
ghost use Rattle.loft_replay_error.specs.Difference.{IsDifference};
ghost use Rattle.loft_compared.specs.Comparisons.{WasPut, IsOneMore, Follows};

use crate::found::Found;
use crate::known_text::KnownText;
use crate::place::Place;
use crate::walk::Walk;
use loft_base::{Failed, NoMemory, Sink};
use loft_report_reader::RawReport;
use std::alloc::Global;
use std::marker::{Model, PhantomData};

/// A sink that compares what is put into it with the text of a report, and keeps only how far it is. Contracts see what
/// was put, and whether it has stopped: it fails from the first byte on that isn't that of the text.
#[derive(Drop)]
pub struct Comparison<'a, X: KnownText> {
    /// What is still to come of the text.
    rest: Walk<'a>,
    /// How many bytes were equal.
    equal: u64,
    found: Found,
    of: PhantomData<X>,
}

impl<'a, X: KnownText> Model for Comparison<'a, X> {
    ghost use Rattle.loft_compared.specs.Walks.{left_of};
    ghost use Rattle.loft_compared.specs.Comparisons.{Compared, compared, IsComparison};

    ghost Value = { Compared };

    ghost view = { λ c. compared X.text c.equal c.found };

    ghost invariant = { λ c. IsComparison X.text c.equal (left_of c.rest) c.found };
}

impl<'a, X: KnownText> Comparison<'a, X> {
    /// A comparison with the text of a report, of which nothing was put yet.
    pub fn new(alloc: Global, r: &'a RawReport) -> Comparison<'a, X>
        requires { X.text ≡ text_of (report_in r.now) }
        ensures written { result.written ≡ [] }
        ensures fresh { result.stopped ≡ false }
    {
        Comparison {
            rest: Walk::new(alloc, Place::of_report(r)),
            equal: 0,
            found: Found::Equal,
            of: PhantomData,
        }
    }

    /// Whether a byte differed, or it is out of memory.
    fn has_stopped(&self) -> bool
        ensures { result ≡ self.now.stopped }
    {
        !matches!(self.found, Found::Equal)
    }

    /// Compares the next byte.
    fn compare(&mut self, b: u8)
        requires { self.old.stopped ≡ false }
        ensures { IsOneMore self.old.written b self.new }
    {
        match self.rest.next() {
            Err(NoMemory) => self.found = Found::NoMemory,
            Ok(None) => self.found = Found::Other(b),
            Ok(Some(own)) => {
                if own != b {
                    self.found = Found::Other(b);
                } else if let Some(equal) = self.equal.checked_add(1) {
                    self.equal = equal;
                } else {
                    self.found = Found::NoMemory;
                }
            }
        }
    }

    /// Compares bytes one by one until one differs.
    fn compare_each(&mut self, bytes: &[u8])
        ensures put { Follows self.old.written bytes.now self.new }
        ensures stays { self.old.stopped ≡ true → self.new.stopped ≡ true }
    {
        for b in bytes {
            if self.has_stopped() {
                return;
            }
            self.compare(*b);
        }
    }

    /// Goes over all bytes at once, if the text goes on with them in the piece at which its walk is. Answers whether it
    /// does.
    #[tactic(auto, using(crate::proofs::Skipping::skips_put, crate::proofs::Skipping::stays))]
    fn skip(&mut self, bytes: &[u8]) -> bool
        requires { self.old.stopped ≡ false }
        ensures put { result ≡ true → self.new ≡ record self.old { written = self.old.written ++ bytes.now } }
        ensures stays { result ≡ false → self.new ≡ self.old }
    {
        let Some(equal) = self.equal.checked_add(bytes.len() as u64) else {
            return false;
        };
        if self.rest.skip(bytes) {
            self.equal = equal;
            true
        } else {
            false
        }
    }

    /// Compares bytes until one differs: all at once where they are the same, as most lines are.
    #[tactic(auto, using(crate::proofs::Skipping::all_follow, crate::proofs::Skipping::none_follows, crate::proofs::Skipping::same_follow))]
    fn compare_all(&mut self, bytes: &[u8])
        ensures put { Follows self.old.written bytes.now self.new }
        ensures stays { self.old.stopped ≡ true → self.new.stopped ≡ true }
    {
        if self.has_stopped() {
            return;
        }
        if self.skip(bytes) {
            return;
        }
        self.compare_each(bytes);
    }

    /// After how many bytes the text of the report and the one that was put differ; none if they are the same.
    ///
    /// # Errors
    ///
    /// Out of memory for a line of the report, or for more bytes than can be counted.
    pub fn finish(self) -> Result<Option<u64>, NoMemory>
        ensures { IfOk result (λ difference. (t : List ℕ) → WasPut t self.entry
            → IsDifference X.text t difference) }
    {
        let Comparison {
            mut rest,
            equal,
            found,
            of: _,
        } = self;
        match found {
            Found::Equal => match rest.next()? {
                Some(_) => Ok(Some(equal)),
                None => Ok(None),
            },
            Found::Other(_) => Ok(Some(equal)),
            Found::NoMemory => Err(NoMemory),
        }
    }
}

impl<'a, X: KnownText> Sink for Comparison<'a, X> {
    ghost use Rattle.std.specs.Prelude.{Some};
    ghost use Rattle.loft_compared.specs.Comparisons.{faults_of};

    ghost written = { λ c. Some c.written };

    ghost faults = { λ c. faults_of c.stopped };

    fn put(&mut self, bytes: &[u8]) -> Result<(), Failed> {
        self.compare_all(bytes);
        if self.has_stopped() {
            Err(Failed)
        } else {
            Ok(())
        }
    }
}
