//! Lines that are read ahead: the parts of a line one after another, as long as whole spellings of them are there.

ghost use Rattle.std.specs.Prelude.{◌≡◌, ◌+◌, ◌<◌, ◌≤◌, ◌∷◌, ◌++◌, drop, length, take, true, List};
ghost use Rattle.loft_report_shape.specs.Grammar.{after, after_value, begins_number, frames, head_is, id, stop, thread};
ghost use Rattle.loft_report_shape.specs.declared.part.Part.{Part};
ghost use Rattle.loft_report_shape.specs.declared.part.Part.TheVariants as part;
ghost use Rattle.loft_report_shape.specs.declared.part.NumberKind.TheVariants as number;
ghost use Rattle.loft_report_reader.specs.Ahead.{Goes, IsKept, IsPlain};

use crate::soon::soon_there;
use crate::there::sign_there;
use crate::word_there::word_soon;
use loft_report_shape::{NameRole, NumberKind, Part, Stage, Word};

/// A name in a line that is kept as it stands.
const NAME: Part = Part::Name(NameRole::Other);

/// The first byte is this one.
fn head_is(c: u8, bytes: &[u8]) -> bool
    ensures { result ≡ head_is c bytes.now }
{
    match bytes {
        [] => false,
        [b, ..] => *b == c,
    }
}

fn begins_number(bytes: &[u8]) -> bool
    ensures { result ≡ begins_number bytes.now }
{
    match bytes {
        [] => false,
        [b, ..] => *b >= b'0' && *b <= b'9' || *b == b'-',
    }
}

/// A text, of which parts are read as long as whole spellings of them are there and further bytes come
/// (docs/REPORT.md, "The grammar").
#[derive(Clone, Copy)]
struct Ahead<'a> {
    /// What is still to be read.
    rest: &'a [u8],
    /// Whether all parts so far were there.
    fits: bool,
}

impl<'a> Ahead<'a> {
    /// Goes over so many bytes of a part; if there are none, the part isn't there.
    fn pass(&mut self, n: usize) -> &'a [u8]
        requires { n ≤ length self.old.rest.now }
        ensures before { self.new.fits ≡ true → self.old.fits ≡ true }
        ensures some { self.new.fits ≡ true → 0 < n }
        ensures word { result.now ≡ take n self.old.rest.now }
        ensures rest { self.new.rest.now ≡ drop n self.old.rest.now }
    {
        if n == 0 {
            self.fits = false;
        }
        let word = &self.rest[..n];
        self.rest = &self.rest[n..];
        word
    }

    /// Reads a part, and answers its spelling.
    fn part(&mut self, p: Part) -> &'a [u8]
        ensures before { self.new.fits ≡ true → self.old.fits ≡ true }
        ensures some { self.new.fits ≡ true → 0 < length result.now }
        ensures less { length self.new.rest.now + length result.now ≡ length self.old.rest.now }
        ensures goes { self.new.fits ≡ true → IsKept p result.now → (ps : List Part)
            → Goes (p ∷ ps) self.old.rest.now (after p result.now ++ ps) self.new.rest.now }
    {
        let n = soon_there(p, self.rest);
        self.pass(n)
    }

    /// Reads a part after which none comes.
    fn plain(&mut self, p: Part)
        ensures before { self.new.fits ≡ true → self.old.fits ≡ true }
        ensures less { length self.new.rest.now ≤ length self.old.rest.now }
        ensures goes { self.new.fits ≡ true → IsPlain p → (ps : List Part)
            → Goes (p ∷ ps) self.old.rest.now ps self.new.rest.now }
    {
        let _word = self.part(p);
    }

    /// Reads this byte.
    fn sign(&mut self, b: u8)
        ensures before { self.new.fits ≡ true → self.old.fits ≡ true }
        ensures less { length self.new.rest.now ≤ length self.old.rest.now }
        ensures goes { self.new.fits ≡ true → (ps : List Part)
            → Goes (part.Sign b ∷ ps) self.old.rest.now ps self.new.rest.now }
    {
        let n = sign_there(b, self.rest);
        let _word = self.pass(n);
    }

    /// Reads a number of this kind.
    fn number(&mut self, kind: NumberKind)
        ensures before { self.new.fits ≡ true → self.old.fits ≡ true }
        ensures less { length self.new.rest.now ≤ length self.old.rest.now }
        ensures goes { self.new.fits ≡ true → IsPlain (part.Number kind) → (ps : List Part)
            → Goes (part.Number kind ∷ ps) self.old.rest.now ps self.new.rest.now }
    {
        let n = soon_there(Part::Number(kind), self.rest);
        let _word = self.pass(n);
    }

    /// Reads an id.
    fn id(&mut self)
        ensures before { self.new.fits ≡ true → self.old.fits ≡ true }
        ensures less { length self.new.rest.now ≤ length self.old.rest.now }
        ensures goes { self.new.fits ≡ true → (ps : List Part)
            → Goes (id ++ ps) self.old.rest.now ps self.new.rest.now }
    {
        self.plain(Part::Maker);
        self.sign(b'.');
        self.number(NumberKind::Count);
    }

    /// Reads what comes after the spelling with which a value begins.
    fn end_value(&mut self, word: &[u8])
        ensures before { self.new.fits ≡ true → self.old.fits ≡ true }
        ensures less { length self.new.rest.now ≤ length self.old.rest.now }
        ensures goes { self.new.fits ≡ true → (ps : List Part)
            → Goes (after_value word.now ++ ps) self.old.rest.now ps self.new.rest.now }
    {
        if begins_number(word) {
            return;
        }
        self.sign(b'.');
        self.number(NumberKind::Count);
    }

    /// Reads further values after a comma, and the bracket.
    fn more_values(&mut self)
        ensures before { self.new.fits ≡ true → self.old.fits ≡ true }
        ensures less { length self.new.rest.now ≤ length self.old.rest.now }
        ensures goes { self.new.fits ≡ true → (ps : List Part)
            → Goes (part.MoreValues ∷ ps) self.old.rest.now ps self.new.rest.now }
    {
        let word = self.part(Part::MoreValues);
        if !head_is(b',', word) {
            return;
        }
        let value = self.part(Part::Value);
        self.end_value(value);
        self.more_values();
    }

    /// Reads values with commas between them, and the bracket.
    fn values(&mut self)
        ensures before { self.new.fits ≡ true → self.old.fits ≡ true }
        ensures less { length self.new.rest.now ≤ length self.old.rest.now }
        ensures goes { self.new.fits ≡ true → (ps : List Part)
            → Goes (part.FirstValue ∷ ps) self.old.rest.now ps self.new.rest.now }
    {
        let word = self.part(Part::FirstValue);
        if head_is(b')', word) {
            return;
        }
        self.end_value(word);
        self.more_values();
    }

    /// Reads further counts after a comma, and the bracket.
    fn more_counts(&mut self)
        ensures before { self.new.fits ≡ true → self.old.fits ≡ true }
        ensures less { length self.new.rest.now ≤ length self.old.rest.now }
        ensures goes { self.new.fits ≡ true → (ps : List Part)
            → Goes (part.MoreCounts ∷ ps) self.old.rest.now ps self.new.rest.now }
    {
        let word = self.part(Part::MoreCounts);
        if !head_is(b',', word) {
            return;
        }
        self.number(NumberKind::Count);
        self.more_counts();
    }

    /// Reads counts with commas between them, and the bracket.
    fn counts(&mut self)
        ensures before { self.new.fits ≡ true → self.old.fits ≡ true }
        ensures less { length self.new.rest.now ≤ length self.old.rest.now }
        ensures goes { self.new.fits ≡ true → (ps : List Part)
            → Goes (part.FirstCount ∷ ps) self.old.rest.now ps self.new.rest.now }
    {
        let word = self.part(Part::FirstCount);
        if head_is(b']', word) {
            return;
        }
        self.more_counts();
    }

    /// Reads a frame, but for what comes after it.
    fn frame(&mut self)
        ensures before { self.new.fits ≡ true → self.old.fits ≡ true }
        ensures less { length self.new.rest.now ≤ length self.old.rest.now }
        ensures goes { self.new.fits ≡ true → (ps : List Part)
            → Goes (stop ++ part.Sign 91 ∷ part.FirstCount ∷ part.Sign 40 ∷ part.FirstValue ∷ ps) self.old.rest.now ps self.new.rest.now }
    {
        self.plain(NAME);
        self.sign(b':');
        self.number(NumberKind::Stop);
        self.sign(b'[');
        self.counts();
        self.sign(b'(');
        self.values();
    }

    /// Reads frames, to the line's end.
    fn frames(&mut self)
        ensures before { self.new.fits ≡ true → self.old.fits ≡ true }
        ensures less { length self.new.rest.now ≤ length self.old.rest.now }
        ensures goes { self.new.fits ≡ true → (ps : List Part)
            → Goes (frames ++ ps) self.old.rest.now ps self.new.rest.now }
    {
        self.frame();
        let word = self.part(Part::MoreFrames);
        if !head_is(b' ', word) {
            return;
        }
        self.frames();
    }

    /// Reads a wait.
    fn wait(&mut self)
        ensures before { self.new.fits ≡ true → self.old.fits ≡ true }
        ensures less { length self.new.rest.now ≤ length self.old.rest.now }
        ensures goes { self.new.fits ≡ true → (ps : List Part)
            → Goes (part.Wait ∷ ps) self.old.rest.now ps self.new.rest.now }
    {
        let word = self.part(Part::Wait);
        match word_soon(word) {
            Some(Word::New) => self.sign(b' '),
            Some(Word::Next) => self.sign(b' '),
            Some(Word::Halt) => self.sign(b' '),
            Some(Word::Coop) => {
                self.sign(b':');
                self.plain(Part::Limit);
                self.sign(b' ');
            }
            Some(Word::Await) => {
                self.sign(b':');
                self.plain(Part::Limit);
                self.sign(b':');
                self.plain(NAME);
                self.sign(b' ');
            }
            _ => self.fits = false,
        }
    }

    /// Reads a thread, to the line's end.
    fn thread(&mut self)
        ensures before { self.new.fits ≡ true → self.old.fits ≡ true }
        ensures less { length self.new.rest.now ≤ length self.old.rest.now }
        ensures goes { self.new.fits ≡ true → (ps : List Part)
            → Goes (thread ++ ps) self.old.rest.now ps self.new.rest.now }
    {
        self.id();
        self.sign(b' ');
        self.number(NumberKind::Any);
        self.sign(b' ');
        self.number(NumberKind::Any);
        self.sign(b' ');
        self.wait();
        self.frames();
    }

    /// Reads what a thread printed, to the line's end.
    fn print(&mut self)
        ensures before { self.new.fits ≡ true → self.old.fits ≡ true }
        ensures less { length self.new.rest.now ≤ length self.old.rest.now }
        ensures goes { self.new.fits ≡ true → (ps : List Part)
            → Goes (id ++ part.Sign 32 ∷ part.Text ∷ ps) self.old.rest.now ps self.new.rest.now }
    {
        self.id();
        self.sign(b' ');
        self.plain(Part::Text);
    }

    /// Reads a line, if it is of a thread that stands or of what one printed. Answers which lines may come next.
    fn line(&mut self, stage: Stage) -> Stage
        ensures before { self.new.fits ≡ true → self.old.fits ≡ true }
        ensures less { self.new.fits ≡ true → length self.new.rest.now < length self.old.rest.now }
        ensures goes { self.new.fits ≡ true → (ps : List Part)
            → Goes (part.Lines stage ∷ ps) self.old.rest.now (part.Lines result ∷ ps) self.new.rest.now }
    {
        let word = self.part(Part::Lines(stage));
        match word_soon(word) {
            Some(Word::At) => {
                self.sign(b' ');
                self.thread();
                Stage::Standing
            }
            Some(Word::Print) => {
                self.sign(b' ');
                self.print();
                Stage::Acts
            }
            _ => {
                self.fits = false;
                stage
            }
        }
    }
}

/// Reads lines of threads that stand, and of what they printed, as long as such lines are there. Answers which lines may
/// come next, and what is still to be read.
pub fn lines_ahead<'a>(stage: Stage, bytes: &'a [u8]) -> (Stage, &'a [u8])
    ensures { (ps : List Part) → Goes (part.Lines stage ∷ ps) bytes.now (part.Lines result.0 ∷ ps) result.1.now }
{
    let mut ahead = Ahead {
        rest: bytes,
        fits: true,
    };
    let mut next = stage;
    let mut rest = bytes;
    while ahead.fits {
        let after = ahead.line(next);
        if ahead.fits {
            next = after;
            rest = ahead.rest;
        }
    }
    (next, rest)
}
