//! Reading a report spelling by spelling.

ghost use Rattle.std.specs.Prelude.{◌≡◌, ◌+◌, ◌<◌, ◌≤◌, [], ◌++◌, length, reverse, true, IfOk, IfSome};
ghost use Rattle.loft_spelling.specs.Reading.{ended};
ghost use Rattle.loft_spelling.specs.Parts.{script, takes};
ghost use Rattle.loft_report_shape.specs.Grammar.{start};
ghost use Rattle.loft_report_shape.specs.Told.{nothing_told};
ghost use Rattle.loft_report_shape.specs.Report.{grammar};
ghost use Rattle.loft_report_reader.specs.declared.machine.Spelled.TheVariants.{Whole};
ghost use Rattle.loft_report_reader.specs.Machine.{machine_of, machine_with, IsBegun, Spells, Within, Leaves, IsOn, IsRead, IsBottomed, Closes, may_end};

use crate::ahead::lines_ahead;
use loft_base::{NoMemory, Room, Sequence};
use loft_report_draft::Draft;
use loft_report_parts::PartStack;
use loft_report_sets::{is_spelling, is_whole, taken};
use loft_report_shape::Part;
use std::alloc::Global;

/// How far a report was read.
#[derive(Drop)]
pub struct Machine {
    /// The parts that are still to come.
    parts: PartStack,
    /// The bytes that were taken of a spelling of the next one.
    word: Sequence<u8>,
    /// What was told by the others.
    draft: Draft,
}

/// What came of reading a spelling.
#[derive(Clone, Copy)]
pub enum Spelled {
    /// It is whole, and further ones come after so many bytes.
    Whole(usize),
    /// All bytes were taken, and it may go on.
    Open,
    /// The text stops after so many bytes.
    Stops(usize),
}

fn extend(room: &mut Room, word: &mut Sequence<u8>, bytes: &[u8])
    ensures before { room.new.is_whole ≡ true → room.old.is_whole ≡ true }
    ensures text { room.new.is_whole ≡ true → word.new ≡ word.old ++ bytes.now }
    ensures few { length word.new ≤ length word.old + length bytes.now }
{
    match word.extend_from_slice(bytes) {
        Ok(()) => {}
        Err(_) => room.is_whole = false,
    }
}

/// The line's end of a whole report is all that is still to come, and it was taken.
fn may_end(parts: &[Part], word: &[u8]) -> bool
    ensures { result ≡ may_end (reverse parts.now) word.now }
{
    match parts {
        [Part::Close] => is_spelling(Part::Close, word),
        _ => false,
    }
}

impl Machine {
    /// Nothing was read yet.
    pub fn new(alloc: Global) -> Result<Machine, NoMemory>
        ensures { IfOk result (λ m. machine_of m ≡ record { at = record { parts = start; told = nothing_told }; word = [] }) }
    {
        let mut room = Room::new(alloc);
        let mut parts = PartStack::new(alloc);
        parts.put_start(&mut room);
        room.done(Machine {
            parts,
            word: Sequence::new(alloc),
            draft: Draft::new(alloc),
        })
    }

    /// Reads lines ahead, if the part is one that begins with lines; answers how many bytes they have. The part was taken
    /// from those that are still to come.
    fn spell_lines(&mut self, room: &mut Room, p: Part, bytes: &[u8]) -> usize
        requires between { self.old.word ≡ [] }
        ensures before { room.new.is_whole ≡ true → room.old.is_whole ≡ true }
        ensures spelled { room.new.is_whole ≡ true → 0 < result → Spells (Whole result) bytes.now (machine_with p self.old) (machine_of self.new) }
        ensures within { result ≤ length bytes.now }
        ensures left { self.new.word ≡ [] }
        ensures none { result ≡ 0 → self.new ≡ self.old }
    {
        let Part::Lines(stage) = p else {
            return 0;
        };
        let (next, rest) = lines_ahead(stage, bytes);
        let n = bytes.len().saturating_sub(rest.len());
        if n == 0 {
            return 0;
        }
        self.parts.put(room, &[Part::Lines(next)]);
        self.draft.keep(room, &bytes[..n]);
        n
    }

    /// Reads a spelling of a part of which nothing was taken yet. The part was taken from those that are still to come.
    fn spell_part(&mut self, room: &mut Room, p: Part, bytes: &[u8]) -> Spelled
        requires between { self.old.word ≡ [] }
        ensures before { room.new.is_whole ≡ true → room.old.is_whole ≡ true }
        ensures spelled { room.new.is_whole ≡ true → Spells result bytes.now (machine_with p self.old) (machine_of self.new) }
        ensures within { Within result bytes.now }
        ensures left { Leaves result self.new }
        ensures on { IsOn result }
    {
        let n = taken(p, bytes);
        if n == bytes.len() {
            self.parts.put(room, &[p]);
            extend(room, &mut self.word, bytes);
            return Spelled::Open;
        }
        let word = &bytes[..n];
        if !is_whole(p, word) {
            return Spelled::Stops(n);
        }
        self.parts.put_after(room, p, word);
        self.draft.note(room, p, word);
        Spelled::Whole(n)
    }

    /// Reads a spelling of which nothing was taken yet, or several lines.
    fn spell_new(&mut self, room: &mut Room, bytes: &[u8]) -> Spelled
        requires some { 0 < length bytes.now }
        requires between { self.old.word ≡ [] }
        ensures before { room.new.is_whole ≡ true → room.old.is_whole ≡ true }
        ensures spelled { room.new.is_whole ≡ true → Spells result bytes.now (machine_of self.old) (machine_of self.new) }
        ensures within { Within result bytes.now }
        ensures left { Leaves result self.new }
        ensures on { IsOn result }
    {
        let Some(p) = self.parts.pop() else {
            return Spelled::Stops(0);
        };
        let lines = self.spell_lines(room, p, bytes);
        if lines > 0 {
            return Spelled::Whole(lines);
        }
        self.spell_part(room, p, bytes)
    }

    /// Goes on reading a spelling of which some bytes were taken.
    fn spell_on(&mut self, room: &mut Room, bytes: &[u8]) -> Spelled
        requires some { 0 < length bytes.now }
        ensures before { room.new.is_whole ≡ true → room.old.is_whole ≡ true }
        ensures spelled { room.new.is_whole ≡ true → IsBegun (machine_of self.old) → Spells result bytes.now (machine_of self.old) (machine_of self.new) }
        ensures within { Within result bytes.now }
        ensures left { Leaves result self.new }
    {
        let Some(p) = self.parts.pop() else {
            return Spelled::Stops(0);
        };
        let before = self.word.len();
        extend(room, &mut self.word, bytes);
        let n = taken(p, self.word.as_slice());
        if n == self.word.len() {
            self.parts.put(room, &[p]);
            return Spelled::Open;
        }
        self.word.truncate(n);
        let more = n.saturating_sub(before);
        if !is_whole(p, self.word.as_slice()) {
            return Spelled::Stops(more);
        }
        self.parts.put_after(room, p, self.word.as_slice());
        self.draft.note(room, p, self.word.as_slice());
        self.word.clear();
        Spelled::Whole(more)
    }

    /// Reads a piece; answers after how many of its bytes the text stops, if it does.
    fn read_all(&mut self, room: &mut Room, piece: &[u8]) -> Option<usize>
        ensures before { room.new.is_whole ≡ true → room.old.is_whole ≡ true }
        ensures read { room.new.is_whole ≡ true → IsBegun (machine_of self.old) → IsRead result piece.now (machine_of self.old) (machine_of self.new) }
        ensures within { IfSome result (λ n. n ≤ length piece.now) }
    {
        let mut at = 0;
        while at < piece.len() {
            let spelled = if self.word.is_empty() {
                self.spell_new(room, &piece[at..])
            } else {
                self.spell_on(room, &piece[at..])
            };
            match spelled {
                Spelled::Whole(n) => at += n,
                Spelled::Open => return None,
                Spelled::Stops(n) => return Some(at + n),
            }
        }
        None
    }

    /// Reads a piece; answers after how many of its bytes the text stops, if it does.
    pub fn read(&mut self, alloc: Global, piece: &[u8]) -> Result<Option<usize>, NoMemory>
        ensures read { IfOk result (λ stop. IsBegun (machine_of self.old) → IsRead stop piece.now (machine_of self.old) (machine_of self.new)) }
        ensures within { IfOk result (λ stop. IfSome stop (λ n. n ≤ length piece.now)) }
    {
        let mut room = Room::new(alloc);
        let stop = self.read_all(&mut room, piece);
        room.done(stop)
    }

    /// The report, if the text may end here.
    pub fn finish(self) -> Option<Draft>
        ensures { IsBottomed self.parts → Closes result (ended (script grammar) (takes grammar) (machine_of self)) }
    {
        let Machine { parts, word, draft } = self;
        if may_end(parts.as_slice(), word.as_slice()) {
            Some(draft)
        } else {
            None
        }
    }
}
