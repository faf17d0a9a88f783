//! The parts that are still to come.

ghost use Rattle.std.specs.Prelude.{◌≡◌, [], ◌∷◌, ◌++◌, true, reverse, MatchOption};
ghost use Rattle.loft_report_shape.specs.Grammar.{blank, start, frames, thread, blank_id, stop};

use loft_base::Room;
use loft_report_shape::{NameRole, NumberKind, Part, Word};
use std::alloc::Global;
use std::marker::Model;

/// A blank.
pub const BLANK: Part = Part::Sign(b' ');

/// The line's end.
pub const FEED: Part = Part::Sign(b'\n');

/// A name in a line that is kept as it stands.
pub const NAME: Part = Part::Name(NameRole::Other);

/// The parts that are still to come. Contracts see the list of them, the next one first.
#[derive(Drop)]
pub struct PartStack {
    last_first: Vec<Part>,
}

impl Model for PartStack {
    ghost use Rattle.std.specs.Prelude.{List, reverse};
    ghost use Rattle.loft_report_shape.specs.declared.part.Part.{Part};

    ghost Value = { List Part };

    ghost view = { λ parts. reverse parts.last_first.items };
}

impl PartStack {
    /// No parts.
    pub fn new(alloc: Global) -> PartStack
        ensures { result ≡ [] }
    {
        PartStack {
            last_first: Vec::new(alloc),
        }
    }

    /// The parts, the next one last.
    pub fn as_slice(&self) -> &[Part]
        ensures { self.now ≡ reverse result.now }
    {
        self.last_first.as_slice()
    }

    /// Takes the next part, if there is one.
    #[tactic(auto, using(crate::proofs::Stack::pushed))]
    pub fn pop(&mut self) -> Option<Part>
        ensures { MatchOption result (self.old ≡ []) (λ p. self.old ≡ p ∷ self.new) }
    {
        self.last_first.pop()
    }

    #[tactic(auto, using(crate::proofs::Stack::pushed))]
    fn push(&mut self, room: &mut Room, p: Part)
        ensures before { room.new.is_whole ≡ true → room.old.is_whole ≡ true }
        ensures parts { room.new.is_whole ≡ true → self.new ≡ p ∷ self.old }
    {
        room.push_to(&mut self.last_first, p);
    }

    /// Puts parts before the others.
    pub fn put(&mut self, room: &mut Room, more: &[Part])
        ensures before { room.new.is_whole ≡ true → room.old.is_whole ≡ true }
        ensures parts { room.new.is_whole ≡ true → self.new ≡ more.now ++ self.old }
    {
        let mut n = more.len();
        while n > 0 {
            n -= 1;
            self.push(room, more[n]);
        }
    }

    /// Puts the parts of a whole report.
    pub fn put_start(&mut self, room: &mut Room)
        ensures before { room.new.is_whole ≡ true → room.old.is_whole ≡ true }
        ensures parts { room.new.is_whole ≡ true → self.new ≡ start ++ self.old }
    {
        self.put(
            room,
            &[
                Part::Fixed(Word::Report),
                FEED,
                Part::Fixed(Word::Instants),
                BLANK,
                Part::Number(NumberKind::Instants),
                FEED,
                Part::Fixed(Word::Budget),
                BLANK,
                Part::Number(NumberKind::Budget),
                FEED,
                Part::Fixed(Word::Block),
                BLANK,
                Part::Number(NumberKind::Block),
                FEED,
                Part::Fixed(Word::Workers),
                BLANK,
                Part::Number(NumberKind::Workers),
                FEED,
                Part::Fixed(Word::History),
                BLANK,
                Part::Number(NumberKind::History),
            ],
        );
    }

    /// A blank and an id.
    pub fn put_blank_id(&mut self, room: &mut Room)
        ensures before { room.new.is_whole ≡ true → room.old.is_whole ≡ true }
        ensures parts { room.new.is_whole ≡ true → self.new ≡ blank_id ++ self.old }
    {
        self.put(
            room,
            &[
                BLANK,
                Part::Maker,
                Part::Sign(b'.'),
                Part::Number(NumberKind::Count),
            ],
        );
    }

    /// A module and its stop.
    pub fn put_stop(&mut self, room: &mut Room)
        ensures before { room.new.is_whole ≡ true → room.old.is_whole ≡ true }
        ensures parts { room.new.is_whole ≡ true → self.new ≡ stop ++ self.old }
    {
        self.put(
            room,
            &[NAME, Part::Sign(b':'), Part::Number(NumberKind::Stop)],
        );
    }

    /// Frames, to the line's end.
    pub fn put_frames(&mut self, room: &mut Room)
        ensures before { room.new.is_whole ≡ true → room.old.is_whole ≡ true }
        ensures parts { room.new.is_whole ≡ true → self.new ≡ frames ++ self.old }
    {
        self.put(
            room,
            &[
                NAME,
                Part::Sign(b':'),
                Part::Number(NumberKind::Stop),
                Part::Sign(b'['),
                Part::FirstCount,
                Part::Sign(b'('),
                Part::FirstValue,
                Part::MoreFrames,
            ],
        );
    }

    /// A blank and a thread, to the line's end.
    pub fn put_thread(&mut self, room: &mut Room)
        ensures before { room.new.is_whole ≡ true → room.old.is_whole ≡ true }
        ensures parts { room.new.is_whole ≡ true → self.new ≡ blank ∷ thread ++ self.old }
    {
        self.put_frames(room);
        self.put(
            room,
            &[
                BLANK,
                Part::Maker,
                Part::Sign(b'.'),
                Part::Number(NumberKind::Count),
                BLANK,
                Part::Number(NumberKind::Any),
                BLANK,
                Part::Number(NumberKind::Any),
                BLANK,
                Part::Wait,
            ],
        );
    }
}
