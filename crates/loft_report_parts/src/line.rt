//! What comes after the word with which a line begins.

ghost use Rattle.std.specs.Prelude.{◌≡◌, ◌++◌, true};
ghost use Rattle.loft_report_shape.specs.Grammar.{shared, after_blocks, after_final, after_choice, after_end, after_line};

use crate::parts::{BLANK, FEED, NAME, PartStack};
use loft_base::Room;
use loft_report_shape::{NameRole, NumberKind, Part, Stage, Word};

/// The stage after an `end` line.
fn after_end(stage: Stage) -> Stage
    ensures { result ≡ after_end stage }
{
    match stage {
        Stage::Ordered => Stage::Batch,
        _ => Stage::Acts,
    }
}

impl PartStack {
    /// Puts a name and a value, to the line's end.
    fn put_shared(&mut self, room: &mut Room)
        ensures before { room.new.is_whole ≡ true → room.old.is_whole ≡ true }
        ensures parts { room.new.is_whole ≡ true → self.new ≡ shared ++ self.old }
    {
        self.put(room, &[BLANK, NAME, BLANK, Part::Value, FEED]);
    }

    /// Puts what comes after the word of a block, or of the left-over part.
    pub fn put_after_blocks(&mut self, room: &mut Room, word: Option<Word>)
        ensures before { room.new.is_whole ≡ true → room.old.is_whole ≡ true }
        ensures parts { room.new.is_whole ≡ true → self.new ≡ after_blocks word ++ self.old }
    {
        match word {
            Some(Word::Scheduler) => self.put(
                room,
                &[
                    BLANK,
                    Part::Name(NameRole::Block),
                    FEED,
                    Part::Lines(Stage::Fresh),
                ],
            ),
            Some(Word::Left) => self.put(room, &[BLANK, Part::Number(NumberKind::Left)]),
            _ => {}
        }
    }

    /// Puts what comes after the word of a line of a final state, once its threads are there.
    pub fn put_after_final(&mut self, room: &mut Room, word: Option<Word>)
        ensures before { room.new.is_whole ≡ true → room.old.is_whole ≡ true }
        ensures parts { room.new.is_whole ≡ true → self.new ≡ after_final word ++ self.old }
    {
        match word {
            Some(Word::Shared) => {
                self.put(room, &[Part::States(0)]);
                self.put_shared(room);
            }
            _ => self.put_after_blocks(room, word),
        }
    }

    /// Puts what comes after the word of a choice, where so many follow it.
    pub fn put_after_choice(&mut self, room: &mut Room, word: Option<Word>, left: u64)
        ensures before { room.new.is_whole ≡ true → room.old.is_whole ≡ true }
        ensures parts { room.new.is_whole ≡ true → self.new ≡ after_choice word left ++ self.old }
    {
        let what = match word {
            Some(Word::Take) => Part::Name(NameRole::Take),
            Some(Word::Give) => Part::Name(NameRole::Give),
            Some(Word::Client) => Part::Name(NameRole::Client),
            Some(Word::Pick) => Part::Number(NumberKind::Pick),
            Some(Word::Post) => Part::Number(NumberKind::Post),
            _ => return,
        };
        self.put(room, &[BLANK, what, FEED, Part::Choices(left)]);
    }

    /// Puts what comes after the word of a line of a block.
    pub fn put_after_line(&mut self, room: &mut Room, stage: Stage, word: Option<Word>)
        ensures before { room.new.is_whole ≡ true → room.old.is_whole ≡ true }
        ensures parts { room.new.is_whole ≡ true → self.new ≡ after_line stage word ++ self.old }
    {
        match word {
            Some(Word::In | Word::Void | Word::Full) => {
                self.put(room, &[BLANK, Part::Order, Part::Lines(Stage::Ordered)]);
            }
            Some(Word::Print) => {
                self.put(room, &[BLANK, Part::Text, Part::Lines(Stage::Acts)]);
                self.put_blank_id(room);
            }
            Some(Word::Gen) => {
                self.put(room, &[BLANK, NAME, Part::Sent, Part::Lines(Stage::Acts)]);
                self.put_blank_id(room);
            }
            Some(Word::Out) => {
                self.put(
                    room,
                    &[BLANK, NAME, BLANK, Part::Order, Part::Lines(Stage::Acts)],
                );
                self.put_blank_id(room);
            }
            Some(Word::End) => {
                self.put(room, &[BLANK, Part::Reason, Part::Lines(after_end(stage))]);
                self.put_blank_id(room);
            }
            Some(Word::Leave) => {
                self.put(
                    room,
                    &[BLANK, Part::Goal, FEED, Part::Lines(Stage::Leaving)],
                );
                self.put_blank_id(room);
            }
            Some(Word::At) => {
                self.put(room, &[Part::Lines(Stage::Standing)]);
                self.put_thread(room);
            }
            Some(Word::Shared) => {
                self.put(room, &[Part::Lines(Stage::Changed)]);
                self.put_shared(room);
            }
            Some(Word::Instant) => self.put(
                room,
                &[
                    BLANK,
                    Part::Number(NumberKind::Count),
                    FEED,
                    Part::Lines(Stage::Batch),
                ],
            ),
            Some(Word::State) => self.put(room, &[BLANK, Part::Number(NumberKind::States)]),
            _ => {}
        }
    }
}
