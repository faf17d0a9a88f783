//! What comes after the word of an order, a wait or a reason.

ghost use Rattle.std.specs.Prelude.{◌≡◌, ◌++◌, true};
ghost use Rattle.loft_report_shape.specs.Grammar.{after_order, after_wait, after_reason};

use crate::parts::{BLANK, FEED, NAME, PartStack};
use loft_base::Room;
use loft_report_shape::{NumberKind, Part, Word};

const COLON: Part = Part::Sign(b':');

impl PartStack {
    /// Puts what comes after the word of an order.
    pub fn put_after_order(&mut self, room: &mut Room, word: Option<Word>)
        ensures before { room.new.is_whole ≡ true → room.old.is_whole ≡ true }
        ensures parts { room.new.is_whole ≡ true → self.new ≡ after_order word ++ self.old }
    {
        match word {
            Some(Word::Create) => {
                self.put(
                    room,
                    &[BLANK, NAME, Part::Sign(b'('), Part::FirstValue, FEED],
                );
                self.put_blank_id(room);
            }
            Some(Word::Arrive) => self.put_thread(room),
            Some(Word::Stop | Word::Suspend | Word::Resume) => {
                self.put(room, &[FEED]);
                self.put_blank_id(room);
            }
            Some(Word::Broadcast) => self.put(room, &[BLANK, NAME, Part::Sent]),
            Some(Word::Ended) => {
                self.put(room, &[BLANK, Part::Reason]);
                self.put_blank_id(room);
            }
            _ => {}
        }
    }

    /// Puts what comes after the word of a wait.
    pub fn put_after_wait(&mut self, room: &mut Room, word: Option<Word>)
        ensures before { room.new.is_whole ≡ true → room.old.is_whole ≡ true }
        ensures parts { room.new.is_whole ≡ true → self.new ≡ after_wait word ++ self.old }
    {
        match word {
            Some(Word::New | Word::Next | Word::Halt) => self.put(room, &[BLANK]),
            Some(Word::Coop) => self.put(room, &[COLON, Part::Limit, BLANK]),
            Some(Word::Await) => self.put(room, &[COLON, Part::Limit, COLON, NAME, BLANK]),
            Some(Word::Select) => self.put(
                room,
                &[
                    COLON,
                    Part::Limit,
                    COLON,
                    NAME,
                    Part::Sign(b','),
                    NAME,
                    Part::MoreEvents,
                ],
            ),
            Some(Word::Join) => self.put(
                room,
                &[
                    COLON,
                    Part::Limit,
                    COLON,
                    Part::Maker,
                    Part::Sign(b'.'),
                    Part::Number(NumberKind::Count),
                    BLANK,
                ],
            ),
            _ => {}
        }
    }

    /// Puts what comes after the word of a reason.
    pub fn put_after_reason(&mut self, room: &mut Room, word: Option<Word>)
        ensures before { room.new.is_whole ≡ true → room.old.is_whole ≡ true }
        ensures parts { room.new.is_whole ≡ true → self.new ≡ after_reason word ++ self.old }
    {
        match word {
            Some(Word::Done | Word::Stopped | Word::Full) => self.put(room, &[FEED]),
            Some(Word::Div | Word::Deep | Word::Over | Word::Flood) => {
                self.put(room, &[FEED]);
                self.put_stop(room);
                self.put(room, &[BLANK]);
            }
            _ => {}
        }
    }
}
