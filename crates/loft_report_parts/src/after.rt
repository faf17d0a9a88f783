//! What comes after a spelling of each part.

ghost use Rattle.std.specs.Prelude.{◌≡◌, ◌-◌, ◌==◌, ◌++◌, true};
ghost use Rattle.loft_report_shape.specs.Sets.{set_of};
ghost use Rattle.loft_report_shape.specs.Grammar.{after};
ghost use Rattle.loft_report_shape.specs.declared.part.Part.TheVariants.{Choices, States, Left};

use crate::parts::{BLANK, PartStack};
use loft_base::Room;
use loft_report_sets::word_of;
use loft_report_shape::Part;

impl PartStack {
    fn put_after_choices(&mut self, room: &mut Room, left: u64, word: &[u8])
        ensures before { room.new.is_whole ≡ true → room.old.is_whole ≡ true }
        ensures parts { room.new.is_whole ≡ true → self.new ≡ after (Choices left) word.now ++ self.old }
    {
        if left == 0 {
            self.put_after_blocks(room, word_of(word));
        } else {
            self.put_after_choice(room, word_of(word), left - 1);
        }
    }

    fn put_after_state(&mut self, room: &mut Room, left: u64, word: &[u8])
        ensures before { room.new.is_whole ≡ true → room.old.is_whole ≡ true }
        ensures parts { room.new.is_whole ≡ true → self.new ≡ after (States left) word.now ++ self.old }
    {
        if left == 0 {
            self.put_after_final(room, word_of(word));
        } else {
            self.put(room, &[Part::States(left - 1)]);
            self.put_thread(room);
        }
    }

    fn put_after_left(&mut self, room: &mut Room, left: u64, word: &[u8])
        ensures before { room.new.is_whole ≡ true → room.old.is_whole ≡ true }
        ensures parts { room.new.is_whole ≡ true → self.new ≡ after (Left left) word.now ++ self.old }
    {
        if left == 0 {
            self.put(room, &[Part::Close]);
        } else {
            self.put(room, &[BLANK, Part::Order, Part::Left(left - 1)]);
        }
    }

    /// Puts the parts that come after a spelling of a part before the others (docs/REPORT.md, "The grammar").
    pub fn put_after(&mut self, room: &mut Room, p: Part, word: &[u8])
        requires { (set_of p).whole word.now ≡ true }
        ensures before { room.new.is_whole ≡ true → room.old.is_whole ≡ true }
        ensures parts { room.new.is_whole ≡ true → self.new ≡ after p word.now ++ self.old }
    {
        match p {
            Part::Number(kind) => self.put_after_number(room, kind, word),
            Part::Value => self.put_after_value(room, word),
            Part::FirstValue => self.put_after_first_value(room, word),
            Part::MoreValues => self.put_more_values(room, word),
            Part::FirstCount => self.put_after_first_count(room, word),
            Part::MoreCounts => self.put_more_counts(room, word),
            Part::MoreEvents => self.put_more_events(room, word),
            Part::Sent => self.put_sent(room, word),
            Part::MoreFrames => self.put_more_frames(room, word),
            Part::Order => self.put_after_order(room, word_of(word)),
            Part::Wait => self.put_after_wait(room, word_of(word)),
            Part::Reason => self.put_after_reason(room, word_of(word)),
            Part::Choices(left) => self.put_after_choices(room, left, word),
            Part::Lines(stage) => self.put_after_line(room, stage, word_of(word)),
            Part::States(left) => self.put_after_state(room, left, word),
            Part::Left(left) => self.put_after_left(room, left, word),
            _ => {}
        }
    }
}
