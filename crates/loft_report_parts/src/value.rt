//! What comes after numbers, values and signs.

ghost use Rattle.std.specs.Prelude.{◌≡◌, ◌++◌, true};
ghost use Rattle.loft_spelling.specs.Sets.{is_digit};
ghost use Rattle.loft_report_shape.specs.Sets.{number_set};
ghost use Rattle.loft_report_shape.specs.Grammar.{head_is, begins_number, after_number, after_value, after};
ghost use Rattle.loft_report_shape.specs.declared.part.Part.TheVariants.{FirstValue, MoreValues, FirstCount, MoreCounts, MoreEvents, Sent, MoreFrames};

use crate::parts::{FEED, NAME, PartStack};
use loft_base::Room;
use loft_report_sets::value_of;
use loft_report_shape::{NumberKind, Part};

/// The first byte is this one.
fn head_is(c: u8, bytes: &[u8]) -> bool
    ensures { result ≡ head_is c bytes.now }
{
    match bytes {
        [] => false,
        [b, ..] => *b == c,
    }
}

fn is_digit(b: u8) -> bool
    ensures { result ≡ is_digit b }
{
    b >= b'0' && b <= b'9'
}

fn begins_number(bytes: &[u8]) -> bool
    ensures { result ≡ begins_number bytes.now }
{
    match bytes {
        [] => false,
        [b, ..] => is_digit(*b) || *b == b'-',
    }
}

impl PartStack {
    /// Puts what comes after a number of this kind.
    #[tactic(auto, using(loft_report_sets::proofs::Digits::number_small))]
    pub fn put_after_number(&mut self, room: &mut Room, kind: NumberKind, word: &[u8])
        requires { (number_set kind).whole word.now ≡ true }
        ensures before { room.new.is_whole ≡ true → room.old.is_whole ≡ true }
        ensures parts { room.new.is_whole ≡ true → self.new ≡ after_number kind word.now ++ self.old }
    {
        match kind {
            NumberKind::History => self.put(room, &[FEED, Part::Choices(value_of(word))]),
            NumberKind::States => self.put(room, &[FEED, Part::States(value_of(word))]),
            NumberKind::Left => self.put(room, &[FEED, Part::Left(value_of(word))]),
            _ => {}
        }
    }

    /// Puts what comes after a value.
    pub fn put_after_value(&mut self, room: &mut Room, word: &[u8])
        ensures before { room.new.is_whole ≡ true → room.old.is_whole ≡ true }
        ensures parts { room.new.is_whole ≡ true → self.new ≡ after_value word.now ++ self.old }
    {
        if !begins_number(word) {
            self.put(room, &[Part::Sign(b'.'), Part::Number(NumberKind::Count)]);
        }
    }

    /// Puts what comes after the first of several values, or after the bracket in its place.
    pub fn put_after_first_value(&mut self, room: &mut Room, word: &[u8])
        ensures before { room.new.is_whole ≡ true → room.old.is_whole ≡ true }
        ensures parts { room.new.is_whole ≡ true → self.new ≡ after FirstValue word.now ++ self.old }
    {
        if !head_is(b')', word) {
            self.put(room, &[Part::MoreValues]);
            self.put_after_value(room, word);
        }
    }

    /// Puts what comes after the comma or the bracket that comes after a value.
    pub fn put_more_values(&mut self, room: &mut Room, word: &[u8])
        ensures before { room.new.is_whole ≡ true → room.old.is_whole ≡ true }
        ensures parts { room.new.is_whole ≡ true → self.new ≡ after MoreValues word.now ++ self.old }
    {
        if head_is(b',', word) {
            self.put(room, &[Part::Value, Part::MoreValues]);
        }
    }

    /// Puts what comes after the first of several counts, or after the bracket in its place.
    pub fn put_after_first_count(&mut self, room: &mut Room, word: &[u8])
        ensures before { room.new.is_whole ≡ true → room.old.is_whole ≡ true }
        ensures parts { room.new.is_whole ≡ true → self.new ≡ after FirstCount word.now ++ self.old }
    {
        if !head_is(b']', word) {
            self.put(room, &[Part::MoreCounts]);
        }
    }

    /// Puts what comes after the comma or the bracket that comes after a count.
    pub fn put_more_counts(&mut self, room: &mut Room, word: &[u8])
        ensures before { room.new.is_whole ≡ true → room.old.is_whole ≡ true }
        ensures parts { room.new.is_whole ≡ true → self.new ≡ after MoreCounts word.now ++ self.old }
    {
        if head_is(b',', word) {
            self.put(room, &[Part::Number(NumberKind::Count), Part::MoreCounts]);
        }
    }

    /// Puts what comes after the comma or the blank that comes after an event.
    pub fn put_more_events(&mut self, room: &mut Room, word: &[u8])
        ensures before { room.new.is_whole ≡ true → room.old.is_whole ≡ true }
        ensures parts { room.new.is_whole ≡ true → self.new ≡ after MoreEvents word.now ++ self.old }
    {
        if head_is(b',', word) {
            self.put(room, &[NAME, Part::MoreEvents]);
        }
    }

    /// Puts what comes after the blank or the line feed that comes after an event that is sent.
    pub fn put_sent(&mut self, room: &mut Room, word: &[u8])
        ensures before { room.new.is_whole ≡ true → room.old.is_whole ≡ true }
        ensures parts { room.new.is_whole ≡ true → self.new ≡ after Sent word.now ++ self.old }
    {
        if head_is(b' ', word) {
            self.put(room, &[Part::Value, FEED]);
        }
    }

    /// Puts what comes after the blank or the line feed that comes after a frame.
    pub fn put_more_frames(&mut self, room: &mut Room, word: &[u8])
        ensures before { room.new.is_whole ≡ true → room.old.is_whole ≡ true }
        ensures parts { room.new.is_whole ≡ true → self.new ≡ after MoreFrames word.now ++ self.old }
    {
        if head_is(b' ', word) {
            self.put_frames(room);
        }
    }
}
