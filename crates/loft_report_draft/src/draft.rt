//! What a report tells, as far as it was read.

ghost use Rattle.std.specs.Prelude.{◌≡◌, [], ◌∷◌, ◌++◌, true};
ghost use Rattle.loft_spelling.specs.Sets.{value_of};
ghost use Rattle.loft_report_shape.specs.Last.{on_last};
ghost use Rattle.loft_report_shape.specs.Sets.{set_of, number_set};
ghost use Rattle.loft_report_shape.specs.Told.{nothing_told, in_last_block, chosen, kept, keeps, enters, number_told, name_told, tells, note};
ghost use Rattle.loft_report_shape.specs.declared.part.Section.TheVariants.{Instant, Final};
ghost use Rattle.loft_report_shape.specs.declared.part.NameRole.TheVariants.{Block};
ghost use Rattle.loft_report_draft.specs.Drafts.{told_of, report_of};

use crate::text::{append, append_to_last, shrink_last};
use loft_base::{Limits, Room, RunOptions, Sequence};
use loft_report_sets::{value_of, word_of};
use loft_report_shape::{Choice, Choices, NameRole, NumberKind, Part, RawBlock, Section, Word};
use std::alloc::Global;

/// What was told so far (docs/REPORT.md, "The grammar").
#[derive(Drop)]
pub struct Draft {
    /// The options of the run.
    pub options: RunOptions,
    /// The choices of the history.
    pub choices: Choices,
    /// The blocks, of which the last one may go on.
    pub blocks: Sequence<RawBlock>,
    /// The lines of the left-over part, from `left L` on.
    pub left: Sequence<u8>,
    /// Where further bytes are kept.
    pub section: Section,
}

/// Appends bytes to the last instant of the block, if it has one.
fn append_to_instant(room: &mut Room, block: &mut RawBlock, bytes: &[u8])
    ensures before { room.new.is_whole ≡ true → room.old.is_whole ≡ true }
    ensures block { room.new.is_whole ≡ true → block.new ≡ record block.old { instants = on_last (λ lines. lines ++ bytes.now) block.old.instants } }
{
    append_to_last(room, &mut block.instants, bytes);
}

/// Gives back the memory that the last instant of the block doesn't use.
fn shrink_instant(alloc: Global, block: &mut RawBlock)
    ensures { block.new ≡ block.old }
{
    shrink_last(alloc, &mut block.instants);
}

/// Appends bytes to the final state of the block.
fn append_to_final(room: &mut Room, block: &mut RawBlock, bytes: &[u8])
    ensures before { room.new.is_whole ≡ true → room.old.is_whole ≡ true }
    ensures block { room.new.is_whole ≡ true → block.new ≡ record block.old { last = block.old.last ++ bytes.now } }
{
    append(room, &mut block.last, bytes);
}

impl Draft {
    /// Nothing was told yet.
    pub fn new(alloc: Global) -> Draft
        ensures { told_of result ≡ nothing_told }
    {
        Draft {
            options: RunOptions {
                limits: Limits {
                    instants: 0,
                    budget: 0,
                    block: 0,
                },
                workers: 0,
            },
            choices: Sequence::new(alloc),
            blocks: Sequence::new(alloc),
            left: Sequence::new(alloc),
            section: Section::Told,
        }
    }

    /// Keeps bytes in the last instant of the last block.
    fn keep_in_instant(&mut self, room: &mut Room, word: &[u8])
        ensures before { room.new.is_whole ≡ true → room.old.is_whole ≡ true }
        ensures report { room.new.is_whole ≡ true → report_of self.new ≡ kept Instant word.now (report_of self.old) }
        ensures section { self.new.section ≡ self.old.section }
    {
        let count = self.blocks.len();
        if count > 0 {
            append_to_instant(room, &mut self.blocks[count - 1], word);
        }
    }

    /// Keeps bytes in the final state of the last block.
    fn keep_in_final(&mut self, room: &mut Room, word: &[u8])
        ensures before { room.new.is_whole ≡ true → room.old.is_whole ≡ true }
        ensures report { room.new.is_whole ≡ true → report_of self.new ≡ kept Final word.now (report_of self.old) }
        ensures section { self.new.section ≡ self.old.section }
    {
        let count = self.blocks.len();
        if count > 0 {
            append_to_final(room, &mut self.blocks[count - 1], word);
        }
    }

    /// Gives back the memory that the last instant of the last block doesn't use.
    fn end_instant(&mut self, alloc: Global)
        ensures { told_of self.new ≡ told_of self.old }
    {
        let count = self.blocks.len();
        if count > 0 {
            shrink_instant(alloc, &mut self.blocks[count - 1]);
        }
    }

    /// Begins an instant of the last block.
    #[tactic(auto, using(crate::proofs::LastLemmas::none_on_last, crate::proofs::LastLemmas::on_last_end))]
    fn begin_instant(&mut self, room: &mut Room)
        ensures before { room.new.is_whole ≡ true → room.old.is_whole ≡ true }
        ensures report { room.new.is_whole ≡ true → report_of self.new ≡ in_last_block (λ b. record b { instants = b.instants ++ [] ∷ [] }) (report_of self.old) }
    {
        match self.blocks.pop() {
            None => {}
            Some(mut block) => {
                room.push(&mut block.instants, Sequence::new(room.alloc));
                room.push(&mut self.blocks, block);
            }
        }
    }

    /// Keeps bytes where the section says.
    pub fn keep(&mut self, room: &mut Room, word: &[u8])
        ensures before { room.new.is_whole ≡ true → room.old.is_whole ≡ true }
        ensures told { room.new.is_whole ≡ true → told_of self.new ≡ keeps word.now (told_of self.old) }
    {
        match self.section {
            Section::Told => {}
            Section::Instant => self.keep_in_instant(room, word),
            Section::Final => self.keep_in_final(room, word),
            Section::Left => append(room, &mut self.left, word),
        }
    }

    /// Notes the word with which a line begins.
    fn enter(&mut self, room: &mut Room, word: Option<Word>)
        ensures before { room.new.is_whole ≡ true → room.old.is_whole ≡ true }
        ensures told { room.new.is_whole ≡ true → told_of self.new ≡ enters word (told_of self.old) }
    {
        match word {
            Some(Word::Scheduler) => self.section = Section::Told,
            Some(Word::Instant) => {
                self.end_instant(room.alloc);
                self.begin_instant(room);
                self.section = Section::Instant;
            }
            Some(Word::State) => {
                self.end_instant(room.alloc);
                self.section = Section::Final;
            }
            Some(Word::Left) => self.section = Section::Left,
            _ => {}
        }
    }

    fn choose(&mut self, room: &mut Room, choice: Choice)
        ensures before { room.new.is_whole ≡ true → room.old.is_whole ≡ true }
        ensures told { room.new.is_whole ≡ true → told_of self.new ≡ record (told_of self.old) { report = chosen choice (report_of self.old) } }
    {
        room.push(&mut self.choices, choice);
    }

    /// Notes what a number tells.
    #[tactic(auto, using(loft_report_sets::proofs::Digits::number_small))]
    fn number(&mut self, room: &mut Room, kind: NumberKind, word: &[u8])
        requires { (number_set kind).whole word.now ≡ true }
        ensures before { room.new.is_whole ≡ true → room.old.is_whole ≡ true }
        ensures told { room.new.is_whole ≡ true → told_of self.new ≡ tells (number_told kind (value_of word.now) (report_of self.old)) (told_of self.old) }
    {
        match kind {
            NumberKind::Instants => self.options.limits.instants = value_of(word),
            NumberKind::Budget => self.options.limits.budget = value_of(word),
            NumberKind::Block => self.options.limits.block = value_of(word),
            NumberKind::Workers => self.options.workers = value_of(word) as u32,
            NumberKind::Pick => self.choose(room, Choice::Pick(value_of(word) as u32)),
            NumberKind::Post => self.choose(room, Choice::Post(value_of(word) as u32)),
            _ => {}
        }
    }

    fn begin_block(&mut self, room: &mut Room, name: &[u8])
        ensures before { room.new.is_whole ≡ true → room.old.is_whole ≡ true }
        ensures told { room.new.is_whole ≡ true → told_of self.new ≡ tells (name_told Block name.now (report_of self.old)) (told_of self.old) }
    {
        let block = RawBlock {
            name: room.slice(name),
            instants: Sequence::new(room.alloc),
            last: Sequence::new(room.alloc),
        };
        room.push(&mut self.blocks, block);
    }

    /// Notes what a name tells.
    fn name(&mut self, room: &mut Room, role: NameRole, word: &[u8])
        ensures before { room.new.is_whole ≡ true → room.old.is_whole ≡ true }
        ensures told { room.new.is_whole ≡ true → told_of self.new ≡ tells (name_told role word.now (report_of self.old)) (told_of self.old) }
    {
        match role {
            NameRole::Take => {
                let choice = Choice::Take(room.slice(word));
                self.choose(room, choice);
            }
            NameRole::Give => {
                let choice = Choice::Give(room.slice(word));
                self.choose(room, choice);
            }
            NameRole::Client => {
                let choice = Choice::Client(room.slice(word));
                self.choose(room, choice);
            }
            NameRole::Block => self.begin_block(room, word),
            NameRole::Other => {}
        }
    }

    /// Notes what a spelling of a part tells.
    pub fn note(&mut self, room: &mut Room, p: Part, word: &[u8])
        requires { (set_of p).whole word.now ≡ true }
        ensures before { room.new.is_whole ≡ true → room.old.is_whole ≡ true }
        ensures told { room.new.is_whole ≡ true → told_of self.new ≡ note p word.now (told_of self.old) }
    {
        match p {
            Part::Number(kind) => self.number(room, kind, word),
            Part::Name(role) => self.name(room, role, word),
            Part::Choices(_) | Part::Lines(_) | Part::States(_) => {
                self.enter(room, word_of(word));
            }
            Part::Left(0) | Part::Close => return,
            _ => {}
        }
        self.keep(room, word);
    }
}
