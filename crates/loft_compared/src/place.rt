//! Places in the text of a report: what is still to come of it, piece by piece.

ghost use Rattle.std.specs.Prelude.{◌≡◌, ◌≢◌, [], ◌++◌, IfSome, IsNone};
ghost use Rattle.loft_report_shape.specs.Text.{text_of};
ghost use Rattle.loft_report_reader.specs.Answer.{report_in};
ghost use Rattle.loft_compared.specs.Places.{text_at, piece_text, joined, BeginsFilled, IsPastHead, IsPastBlocks};

use loft_base::{RunOptions, Sequence};
use loft_report_reader::RawReport;
use loft_report_shape::{Choice, RawBlock};
use loft_tree::Name;

/// The options of a report, and how many choices it has.
#[derive(Clone, Copy)]
pub(crate) struct Head {
    pub options: RunOptions,
    pub choices: u64,
}

/// A piece of a text.
#[derive(Clone, Copy)]
pub(crate) enum Piece<'a> {
    /// The lines of the options, and that of how many choices there are.
    Options(Head),
    /// The line of a choice.
    Choice(&'a Choice),
    /// The line with which the block of a scheduler of this name begins.
    Block(&'a Name),
    /// Bytes as they stand in the report.
    Kept(&'a [u8]),
}

/// What is still to come of a text, in this order.
#[derive(Clone, Copy)]
pub(crate) struct Place<'a> {
    /// The options.
    pub head: Option<Head>,
    /// Choices.
    pub choices: &'a [Choice],
    /// Instants of the block that has begun.
    pub instants: &'a [Sequence<u8>],
    /// Its final state.
    pub last: &'a [u8],
    /// Further blocks.
    pub blocks: &'a [RawBlock],
    /// The left-over part.
    pub left: &'a [u8],
    /// The last line.
    pub end: &'a [u8],
}

/// The list from its first text on that isn't empty.
fn from_first_filled(texts: &[Sequence<u8>]) -> &[Sequence<u8>]
    ensures same { joined result.now ≡ joined texts.now }
    ensures filled { BeginsFilled result.now }
{
    match texts {
        [text, rest @ ..] if text.is_empty() => from_first_filled(rest),
        _ => texts,
    }
}

impl<'a> Place<'a> {
    /// The beginning of a report.
    pub fn of_report(r: &'a RawReport) -> Place<'a>
        ensures { text_at result ≡ text_of (report_in r.now) }
    {
        Place {
            head: Some(Head {
                options: r.options,
                choices: r.choices.len() as u64,
            }),
            choices: r.choices.as_slice(),
            instants: &[],
            last: &[],
            blocks: r.blocks.as_slice(),
            left: r.left.as_slice(),
            end: b"end\n",
        }
    }

    /// The options, or the first of the choices; none if neither is still to come.
    fn next_of_head(&mut self) -> Option<Piece<'a>>
        ensures split { IfSome result (λ piece. text_at self.old ≡ piece_text piece ++ text_at self.new) }
        ensures some { IfSome result (λ piece. piece_text piece ≢ []) }
        ensures none { IsNone result → (self.new ≡ self.old) × IsPastHead self.old }
    {
        if let Some(head) = self.head {
            self.head = None;
            return Some(Piece::Options(head));
        }
        let [choice, rest @ ..] = self.choices else {
            return None;
        };
        self.choices = rest;
        Some(Piece::Choice(choice))
    }

    /// An instant of the block that has begun, or its final state; else the line of the next block; none if none of them
    /// is still to come.
    fn next_of_blocks(&mut self) -> Option<Piece<'a>>
        requires { IsPastHead self.old }
        ensures split { IfSome result (λ piece. text_at self.old ≡ piece_text piece ++ text_at self.new) }
        ensures some { IfSome result (λ piece. piece_text piece ≢ []) }
        ensures none { IsNone result → (text_at self.new ≡ text_at self.old) × IsPastBlocks self.new }
    {
        self.instants = from_first_filled(self.instants);
        if let [instant, rest @ ..] = self.instants {
            self.instants = rest;
            return Some(Piece::Kept(instant.as_slice()));
        }
        if !self.last.is_empty() {
            let last = self.last;
            self.last = &[];
            return Some(Piece::Kept(last));
        }
        let [block, rest @ ..] = self.blocks else {
            return None;
        };
        self.instants = block.instants.as_slice();
        self.last = block.last.as_slice();
        self.blocks = rest;
        Some(Piece::Block(&block.name))
    }

    /// The left-over part, or the last line, or nothing.
    fn next_of_end(&mut self) -> Piece<'a>
        requires { IsPastBlocks self.old }
        ensures split { text_at self.old ≡ piece_text result ++ text_at self.new }
        ensures some { piece_text result ≡ [] → text_at self.old ≡ [] }
    {
        if self.left.is_empty() {
            let end = self.end;
            self.end = &[];
            return Piece::Kept(end);
        }
        let left = self.left;
        self.left = &[];
        Piece::Kept(left)
    }

    /// Goes over the next piece, which is empty only where nothing is still to come.
    pub fn next(&mut self) -> Piece<'a>
        ensures split { text_at self.old ≡ piece_text result ++ text_at self.new }
        ensures some { piece_text result ≡ [] → text_at self.old ≡ [] }
    {
        if let Some(piece) = self.next_of_head() {
            return piece;
        }
        if let Some(piece) = self.next_of_blocks() {
            return piece;
        }
        self.next_of_end()
    }
}
