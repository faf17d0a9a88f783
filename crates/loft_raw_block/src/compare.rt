//! A block that is compared with a text.

ghost use Rattle.std.specs.Prelude.{◌++◌, ℕ, List};
ghost use Rattle.std.specs.List.{flat_map};
ghost use Rattle.loft_report_shape.specs.Text.{block_text};
ghost use Rattle.loft_replay_error.specs.Difference.{IsDifference};
ghost use Rattle.loft_raw_block.specs.Compared.{SameFront, Matches};

use loft_report_shape::RawBlock;

/// How far a text that comes in pieces is another one, of which this is left.
#[derive(Drop)]
struct Match<'a> {
    /// What comes after the bytes that are the same.
    left: &'a [u8],
    /// Whether all pieces so far are the same.
    is_same: bool,
}

/// How many bytes at the front are the same.
fn same_front(one: &[u8], other: &[u8]) -> usize
    ensures { SameFront one.now other.now result }
{
    let mut count = 0;
    'bytes: while count < one.len() && count < other.len() {
        if one[count] != other[count] {
            return count;
        }
        count += 1;
    }
    count
}

impl Match<'_> {
    /// Compares a further piece.
    fn piece(&mut self, piece: &[u8])
        ensures { (text front : List ℕ) → Matches text self.old.left.now self.old.is_same front
            → Matches text self.new.left.now self.new.is_same (front ++ piece.now) }
    {
        if self.is_same {
            let count = same_front(piece, self.left);
            self.is_same = count == piece.len();
            self.left = &self.left[count..];
        }
    }
}

/// Compares the instants of a block.
fn match_instants(matched: &mut Match<'_>, block: &RawBlock)
    ensures { (text front : List ℕ) → Matches text matched.old.left.now matched.old.is_same front
        → Matches text matched.new.left.now matched.new.is_same (front ++ flat_map (λ instant. instant) block.now.instants) }
{
    for instant in block.instants.as_slice() {
        matched.piece(instant.as_slice());
    }
}

/// After how many bytes the block and the text differ, if they do.
pub fn first_difference(block: &RawBlock, text: &[u8]) -> Option<u64>
    ensures { IsDifference (block_text block.now) text.now result }
{
    let mut matched = Match {
        left: text,
        is_same: true,
    };
    matched.piece(b"scheduler ");
    matched.piece(block.name.as_slice());
    matched.piece(b"\n");
    match_instants(&mut matched, block);
    matched.piece(block.last.as_slice());
    if matched.is_same && matched.left.is_empty() {
        None
    } else {
        Some((text.len() - matched.left.len()) as u64)
    }
}
