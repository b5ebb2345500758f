//! The bytes that the records of a block, or of several with a separator behind each, are read
//! from. They are lent and not copied together.
ghost use Rattle.std.specs.Prelude.{◌≡◌, ◌++◌, ◌∷◌, [], drop, Some, IfOk, OnOk};
ghost use Rattle.std.specs.Io.{ReadsAtMost};
ghost use Rattle.std.specs.Io.KnownBytes.{ReadConsumes};
ghost use Rattle.std.specs.List.{flat_map};
ghost use Rattle.tl_csv.specs.LentBlocks.{plain_of};
ghost use Rattle.tl_csv.specs.Separators.{separated_text};

use crate::lent_blocks::LentBlock;
use std::alloc::Global;
use std::io;
use std::io::Read;
use std::marker::Model;
use tl_types::NoMemory;

// A line of four quotes, whose record has one field, and that is one quote.
const SEPARATOR: &[u8] = b"\"\"\"\"\n";

/// The bytes of a block, or of several, each with a separator behind it, which are lent.
#[derive(Drop)]
pub struct BlockBytes<'a> {
    front: &'a [u8],
    pieces: Vec<&'a [u8]>,
    next: usize,
}

impl<'a> Model for BlockBytes<'a> {
    ghost use Rattle.std.specs.Prelude.{ℕ, List, ◌++◌, drop};
    ghost use Rattle.std.specs.List.{flat_map};

    ghost Value = { List ℕ };

    ghost view = { λ s. s.front.now ++ flat_map (λ p. p.now) (drop s.next s.pieces.items) };
}

// Puts a block and a separator behind the pieces, where it stands in the text.
fn push_plain<'a>(pieces: &mut Vec<&'a [u8]>, block: &LentBlock<'a>) -> Result<(), NoMemory>
    ensures { OnOk result (flat_map (λ p. p.now) pieces.new.items
        ≡ flat_map (λ p. p.now) pieces.old.items
        ++ separated_text (plain_of (block.now ∷ []))) }
{
    if !block.is_plain {
        return Ok(());
    }
    pieces.push(block.bytes)?;
    pieces.push(SEPARATOR)?;
    Ok(())
}

// Pieces for those of the blocks that stand in one text, each with a separator behind it.
fn pieces_of<'a>(alloc: Global, blocks: &[LentBlock<'a>]) -> Result<Vec<&'a [u8]>, NoMemory>
    ensures { IfOk result (λ pieces. flat_map (λ p. p.now) pieces.items
        ≡ separated_text (plain_of blocks.now)) }
{
    let mut pieces = Vec::new(alloc);
    for block in blocks {
        push_plain(&mut pieces, block)?;
    }
    Ok(pieces)
}

// The bytes at hand and the number of pieces that were taken: where no byte is at hand, those of
// the next piece that has one.
fn advance<'a>(front: &'a [u8], pieces: &[&'a [u8]], next: usize) -> (&'a [u8], usize)
    ensures whole { result.0.now ++ flat_map (λ p. p.now) (drop result.1 pieces.now)
        ≡ front.now ++ flat_map (λ p. p.now) (drop next pieces.now) }
    ensures end { result.0.now ≡ [] → flat_map (λ p. p.now) (drop result.1 pieces.now) ≡ [] }
{
    let mut piece = front;
    let mut taken = next;
    'pieces: while piece.is_empty() && taken < pieces.len() {
        piece = pieces[taken];
        taken += 1;
    }
    (piece, taken)
}

impl<'a> BlockBytes<'a> {
    /// The bytes of one block.
    pub fn of_one(alloc: Global, block: &'a [u8]) -> BlockBytes<'a>
        ensures { result ≡ block.now }
    {
        BlockBytes {
            front: block,
            pieces: Vec::new(alloc),
            next: 0,
        }
    }

    /// The bytes of those of the blocks that stand in one text, each with a separator behind it.
    pub fn of_plain(alloc: Global, blocks: &[LentBlock<'a>]) -> Result<BlockBytes<'a>, NoMemory>
        ensures { IfOk result (λ bytes. bytes ≡ separated_text (plain_of blocks.now)) }
    {
        let pieces = pieces_of(alloc, blocks)?;
        Ok(BlockBytes {
            front: &[],
            pieces,
            next: 0,
        })
    }
}

impl<'a> Read for BlockBytes<'a> {
    ghost remaining = { λ bytes. Some bytes };

    fn read(&mut self, buf: &mut [u8]) -> io::Result<usize>
        ensures bound { ReadsAtMost result buf.new }
        ensures bytes { ReadConsumes (Some self.old) (Some self.new) result buf.new }
    {
        let (front, next) = advance(self.front, self.pieces.as_slice(), self.next);
        self.front = front;
        self.next = next;
        self.front.read(buf)
    }
}
