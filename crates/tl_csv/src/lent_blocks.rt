//! Blocks that are lent, and which of them may stand in one text: those of at most 64 KB without a
//! quote, of which the first byte begins no byte order mark and the last is LF.
ghost use Rattle.std.specs.Prelude.{◌≡◌, ◌++◌, ◌∷◌, ◌<◌, ◌+◌, [], IfOk, OnOk, true, false, drop, length, map};
ghost use Rattle.tl_csv.specs.LentBlocks.{block_at, bytes_of, plain_of};
ghost use Rattle.tl_csv.specs.Separators.{begins_plain, ends_line, has_quote, ArePlain, IsPlain};

use std::alloc::Global;
use tl_types::NoMemory;

// A block of more bytes has a reader of its own.
const LONGEST: usize = 65_536;

// Whether bytes have a quote. All are looked at: without a way out at each byte LLVM takes many at
// once.
fn has_quote(bytes: &[u8]) -> bool
    ensures { result ≡ has_quote bytes.now }
{
    let mut found = false;
    for byte in bytes {
        found = found | (*byte == b'"');
    }
    found
}

// Whether bytes end with a line feed.
fn ends_line(bytes: &[u8]) -> bool
    ensures { result ≡ true → ends_line bytes.now ≡ true }
{
    match bytes.last() {
        Some(last) => *last == b'\n',
        None => false,
    }
}

// Whether there is a first byte, which begins no byte order mark.
fn begins_plain(bytes: &[u8]) -> bool
    ensures { result ≡ begins_plain bytes.now }
{
    match bytes {
        [first, ..] => *first != 0xEF,
        [] => false,
    }
}

// Whether a block may stand among others in one text, and is not too long for that to pay.
fn is_plain(block: &[u8]) -> bool
    ensures { result ≡ true → IsPlain block.now }
{
    block.len() <= LONGEST && begins_plain(block) && ends_line(block) && !has_quote(block)
}

/// A block that is lent, and whether it may stand with others in one text.
#[derive(Drop)]
pub struct LentBlock<'a> {
    /// Its bytes as they came, with any byte order marks at their start.
    pub bytes: &'a [u8],
    /// It stands with others in one text.
    pub is_plain: bool,
}

// Puts a block behind others.
#[tactic(auto, using(crate::proofs::Lent::plain_behind, crate::proofs::Lent::bytes_behind))]
fn push_block<'a>(blocks: &mut Vec<LentBlock<'a>>, block: &'a [u8]) -> Result<(), NoMemory>
    requires { ArePlain (plain_of blocks.old.items) }
    ensures plain { OnOk result (ArePlain (plain_of blocks.new.items)) }
    ensures bytes { OnOk result
        (bytes_of blocks.new.items ≡ bytes_of blocks.old.items ++ block.now ∷ []) }
{
    let is_plain = is_plain(block);
    blocks.push(LentBlock {
        bytes: block,
        is_plain,
    })?;
    Ok(())
}

/// The blocks, each with whether it may stand in one text.
pub fn lent_blocks<'a>(alloc: Global, blocks: &[&'a [u8]]) -> Result<Vec<LentBlock<'a>>, NoMemory>
    ensures plain { IfOk result (λ lent. ArePlain (plain_of lent.items)) }
    ensures bytes { IfOk result (λ lent. bytes_of lent.items ≡ map (λ b. b.now) blocks.now) }
{
    let mut lent = Vec::with_capacity(alloc, blocks.len())?;
    for block in blocks {
        push_block(&mut lent, *block)?;
    }
    Ok(lent)
}

/// Whether two or more of the blocks may stand in one text.
pub fn share_text(blocks: &[LentBlock<'_>]) -> bool {
    let mut plain = 0usize;
    for block in blocks {
        if block.is_plain {
            plain = plain.saturating_add(1);
        }
    }
    plain > 1
}

/// The bytes of the block at a place, and none where there is no block.
pub fn block_at<'a>(blocks: &[LentBlock<'a>], place: usize) -> &'a [u8]
    ensures { result.now ≡ block_at (bytes_of blocks.now) place }
{
    match blocks.get(place) {
        Some(block) => block.bytes,
        None => &[],
    }
}

/// Whether there is a block at a place that stands in the text.
#[tactic(auto, using(crate::proofs::Lent::places))]
pub fn is_plain_at(blocks: &[LentBlock<'_>], place: usize) -> bool
    ensures within { result ≡ true → place < length blocks.now }
    ensures first { result ≡ true → plain_of (drop place blocks.now)
        ≡ block_at (bytes_of blocks.now) place ∷ plain_of (drop (place + 1) blocks.now) }
    ensures other { result ≡ false → plain_of (drop place blocks.now)
        ≡ plain_of (drop (place + 1) blocks.now) }
{
    match blocks.get(place) {
        Some(block) => block.is_plain,
        None => false,
    }
}
