//! Words of masks over a column: the 64 cells of a word, and what they are compared by. A word
//! past the cells has none of them.
ghost use Rattle.std.specs.Prelude.{◌≡◌, ◌*◌, ◌≤◌, length, take, drop};
ghost use Rattle.tl_column.specs.Masks.{lane_cmp};

use tl_lanes::LaneCmp;
use tl_shared::{Shareable, SharedList};
use tl_types::Cmp;

// How many items a word of a mask tells of.
const WORD: usize = 64;

// The items of word `i`: 64, or those of them that are there.
pub(crate) fn items_of_word<T: Shareable>(list: &SharedList<T>, i: u32) -> &[T]
    ensures items { result.now ≡ take 64 (drop (64 * i) list.now) }
    ensures few { length result.now ≤ 64 }
{
    let at = 64 * u64::from(i);
    if at >= list.len() {
        return &[];
    }
    let from = list.chunk_from(at);
    let (word, _behind) = from.split_at(WORD.min(from.len()));
    word
}

// The comparison of lanes that a comparison of cells is.
pub(crate) fn lane_cmp(cmp: Cmp) -> LaneCmp
    ensures { result ≡ lane_cmp cmp }
{
    match cmp {
        Cmp::Eq => LaneCmp::Eq,
        Cmp::Ne => LaneCmp::Ne,
        Cmp::Lt => LaneCmp::Lt,
        Cmp::Le => LaneCmp::Le,
        Cmp::Gt => LaneCmp::Gt,
        Cmp::Ge => LaneCmp::Ge,
    }
}
