//! Kernels that go over whole words and whole columns several lanes at a time, and over the rest
//! one by one. Each gives what the plain function on lists gives, which its contract names, for
//! lists of any length.
#![tactic(auto)]

mod extremes;
mod masked;
mod masks;
mod words;

pub use extremes::{masked_max, masked_min};
pub use masked::masked_sum;
pub use masks::{LaneCmp, compare_mask, compare_mask_u32, compare_word, compare_word_u32};
pub use words::{and_into, and_not_into, count_ones, or_into};
