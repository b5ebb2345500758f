//! Runs: codes in the order of their texts. A text is found in a run by halving, and two runs
//! become one by a merge.
ghost use Rattle.std.specs.Prelude.{◌≡◌, ℕ, ◌+◌, ◌<◌, [], length, IfOk, IfSome, IsNone, MatchOption};
ghost use Rattle.tl_shared.specs.Chunks.{flatten};
ghost use Rattle.tl_column.specs.Dictionary.{text_of};
ghost use Rattle.tl_column.specs.Runs.{IsRun, AreRuns, LacksText, IsNext, times};

use crate::text_list::TextList;
use std::alloc::Global;
use std::cmp::Ordering;
use tl_shared::Chunk;
use tl_types::NoMemory;

// How many times longer than a run the one before it is at least.
const SPREAD: usize = 8;

// The code of a text in a run, none where the run has no code of it.
pub(crate) fn code_in_run(texts: &TextList, run: &[u32], text: &str) -> Option<u32>
    requires { IsRun texts.now run.now }
    ensures valid { IfSome result (λ code. code < length texts.now) }
    ensures found { IfSome result (λ code. text_of texts.now code ≡ text.now) }
    ensures absent { IsNone result → LacksText texts.now text.now run.now }
{
    let (low, high) = run.split_at(run.len() / 2);
    match high {
        [] => None,
        [code, rest @ ..] => match texts.at(*code).cmp(text) {
            Ordering::Less => code_in_run(texts, rest, text),
            Ordering::Greater => code_in_run(texts, low, text),
            Ordering::Equal => Some(*code),
        },
    }
}

// The first of the codes of two runs in the order of their texts, and the codes behind it in
// each. None where neither has a code.
fn next_code<'a>(
    texts: &TextList,
    left: &'a [u32],
    right: &'a [u32],
) -> Option<(u32, &'a [u32], &'a [u32])>
    requires left { IsRun texts.now left.now }
    requires right { IsRun texts.now right.now }
    ensures { MatchOption result
        ((left.now ≡ []) × (right.now ≡ []))
        (λ next. IsNext texts.now left.now right.now next.0 next.1.now next.2.now) }
{
    match left {
        [] => match right {
            [] => None,
            [second, more_right @ ..] => Some((*second, left, more_right)),
        },
        [first, more_left @ ..] => match right {
            [] => Some((*first, more_left, right)),
            [second, more_right @ ..] => {
                if texts.at(*first).cmp(texts.at(*second)).is_gt() {
                    Some((*second, left, more_right))
                } else {
                    Some((*first, more_left, right))
                }
            }
        },
    }
}

// The codes of two runs as one.
pub(crate) fn merged(
    alloc: Global,
    texts: &TextList,
    left: &[u32],
    right: &[u32],
) -> Result<Vec<u32>, NoMemory>
    requires left { IsRun texts.now left.now }
    requires right { IsRun texts.now right.now }
    ensures run { IfOk result (λ run. IsRun texts.now run.items) }
    ensures all { IfOk result
        (λ run. (code : ℕ) → times code run.items ≡ times code left.now + times code right.now) }
{
    let mut run = Vec::with_capacity(alloc, left.len().saturating_add(right.len()))?;
    let mut left = left;
    let mut right = right;
    'taking: while let Some((code, more_left, more_right)) = next_code(texts, left, right) {
        run.push(code)?;
        left = more_left;
        right = more_right;
    }
    Ok(run)
}

// Adds a run. It is merged with those behind which it would be too long, so that there are few of
// them.
pub(crate) fn add_run(
    alloc: Global,
    texts: &TextList,
    runs: &mut Vec<Chunk<u32>>,
    run: Vec<u32>,
) -> Result<(), NoMemory>
    requires runs { AreRuns texts.now runs.old.items }
    requires run { IsRun texts.now run.items }
    ensures runs { IfOk result (λ _. AreRuns texts.now runs.new.items) }
    ensures all { IfOk result (λ _. (code : ℕ)
        → times code (flatten runs.new.items)
        ≡ times code (flatten runs.old.items) + times code run.items) }
{
    match runs.pop() {
        None => {
            runs.push(Chunk::new(alloc, run)?)?;
            Ok(())
        }
        Some(last) if last.as_slice().len() / SPREAD > run.len() => {
            runs.push(last)?;
            runs.push(Chunk::new(alloc, run)?)?;
            Ok(())
        }
        Some(last) => {
            let run = merged(alloc, texts, last.as_slice(), run.as_slice())?;
            add_run(alloc, texts, runs, run)?;
            Ok(())
        }
    }
}
