//! Words of masks against plain tests of each cell, at lengths about whole words and chunks.
ghost use Rattle.std.specs.Prelude.{◌≡◌, ◌<◌, ◌≤◌, length};

use crate::worked::{commits, store_of};
use std::alloc::Global;
use std::marker::Brand;
use std::sync::ledger::{Blank, Ledger};
use std::test::Fail;
use tl_column::{IntColumn, TextColumn};
use tl_query::TypedTest;
use tl_store::{CellRef, Store};
use tl_types::{Cell, Cmp, Commit, NoMemory, Steps, Text};

const LENGTHS: [u32; 8] = [0, 1, 7, 8, 63, 64, 65, 1000];

// Number k of a column: the least, the greatest and two between them.
fn number(k: u32) -> i64 {
    match k % 4 {
        0 => i64::MIN,
        1 => i64::MAX,
        2 => -1,
        _ => 3,
    }
}

fn passes(cmp: Cmp, value: i64, bound: i64) -> bool {
    match cmp {
        Cmp::Eq => value == bound,
        Cmp::Ne => value != bound,
        Cmp::Lt => value < bound,
        Cmp::Le => value <= bound,
        Cmp::Gt => value > bound,
        Cmp::Ge => value >= bound,
    }
}

// Whether the mask of a comparison says of each row, and of some past them, what a plain test says.
fn mask_agrees(column: &IntColumn, cmp: Cmp, bound: i64) -> bool {
    for row in 0..1100u32 {
        let bit = (column.mask_word(row / 64, cmp, bound) >> (row % 64)) & 1 == 1;
        let plain = u64::from(row) < column.len() && passes(cmp, column.at(row), bound);
        if bit != plain {
            return false;
        }
    }
    true
}

fn masks_agree(column: &IntColumn) -> bool {
    mask_agrees(column, Cmp::Eq, i64::MIN)
        && mask_agrees(column, Cmp::Ne, i64::MAX)
        && mask_agrees(column, Cmp::Lt, i64::MAX)
        && mask_agrees(column, Cmp::Le, i64::MIN)
        && mask_agrees(column, Cmp::Gt, i64::MIN)
        && mask_agrees(column, Cmp::Ge, 3)
}

fn numbers(alloc: Global, len: u32) -> Result<IntColumn, NoMemory> {
    let numbers: Vec<i64> = (0..len).map(number).collect(alloc)?;
    IntColumn::none(alloc).push_all(alloc, numbers.as_slice())
}

fn length_agrees(alloc: Global, len: u32) -> bool {
    match numbers(alloc, len) {
        Ok(column) => column.len() == u64::from(len) && masks_agree(&column),
        Err(_) => false,
    }
}

#[test]
fn masks_of_numbers(rt: HostRuntime) -> Result<(), Fail> {
    for len in LENGTHS {
        assert!(rt; length_agrees(rt.alloc(), len));
    }
    Ok(())
}

// A column of so many cells of a text behind the cells of another.
fn followed(
    alloc: Global,
    column: &TextColumn,
    text: &str,
    count: usize,
) -> Result<TextColumn, NoMemory>
    requires text { length text.now ≤ 65535 }
    requires column { length column.now ≤ 100 }
    requires count { count ≤ 100 }
{
    let cells = vec![in alloc; Text::new(alloc, text)?; count]?;
    column.push_all(alloc, cells.as_slice())
}

// 40 cells of one text and 30 of another.
fn texts(alloc: Global) -> Option<TextColumn> {
    let first = followed(alloc, &TextColumn::none(alloc), "sea", 40).ok()?;
    if first.len() != 40 {
        return None;
    }
    followed(alloc, &first, "air", 30).ok()
}

// Whether the two words of the mask of a text are these.
fn words_are(column: &TextColumn, equal: bool, text: &str, first: u64, second: u64) -> bool {
    column.mask_word(0, equal, text) == first
        && column.mask_word(1, equal, text) == second
        && column.mask_word(2, equal, text) == 0
        && column.mask_word_of(0, equal, column.code_for(text)) == first
}

fn text_masks_agree(column: &TextColumn) -> bool {
    words_are(column, true, "air", u64::MAX << 40, 0b11_1111)
        && words_are(column, false, "air", (1 << 40) - 1, 0)
        && words_are(column, true, "moon", 0, 0)
        && words_are(column, false, "moon", u64::MAX, 0b11_1111)
        && column.len() == 70
        && column.codes_from(68) == [1, 1].as_slice()
}

fn texts_agree(alloc: Global) -> bool {
    match texts(alloc) {
        Some(column) => text_masks_agree(&column),
        None => false,
    }
}

#[test]
fn masks_of_texts(rt: HostRuntime) -> Result<(), Fail> {
    assert!(rt; texts_agree(rt.alloc()));
    Ok(())
}

fn cell_passes(cell: CellRef<'_>, test: &TypedTest) -> bool {
    match (cell, &test.value) {
        (CellRef::Int(value), Cell::Int(bound)) => passes(test.cmp, value, *bound),
        (CellRef::Text(value), Cell::Text(text)) => match test.cmp {
            Cmp::Eq => value == text.as_str(),
            Cmp::Ne => value != text.as_str(),
            _ => false,
        },
        _ => false,
    }
}

// Whether the mask of a test, made ready and not, says of each row of the first table what a plain
// test says.
fn rows_agree<L: Ledger>(store: &Store, test: &TypedTest, steps: &mut Steps<L>) -> bool {
    if store.tables() == 0 || test.column as usize >= store.schema(0).columns().len() {
        return false;
    }
    let ready = store.ready_test(0, test);
    for row in 0..store.rows(0) {
        let word = store.mask_word(0, test.column, row / 64, test, steps);
        let bit = (word >> (row % 64)) & 1 == 1;
        let plain = cell_passes(store.cell(0, row, test.column, steps), test);
        if bit != plain || ready.mask_word(row / 64, steps) != word {
            return false;
        }
    }
    store.rows(0) > 0
}

fn number_agrees<L: Ledger>(store: &Store, column: u8, bound: i64, steps: &mut Steps<L>) -> bool {
    let test = TypedTest {
        column,
        cmp: Cmp::Ge,
        value: Cell::Int(bound),
    };
    rows_agree(store, &test, steps)
}

fn text_agrees<L: Ledger>(
    alloc: Global,
    store: &Store,
    cmp: Cmp,
    text: &str,
    steps: &mut Steps<L>,
) -> bool
    requires { length text.now ≤ 65535 }
{
    let Ok(text) = Text::new(alloc, text) else {
        return false;
    };
    let test = TypedTest {
        column: 1,
        cmp,
        value: Cell::Text(text),
    };
    rows_agree(store, &test, steps)
}

// Tests of numbers and of texts, of a text that no row has, of an order of texts, and of a number
// where the column has texts.
fn rows_pass<L: Ledger>(alloc: Global, blank: Blank, store: &Store) -> bool
    requires name { blank.name ≡ L.name }
    requires parts { blank.parts ≡ L.parts }
    requires some { 0 < blank.parts }
{
    let mut steps: Steps<L> = Steps::new(blank);
    number_agrees(store, 0, 2, &mut steps)
        && number_agrees(store, 2, 60, &mut steps)
        && number_agrees(store, 1, 60, &mut steps)
        && text_agrees(alloc, store, Cmp::Eq, "dev", &mut steps)
        && text_agrees(alloc, store, Cmp::Ne, "moon", &mut steps)
        && text_agrees(alloc, store, Cmp::Lt, "sea", &mut steps)
}

fn rows_are_told(alloc: Global, commits: &[Commit]) -> bool {
    match store_of(alloc, commits) {
        Some(store) => rows_pass::<Brand>(alloc, Blank::new(1), &store),
        None => false,
    }
}

#[test]
fn masks_of_rows(rt: HostRuntime) -> Result<(), Fail> {
    let commits = commits(rt.alloc())?;
    assert!(rt; rows_are_told(rt.alloc(), &commits));
    Ok(())
}
