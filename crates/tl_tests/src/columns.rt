//! Columns, each looked at after a longer one was made of it.
ghost use Rattle.std.specs.Prelude.{◌≤◌, length};

use std::alloc::Global;
use std::test::Fail;
use tl_column::{IntColumn, TextColumn};
use tl_shared::Shareable;
use tl_types::{Cmp, NoMemory, Text};

// Whether a column of two numbers stays as it was when a third follows.
fn is_longer(older: &IntColumn, newer: &IntColumn) -> bool {
    older.len() == 2
        && newer.len() == 3
        && older.at(1) == -4
        && newer.at(1) == -4
        && newer.at(2) == 5
        && newer.ints_from(1) == [-4, 5].as_slice()
        && newer.mask_word(0, Cmp::Lt, 5) == 0b11
}

// The same, where the longer column is shared.
fn is_shared_longer(alloc: Global, older: &IntColumn, newer: &IntColumn) -> bool {
    match newer.share(alloc) {
        Ok(shared) => is_longer(older, &shared),
        Err(_) => false,
    }
}

fn is_followed(alloc: Global, older: &IntColumn) -> bool {
    match older.push_all(alloc, [5i64].as_slice()) {
        Ok(newer) => is_shared_longer(alloc, older, &newer),
        Err(_) => false,
    }
}

fn two_are_followed(alloc: Global) -> bool {
    match IntColumn::none(alloc).push_all(alloc, [3i64, -4].as_slice()) {
        Ok(older) => is_followed(alloc, &older),
        Err(_) => false,
    }
}

#[test]
fn numbers_of_a_longer_column(rt: HostRuntime) -> Result<(), Fail> {
    assert!(rt; two_are_followed(rt.alloc()));
    Ok(())
}

// Three texts.
fn texts(alloc: Global, first: &str, second: &str, third: &str) -> Result<Vec<Text>, NoMemory>
    requires first { length first.now ≤ 65535 }
    requires second { length second.now ≤ 65535 }
    requires third { length third.now ≤ 65535 }
{
    let mut texts = Vec::new(alloc);
    texts.push(Text::new(alloc, first)?)?;
    texts.push(Text::new(alloc, second)?)?;
    texts.push(Text::new(alloc, third)?)?;
    Ok(texts)
}

// The column followed by these cells, where there is memory for them.
fn followed(alloc: Global, column: &TextColumn, cells: &[Text]) -> Option<TextColumn> {
    if column.len() > 100 || cells.len() > 100 {
        return None;
    }
    column.push_all(alloc, cells).ok()
}

// A column of three cells.
fn three(alloc: Global) -> Option<TextColumn> {
    let cells = texts(alloc, "sea", "air", "sea").ok()?;
    followed(alloc, &TextColumn::none(alloc), &cells)
}

// The column followed by three cells.
fn three_more(alloc: Global, column: &TextColumn) -> Option<TextColumn> {
    let cells = texts(alloc, "", "air", "land").ok()?;
    followed(alloc, column, &cells)
}

// The column followed by three cells more.
fn last_three(alloc: Global, column: &TextColumn) -> Option<TextColumn> {
    let cells = texts(alloc, "sky", "rail", "sea").ok()?;
    followed(alloc, column, &cells)
}

// The column followed by six cells, in two steps.
fn six_more(alloc: Global, column: &TextColumn) -> Option<TextColumn> {
    let longer = three_more(alloc, column)?;
    last_three(alloc, &longer)
}

// Whether the cell of a row is a text, by a code.
fn is_coded(column: &TextColumn, row: u32, text: &str, code: u32) -> bool {
    if row as u64 >= column.len() {
        return false;
    }
    column.at(row) == text
        && column.code_at(row) == code
        && column.code_of(text) == Some(code)
        && column.text_of(column.code_at(row)) == text
}

// Whether the codes of a column of three cells, and of one of nine that begins with them, are in
// the order of first appearance.
fn are_coded(older: &TextColumn, newer: &TextColumn) -> bool {
    older.len() == 3
        && newer.len() == 9
        && is_coded(older, 1, "air", 1)
        && is_coded(older, 2, "sea", 0)
        && is_coded(newer, 2, "sea", 0)
        && is_coded(newer, 3, "", 2)
        && is_coded(newer, 5, "land", 3)
        && is_coded(newer, 7, "rail", 5)
        && is_coded(newer, 8, "sea", 0)
        && older.code_of("land").is_none()
        && newer.code_of("moon").is_none()
}

// Whether the words of the rows that are a text, or have another code than one, are these.
fn are_masked(newer: &TextColumn) -> bool {
    newer.len() == 9
        && newer.mask_word(0, true, "sea") == 0b1_0000_0101
        && newer.mask_word(0, true, "moon") == 0
        && newer.mask_word_of(0, false, 1) == 0b1_1110_1101
        && newer.codes_from(7) == [5, 0].as_slice()
}

// Whether the codes of a column of three cells, and of the one after six more, are so.
fn codes_stay(alloc: Global, older: &TextColumn) -> bool {
    match six_more(alloc, older) {
        Some(newer) => are_coded(older, &newer) && are_masked(&newer),
        None => false,
    }
}

fn three_are_coded(alloc: Global) -> bool {
    match three(alloc) {
        Some(older) => codes_stay(alloc, &older),
        None => false,
    }
}

#[test]
fn codes_in_the_order_of_first_appearance(rt: HostRuntime) -> Result<(), Fail> {
    assert!(rt; three_are_coded(rt.alloc()));
    Ok(())
}
