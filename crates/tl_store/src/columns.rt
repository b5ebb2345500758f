//! The cells of a column of a table, whole numbers or texts by the kind of the column. A cell of
//! the other kind never comes: changes that fit have none.
ghost use Rattle.std.specs.Prelude.{◌≡◌, ◌+◌, ◌-◌, ◌%◌, ◌<◌, ◌^◌, [], length, map, take, drop, All, IfOk};
ghost use Rattle.tl_column.specs.Dictionary.{lent_texts};
ghost use Rattle.tl_store.specs.Columns.{empty_column, column_length, cell_in, cells_in, number_at, text_at, longer, longer_from, HoldsKind};
ghost use Rattle.tl_types.specs.declared.cells.Cell.TheVariants as cell;
ghost use Rattle.tl_types.specs.declared.cells.ColumnKind.TheVariants.{IntKind};
ghost use Rattle.tl_store.specs.Reading.{cell_shown, IsShort};

use crate::shown::CellRef;
use std::alloc::Global;
use tl_column::{IntColumn, TextColumn};
use tl_shared::{CHUNK, Shareable};
use tl_types::{Cell, ColumnKind, NoMemory, Opened, Text};

/// A column of a table, by what its cells are.
#[derive(Drop)]
pub(crate) enum ColumnData {
    /// Signed whole numbers of 64 bits.
    Ints(IntColumn),
    /// Texts of at most 65,535 bytes each.
    Texts(TextColumn),
}

impl ColumnData {
    /// The column of no cells. It takes no memory.
    pub fn none(alloc: Global, kind: ColumnKind) -> ColumnData
        ensures { result ≡ empty_column kind }
    {
        match kind {
            ColumnKind::IntKind => ColumnData::Ints(IntColumn::none(alloc)),
            ColumnKind::TextKind => ColumnData::Texts(TextColumn::none(alloc)),
        }
    }

    /// The column followed by what rows have at its place among the columns.
    pub fn append(
        self,
        alloc: Global,
        opens: &[Opened],
        place: usize,
    ) -> Result<ColumnData, NoMemory>
        requires { column_length self + length opens.now < 2 ^ 32 }
        ensures { IfOk result (λ column. column ≡ longer opens.now place self) }
    {
        match self {
            ColumnData::Ints(column) => {
                let numbers = numbers_at(alloc, opens, place)?;
                Ok(ColumnData::Ints(column.append(alloc, numbers.as_slice())?))
            }
            ColumnData::Texts(column) => {
                let none = Text::new(alloc, "")?;
                let texts = texts_at(alloc, opens, place, &none)?;
                Ok(ColumnData::Texts(column.append_lent(alloc, texts.as_slice())?))
            }
        }
    }

    /// The cell of a row by its id, lent.
    pub fn cell(&self, row: u32) -> CellRef<'_>
        requires { row < column_length self.now }
        ensures value { cell_shown result ≡ cell_in row self.now }
        ensures short { IsShort result }
    {
        match self {
            ColumnData::Ints(column) => CellRef::Int(column.at(row)),
            ColumnData::Texts(column) => CellRef::Text(column.at(row)),
        }
    }

    /// The numbers of the column.
    pub fn ints(&self) -> &IntColumn
        requires { HoldsKind IntKind self.now }
        ensures { map cell.Int result.now ≡ cells_in self.now }
    {
        match self {
            ColumnData::Ints(column) => column,
            ColumnData::Texts(_) => unreachable!(),
        }
    }

    /// The numbers from a row on, as far as they stand in one piece.
    pub fn ints_from(&self, row: u32) -> &[i64]
        requires row { row < column_length self.now }
        requires kind { HoldsKind IntKind self.now }
        ensures cells { map cell.Int result.now
            ≡ take (CHUNK - row % CHUNK) (drop row (cells_in self.now)) }
        ensures some { 0 < length result.now }
    {
        match self {
            ColumnData::Ints(column) => column.ints_from(row),
            ColumnData::Texts(_) => &[],
        }
    }
}

impl Shareable for ColumnData {
    fn share(&self, alloc: Global) -> Result<ColumnData, NoMemory> {
        match self {
            ColumnData::Ints(column) => Ok(ColumnData::Ints(column.share(alloc)?)),
            ColumnData::Texts(column) => Ok(ColumnData::Texts(column.share(alloc)?)),
        }
    }
}

fn number_at(opened: &Opened, place: usize) -> i64
    ensures { result ≡ number_at place opened.now }
{
    match opened.cells().get(place) {
        None => 0,
        Some(Cell::Int(number)) => *number,
        Some(Cell::Text(_)) => 0,
    }
}

fn numbers_at(alloc: Global, opens: &[Opened], place: usize) -> Result<Vec<i64>, NoMemory>
    ensures { IfOk result (λ numbers. numbers.items ≡ map (number_at place) opens.now) }
{
    let mut numbers = Vec::with_capacity(alloc, opens.len())?;
    for opened in opens {
        numbers.push_reserved(number_at(opened, place));
    }
    Ok(numbers)
}

fn text_at<'a>(opened: &'a Opened, place: usize, none: &'a Text) -> &'a Text
    requires { none.now ≡ [] }
    ensures { result.now ≡ text_at place opened.now }
{
    match opened.cells().get(place) {
        None => none,
        Some(Cell::Int(_)) => none,
        Some(Cell::Text(text)) => text,
    }
}

fn texts_at<'a>(
    alloc: Global,
    opens: &'a [Opened],
    place: usize,
    none: &'a Text,
) -> Result<Vec<&'a Text>, NoMemory>
    requires { none.now ≡ [] }
    ensures { IfOk result (λ texts. lent_texts texts.items ≡ map (text_at place) opens.now) }
{
    let mut texts = Vec::with_capacity(alloc, opens.len())?;
    for opened in opens {
        texts.push_reserved(text_at(opened, place, none));
    }
    Ok(texts)
}

/// The columns of a table, each followed by what rows have at its place.
pub(crate) fn append_to_all(
    alloc: Global,
    columns: Vec<ColumnData>,
    opens: &[Opened],
) -> Result<Vec<ColumnData>, NoMemory>
    requires { All (λ column. column_length column + length opens.now < 2 ^ 32) columns.items }
    ensures { IfOk result (λ longer. longer.items ≡ longer_from opens.now 0 columns.items) }
{
    let mut longer = Vec::with_capacity(alloc, columns.len())?;
    for column in columns {
        let place = longer.len();
        longer.push(column.append(alloc, opens, place)?)?;
    }
    Ok(longer)
}
