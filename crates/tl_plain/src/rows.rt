//! Rows, and what the change of a version makes of them: the closed ones end and the opened ones
//! begin. A row has ended once, so only current ones may be closed.
ghost use Rattle.std.specs.Prelude.{◌≡◌, ◌<◌, ◌++◌, IfOk, OnOk, OnErr, length, map, All};
ghost use Rattle.std.specs.List.{list_all};
ghost use Rattle.tl_types.specs.History.{new_row, row_after, with_ids, is_open, is_open_at, is_visible};
ghost use Rattle.tl_types.specs.Plain as plain;

use std::alloc::Global;
use std::marker::Model;
use tl_types::{Cell, Change, NoMemory, OPEN, Opened, Period, Seq};

/// A row of a table: its cells, its valid period where the table has them, and the versions at
/// which it stands.
#[derive(Drop)]
pub struct Row {
    cells: Seq<Cell>,
    period: Option<Period>,
    from: u32,
    to: u32,
}

impl Model for Row {
    ghost use Rattle.tl_types.specs.Plain as plain;

    ghost Value = { plain.Row };

    ghost view = { λ r. record { cells = r.cells; period = r.period; from = r.from; to = r.to } };

    ghost inverse = { λ r.
        record { cells = r.cells; period = r.period; from = r.from; to = r.to } };
}

impl Row {
    /// The cells, in the order of the columns.
    pub fn cells(&self) -> &[Cell]
        ensures { result.now ≡ self.now.cells }
    {
        self.cells.as_slice()
    }

    /// The valid period, where the row's table has them.
    pub fn period(&self) -> Option<Period>
        ensures { result ≡ self.now.period }
    {
        self.period
    }

    /// The first version at which the row stands.
    pub fn from(&self) -> u32
        ensures { result ≡ self.now.from }
    {
        self.from
    }

    /// The version at which the row has ended, the greatest number of 32 bits where it is current.
    pub fn to(&self) -> u32
        ensures { result ≡ self.now.to }
    {
        self.to
    }

    /// Whether the row is current.
    pub fn is_open(&self) -> bool
        ensures { result ≡ is_open self.now }
    {
        self.to == OPEN
    }

    /// Whether the row stands at a version.
    pub fn is_visible(&self, version: u32) -> bool
        ensures { result ≡ is_visible version self.now }
    {
        self.from <= version && version < self.to
    }

    /// Ends the row at a version.
    pub(crate) fn end(&mut self, version: u32)
        ensures { self.new ≡ record self.old { to = version } }
    {
        self.to = version;
    }
}

// The row that begins at a version as a commit opens it. The error is out of memory.
fn begin(alloc: Global, version: u32, opened: &Opened) -> Result<Row, NoMemory>
    ensures { IfOk result (λ r. r ≡ new_row version opened.now) }
{
    Ok(Row {
        cells: Seq::from_vec(opened.cells().to_vec(alloc)?),
        period: opened.period(),
        from: version,
        to: OPEN,
    })
}

// The rows that begin at a version, in order. The error is out of memory.
fn begin_all(alloc: Global, version: u32, opens: &[Opened]) -> Result<Vec<Row>, NoMemory>
    ensures { IfOk result (λ rows. rows.items ≡ map (new_row version) opens.now) }
{
    let mut rows = Vec::with_capacity(alloc, opens.len())?;
    for opened in opens {
        rows.push(begin(alloc, version, opened)?)?;
    }
    Ok(rows)
}

// Ends the rows with these ids at a version.
fn end_all(rows: &mut Vec<Row>, version: u32, ids: &[u32])
    requires { All (λ id. id < length rows.old.items) ids.now }
    ensures { rows.new.items ≡ map (row_after version ids.now) (with_ids rows.old.items) }
{
    for id in ids {
        rows[*id as usize].end(version);
    }
}

/// Applies the change of a version to the rows of its table, which have the closed ids. The error
/// is out of memory, and leaves the rows as they were.
pub(crate) fn change_all(
    alloc: Global,
    version: u32,
    change: &Change,
    rows: &mut Vec<Row>,
) -> Result<(), NoMemory>
    requires { All (λ id. id < length rows.old.items) change.now.closes }
    ensures ok { OnOk result (rows.new.items ≡
        map (row_after version change.now.closes) (with_ids rows.old.items) ++
        map (new_row version) change.now.opens) }
    ensures err { OnErr result (rows.new.items ≡ rows.old.items) }
{
    let mut opened = begin_all(alloc, version, change.opens())?;
    rows.append(&mut opened)?;
    end_all(rows, version, change.closes());
    Ok(())
}

#[tactic(auto, using(crate::proofs::Places::open_places))]
fn is_open_at(rows: &[Row], id: u32) -> bool
    ensures { result ≡ is_open_at rows.now id }
{
    (id as usize) < rows.len() && rows[id as usize].is_open()
}

/// Whether each id is that of a current row.
pub(crate) fn all_open(rows: &[Row], ids: &[u32]) -> bool
    ensures { result ≡ list_all (is_open_at rows.now) ids.now }
{
    ids.iter().all(|id| is_open_at(rows, *id))
}
