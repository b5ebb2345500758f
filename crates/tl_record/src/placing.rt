//! Opened rows as bytes, written into room that is there. Each call writes from a place on and
//! gives the place behind what it wrote.
ghost use Rattle.std.specs.Prelude.{◌≡◌, ◌≤◌, ◌+◌, ◌++◌, ◌∷◌, length, take};
ghost use Rattle.std.specs.List.{flat_map};
ghost use Rattle.tl_record.specs.Spelling.{short_number, signed_number, cell_bytes, period_bytes, row_bytes};

use tl_types::{Cell, Opened, Period};

// Writes these bytes.
fn place_bytes(room: &mut [u8], at: usize, bytes: &[u8]) -> usize
    requires { at + length bytes.now ≤ length room.old }
    ensures written { take result room.new ≡ take at room.old ++ bytes.now }
    ensures end { result ≡ at + length bytes.now }
    ensures len { length room.new ≡ length room.old }
{
    let end = at + bytes.len();
    room[at..end].copy_from_slice(bytes);
    end
}

// A byte and the bytes of a signed number.
fn behind_byte(byte: u8, i: i64) -> [u8; 9]
    ensures { result ≡ byte ∷ signed_number i }
{
    let [a, b, c, d, e, f, g, h] = i.to_be_bytes();
    [byte, a, b, c, d, e, f, g, h]
}

// A byte and the bytes of a short number.
fn behind_short(byte: u8, n: u16) -> [u8; 3]
    ensures { result ≡ byte ∷ short_number n }
{
    let [a, b] = n.to_be_bytes();
    [byte, a, b]
}

// Writes a cell.
fn place_cell(room: &mut [u8], at: usize, cell: &Cell) -> usize
    requires { at + length (cell_bytes cell.now) ≤ length room.old }
    ensures written { take result room.new ≡ take at room.old ++ cell_bytes cell.now }
    ensures end { result ≡ at + length (cell_bytes cell.now) }
    ensures len { length room.new ≡ length room.old }
{
    match cell {
        Cell::Int(value) => place_bytes(room, at, &behind_byte(1, *value)),
        Cell::Text(text) => {
            let head = behind_short(2, text.as_bytes().len() as u16);
            let at = place_bytes(room, at, &head);
            place_bytes(room, at, text.as_bytes())
        }
    }
}

// Writes cells, one behind the other.
fn place_cells(room: &mut [u8], at: usize, cells: &[Cell]) -> usize
    requires { at + length (flat_map cell_bytes cells.now) ≤ length room.old }
    ensures written { take result room.new ≡ take at room.old ++ flat_map cell_bytes cells.now }
    ensures end { result ≡ at + length (flat_map cell_bytes cells.now) }
    ensures len { length room.new ≡ length room.old }
{
    let mut end = at;
    for cell in cells {
        end = place_cell(room, end, cell);
    }
    end
}

// Writes 1 and both ends of a period.
fn place_ends(room: &mut [u8], at: usize, from: i64, to: i64) -> usize
    requires { at + 17 ≤ length room.old }
    ensures written { take result room.new
        ≡ take at room.old ++ (1 ∷ signed_number from ++ signed_number to) }
    ensures end { result ≡ at + 17 }
    ensures len { length room.new ≡ length room.old }
{
    let at = place_bytes(room, at, &behind_byte(1, from));
    place_bytes(room, at, &to.to_be_bytes())
}

// Writes a period, or that there is none.
fn place_period(room: &mut [u8], at: usize, period: Option<Period>) -> usize
    requires { at + length (period_bytes period) ≤ length room.old }
    ensures written { take result room.new ≡ take at room.old ++ period_bytes period }
    ensures end { result ≡ at + length (period_bytes period) }
    ensures len { length room.new ≡ length room.old }
{
    match period {
        None => place_bytes(room, at, &[0]),
        Some(period) => place_ends(room, at, period.from(), period.to()),
    }
}

// Writes a row.
fn place_row(room: &mut [u8], at: usize, row: &Opened) -> usize
    requires { at + length (row_bytes row.now) ≤ length room.old }
    ensures written { take result room.new ≡ take at room.old ++ row_bytes row.now }
    ensures end { result ≡ at + length (row_bytes row.now) }
    ensures len { length room.new ≡ length room.old }
{
    let at = place_bytes(room, at, &[row.cells().len() as u8]);
    let at = place_cells(room, at, row.cells());
    place_period(room, at, row.period())
}

/// Writes rows from a place on, and gives the place behind them.
pub fn place_rows(room: &mut [u8], at: usize, rows: &[Opened]) -> usize
    requires { at + length (flat_map row_bytes rows.now) ≤ length room.old }
    ensures written { take result room.new ≡ take at room.old ++ flat_map row_bytes rows.now }
    ensures end { result ≡ at + length (flat_map row_bytes rows.now) }
    ensures len { length room.new ≡ length room.old }
{
    let mut end = at;
    for row in rows {
        end = place_row(room, end, row);
    }
    end
}
