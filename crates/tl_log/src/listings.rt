//! What can be listed of a journal, by the words that name it. Other words, more of them and none
//! name nothing.
ghost use Rattle.std.specs.Prelude.{◌≡◌, IfOk};
ghost use Rattle.tl_log.specs.Ending.{listing_by, listing_of, rows_by, rows_of_table, texts_of};

use std::alloc::Global;
use tl_types::{NoMemory, Text, is_name};

/// What is listed of a journal.
#[derive(Drop)]
pub enum Listing {
    /// Its commits, a line each.
    Commits,
    /// The tables that its commits make, a line for each column.
    Tables,
    /// The rows of one table, a line each.
    Rows {
        /// The name of the table.
        table: Text,
    },
}

fn listing_by(word: &str) -> Option<Listing>
    ensures { result ≡ listing_by word.now }
{
    match word {
        "log" => Some(Listing::Commits),
        "tables" => Some(Listing::Tables),
        _ => None,
    }
}

// The listing of the rows of a table, where the word is a name.
fn rows_of_table(alloc: Global, table: &str) -> Result<Option<Listing>, NoMemory>
    ensures { IfOk result (λ listing. listing ≡ rows_of_table table.now) }
{
    if !is_name(table) {
        return Ok(None);
    }
    let table = Text::new(alloc, table)?;
    Ok(Some(Listing::Rows { table }))
}

// The listing that a word names with the name of a table behind it.
fn rows_by(alloc: Global, word: &str, table: &str) -> Result<Option<Listing>, NoMemory>
    ensures { IfOk result (λ listing. listing ≡ rows_by word.now table.now) }
{
    match word {
        "rows" => rows_of_table(alloc, table),
        _ => Ok(None),
    }
}

/// The listing that words name: `log` that of the commits, `tables` that of the tables, and `rows`
/// and a name of the language that of the rows of the table with the name. `None` where they are
/// others, more or none. The error is `NoMemory`.
pub fn listing_of(alloc: Global, words: &[String]) -> Result<Option<Listing>, NoMemory>
    ensures { IfOk result (λ listing. listing ≡ listing_of (texts_of words.now)) }
{
    match words {
        [word] => Ok(listing_by(word.as_str())),
        [word, table] => rows_by(alloc, word.as_str(), table.as_str()),
        _ => Ok(None),
    }
}
