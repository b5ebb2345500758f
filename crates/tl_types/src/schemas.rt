//! Columns, and the schema of a table. A schema keeps that its names are names, that no two
//! columns share one, that there are 1 to 16 of them, and that the key is one; it refuses to be
//! made otherwise.
ghost use Rattle.std.specs.Prelude.{◌≡◌, ◌<◌, ◌≤◌, Some, None, length, IsTrue, true};
ghost use Rattle.std.specs.List.{list_all, list_any};
ghost use Rattle.tl_types.specs.Names.{is_name, same_bytes};
ghost use Rattle.tl_types.specs.Facts.{are_distinct, names_of, schema_of, is_schema};
ghost use Rattle.tl_types.specs.Plain as plain;

use crate::cells::ColumnKind;
use crate::sequences::Seq;
use crate::texts::Text;
use crate::{NoMemory, keywords};
use std::marker::Model;

/// A column's name, and what its cells are.
#[derive(Debug, Drop, PartialEq, Eq)]
pub struct Column {
    /// The name, by which statements and the headers of blocks speak of the column.
    pub name: Text,
    /// What the cells are.
    pub kind: ColumnKind,
}

impl Clone for Column {
    ghost is_clone = { λ v w. w ≡ v };

    fn clone(&self) -> Result<Self, NoMemory> {
        Ok(Column {
            name: self.name.clone()?,
            kind: self.kind,
        })
    }
}

/// The shape of a table. Its names are names, its columns' names differ, it has 1 to 16 columns,
/// and its key is one of them.
#[derive(Debug, Drop, PartialEq, Eq)]
pub struct Schema {
    name: Text,
    columns: Seq<Column>,
    key: u8,
    valid: bool,
}

impl Model for Schema {
    ghost use Rattle.std.specs.Prelude.{IsTrue};
    ghost use Rattle.tl_types.specs.Plain as plain;

    ghost Value = { plain.Schema };

    ghost use Rattle.tl_types.specs.Facts.{is_schema};

    ghost view = { λ s. record {
      name = s.name;
      columns = s.columns;
      key = s.key;
      valid = s.valid;
    } };

    ghost invariant = { λ s. IsTrue (is_schema (record {
      name = s.name;
      columns = s.columns;
      key = s.key;
      valid = s.valid;
    })) };

    ghost inverse = { λ s. record {
      name = s.name;
      columns = s.columns;
      key = s.key;
      valid = s.valid;
    } };
}

impl Schema {
    /// The schema of a table `name` with these columns, whose key is the column at place `key`
    /// (from 0), and whose rows have a valid period where `valid` is set. `None` exactly where a
    /// name is no name, two columns have one name, there are not 1 to 16 columns, or the key is
    /// none of them.
    pub fn new(name: Text, columns: Seq<Column>, key: u8, valid: bool) -> Option<Schema>
        ensures { result ≡ schema_of (record {
          name = name;
          columns = columns;
          key = key;
          valid = valid;
        }) }
    {
        if is_shape(&name, columns.as_slice(), key) {
            Some(Schema {
                name,
                columns,
                key,
                valid,
            })
        } else {
            None
        }
    }

    /// The table's name: a name of the language, 1 to 64 bytes.
    pub fn name(&self) -> &Text
        ensures value { result.now ≡ self.now.name }
        ensures kept { IsTrue (is_schema self.now) }
    {
        &self.name
    }

    /// The columns in order, 1 to 16 of them.
    pub fn columns(&self) -> &[Column]
        ensures value { result.now ≡ self.now.columns }
        ensures some { 1 ≤ length self.now.columns }
        ensures few { length self.now.columns ≤ 16 }
        ensures kept { IsTrue (is_schema self.now) }
    {
        self.columns.as_slice()
    }

    /// The place of the key among the columns, from 0.
    pub fn key(&self) -> u8
        ensures value { result ≡ self.now.key }
        ensures among { self.now.key < length self.now.columns }
        ensures kept { IsTrue (is_schema self.now) }
    {
        self.key
    }

    /// Whether the rows have a valid period.
    pub fn valid(&self) -> bool
        ensures value { result ≡ self.now.valid }
        ensures kept { IsTrue (is_schema self.now) }
    {
        self.valid
    }
}

impl Clone for Schema {
    ghost is_clone = { λ v w. w ≡ v };

    fn clone(&self) -> Result<Self, NoMemory> {
        Ok(Schema {
            name: self.name.clone()?,
            columns: self.columns.clone()?,
            key: self.key,
            valid: self.valid,
        })
    }
}

fn is_shape(name: &Text, columns: &[Column], key: u8) -> bool
    ensures { result ≡ is_schema (record {
      name = name.now;
      columns = columns.now;
      key = key;
      valid = true;
    }) }
{
    keywords::is_name(name.as_str())
        && all_named(columns)
        && are_distinct(columns)
        && columns.len() <= 16
        && (key as usize) < columns.len()
}

fn all_named(columns: &[Column]) -> bool
    ensures { result ≡ list_all (λ c. is_name c.name) columns.now }
{
    columns
        .iter()
        .all(|column| keywords::is_name(column.name.as_str()))
}

fn are_distinct(columns: &[Column]) -> bool
    ensures { result ≡ are_distinct (names_of columns.now) }
{
    match columns {
        [] => true,
        [first, rest @ ..] => !is_named(rest, &first.name) && are_distinct(rest),
    }
}

fn is_named(columns: &[Column], name: &Text) -> bool
    ensures { result ≡ list_any (λ y. same_bytes y name.now) (names_of columns.now) }
{
    match columns {
        [] => false,
        [first, rest @ ..] => first.name == *name || is_named(rest, name),
    }
}
