//! What a statement says, as it is written. Offsets count bytes from the statement's first, which
//! is 0.
use tl_types::{Cell, Cmp, ColumnKind, Seq, Text};

/// The name of a table or a column, and where it stands.
#[derive(Drop)]
pub struct Name {
    /// The name: 1 to 64 bytes.
    pub text: Text,
    /// The byte offset of its first byte in the statement's text, from 0.
    pub at: u32,
}

/// A number in a statement: a version, a moment or a bound, and where it stands.
#[derive(Clone, Copy)]
pub struct Stamp {
    /// The number: a version, a moment or a valid time.
    pub value: i64,
    /// The byte offset of its first byte in the statement's text, from 0.
    pub at: u32,
}

/// One statement, as its text spells it.
#[derive(Drop)]
pub enum Statement {
    /// `CREATE TABLE`: makes a table.
    Create(CreateForm),
    /// `PUT name`: puts the rows of the statement's block into the named table.
    Put(Name),
    /// `REMOVE name`: ends the rows of the named table whose keys the statement's block lists, in a
    /// table with valid periods for the periods beside the keys.
    Remove(Name),
    /// `SYNC name`: makes the rows of the named table those of the statement's block: a row that
    /// stands and is not in the block ends, and a row of the block that does not stand begins.
    Sync(Name),
    /// Asks for an answer.
    Ask(Query),
    /// `MOMENT number`: says which moment it is.
    Moment(Stamp),
    /// `FORGET name BEFORE version`: from then on no version before this one may be asked of the
    /// named table.
    Forget {
        /// The table, by the name that stands behind FORGET.
        table: Name,
        /// The version below which nothing is to be asked, and its byte offset.
        floor: Stamp,
    },
}

/// What follows `AS OF`.
#[derive(Clone, Copy)]
pub enum AsOf {
    /// `version`: the tables as they were after so many commits.
    Version(Stamp),
    /// `MOMENT number`: the last version before a greater moment was stated.
    Moment(Stamp),
}

/// The making of a table: `CREATE TABLE name (columns) KEY key`, and `VALID` at its end where rows
/// have a valid period.
#[derive(Drop)]
pub struct CreateForm {
    /// The name of the new table, which no other table may have.
    pub name: Name,
    /// Its columns in order: 1 to 16.
    pub columns: Seq<ColumnForm>,
    /// The name of its key column.
    pub key: Name,
    /// Whether its rows have a valid period: `VALID` stands at the end.
    pub valid: bool,
}

/// One column of a new table.
#[derive(Drop)]
pub struct ColumnForm {
    /// The name of the column, which no other column of the table may have.
    pub name: Name,
    /// What its cells are.
    pub kind: ColumnKind,
}

/// A query as it is written: what is asked for, of which tables, and over which time.
#[derive(Drop)]
pub enum Query {
    /// `SELECT`: rows of one table, at one version.
    Select(SelectForm),
    /// `COUNT`, `SUM`, `AVG`, `MIN` or `MAX`: a value of the rows of one table over a range of
    /// time.
    Agg(AggForm),
    /// `JOIN`: the pairs of rows of two tables that exist at one time, over a range of time.
    Join(JoinForm),
}

/// One item of a row that is asked for.
#[derive(Drop)]
pub enum Item {
    /// A column, by its name.
    Column(Name),
    /// `valid_from`, the first valid time of the row; the byte offset of the word.
    ValidFrom(u32),
    /// `valid_to`, the valid time at which the row's period has ended; the byte offset of the word.
    ValidTo(u32),
}

/// A query for rows: `SELECT` with `*` or one or more items, separated by commas, then `FROM
/// table`, `WHERE` where rows are tested, `VALID AT number` where a valid time is given, and `AS OF
/// version` or `AS OF MOMENT number` where a version or a moment is given.
#[derive(Drop)]
pub struct SelectForm {
    /// Whether `*` stands for the items; then `items` is empty.
    pub all: bool,
    /// The items in order.
    pub items: Seq<Item>,
    /// The table, by the name that stands behind FROM.
    pub table: Name,
    /// Which rows are taken: those that pass what follows `WHERE`, and all without it.
    pub pred: Pred,
    /// The valid time at which rows have to be valid, where it is given.
    pub valid_at: Option<ValidPoint>,
    /// The version or the moment, where one is given.
    pub as_of: Option<AsOf>,
}

/// A valid time after `VALID AT`.
#[derive(Clone, Copy)]
pub struct ValidPoint {
    /// The byte offset of `VALID`.
    pub pos: u32,
    /// The valid time that the rows have to hold at, in the user's unit.
    pub value: i64,
}

/// A row passes where it passes all tests of one of these lists, or where there is no list: what
/// follows `WHERE`.
#[derive(Drop)]
pub struct Pred {
    /// The lists, joined by `OR`, of tests joined by `AND`.
    pub any: Seq<Seq<Test>>,
}

/// A comparison of a column with a constant.
#[derive(Drop)]
pub struct Test {
    /// The column that is compared, by name.
    pub column: Name,
    /// How its cell has to stand to the constant.
    pub cmp: Cmp,
    /// The byte offset of the comparison.
    pub cmp_at: u32,
    /// The constant: a number, or a text.
    pub value: Cell,
    /// The byte offset of the constant.
    pub value_at: u32,
}

/// The kinds of aggregates.
#[derive(Clone, Copy)]
pub enum AggKind {
    /// The number of rows.
    Count,
    /// The sum of a column.
    Sum,
    /// The sum of a column and the number of rows.
    Avg,
    /// The least value of a column.
    Min,
    /// The greatest value of a column.
    Max,
}

/// A query for an aggregate over time: `COUNT`, or another aggregate and its column, then `FROM
/// table`, `WHERE` where rows are tested, `BY column` where they are separated into groups, and the
/// range.
#[derive(Drop)]
pub struct AggForm {
    /// Which value of the rows is asked for.
    pub kind: AggKind,
    /// The column; none for a count.
    pub column: Option<Name>,
    /// The table, by the name that stands behind FROM.
    pub table: Name,
    /// Which rows are taken: those that pass what follows `WHERE`, and all without it.
    pub pred: Pred,
    /// The column whose values separate the rows into groups.
    pub by: Option<Name>,
    /// The range of time over which it is asked, of versions or of valid time.
    pub over: Over,
}

/// A query for the pairs of rows of two tables that exist at one time: `JOIN table WITH table`,
/// each with `WHERE` where its rows are tested, `ON column = column`, and the range.
#[derive(Drop)]
pub struct JoinForm {
    /// The left table, by the name that stands behind JOIN.
    pub left: Name,
    /// Which of its rows are taken: those that pass what follows its `WHERE`, and all without it.
    pub left_pred: Pred,
    /// The right table, by the name that stands behind WITH.
    pub right: Name,
    /// Which of its rows are taken: those that pass what follows its `WHERE`, and all without it.
    pub right_pred: Pred,
    /// The column of the left table that is compared.
    pub left_on: Name,
    /// The column of the right table that has to be equal.
    pub right_on: Name,
    /// The range of time over which it is asked, of versions or of valid time.
    pub over: Over,
}

/// A range of time, after `OVER`.
#[derive(Clone, Copy)]
pub enum Over {
    /// All versions: `SYSTEM ALL`.
    SystemAll,
    /// The versions from the first up to before the second: `SYSTEM from TO to`.
    System {
        /// The first version of the range.
        from: Stamp,
        /// The version that ends the range.
        to: Stamp,
    },
    /// The valid times from the first up to before the second, at a version: `VALID from TO to`,
    /// with `AS OF version` or `AS OF MOMENT number` where a version or a moment is given.
    Valid {
        /// The byte offset of `VALID`.
        pos: u32,
        /// The first valid time.
        from: Stamp,
        /// The valid time that ends the range.
        to: Stamp,
        /// The version or the moment, where one is given.
        as_of: Option<AsOf>,
    },
}
