//! Checked queries, with tables and columns by number: what `check` makes of a query over some
//! tables, and what answers are given to. Versions are settled there; no moment is left.
use crate::ast::AggKind;
use tl_types::{Cell, Cmp, Seq};

/// A comparison of a column with a constant of its kind.
#[derive(Drop)]
pub struct TypedTest {
    /// The column's place in its schema, from 0.
    pub column: u8,
    /// How the cell has to stand to the constant.
    pub cmp: Cmp,
    /// The constant, of its column's kind.
    pub value: Cell,
}

/// A row passes where it passes all tests of one of these lists, or where there is no list.
#[derive(Drop)]
pub struct TypedPred {
    /// The lists: a row passes where all tests of one of them hold. No list passes each row.
    pub any: Seq<Seq<TypedTest>>,
}

/// One item of a row that is asked for.
#[derive(Clone, Copy)]
pub enum TypedItem {
    /// A column, by its place in its schema, from 0.
    Column(u8),
    /// The first valid time of the row.
    ValidFrom,
    /// The end of the range of valid time, which does not belong to it.
    ValidTo,
}

/// A range of time: of versions, or of valid time at a version.
#[derive(Clone, Copy)]
pub enum Span {
    /// The versions from the first up to before the second.
    System {
        /// The first version of the range.
        from: u32,
        /// The version that ends the range.
        to: u32,
    },
    /// The valid times from the first up to before the second, at a version.
    Valid {
        /// The version at which the rows are seen.
        version: u32,
        /// The first valid time.
        from: i64,
        /// The valid time that ends the range.
        to: i64,
    },
}

/// A checked query: tables by number and columns by place, both from 0, and versions in place of
/// moments.
#[derive(Drop)]
pub enum Typed {
    /// `SELECT`: rows of one table, at one version.
    Select {
        /// The table's number: its place in the order of creation, from 0.
        table: u16,
        /// The items in order.
        items: Seq<TypedItem>,
        /// Which rows are taken: those that pass it, and all where it has no list.
        pred: TypedPred,
        /// The valid time at which rows have to be valid, where it is given.
        valid_at: Option<i64>,
        /// The version at which the rows are seen.
        version: u32,
    },
    /// `COUNT`, `SUM`, `AVG`, `MIN` or `MAX`: a value of the rows of one table over a range of
    /// time.
    Agg {
        /// The table's number: its place in the order of creation, from 0.
        table: u16,
        /// Which value of the rows is asked for.
        kind: AggKind,
        /// The column's place in its schema, from 0; none for a count.
        column: Option<u8>,
        /// The place, from 0, of the column whose values separate the rows into groups, where one
        /// does.
        by: Option<u8>,
        /// Which rows are taken: those that pass it, and all where it has no list.
        pred: TypedPred,
        /// The range of versions, or of valid time at a version.
        span: Span,
    },
    /// `JOIN`: the pairs of rows of two tables that exist at one time, over a range of time.
    Join {
        /// The left table's number: its place in the order of creation, from 0.
        left: u16,
        /// Which of its rows are taken: those that pass it, and all where it has no list.
        left_pred: TypedPred,
        /// The right table's number: its place in the order of creation, from 0.
        right: u16,
        /// Which of its rows are taken: those that pass it, and all where it has no list.
        right_pred: TypedPred,
        /// The place, from 0, of the column of the left table that is compared.
        left_on: u8,
        /// The place, from 0, of the column of the right table that is compared.
        right_on: u8,
        /// The range of versions, or of valid time at a version.
        span: Span,
    },
}

/// What an aggregate over one table works out.
#[derive(Clone, Copy)]
pub struct AggPlan {
    /// The table's number: its place in the order of creation, from 0.
    pub table: u16,
    /// Which value of the rows is asked for.
    pub kind: AggKind,
    /// The column's place in its schema, from 0; none for a count.
    pub column: Option<u8>,
    /// The place, from 0, of the column whose values separate the rows into groups, where one does.
    pub by: Option<u8>,
}

/// What a join of two tables works out.
#[derive(Clone, Copy)]
pub struct JoinPlan {
    /// The left table's number: its place in the order of creation, from 0.
    pub left: u16,
    /// The right table's number: its place in the order of creation, from 0.
    pub right: u16,
    /// The place, from 0, of the column of the left table that is compared.
    pub left_on: u8,
    /// The place, from 0, of the column of the right table that is compared.
    pub right_on: u8,
    /// The first version or valid time of the range.
    pub from: i64,
    /// The version or valid time that ends the range.
    pub to: i64,
}
