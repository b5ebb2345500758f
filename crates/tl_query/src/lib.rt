//! The query language: its tokens, its statements, and the one statement or first fault that a text
//! has; a statement as a text again; and in specs/ what a query means: how it is checked, and what
//! answers it.
#![tactic(auto)]

pub mod answer_laws;
mod ast;
mod check_faults;
mod clauses;
mod faults;
mod grammar;
mod parsing;
mod printing;
mod scanning;
mod terminals;
mod token_parsers;
mod tokens;
mod typed_queries;

pub use ast::{
    AggForm, AggKind, AsOf, ColumnForm, CreateForm, Item, JoinForm, Name, Over, Pred, Query,
    SelectForm, Stamp, Statement, Test, ValidPoint,
};
pub use check_faults::CheckFault;
pub use faults::TextFault;
pub use parsing::parse;
pub use printing::print;
pub use typed_queries::{AggPlan, JoinPlan, Span, Typed, TypedItem, TypedPred, TypedTest};
