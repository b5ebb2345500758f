//! The statement that a text spells, or its first fault. The text is cut into tokens first, up to
//! its first lexical fault, so that of both kinds of fault the earlier is told.
ghost use Rattle.std.specs.Prelude.{◌≡◌, ◌⊎◌, IfOk, IfErr};
ghost use Rattle.tl_query.specs.declared.faults.TextFault.TheVariants as faults;
ghost use Rattle.tl_query.specs.Parsed.{IsParsed};
ghost use Rattle.tl_query.specs.Texts.{Spells, IsFault, HasOneMeaning, Answers, text_read};

use crate::ast::Statement;
use crate::faults::TextFault;
use crate::grammar::statement_at;
use crate::scanning::{Scanned, scan};
use crate::token_parsers::Stop;
use std::alloc::Global;

/// How many bytes a statement's text can have.
const MOST_BYTES: usize = 65536;

// The statement that a text spells, or its fault.
#[tactic(auto, unfolding(crate::specs::Texts::text_read))]
fn read(alloc: Global, text: &str) -> Result<Statement, TextFault>
    ensures { Answers result (text_read text.now) }
{
    if text.len() > MOST_BYTES {
        return Err(TextFault::QueryTooLong);
    }
    let Ok(Scanned { tokens, fault }) = scan(alloc, text.as_bytes()) else {
        return Err(TextFault::NoMemory);
    };
    match statement_at(alloc, tokens.as_slice()) {
        Err(Stop::NoMemory) => Err(TextFault::NoMemory),
        Err(Stop::Token(at)) => Err(TextFault::Unexpected { at }),
        Err(Stop::End) => match fault {
            Some(fault) => Err(fault),
            None => Err(TextFault::Unexpected {
                at: text.len() as u32,
            }),
        },
        Ok(statement) => match fault {
            Some(fault) => Err(fault),
            None => Ok(statement),
        },
    }
}

/// The statement that the text spells, whose offsets count bytes from the text's first. It is one
/// of these:
///
/// - `CREATE TABLE name (column INT or TEXT, ..) KEY name [VALID]`;
/// - `PUT name`, `REMOVE name`, `SYNC name`, `MOMENT number`, `FORGET name BEFORE version`;
/// - `SELECT items FROM name [WHERE ..] [VALID AT number] [AS OF ..]`, where the items are `*`, or
///   column names, `valid_from` and `valid_to` in any order;
/// - `COUNT` or `SUM`, `AVG`, `MIN`, `MAX` and a column, then `FROM name [WHERE ..] [BY name]` and
///   a range;
/// - `JOIN name [WHERE ..] WITH name [WHERE ..] ON name = name` and a range.
///
/// A range is `OVER SYSTEM ALL`, `OVER SYSTEM version TO version`, or `OVER VALID bound TO bound
/// [AS OF ..]`, a bound being a number or `FOREVER`. `AS OF` takes a version, or `MOMENT number`.
/// `MOMENT`, `FORGET`, `BEFORE` and `SYNC` are names elsewhere.
/// `WHERE` takes comparisons of a column with a number or a text, joined by `AND` and, between
/// these, by `OR`. A `;` may end the statement. The error is the text's fault, or that memory ran
/// out: `QueryTooLong` for more than 65,536 bytes; else the fault of least offset: `BadByte` where
/// no token begins, `OpenText` at a text constant that isn't closed, `NumberTooLarge` at a number
/// that isn't an i64, and `Unexpected` at a token that no statement has after those before it, or
/// at the text's length where the text ends too early.
pub fn parse(alloc: Global, text: &str) -> Result<Statement, TextFault>
    // What is read is spelled.
    ensures found { IfOk result (λ s. Spells text.now s) }
    // An error is the text's fault, or memory ran out.
    ensures fault { IfErr result (λ e. (e ≡ faults.NoMemory) ⊎ IsFault text.now e) }
    // A text spells one statement or has one fault, and not both: so it has no other answer.
    ensures one { HasOneMeaning text.now }
    // What is read can be printed and checked.
    ensures parsed { IfOk result (λ s. IsParsed s) }
{
    read(alloc, text)
}
