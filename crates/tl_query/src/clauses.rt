//! Reading the clauses of a query, from left to right: WHERE, ON, BY, OVER, VALID AT and AS OF. A
//! clause takes its tokens whole, or tells the first that cannot stand there.
ghost use Rattle.std.specs.Prelude.{◌<◌, Some, None, Ok};
ghost use Rattle.tl_types.specs.declared.keywords.Keyword.TheVariants as words;
ghost use Rattle.tl_query.specs.declared.terminals.Terminal.TheVariants as terminals;
ghost use Rattle.tl_query.specs.Reading.{Gives, after, expect, several, test_at, conj_at, where_at, valid_point_at, version_or_moment_at, as_of_at, versions_at, system_at, moments_at, over_at, column_name_at, by_at, side_at, on_at};

use crate::ast::{AggKind, AsOf, Name, Over, Pred, Test, ValidPoint};
use crate::terminals::{SoftWord, Terminal};
use crate::token_parsers::{
    Stop, after_keyword, bound_at, cmp_at, constant_at, expect, expect_keyword, moment_at, name_at,
    number_at, soft_word, valid_word, valid_word_at, version_at,
};
use crate::tokens::Placed;
use std::alloc::Global;
use tl_types::{Keyword, Seq};

// A test that begins here: a column, a comparison, a constant.
#[tactic(auto, unfolding(crate::specs::Reading::test_at))]
fn test_at(tokens: &[Placed]) -> Result<(Test, &[Placed]), Stop>
    ensures { Gives (λ x. (x.0, x.1.now)) result (test_at tokens.now) }
{
    let (column, rest) = name_at(tokens)?;
    let ((cmp, cmp_at), rest) = cmp_at(rest)?;
    let ((value, value_at), rest) = constant_at(rest)?;
    let test = Test {
        column,
        cmp,
        cmp_at,
        value,
        value_at,
    };
    Ok((test, rest))
}

// Tests, separated by `AND`.
fn conj_at(alloc: Global, tokens: &[Placed]) -> Result<(Seq<Test>, &[Placed]), Stop>
    ensures { Gives (λ x. (x.0, x.1.now)) result (conj_at tokens.now) }
{
    let (first, mut rest) = test_at(tokens)?;
    let mut tests = Vec::new(alloc);
    tests.push(first)?;
    while let Some(next) = after_keyword(rest, Keyword::And) {
        let (test, left) = test_at(next)?;
        tests.push(test)?;
        rest = left;
    }
    Ok((Seq::from_vec(tests), rest))
}

// Lists of tests, separated by `OR`.
fn any_at(alloc: Global, tokens: &[Placed]) -> Result<(Seq<Seq<Test>>, &[Placed]), Stop>
    ensures { Gives (λ x. (x.0, x.1.now)) result
        (several (terminals.Keyword words.Or) conj_at tokens.now) }
{
    let (first, mut rest) = conj_at(alloc, tokens)?;
    let mut any = Vec::new(alloc);
    any.push(first)?;
    while let Some(next) = after_keyword(rest, Keyword::Or) {
        let (tests, left) = conj_at(alloc, next)?;
        any.push(tests)?;
        rest = left;
    }
    Ok((Seq::from_vec(any), rest))
}

/// Which rows: those that `WHERE` says, where it comes, or all.
#[tactic(auto, unfolding(crate::specs::Reading::where_at))]
pub(crate) fn where_at(alloc: Global, tokens: &[Placed]) -> Result<(Pred, &[Placed]), Stop>
    ensures { Gives (λ x. (x.0, x.1.now)) result (where_at tokens.now) }
{
    let Some(rest) = after_keyword(tokens, Keyword::Where) else {
        let any = Seq::new(alloc);
        return Ok((Pred { any }, tokens));
    };
    let (any, rest) = any_at(alloc, rest)?;
    Ok((Pred { any }, rest))
}

/// The valid time after `VALID AT`, where `VALID` comes.
#[tactic(auto, unfolding(crate::specs::Reading::valid_point_at))]
pub(crate) fn valid_point_at(tokens: &[Placed]) -> Result<(Option<ValidPoint>, &[Placed]), Stop>
    ensures { Gives (λ x. (x.0, x.1.now)) result (valid_point_at tokens.now) }
{
    let Some((pos, rest)) = valid_word(tokens) else {
        return Ok((None, tokens));
    };
    let rest = expect_keyword(rest, Keyword::At)?;
    let (value, rest) = moment_at(rest)?;
    Ok((Some(ValidPoint { pos, value }), rest))
}

// A version, or a moment after `MOMENT`.
#[tactic(auto, unfolding(crate::specs::Reading::version_or_moment_at))]
fn version_or_moment_at(tokens: &[Placed]) -> Result<(AsOf, &[Placed]), Stop>
    ensures { Gives (λ x. (x.0, x.1.now)) result (version_or_moment_at tokens.now) }
{
    let Some((_, rest)) = soft_word(tokens, SoftWord::Moment) else {
        let (version, rest) = version_at(tokens)?;
        return Ok((AsOf::Version(version), rest));
    };
    let (moment, rest) = number_at(rest)?;
    Ok((AsOf::Moment(moment), rest))
}

/// The version or the moment after `AS OF`, where `AS` comes.
#[tactic(auto, unfolding(crate::specs::Reading::as_of_at))]
pub(crate) fn as_of_at(tokens: &[Placed]) -> Result<(Option<AsOf>, &[Placed]), Stop>
    ensures { Gives (λ x. (x.0, x.1.now)) result (as_of_at tokens.now) }
{
    let Some(rest) = after_keyword(tokens, Keyword::As) else {
        return Ok((None, tokens));
    };
    let rest = expect_keyword(rest, Keyword::Of)?;
    let (as_of, rest) = version_or_moment_at(rest)?;
    Ok((Some(as_of), rest))
}

#[tactic(auto, unfolding(crate::specs::Reading::versions_at))]
fn versions_at(tokens: &[Placed]) -> Result<(Over, &[Placed]), Stop>
    ensures { Gives (λ x. (x.0, x.1.now)) result (versions_at tokens.now) }
{
    let (from, rest) = version_at(tokens)?;
    let rest = expect_keyword(rest, Keyword::To)?;
    let (to, rest) = version_at(rest)?;
    Ok((Over::System { from, to }, rest))
}

#[tactic(auto, unfolding(crate::specs::Reading::system_at))]
fn system_at(tokens: &[Placed]) -> Result<(Over, &[Placed]), Stop>
    ensures { Gives (λ x. (x.0, x.1.now)) result (system_at tokens.now) }
{
    match after_keyword(tokens, Keyword::All) {
        Some(rest) => Ok((Over::SystemAll, rest)),
        None => versions_at(tokens),
    }
}

// The range of valid time that begins here, with the version that it is asked of.
#[tactic(auto, unfolding(crate::specs::Reading::moments_at))]
fn moments_at(tokens: &[Placed]) -> Result<(Over, &[Placed]), Stop>
    ensures { Gives (λ x. (x.0, x.1.now)) result (moments_at tokens.now) }
{
    let (pos, rest) = valid_word_at(tokens)?;
    let (from, rest) = bound_at(rest)?;
    let rest = expect_keyword(rest, Keyword::To)?;
    let (to, rest) = bound_at(rest)?;
    let (as_of, rest) = as_of_at(rest)?;
    let over = Over::Valid {
        pos,
        from,
        to,
        as_of,
    };
    Ok((over, rest))
}

/// The range after `OVER`, which has to come.
#[tactic(auto, unfolding(crate::specs::Reading::over_at))]
pub(crate) fn over_at(tokens: &[Placed]) -> Result<(Over, &[Placed]), Stop>
    ensures { Gives (λ x. (x.0, x.1.now)) result (over_at tokens.now) }
{
    let rest = expect_keyword(tokens, Keyword::Over)?;
    match after_keyword(rest, Keyword::System) {
        Some(left) => system_at(left),
        None => moments_at(rest),
    }
}

/// The column of an aggregate: a count has none.
#[tactic(auto, unfolding(crate::specs::Reading::column_name_at))]
pub(crate) fn column_name_at(
    kind: AggKind,
    tokens: &[Placed],
) -> Result<(Option<Name>, &[Placed]), Stop>
    ensures { Gives (λ x. (x.0, x.1.now)) result (column_name_at kind tokens.now) }
{
    if let AggKind::Count = kind {
        return Ok((None, tokens));
    }
    let (name, rest) = name_at(tokens)?;
    Ok((Some(name), rest))
}

/// The column of the groups, where `BY` comes.
#[tactic(auto, unfolding(crate::specs::Reading::by_at))]
pub(crate) fn by_at(tokens: &[Placed]) -> Result<(Option<Name>, &[Placed]), Stop>
    ensures { Gives (λ x. (x.0, x.1.now)) result (by_at tokens.now) }
{
    let Some(rest) = after_keyword(tokens, Keyword::By) else {
        return Ok((None, tokens));
    };
    let (name, rest) = name_at(rest)?;
    Ok((Some(name), rest))
}

/// A table of a join, and which of its rows.
#[tactic(auto, unfolding(crate::specs::Reading::side_at))]
pub(crate) fn side_at(alloc: Global, tokens: &[Placed]) -> Result<(Name, Pred, &[Placed]), Stop>
    ensures { Gives (λ x. ((x.0, x.1), x.2.now)) result (side_at tokens.now) }
{
    let (table, rest) = name_at(tokens)?;
    let (pred, rest) = where_at(alloc, rest)?;
    Ok((table, pred, rest))
}

/// The two columns after `ON`, which has to come.
#[tactic(auto, unfolding(crate::specs::Reading::on_at))]
pub(crate) fn on_at(tokens: &[Placed]) -> Result<(Name, Name, &[Placed]), Stop>
    ensures { Gives (λ x. ((x.0, x.1), x.2.now)) result (on_at tokens.now) }
{
    let rest = expect_keyword(tokens, Keyword::On)?;
    let (left, rest) = name_at(rest)?;
    let rest = expect(rest, Terminal::Equal)?;
    let (right, rest) = name_at(rest)?;
    Ok((left, right, rest))
}
