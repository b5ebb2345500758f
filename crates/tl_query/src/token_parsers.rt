//! Reading the token that comes first: as a keyword or symbol, a name, a number, a constant. What
//! is not there takes nothing, and says at which offset.
ghost use Rattle.std.specs.Prelude.{◌≡◌, ◌<◌, length, Some, None, Ok, Err, IfSome, MatchOption};
ghost use Rattle.tl_query.specs.declared.terminals.Terminal.TheVariants as terminals;
ghost use Rattle.tl_query.specs.Reading.{
  IsStopAt,
  Gives,
  first_offset,
  is_fixed,
  after,
  expect,
  as_name,
  as_version,
  as_moment,
  as_bound,
  as_constant,
  as_item,
  as_kind,
  as_cmp,
  as_agg,
  as_valid,
  as_number,
  is_soft,
  as_soft,
  first_token,
  take_at,
  peek_at,
  statement_end,
  last_of,
};

use crate::ast::{AggKind, Item, Name, Stamp, Statement};
use crate::terminals::{SoftWord, Terminal, same_terminal, soft_spelling};
use crate::tokens::{Placed, Token};
use std::alloc::AllocFailed;
use tl_types::{Cell, Cmp, ColumnKind, Keyword, NoMemory};

/// Where reading stops.
#[derive(Clone, Copy)]
pub(crate) enum Stop {
    /// At the token at this byte offset, which cannot stand there.
    Token(u32),
    /// At the end, which comes too early.
    End,
    /// Memory ran out.
    NoMemory,
}

impl From<NoMemory> for Stop {
    ghost use Rattle.tl_query.specs.declared.token_parsers.Stop.TheVariants as stops;

    ghost from_gives = { λ _ e. e ≡ stops.NoMemory };

    fn from(_error: NoMemory) -> Self {
        Stop::NoMemory
    }
}

impl<T: Drop> From<AllocFailed<T>> for Stop {
    ghost use Rattle.tl_query.specs.declared.token_parsers.Stop.TheVariants as stops;

    ghost from_gives = { λ _ e. e ≡ stops.NoMemory };

    fn from(_error: AllocFailed<T>) -> Self {
        Stop::NoMemory
    }
}

fn stop_at(tokens: &[Placed]) -> Stop
    ensures { IsStopAt result (first_offset tokens.now) }
{
    match tokens {
        [] => Stop::End,
        [first, ..] => Stop::Token(first.at),
    }
}

fn is_fixed(token: &Token, terminal: Terminal) -> bool
    ensures { result ≡ is_fixed terminal token.now }
{
    match token {
        Token::Fixed(found) => same_terminal(*found, terminal),
        _ => false,
    }
}

/// The tokens after a terminal, where it comes first.
#[tactic(auto, unfolding(crate::specs::Reading::after))]
pub(crate) fn after(tokens: &[Placed], terminal: Terminal) -> Option<&[Placed]>
    ensures value { MatchOption result (after terminal tokens.now ≡ None)
        (λ rest. after terminal tokens.now ≡ Some rest.now) }
    ensures shorter { IfSome result (λ rest. length rest.now < length tokens.now) }
{
    match tokens {
        [] => None,
        [first, rest @ ..] => {
            if is_fixed(&first.token, terminal) {
                Some(rest)
            } else {
                None
            }
        }
    }
}

/// The tokens after a terminal, which has to come first.
#[tactic(auto, using(crate::proofs::Readers::fails_by), unfolding(crate::specs::Reading::expect))]
pub(crate) fn expect(tokens: &[Placed], terminal: Terminal) -> Result<&[Placed], Stop>
    ensures { Gives (λ rest. rest.now) result (expect terminal tokens.now) }
{
    match after(tokens, terminal) {
        Some(rest) => Ok(rest),
        None => Err(stop_at(tokens)),
    }
}

/// The tokens after a keyword, where it comes first.
pub(crate) fn after_keyword(tokens: &[Placed], keyword: Keyword) -> Option<&[Placed]>
    ensures value { MatchOption result (after (terminals.Keyword keyword) tokens.now ≡ None)
        (λ rest. after (terminals.Keyword keyword) tokens.now ≡ Some rest.now) }
    ensures shorter { IfSome result (λ rest. length rest.now < length tokens.now) }
{
    after(tokens, Terminal::Keyword(keyword))
}

/// The tokens after a keyword, which has to come first.
pub(crate) fn expect_keyword(tokens: &[Placed], keyword: Keyword) -> Result<&[Placed], Stop>
    ensures { Gives (λ rest. rest.now) result (expect (terminals.Keyword keyword) tokens.now) }
{
    expect(tokens, Terminal::Keyword(keyword))
}

// The first token, which has to be there, and the tokens after it.
fn first_token(tokens: &[Placed]) -> Result<(&Placed, &[Placed]), Stop>
    ensures { Gives (λ x. (x.0.now, x.1.now)) result (first_token tokens.now) }
{
    match tokens {
        [] => Err(Stop::End),
        [first, rest @ ..] => Ok((first, rest)),
    }
}

/// The name that comes first.
#[tactic(auto, unfolding(crate::specs::Reading::take_at))]
pub(crate) fn name_at(tokens: &[Placed]) -> Result<(Name, &[Placed]), Stop>
    ensures { Gives (λ x. (x.0, x.1.now)) result (take_at as_name tokens.now) }
{
    let (first, rest) = first_token(tokens)?;
    let at = first.at;
    match &first.token {
        Token::Word(text) => {
            let text = text.clone()?;
            Ok((Name { text, at }, rest))
        }
        _ => Err(Stop::Token(at)),
    }
}

/// The version that comes first: a number without a sign.
#[tactic(auto, unfolding(crate::specs::Reading::take_at))]
pub(crate) fn version_at(tokens: &[Placed]) -> Result<(Stamp, &[Placed]), Stop>
    ensures { Gives (λ x. (x.0, x.1.now)) result (take_at as_version tokens.now) }
{
    let (first, rest) = first_token(tokens)?;
    let at = first.at;
    match &first.token {
        Token::Number(value) => Ok((Stamp { value: *value, at }, rest)),
        _ => Err(Stop::Token(at)),
    }
}

/// The valid time that comes first: a number.
#[tactic(auto, unfolding(crate::specs::Reading::take_at))]
pub(crate) fn moment_at(tokens: &[Placed]) -> Result<(i64, &[Placed]), Stop>
    ensures { Gives (λ x. (x.0, x.1.now)) result (take_at as_moment tokens.now) }
{
    let (first, rest) = first_token(tokens)?;
    match &first.token {
        Token::Number(value) => Ok((*value, rest)),
        Token::Negative(value) => Ok((*value, rest)),
        _ => Err(Stop::Token(first.at)),
    }
}

/// The number that comes first, with its offset.
#[tactic(auto, unfolding(crate::specs::Reading::take_at))]
pub(crate) fn number_at(tokens: &[Placed]) -> Result<(Stamp, &[Placed]), Stop>
    ensures { Gives (λ x. (x.0, x.1.now)) result (take_at as_number tokens.now) }
{
    let (first, rest) = first_token(tokens)?;
    let at = first.at;
    match &first.token {
        Token::Number(value) => Ok((Stamp { value: *value, at }, rest)),
        Token::Negative(value) => Ok((Stamp { value: *value, at }, rest)),
        _ => Err(Stop::Token(at)),
    }
}

/// The bound that comes first: a number, or `FOREVER`.
#[tactic(auto, unfolding(crate::specs::Reading::take_at))]
pub(crate) fn bound_at(tokens: &[Placed]) -> Result<(Stamp, &[Placed]), Stop>
    ensures { Gives (λ x. (x.0, x.1.now)) result (take_at as_bound tokens.now) }
{
    let (first, rest) = first_token(tokens)?;
    let at = first.at;
    let value = match &first.token {
        Token::Number(value) => *value,
        Token::Negative(value) => *value,
        Token::Fixed(Terminal::Keyword(Keyword::Forever)) => i64::MAX,
        _ => return Err(Stop::Token(at)),
    };
    Ok((Stamp { value, at }, rest))
}

/// The constant that comes first, and its offset.
#[tactic(auto, unfolding(crate::specs::Reading::take_at))]
pub(crate) fn constant_at(tokens: &[Placed]) -> Result<((Cell, u32), &[Placed]), Stop>
    ensures { Gives (λ x. (x.0, x.1.now)) result (take_at as_constant tokens.now) }
{
    let (first, rest) = first_token(tokens)?;
    let at = first.at;
    match &first.token {
        Token::Number(value) => Ok(((Cell::Int(*value), at), rest)),
        Token::Negative(value) => Ok(((Cell::Int(*value), at), rest)),
        Token::Quoted(text) => Ok(((Cell::Text(text.clone()?), at), rest)),
        _ => Err(Stop::Token(at)),
    }
}

/// The item that comes first.
#[tactic(auto, unfolding(crate::specs::Reading::take_at))]
pub(crate) fn item_at(tokens: &[Placed]) -> Result<(Item, &[Placed]), Stop>
    ensures { Gives (λ x. (x.0, x.1.now)) result (take_at as_item tokens.now) }
{
    let (first, rest) = first_token(tokens)?;
    let at = first.at;
    match &first.token {
        Token::Word(text) => {
            let text = text.clone()?;
            Ok((Item::Column(Name { text, at }), rest))
        }
        Token::Fixed(Terminal::Keyword(Keyword::ValidFrom)) => Ok((Item::ValidFrom(at), rest)),
        Token::Fixed(Terminal::Keyword(Keyword::ValidTo)) => Ok((Item::ValidTo(at), rest)),
        _ => Err(Stop::Token(at)),
    }
}

/// The kind of a column, whose keyword comes first.
#[tactic(auto, unfolding(crate::specs::Reading::take_at))]
pub(crate) fn kind_at(tokens: &[Placed]) -> Result<(ColumnKind, &[Placed]), Stop>
    ensures { Gives (λ x. (x.0, x.1.now)) result (take_at as_kind tokens.now) }
{
    let (first, rest) = first_token(tokens)?;
    match &first.token {
        Token::Fixed(Terminal::Keyword(Keyword::Int)) => Ok((ColumnKind::IntKind, rest)),
        Token::Fixed(Terminal::Keyword(Keyword::Text)) => Ok((ColumnKind::TextKind, rest)),
        _ => Err(Stop::Token(first.at)),
    }
}

/// The comparison that comes first, and its offset.
#[tactic(auto, unfolding(crate::specs::Reading::take_at))]
pub(crate) fn cmp_at(tokens: &[Placed]) -> Result<((Cmp, u32), &[Placed]), Stop>
    ensures { Gives (λ x. (x.0, x.1.now)) result (take_at as_cmp tokens.now) }
{
    let (first, rest) = first_token(tokens)?;
    let at = first.at;
    match &first.token {
        Token::Fixed(Terminal::Equal) => Ok(((Cmp::Eq, at), rest)),
        Token::Fixed(Terminal::Unequal) => Ok(((Cmp::Ne, at), rest)),
        Token::Fixed(Terminal::Less) => Ok(((Cmp::Lt, at), rest)),
        Token::Fixed(Terminal::AtMost) => Ok(((Cmp::Le, at), rest)),
        Token::Fixed(Terminal::Greater) => Ok(((Cmp::Gt, at), rest)),
        Token::Fixed(Terminal::AtLeast) => Ok(((Cmp::Ge, at), rest)),
        _ => Err(Stop::Token(at)),
    }
}

/// The kind of an aggregate, whose keyword comes first.
#[tactic(auto, unfolding(crate::specs::Reading::take_at))]
pub(crate) fn agg_kind_at(tokens: &[Placed]) -> Result<(AggKind, &[Placed]), Stop>
    ensures { Gives (λ x. (x.0, x.1.now)) result (take_at as_agg tokens.now) }
{
    let (first, rest) = first_token(tokens)?;
    match &first.token {
        Token::Fixed(Terminal::Keyword(Keyword::Count)) => Ok((AggKind::Count, rest)),
        Token::Fixed(Terminal::Keyword(Keyword::Sum)) => Ok((AggKind::Sum, rest)),
        Token::Fixed(Terminal::Keyword(Keyword::Avg)) => Ok((AggKind::Avg, rest)),
        Token::Fixed(Terminal::Keyword(Keyword::Min)) => Ok((AggKind::Min, rest)),
        Token::Fixed(Terminal::Keyword(Keyword::Max)) => Ok((AggKind::Max, rest)),
        _ => Err(Stop::Token(first.at)),
    }
}

/// The offset of `VALID`, which has to come first.
#[tactic(auto, unfolding(crate::specs::Reading::take_at))]
pub(crate) fn valid_word_at(tokens: &[Placed]) -> Result<(u32, &[Placed]), Stop>
    ensures { Gives (λ x. (x.0, x.1.now)) result (take_at as_valid tokens.now) }
{
    let (first, rest) = first_token(tokens)?;
    match &first.token {
        Token::Fixed(Terminal::Keyword(Keyword::Valid)) => Ok((first.at, rest)),
        _ => Err(Stop::Token(first.at)),
    }
}

/// The offset of `VALID`, where it comes first, and the tokens after it.
#[tactic(auto, unfolding(crate::specs::Reading::peek_at))]
pub(crate) fn valid_word(tokens: &[Placed]) -> Option<(u32, &[Placed])>
    ensures { MatchOption result (peek_at as_valid tokens.now ≡ None)
        (λ x. peek_at as_valid tokens.now ≡ Some (x.0, x.1.now)) }
{
    match tokens {
        [] => None,
        [first, rest @ ..] => match &first.token {
            Token::Fixed(Terminal::Keyword(Keyword::Valid)) => Some((first.at, rest)),
            _ => None,
        },
    }
}

// Whether a token is this word.
fn is_soft(token: &Token, word: SoftWord) -> bool
    ensures { result ≡ is_soft word token.now }
{
    match token {
        Token::Word(text) => text.as_str() == soft_spelling(word),
        _ => false,
    }
}

/// The offset of a word that is a name elsewhere, which has to come first.
#[tactic(auto, unfolding(crate::specs::Reading::take_at))]
pub(crate) fn soft_word_at(tokens: &[Placed], word: SoftWord) -> Result<(u32, &[Placed]), Stop>
    ensures { Gives (λ x. (x.0, x.1.now)) result (take_at (as_soft word) tokens.now) }
{
    let (first, rest) = first_token(tokens)?;
    let at = first.at;
    if is_soft(&first.token, word) {
        Ok((at, rest))
    } else {
        Err(Stop::Token(at))
    }
}

/// The offset of a word that is a name elsewhere, where it comes first, and the tokens after it.
#[tactic(auto, unfolding(crate::specs::Reading::peek_at))]
pub(crate) fn soft_word(tokens: &[Placed], word: SoftWord) -> Option<(u32, &[Placed])>
    ensures { MatchOption result (peek_at (as_soft word) tokens.now ≡ None)
        (λ x. peek_at (as_soft word) tokens.now ≡ Some (x.0, x.1.now)) }
{
    match tokens {
        [] => None,
        [first, rest @ ..] => {
            if is_soft(&first.token, word) {
                Some((first.at, rest))
            } else {
                None
            }
        }
    }
}

#[tactic(auto, unfolding(crate::specs::Reading::last_of))]
fn last_of(statement: Statement, tokens: &[Placed]) -> Result<Statement, Stop>
    ensures { Gives (λ s. s) result (last_of statement tokens.now) }
{
    match tokens {
        [] => Ok(statement),
        [first, ..] => Err(Stop::Token(first.at)),
    }
}

/// The statement, where a `;` or nothing is left.
#[tactic(auto, unfolding(crate::specs::Reading::statement_end))]
pub(crate) fn statement_end(statement: Statement, tokens: &[Placed]) -> Result<Statement, Stop>
    ensures { Gives (λ s. s) result (statement_end statement tokens.now) }
{
    match after(tokens, Terminal::Semicolon) {
        Some(rest) => last_of(statement, rest),
        None => last_of(statement, tokens),
    }
}
