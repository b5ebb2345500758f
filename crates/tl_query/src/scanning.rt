//! Cutting a text into tokens: words, numbers, texts and the longest symbols. It ends at the first
//! byte that begins no token, a text that is not closed, or a number that is no i64.
ghost use Rattle.std.specs.Prelude.{◌≡◌, ◌+◌, ◌-◌, ◌^◌, ◌<◌, ◌≤◌, length, min, IfOk, Some, None, Ok, Err, true, false, pos, neg_ℤ};
ghost use Rattle.std.specs.List.{prefix_len};
ghost use Rattle.std.specs.Str.{IsUtf8};
ghost use Rattle.tl_types.specs.Names.{is_digit, continues_word};
ghost use Rattle.tl_query.specs.Scanning.{
  is_blank,
  digits_value,
  other_token,
  word_token,
  word_piece,
  number_piece,
  negative_piece,
  closing_len,
  single_quotes,
  text_token,
  quoted_piece,
  symbol,
  less_piece,
  greater_piece,
  symbol_piece,
  piece_of,
  placed_token,
  tokens_seen,
  scan,
};

use crate::faults::TextFault;
use crate::terminals::Terminal;
use crate::tokens::{Placed, Token};
use std::alloc::Global;
use tl_types::{Keyword, NoMemory, Text, begins_word, continues_word, is_name};

/// How many bytes a text constant can have.
const MOST_TEXT_BYTES: usize = 65535;

/// The token that some bytes begin with.
#[derive(Drop)]
pub(crate) struct Piece {
    /// What stands there.
    pub token: Token,
    /// How many bytes it has.
    pub len: usize,
    /// Whether it is a word, a number or a text, of which none may directly follow another.
    pub joins: bool,
}

fn is_blank(byte: u8) -> bool
    ensures { result ≡ is_blank byte }
{
    byte == b' ' || byte == b'\t'
}

fn is_digit(byte: u8) -> bool
    ensures { result ≡ is_digit byte }
{
    byte >= b'0' && byte <= b'9'
}

fn word_len(bytes: &[u8]) -> usize
    ensures { result ≡ prefix_len continues_word bytes.now }
{
    bytes
        .iter()
        .take_while(|byte| continues_word(**byte))
        .count()
}

fn digit_count(bytes: &[u8]) -> usize
    ensures { result ≡ prefix_len is_digit bytes.now }
{
    bytes.iter().take_while(|byte| is_digit(**byte)).count()
}

// The number that the digits spell, or the greatest u64 where it is greater.
fn digits_value(digits: &[u8]) -> u64
    ensures { result ≡ min (digits_value digits.now) (2 ^ 64 - 1) }
{
    let mut number: u64 = 0;
    for digit in digits {
        number = number
            .saturating_mul(10)
            .saturating_add(u64::from(digit.saturating_sub(b'0')));
    }
    number
}

#[tactic(auto, unfolding(crate::specs::Scanning::other_token))]
fn other_token(alloc: Global, word: &str) -> Result<Token, NoMemory>
    ensures { IfOk result (λ token. token ≡ other_token word.now) }
{
    if !is_name(word) {
        return Ok(Token::Stray);
    }
    Ok(Token::Word(Text::new(alloc, word)?))
}

#[tactic(auto, unfolding(crate::specs::Scanning::word_token))]
fn word_token(alloc: Global, word: &str) -> Result<Token, NoMemory>
    ensures { IfOk result (λ token. token ≡ word_token word.now) }
{
    match Keyword::of(word) {
        Some(keyword) => Ok(Token::Fixed(Terminal::Keyword(keyword))),
        None => other_token(alloc, word),
    }
}

// The text that bytes of UTF-8 are.
fn as_text(bytes: &[u8]) -> &str
    requires { IsUtf8 bytes.now }
    ensures { result.now ≡ bytes.now }
{
    match str::from_utf8(bytes) {
        Ok(text) => text,
        Err(_) => unreachable!(),
    }
}

#[tactic(auto, unfolding(crate::specs::Scanning::word_piece))]
fn word_piece(alloc: Global, bytes: &[u8]) -> Result<Piece, NoMemory>
    ensures { IfOk result (λ piece. piece ≡ word_piece bytes.now) }
{
    let len = word_len(bytes);
    let (word, _) = bytes.split_at(len);
    let token = word_token(alloc, as_text(word))?;
    let joins = true;
    Ok(Piece { token, len, joins })
}

#[tactic(auto, unfolding(crate::specs::Scanning::number_piece))]
fn number_piece(at: u32, bytes: &[u8]) -> Result<Piece, TextFault>
    ensures { result ≡ number_piece at bytes.now }
{
    let len = digit_count(bytes);
    let (digits, _) = bytes.split_at(len);
    let number = digits_value(digits);
    if number >= 1 << 63 {
        return Err(TextFault::NumberTooLarge { at });
    }
    let value = number as i64;
    let token = Token::Number(value);
    let joins = true;
    Ok(Piece { token, len, joins })
}

// The number, below 0.
fn negative(number: u64) -> i64
    requires { number ≤ 2 ^ 63 }
    ensures { result ≡ neg_ℤ (pos number) }
{
    if number == 1 << 63 {
        return i64::MIN;
    }
    -(number as i64)
}

// The number behind a minus sign: its digits alone would not tell the least one.
#[tactic(auto, unfolding(crate::specs::Scanning::negative_piece))]
fn negative_piece(at: u32, bytes: &[u8]) -> Result<Piece, TextFault>
    requires { length bytes.now < 2 ^ 32 }
    ensures { result ≡ negative_piece at bytes.now }
{
    let count = digit_count(bytes);
    if count == 0 {
        return Err(TextFault::BadByte { at });
    }
    let (digits, _) = bytes.split_at(count);
    let number = digits_value(digits);
    if number > 1 << 63 {
        return Err(TextFault::NumberTooLarge { at });
    }
    let token = Token::Negative(negative(number));
    let len = count + 1;
    let joins = true;
    Ok(Piece { token, len, joins })
}

// How many bytes of a text constant follow its opening quote, with the quote that closes it.
fn closing_len(bytes: &[u8]) -> Option<usize>
    ensures { result ≡ closing_len false bytes.now }
{
    let mut quoted = false;
    for (i, byte) in bytes.iter().enumerate() {
        if *byte == b'\'' {
            quoted = !quoted;
        } else if quoted {
            return Some(i);
        }
    }
    if quoted { Some(bytes.len()) } else { None }
}

// The bytes between the quotes of a text constant, with one quote for two.
#[tactic(auto, unfolding(crate::specs::Scanning::single_quotes))]
fn single_quotes(alloc: Global, bytes: &[u8]) -> Result<Vec<u8>, NoMemory>
    ensures { IfOk result (λ text. text.items ≡ single_quotes false bytes.now) }
{
    let mut text = Vec::new(alloc);
    let mut kept = false;
    for byte in bytes {
        if kept && *byte == b'\'' {
            kept = false;
        } else {
            text.push(*byte)?;
            kept = !kept && *byte == b'\'';
        }
    }
    Ok(text)
}

#[tactic(auto, unfolding(crate::specs::Scanning::text_token))]
fn text_token(alloc: Global, bytes: &[u8]) -> Result<Token, NoMemory>
    requires { IsUtf8 bytes.now }
    ensures { IfOk result (λ token. token ≡ text_token bytes.now) }
{
    let text = as_text(bytes);
    if text.len() > MOST_TEXT_BYTES {
        return Ok(Token::Stray);
    }
    Ok(Token::Quoted(Text::new(alloc, text)?))
}

#[tactic(auto, unfolding(crate::specs::Scanning::quoted_piece))]
fn quoted_piece(alloc: Global, at: u32, bytes: &[u8]) -> Result<Result<Piece, TextFault>, NoMemory>
    requires short { length bytes.now < 2 ^ 32 }
    requires utf8 { IsUtf8 bytes.now }
    ensures { IfOk result (λ piece. piece ≡ quoted_piece at bytes.now) }
{
    let Some(count) = closing_len(bytes) else {
        return Ok(Err(TextFault::OpenText { at }));
    };
    let (inside, _) = bytes.split_at(count.saturating_sub(1));
    let text = single_quotes(alloc, inside)?;
    let token = text_token(alloc, text.as_slice())?;
    let len = count + 1;
    let joins = true;
    Ok(Ok(Piece { token, len, joins }))
}

fn symbol(terminal: Terminal, len: usize) -> Piece
    ensures { result ≡ symbol terminal len }
{
    let token = Token::Fixed(terminal);
    let joins = false;
    Piece { token, len, joins }
}

fn less_piece(bytes: &[u8]) -> Piece
    ensures { result ≡ less_piece bytes.now }
{
    match bytes {
        [b'>', ..] => symbol(Terminal::Unequal, 2),
        [b'=', ..] => symbol(Terminal::AtMost, 2),
        _ => symbol(Terminal::Less, 1),
    }
}

fn greater_piece(bytes: &[u8]) -> Piece
    ensures { result ≡ greater_piece bytes.now }
{
    match bytes {
        [b'=', ..] => symbol(Terminal::AtLeast, 2),
        _ => symbol(Terminal::Greater, 1),
    }
}

// The token that begins with a byte that is no letter, digit or quote.
#[tactic(auto, unfolding(crate::specs::Scanning::symbol_piece))]
fn symbol_piece(at: u32, first: u8, bytes: &[u8]) -> Result<Piece, TextFault>
    ensures { result ≡ symbol_piece at first bytes.now }
{
    match first {
        b'(' => Ok(symbol(Terminal::Open, 1)),
        b')' => Ok(symbol(Terminal::Close, 1)),
        b',' => Ok(symbol(Terminal::Comma, 1)),
        b';' => Ok(symbol(Terminal::Semicolon, 1)),
        b'*' => Ok(symbol(Terminal::Star, 1)),
        b'=' => Ok(symbol(Terminal::Equal, 1)),
        b'<' => Ok(less_piece(bytes)),
        b'>' => Ok(greater_piece(bytes)),
        _ => Err(TextFault::BadByte { at }),
    }
}

// The token that a text of at most 65,536 bytes begins with, or its fault.
#[tactic(auto, unfolding(crate::specs::Scanning::piece_at))]
fn piece_of(alloc: Global, at: u32, bytes: &[u8]) -> Result<Result<Piece, TextFault>, NoMemory>
    requires short { length bytes.now < 2 ^ 32 }
    requires utf8 { IsUtf8 bytes.now }
    ensures { IfOk result (λ piece. piece ≡ piece_of at bytes.now) }
{
    let [first, others @ ..] = bytes else {
        return Ok(Err(TextFault::BadByte { at }));
    };
    if begins_word(*first) {
        let piece = word_piece(alloc, bytes)?;
        return Ok(Ok(piece));
    }
    if is_digit(*first) {
        return Ok(number_piece(at, bytes));
    }
    if *first == b'-' {
        return Ok(negative_piece(at, others));
    }
    if *first == b'\'' {
        return quoted_piece(alloc, at, others);
    }
    Ok(symbol_piece(at, *first, others))
}

// A piece at its place; one that is joined to the piece before it, as no two may be, is stray.
fn placed_token(at: u32, joined: bool, piece: Piece) -> Placed
    ensures { result ≡ placed_token at joined piece }
{
    let Piece {
        token,
        len: _,
        joins,
    } = piece;
    if joined && joins {
        let token = Token::Stray;
        Placed { token, at }
    } else {
        Placed { token, at }
    }
}

/// The tokens of a text up to its first fault, and that fault.
#[derive(Drop)]
pub(crate) struct Scanned {
    /// The tokens in order.
    pub tokens: Vec<Placed>,
    /// The fault of what follows them, where there is one.
    pub fault: Option<TextFault>,
}

/// The tokens of a text of at most 65,536 bytes. The error is that memory ran out.
pub(crate) fn scan(alloc: Global, bytes: &[u8]) -> Result<Scanned, NoMemory>
    requires short { length bytes.now ≤ 65536 }
    requires utf8 { IsUtf8 bytes.now }
    ensures { IfOk result (λ read. tokens_seen read ≡ scan 0 false 0 bytes.now) }
{
    let mut tokens = Vec::new(alloc);
    let mut rest = bytes;
    let mut at: u32 = 0;
    let mut joined = false;
    'tokens: while !rest.is_empty() {
        if is_blank(rest[0]) {
            (_, rest) = rest.split_at(1);
            at += 1;
            joined = false;
            continue;
        }
        match piece_of(alloc, at, rest)? {
            Err(fault) => {
                let fault = Some(fault);
                return Ok(Scanned { tokens, fault });
            }
            Ok(piece) => {
                let len = piece.len;
                let joins = piece.joins;
                tokens.push(placed_token(at, joined, piece))?;
                (_, rest) = rest.split_at(len);
                at += len as u32;
                joined = joins;
            }
        }
    }
    let fault = None;
    Ok(Scanned { tokens, fault })
}
