//! The tokens of a text, each with the byte offset at which it begins.
use crate::terminals::Terminal;
use tl_types::Text;

/// What a statement's text is cut into, but for the spaces and tabs between.
#[derive(Drop)]
pub(crate) enum Token {
    /// A keyword or a symbol.
    Fixed(Terminal),
    /// A name: a word of 1 to 64 bytes that is no keyword.
    Word(Text),
    /// A number spelled without `-`.
    Number(i64),
    /// A number spelled with `-`, which may be 0.
    Negative(i64),
    /// A text constant: the text that it stands for.
    Quoted(Text),
    /// What can stand nowhere: a word too long for a name, a text too long for a cell, or a word,
    /// number or text that directly follows one.
    Stray,
}

/// A token and where it stands.
#[derive(Drop)]
pub(crate) struct Placed {
    /// What stands there.
    pub token: Token,
    /// The byte offset of its first byte.
    pub at: u32,
}
