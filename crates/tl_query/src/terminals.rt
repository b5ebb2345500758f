//! The keywords and symbols of the language, and its words that are names elsewhere.
ghost use Rattle.std.specs.Prelude.{◌≡◌};
ghost use Rattle.tl_query.specs.Terminals.{same_terminal, soft_spelling, spelling};

use tl_types::Keyword;

/// A keyword or a symbol. `spelling` says how it is written.
#[derive(Clone, Copy, PartialEq, Eq)]
pub(crate) enum Terminal {
    Keyword(Keyword),
    /// `(`.
    Open,
    /// `)`.
    Close,
    /// `,`.
    Comma,
    /// `;`.
    Semicolon,
    /// `*`.
    Star,
    /// `=`.
    Equal,
    /// `<>`.
    Unequal,
    /// `<`.
    Less,
    /// `<=`.
    AtMost,
    /// `>`.
    Greater,
    /// `>=`.
    AtLeast,
}

/// Whether two terminals are the same.
pub(crate) fn same_terminal(left: Terminal, right: Terminal) -> bool
    ensures { result ≡ same_terminal left right }
{
    left == right
}

/// How a terminal is spelled.
#[tactic(auto, unfolding(crate::specs::Terminals::spelling))]
pub(crate) fn spelling(terminal: Terminal) -> &'static str
    ensures { result.now ≡ spelling terminal }
{
    match terminal {
        Terminal::Keyword(keyword) => keyword.spelling(),
        Terminal::Open => "(",
        Terminal::Close => ")",
        Terminal::Comma => ",",
        Terminal::Semicolon => ";",
        Terminal::Star => "*",
        Terminal::Equal => "=",
        Terminal::Unequal => "<>",
        Terminal::Less => "<",
        Terminal::AtMost => "<=",
        Terminal::Greater => ">",
        Terminal::AtLeast => ">=",
    }
}

/// A word that is a keyword at its places alone, and a name elsewhere.
#[derive(Clone, Copy)]
pub(crate) enum SoftWord {
    /// `MOMENT`, at the start of a statement and after `AS OF`.
    Moment,
    /// `FORGET`, at the start of a statement.
    Forget,
    /// `BEFORE`, after the table of a `FORGET`.
    Before,
    /// `SYNC`, at the start of a statement.
    Sync,
}

/// How such a word is spelled.
#[tactic(auto, unfolding(crate::specs::Terminals::soft_spelling))]
pub(crate) fn soft_spelling(word: SoftWord) -> &'static str
    ensures { result.now ≡ soft_spelling word }
{
    match word {
        SoftWord::Moment => "MOMENT",
        SoftWord::Forget => "FORGET",
        SoftWord::Before => "BEFORE",
        SoftWord::Sync => "SYNC",
    }
}
