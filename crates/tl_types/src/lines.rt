//! Texts of any length: the text of a statement, where a `Text` ends at 65,535 bytes.
ghost use Rattle.std.specs.Prelude.{◌≡◌, ◌<◌, length, IfOk, IsUtf8};

use crate::NoMemory;
use std::alloc::Global;
use std::marker::Model;

/// A text of any length in UTF-8. A contract sees it as its bytes.
#[derive(Debug, Drop)]
pub struct Line {
    text: String,
}

impl Model for Line {
    ghost use Rattle.std.specs.Prelude.{ℕ, List};
    ghost use Rattle.std.specs.String.{string_bytes};

    ghost Value = { List ℕ };

    ghost view = { λ t. string_bytes t.text };
}

impl Line {
    /// A copy of a text. The error is `NoMemory`.
    pub fn new(alloc: Global, text: &str) -> Result<Line, NoMemory>
        ensures { IfOk result (λ t. t ≡ text.now) }
    {
        Ok(Line {
            text: String::from_str(alloc, text)?,
        })
    }

    /// The text, lent.
    pub fn as_str(&self) -> &str
        ensures bytes { result.now ≡ self.now }
        ensures utf8 { IsUtf8 self.now }
    {
        self.text.as_str()
    }
}
