//! A list of texts that grows at its end: the first ones in chunks that further lists share, and
//! the fresh ones behind them until they are settled.
ghost use Rattle.std.specs.Prelude.{◌≡◌, ◌<◌, ◌≤◌, ◌^◌, ◌++◌, ◌∷◌, [], length, IfOk};
ghost use Rattle.tl_column.specs.Dictionary.{text_of};

use std::alloc::Global;
use std::marker::Model;
use tl_shared::{Shareable, Shared, SharedList};
use tl_types::{NoMemory, Text};

// Texts of which the first are shared, and those behind them are not yet. Contracts see the list
// of them all.
#[derive(Drop)]
pub(crate) struct TextList {
    settled: SharedList<Shared<Text>>,
    fresh: Vec<Shared<Text>>,
}

impl Model for TextList {
    ghost use Rattle.std.specs.Prelude.{List, ℕ, ◌++◌};

    ghost Value = { List (List ℕ) };

    ghost view = { λ t. t.settled ++ t.fresh.items };
}

impl TextList {
    /// No texts. `alloc` is the memory that it will take, none as yet.
    pub fn none(alloc: Global) -> TextList
        ensures { result ≡ [] }
    {
        TextList {
            settled: SharedList::none(alloc),
            fresh: Vec::new(alloc),
        }
    }

    /// How many texts there are.
    pub fn len(&self) -> u32
        requires { length self.now < 2 ^ 32 }
        ensures { result ≡ length self.now }
    {
        (self.settled.len() + self.fresh.len() as u64) as u32
    }

    /// The text at `code`, counted from 0.
    pub fn at(&self, code: u32) -> &str
        requires { code < length self.now }
        ensures text { result.now ≡ text_of self.now code }
        ensures short { length result.now ≤ 65535 }
    {
        let code = code as u64;
        if code < self.settled.len() {
            return self.settled.at(code).get().as_str();
        }
        self.fresh[(code - self.settled.len()) as usize]
            .get()
            .as_str()
    }

    /// The list followed by a text.
    pub fn followed_by(self, alloc: Global, text: &Text) -> Result<TextList, NoMemory>
        ensures { IfOk result (λ texts. texts ≡ self ++ text.now ∷ []) }
    {
        let TextList { settled, mut fresh } = self;
        fresh.push(Shared::new(alloc, text.clone()?)?)?;
        Ok(TextList { settled, fresh })
    }

    /// The same texts, all of them shared.
    pub fn settle(self, alloc: Global) -> Result<TextList, NoMemory>
        ensures { IfOk result (λ texts. texts ≡ self) }
    {
        if self.fresh.is_empty() {
            return Ok(self);
        }
        Ok(TextList {
            settled: self.settled.push_all(alloc, self.fresh.as_slice())?,
            fresh: Vec::new(alloc),
        })
    }
}

impl Shareable for TextList {
    fn share(&self, alloc: Global) -> Result<TextList, NoMemory> {
        Ok(TextList {
            settled: self.settled.push_all(alloc, self.fresh.as_slice())?,
            fresh: Vec::new(alloc),
        })
    }
}
