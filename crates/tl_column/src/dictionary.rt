//! Distinct texts by code, a code being the place of its text. Beside the texts stand runs of
//! codes in the order of their texts, few and each much longer than the next, in which a text is
//! found.
ghost use Rattle.std.specs.Prelude.{◌≡◌, ℕ, ◌+◌, ◌<◌, ◌≤◌, ◌^◌, ◌++◌, ◌∷◌, [], false, length, IfOk};
ghost use Rattle.tl_column.specs.Dictionary.{text_of, contains_text, code_in, with_text};

use crate::runs::{add_run, code_in_run};
use crate::text_list::TextList;
use std::alloc::Global;
use std::marker::Model;
use tl_shared::{Chunk, Shareable, share_all};
use tl_types::{NoMemory, Text};

// Distinct texts, each with its place in the list as its code. Contracts see the list. A code is
// looked up by its text in runs, of which each is at least eight times as long as the next when
// it is made.
#[derive(Drop)]
pub(crate) struct Dictionary {
    texts: TextList,
    runs: Vec<Chunk<u32>>,
}

impl Model for Dictionary {
    ghost use Rattle.std.specs.Prelude.{List, ℕ};
    ghost use Rattle.tl_column.specs.Runs.{IsLookUp};

    ghost Value = { List (List ℕ) };

    ghost view = { λ d. d.texts };

    ghost invariant = { λ d. IsLookUp d.texts d.runs.items };
}

impl Dictionary {
    /// No texts. `alloc` is the memory that it will take, none as yet.
    pub fn none(alloc: Global) -> Dictionary
        ensures { result ≡ [] }
    {
        Dictionary {
            texts: TextList::none(alloc),
            runs: Vec::new(alloc),
        }
    }

    /// How many texts there are.
    pub fn len(&self) -> u32
        requires { length self.now < 2 ^ 32 }
        ensures { result ≡ length self.now }
    {
        self.texts.len()
    }

    /// The text of a code.
    pub fn text(&self, code: u32) -> &str
        requires { code < length self.now }
        ensures text { result.now ≡ text_of self.now code }
        ensures short { length result.now ≤ 65535 }
    {
        self.texts.at(code)
    }

    /// The code of a text, none where it is none of the texts.
    pub fn code(&self, text: &str) -> Option<u32>
        ensures { result ≡ code_in self.now text.now }
    {
        'searching: for run in self.runs.as_slice() {
            if let Some(code) = code_in_run(&self.texts, run.as_slice(), text) {
                return Some(code);
            }
        }
        None
    }

    // The texts followed by a new one, whose code is `code`.
    fn followed_by(self, alloc: Global, code: u32, text: &Text) -> Result<Dictionary, NoMemory>
        requires code { code ≡ length self }
        requires new { contains_text self text.now ≡ false }
        ensures { IfOk result (λ dictionary. dictionary ≡ self ++ text.now ∷ []) }
    {
        let Dictionary { texts, mut runs } = self;
        let texts = texts.followed_by(alloc, text)?;
        add_run(alloc, &texts, &mut runs, vec![in alloc; code]?)?;
        Ok(Dictionary { texts, runs })
    }

    /// The texts with this one among them, and its code.
    pub fn with(self, alloc: Global, text: &Text) -> Result<(Dictionary, u32), NoMemory>
        requires { length self < 2 ^ 32 }
        ensures texts { IfOk result (λ found. found.0 ≡ with_text self text.now) }
        ensures valid { IfOk result (λ found. found.1 < length found.0) }
        ensures code { IfOk result (λ found. text_of found.0 found.1 ≡ text.now) }
    {
        match self.code(text.as_str()) {
            Some(code) => Ok((self, code)),
            None => {
                let code = self.len();
                Ok((self.followed_by(alloc, code, text)?, code))
            }
        }
    }

    /// The same texts, all of them shared.
    pub fn settle(self, alloc: Global) -> Result<Dictionary, NoMemory>
        ensures { IfOk result (λ dictionary. dictionary ≡ self) }
    {
        let Dictionary { texts, runs } = self;
        let texts = texts.settle(alloc)?;
        Ok(Dictionary { texts, runs })
    }
}

impl Shareable for Dictionary {
    fn share(&self, alloc: Global) -> Result<Dictionary, NoMemory> {
        Ok(Dictionary {
            texts: self.texts.share(alloc)?,
            runs: share_all(alloc, self.runs.as_slice())?,
        })
    }
}
