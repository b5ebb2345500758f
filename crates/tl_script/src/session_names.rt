//! The names of the sessions of a script, each found by its number and by its bytes. A name keeps
//! its number; those of a phase that is not run are left out again.
ghost use Rattle.std.specs.Prelude.{◌≡◌, ◌<◌, ◌≤◌, [], length, take, get_or, position, OnOk, OnErr};
ghost use Rattle.tl_types.specs.Names.{same_bytes};
ghost use Rattle.tl_script.specs.Phases.{session_number, with_name};

use indexmap::IndexSet;
use std::alloc::Global;
use std::marker::Model;
use tl_types::NoMemory;

/// The names of sessions, in order of number. A contract sees them as a list of their bytes.
#[derive(Drop)]
pub(crate) struct SessionNames {
    names: IndexSet<String>,
}

impl Model for SessionNames {
    ghost use Rattle.std.specs.Prelude.{ℕ, List, map};
    ghost use Rattle.std.specs.String.{string_bytes};

    ghost Value = { List (List ℕ) };

    ghost view = { λ s. map string_bytes s.names.keys };
}

impl SessionNames {
    /// No names. It takes no memory.
    pub(crate) fn new(alloc: Global) -> SessionNames
        ensures { result ≡ [] }
    {
        SessionNames {
            names: IndexSet::new(alloc),
        }
    }

    /// How many names there are.
    pub(crate) fn len(&self) -> usize
        ensures { result ≡ length self.now }
    {
        self.names.len()
    }

    /// The name of a session, by its number.
    pub(crate) fn name(&self, number: usize) -> &str
        requires { number < length self.now }
        ensures { result.now ≡ get_or self.now number [] }
    {
        self.names.as_slice()[number].as_str()
    }

    // The number of the session with this name, where there is one.
    fn place_of(&self, name: &str) -> Option<usize>
        ensures { result ≡ position (λ known. same_bytes known name.now) self.now }
    {
        self.names.get_index_of(name)
    }

    /// The number of the session with this name, or how many names there are where it is not among
    /// them.
    #[tactic(auto, using(crate::proofs::SpotLemmas::name_found, crate::proofs::SpotLemmas::name_not_found))]
    pub(crate) fn number_of(&self, name: &str) -> usize
        ensures number { result ≡ session_number self.now name.now }
        ensures bound { result ≤ length self.now }
    {
        match self.place_of(name) {
            Some(at) => at,
            None => self.len(),
        }
    }

    /// Puts a name behind the others, where it is not among them. The error is `NoMemory`, and
    /// leaves the names as they were.
    pub(crate) fn add(&mut self, alloc: Global, name: &str) -> Result<(), NoMemory>
        ensures added { OnOk result (self.new ≡ with_name self.old name.now) }
        ensures err { OnErr result (self.new ≡ self.old) }
    {
        self.names.insert(String::from_str(alloc, name)?)?;
        Ok(())
    }

    /// Leaves so many names, the first ones.
    pub(crate) fn truncate(&mut self, count: usize)
        ensures { self.new ≡ take count self.old }
    {
        self.names.truncate(count);
    }
}
