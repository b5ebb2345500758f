//! The world: the entries of a history, and what each pass has seen of them. A step that is not
//! allowed changes nothing, and says so.
ghost use Rattle.std.specs.Prelude.{◌≡◌, ◌≤◌, IsTrue, IfOk, OnOk, OnErr, length, replicate, slice_get, slice_set};
ghost use Rattle.tl_types.specs.Entries.{commit_of, commits_of};
ghost use Rattle.tl_types.specs.declared.commits.Entry.TheVariants as entry;
ghost use Rattle.tl_core.specs.declared.steps.Step.TheVariants as step;
ghost use Rattle.tl_types.specs.Legality.{are_legal, has_table, may_follow, takes_commit, version_at};
ghost use Rattle.tl_core.specs.World.{IsLegal, IsLegalBuild, IsLegalPass, start_of, allows, appended, after_step, after_allowed, after_steps, build_of, has_pass, may_mark, pass_at};
ghost use Rattle.tl_core.specs.Law.{GoesOn};
ghost use Rattle.tl_core.specs.Kept.{seen_at};

use crate::entries::{count_behind, has_mark, store_of, takes_commit};
use crate::passes::{Build, PassState};
use crate::steps::Step;
use std::alloc::Global;
use std::marker::Model;
use tl_store::Store;
use tl_types::{Commit, Entry, NoMemory, Seq, has_break};

/// The entries of a history, and of each pass how many of them it has seen and which checkpoint it
/// builds. It is always legal: each entry may stand behind those before it, no pass has seen more
/// than there is, and each build stands on what its pass has seen.
#[derive(Drop)]
pub struct World {
    entries: Seq<Entry>,
    passes: Vec<PassState>,
    store: Store,
    broken: bool,
}

impl Model for World {
    ghost use Rattle.tl_core.specs.World as plain;
    ghost use Rattle.tl_core.specs.Kept.{IsKept};

    ghost Value = { plain.World };

    ghost view = { λ w. record { entries = w.entries; passes = w.passes.items } };

    ghost invariant = { λ w. IsKept w.entries w.passes.items w.store w.broken };
}

impl World {
    /// The world of these entries, which are legal (`is_legal` tells), with so many passes, each of
    /// which has seen all entries and builds nothing. The error is `NoMemory`.
    pub fn start(alloc: Global, entries: Seq<Entry>, passes: u32) -> Result<World, NoMemory>
        requires { IsTrue (are_legal entries) }
        ensures value { IfOk result (λ world. world ≡ start_of entries passes) }
        ensures legal { IfOk result (λ world. IsLegal world) }
    {
        let store = store_of(alloc, entries.as_slice())?;
        let seen = entries.len() as u64;
        let passes = all_at(alloc, seen, passes)?;
        Ok(made(entries, passes, store))
    }

    /// The entries, in order.
    pub fn entries(&self) -> &[Entry]
        ensures value { result.now ≡ self.now.entries }
        ensures legal { IsLegal self.now }
    {
        self.entries.as_slice()
    }

    /// The passes, by their numbers.
    pub fn passes(&self) -> &[PassState]
        ensures value { result.now ≡ self.now.passes }
        ensures legal { IsLegal self.now }
    {
        self.passes.as_slice()
    }

    /// Whether a step is allowed: the pass that it names exists; the commit that it brings fits,
    /// and no break is among the entries; the table that it names exists; the build that it ends
    /// is there, no break is among the entries, and no mark of the same table and version.
    pub fn allows(&self, step: &Step) -> bool
        ensures { result ≡ allows self.now step.now }
    {
        match step {
            Step::Read { pass } => self.has_pass(*pass),
            Step::Publish { commit } => self.takes_commit(commit),
            Step::Begin { pass, table } => self.has_pass(*pass) && self.has_table(*table),
            Step::Mark { pass } => self.may_mark(*pass),
            Step::Break { commit } => self.takes_commit(commit),
        }
    }

    fn has_pass(&self, pass: u32) -> bool
        ensures { result ≡ has_pass self.now pass }
    {
        (pass as usize) < self.passes.len()
    }

    fn has_table(&self, table: u16) -> bool
        ensures { result ≡ has_table self.now.entries table }
    {
        table < self.store.tables()
    }

    fn takes_commit(&self, commit: &Commit) -> bool
        ensures { result ≡ takes_commit self.now.entries commit.now }
    {
        takes_commit(&self.store, self.broken, commit)
    }

    // What the pass with this number builds.
    fn build_of(&self, pass: u32) -> Option<Build>
        ensures value { result ≡ build_of self.now pass }
        ensures legal { IsLegalBuild self.now.entries (length self.now.entries) result }
    {
        match self.passes.get(pass as usize) {
            Some(state) => state.build,
            None => None,
        }
    }

    // How many entries the pass with this number has seen, none where it does not exist.
    fn seen_by(&self, pass: u32) -> u64
        ensures value { result ≡ seen_at (slice_get self.now.passes pass) }
        ensures within { result ≤ length self.now.entries }
    {
        match self.passes.get(pass as usize) {
            Some(state) => state.seen,
            None => 0,
        }
    }

    // The number of commits among the first entries, as many as a build's base says.
    fn version_at(&self, base: u64) -> u32
        requires { base ≤ length self.now.entries }
        ensures { result ≡ version_at self.now.entries base }
    {
        let behind = count_behind(self.entries.as_slice(), base as usize);
        self.store.versions() - behind as u32
    }

    fn may_mark(&self, pass: u32) -> bool
        ensures { result ≡ may_mark self.now.entries (build_of self.now pass) }
    {
        match self.build_of(pass) {
            Some(build) => {
                let version = self.version_at(build.base);
                !self.broken && !has_mark(self.entries.as_slice(), build.table, version)
            }
            None => false,
        }
    }

    /// Does a step that is allowed. The error is `NoMemory`, and leaves the world as it was.
    pub fn step(&mut self, alloc: Global, step: Step) -> Result<(), NoMemory>
        requires { IsTrue (allows self.old step) }
        ensures ok { OnOk result (self.new ≡ after_step self.old step) }
        ensures err { OnErr result (self.new ≡ self.old) }
        ensures legal { IsLegal self.new }
    {
        match step {
            Step::Read { pass } => {
                self.read(pass);
                Ok(())
            }
            Step::Publish { commit } => {
                self.publish(alloc, commit)?;
                Ok(())
            }
            Step::Begin { pass, table } => {
                self.begin(pass, table);
                Ok(())
            }
            Step::Mark { pass } => {
                self.mark(pass)?;
                Ok(())
            }
            Step::Break { commit } => {
                self.append(Entry::Break { commit })?;
                Ok(())
            }
        }
    }

    // A pass sees all entries.
    fn read(&mut self, pass: u32)
        requires { IsTrue (has_pass self.old pass) }
        ensures value { self.new ≡ after_step self.old (step.Read pass) }
        ensures legal { IsLegal self.new }
    {
        let seen = self.entries.len() as u64;
        let build = self.build_of(pass);
        self.put_pass(pass, PassState { seen, build });
    }

    // A pass sees all entries, and begins the checkpoint of a table on them.
    fn begin(&mut self, pass: u32, table: u16)
        requires pass { IsTrue (has_pass self.old pass) }
        requires table { IsTrue (has_table self.old.entries table) }
        ensures value { self.new ≡ after_step self.old (step.Begin pass table) }
        ensures legal { IsLegal self.new }
    {
        let seen = self.entries.len() as u64;
        let build = Build { table, base: seen };
        self.put_pass(
            pass,
            PassState {
                seen,
                build: Some(build),
            },
        );
    }

    // A pass is in another state.
    fn put_pass(&mut self, pass: u32, state: PassState)
        requires pass { IsTrue (has_pass self.old pass) }
        requires legal { IsLegalPass self.old.entries state }
        ensures { self.new ≡ record self.old { passes = slice_set self.old.passes pass state } }
    {
        self.passes[pass as usize] = state;
    }

    // Appends a commit.
    fn publish(&mut self, alloc: Global, commit: Commit) -> Result<(), NoMemory>
        requires { IsTrue (takes_commit self.old.entries commit) }
        ensures ok { OnOk result (self.new ≡ appended self.old (entry.Commit commit)) }
        ensures err { OnErr result (self.new ≡ self.old) }
        ensures legal { IsLegal self.new }
    {
        let store = self.store.apply(alloc, &commit)?;
        self.entries.push(Entry::Commit(commit))?;
        self.store = store;
        Ok(())
    }

    // Appends an entry that is no commit.
    fn append(&mut self, entry: Entry) -> Result<(), NoMemory>
        requires may { IsTrue (may_follow self.old.entries entry) }
        requires other { commit_of entry ≡ None }
        ensures ok { OnOk result (self.new ≡ appended self.old entry) }
        ensures err { OnErr result (self.new ≡ self.old) }
        ensures legal { IsLegal self.new }
    {
        let broken = entry.is_break();
        self.entries.push(entry)?;
        self.broken = broken;
        Ok(())
    }

    // The build of a pass ends in a mark.
    fn mark(&mut self, pass: u32) -> Result<(), NoMemory>
        requires { IsTrue (allows self.old (step.Mark pass)) }
        ensures ok { OnOk result (self.new ≡ after_step self.old (step.Mark pass)) }
        ensures err { OnErr result (self.new ≡ self.old) }
        ensures legal { IsLegal self.new }
    {
        let Some(build) = self.build_of(pass) else {
            return Ok(());
        };
        let at = self.version_at(build.base);
        let seen = self.seen_by(pass);
        self.append(Entry::Mark {
            table: build.table,
            version: at,
        })?;
        self.put_pass(pass, PassState { seen, build: None });
        Ok(())
    }

    /// The world after these steps, those that are not allowed passed over. The error is
    /// `NoMemory`.
    pub fn run(self, alloc: Global, steps: Seq<Step>) -> Result<World, NoMemory>
        ensures value { IfOk result (λ world. world ≡ after_steps self steps) }
        ensures law { IfOk result (λ world. GoesOn self world) }
    {
        let _ = &self.entries; // says what holds of each world
        let mut world = self;
        for step in steps.into_vec() {
            world.step_if_allowed(alloc, step)?;
        }
        Ok(world)
    }

    // Does a step where it is allowed.
    fn step_if_allowed(&mut self, alloc: Global, step: Step) -> Result<(), NoMemory>
        ensures ok { OnOk result (self.new ≡ after_allowed self.old step) }
    {
        if self.allows(&step) {
            self.step(alloc, step)?;
        }
        Ok(())
    }
}

// So many passes, each of which has seen so many entries.
fn all_at(alloc: Global, seen: u64, passes: u32) -> Result<Vec<PassState>, NoMemory>
    ensures { IfOk result (λ states. states.items ≡ replicate passes (pass_at seen)) }
{
    let state = PassState { seen, build: None };
    vec![in alloc; state; passes as usize]
}

// The world of these parts, which stand for the same entries.
fn made(entries: Seq<Entry>, passes: Vec<PassState>, store: Store) -> World
    requires commits { store ≡ commits_of entries }
    requires legal { IsLegal (record { entries = entries; passes = passes.items }) }
    ensures { result ≡ record { entries = entries; passes = passes.items } }
{
    let broken = has_break(entries.as_slice());
    World {
        entries,
        passes,
        store,
        broken,
    }
}
