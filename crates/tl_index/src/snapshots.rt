//! The snapshot, and the one after a further commit, mark or break. It keeps what is made of its
//! entries beside them; nothing follows a break, and no mark comes twice.
ghost use Rattle.std.specs.Prelude.{◌≡◌, ◌<◌, ◌≤◌, ◌++◌, ◌∷◌, ◌-◌, [], ℕ, false, length, IsTrue, IfOk};
ghost use Rattle.tl_types.specs.Entries.{commits_of, has_break};
ghost use Rattle.tl_types.specs.History.{database_of, fits, rows_of};
ghost use Rattle.tl_types.specs.Events.{events_of, place_of};
ghost use Rattle.tl_events.specs.Timeline.{ends_of};
ghost use Rattle.tl_types.specs.WellFormed.{AreWellFormed, BeginInOrder};
ghost use Rattle.tl_types.specs.Marks.{due, last_mark, events_since_mark};
ghost use Rattle.tl_ckpt.specs.Marks.{marks_for, ClimbStrictly};
ghost use Rattle.tl_types.specs.Limits.{standard_limits};
ghost use Rattle.tl_types.specs.Legality.{are_legal, has_mark};
ghost use Rattle.tl_types.specs.Checkpoints.{checkpoint_at};
ghost use Rattle.tl_index.specs.Snapshots.{commit_entry, break_entry, mark_entry, marks_of};

use crate::marked::MarkAt;
use crate::timelines::{Timelines, timelines_after};
use std::alloc::{AllocError, Global};
use std::marker::{Brand, Model};
use std::sync::ledger::{Blank, Ledger};
use tl_ckpt::{Checkpoint, Marks};
use tl_events::{EventList, VersionMap};
use tl_shared::{FineList, Shareable, Shared};
use tl_store::Store;
use tl_types::{Commit, NoMemory, Published, Steps};

/// What a history is at one moment: its commits with the tables that they make, and the break
/// where there is one. Contracts see the list of entries. No call changes a snapshot: a further
/// entry gives a further one, which shares with the older one what the entry leaves as it was.
#[derive(Drop)]
pub struct Snapshot {
    store: Shared<Store>,
    timelines: Shared<Timelines>,
    log: Shared<FineList<MarkAt>>,
    marks: Shared<Marks>,
    broken: Option<Shared<Commit>>,
    alloc: Global,
}

impl Model for Snapshot {
    ghost use Rattle.std.specs.Prelude.{List};
    ghost use Rattle.tl_types.specs.declared.commits.Entry.{Entry};

    ghost Value = { List Entry };

    ghost use Rattle.tl_index.specs.Snapshots.{entries_of, IsKept};

    ghost view = { λ s. entries_of s.store s.log s.broken };

    ghost invariant = { λ s. IsKept s.store s.log s.broken s.timelines s.marks };
}

impl Snapshot {
    /// The snapshot without entries. `alloc` is the memory that it and those after it take. The
    /// error is `NoMemory`.
    pub fn empty(alloc: Global) -> Result<Snapshot, NoMemory>
        ensures { IfOk result (λ snapshot. snapshot ≡ []) }
    {
        Ok(Snapshot {
            store: Shared::new(alloc, Store::empty(alloc))?,
            timelines: Shared::new(alloc, Timelines::none(alloc))?,
            log: Shared::new(alloc, FineList::none(alloc))?,
            marks: Shared::new(alloc, Marks::none(alloc))?,
            broken: None,
            alloc,
        })
    }

    /// The snapshot after a commit that fits, where there is no break. This one stays as it was.
    /// The error is `NoMemory`.
    pub fn apply(&self, alloc: Global, commit: &Commit) -> Result<Snapshot, NoMemory>
        requires whole { has_break self.now ≡ false }
        requires fit { IsTrue (fits standard_limits
            (database_of (commits_of self.now)) commit.now) }
        ensures { IfOk result (λ snapshot. snapshot ≡ self.now ++ commit_entry commit.now ∷ []) }
    {
        self.share()?.follow(alloc, commit)
    }

    /// The snapshot after a commit that fits, where there is no break, which takes this one over:
    /// what of it has no other owner is not copied. The error is `NoMemory`.
    pub fn follow(self, alloc: Global, commit: &Commit) -> Result<Snapshot, NoMemory>
        requires whole { has_break self ≡ false }
        requires fit { IsTrue (fits standard_limits
            (database_of (commits_of self)) commit.now) }
        ensures { IfOk result (λ snapshot. snapshot ≡ self ++ commit_entry commit.now ∷ []) }
    {
        let Snapshot {
            store,
            timelines,
            log,
            marks,
            broken: _,
            alloc: _,
        } = self;
        let timelines = timelines.take(alloc)?;
        let after = timelines_after(alloc, store.get(), timelines, commit)?;
        let next = store.take(alloc)?.follow(alloc, commit)?;
        Ok(Snapshot {
            store: Shared::new(alloc, next)?,
            timelines: Shared::new(alloc, after)?,
            log,
            marks,
            broken: None,
            alloc,
        })
    }

    /// The snapshot after the break of a commit that fits, where there is no break before. It
    /// shares the commit with whoever has it, and this one stays as it was. The error is
    /// `NoMemory`.
    pub fn broken(&self, alloc: Global, commit: Shared<Commit>) -> Result<Snapshot, NoMemory>
        requires whole { has_break self.now ≡ false }
        requires fit { IsTrue (fits standard_limits (database_of (commits_of self.now)) commit) }
        ensures { IfOk result (λ snapshot. snapshot ≡ self.now ++ break_entry commit ∷ []) }
    {
        Ok(Snapshot {
            store: self.store.share(alloc)?,
            timelines: self.timelines.share(alloc)?,
            log: self.log.share(alloc)?,
            marks: self.marks.share(alloc)?,
            broken: Some(commit),
            alloc,
        })
    }

    /// The snapshot after the mark of a checkpoint: that of its table at its version, of which
    /// there is no mark yet. This one stays as it was. `NoMemory` comes where memory is out, or
    /// where there are 2^31 marks.
    pub fn mark(&self, alloc: Global, checkpoint: Checkpoint) -> Result<Snapshot, NoMemory>
        requires whole { has_break self.now ≡ false }
        requires table { checkpoint.table < length (database_of (commits_of self.now)).tables }
        requires version { checkpoint.version ≤ (database_of (commits_of self.now)).version }
        requires fresh { has_mark self.now checkpoint.table checkpoint.version ≡ false }
        requires checkpoint { checkpoint ≡ checkpoint_at
            (database_of (commits_of self.now)) checkpoint.table checkpoint.version }
        ensures { IfOk result (λ snapshot. snapshot
            ≡ self.now ++ mark_entry checkpoint.table checkpoint.version ∷ []) }
    {
        if self.log.get().len() >= 2147483648 {
            return Err(AllocError);
        }
        let at = MarkAt {
            after: self.store.get().versions(),
            table: checkpoint.table(),
            version: checkpoint.version(),
        };
        let log = self.log.get().push_all(alloc, &[at])?;
        let marks = self.marks.get().with(alloc, checkpoint)?;
        Ok(Snapshot {
            store: self.store.share(alloc)?,
            timelines: self.timelines.share(alloc)?,
            log: Shared::new(alloc, log)?,
            marks: Shared::new(alloc, marks)?,
            broken: None,
            alloc,
        })
    }

    /// The checkpoints of the marks, each that of its table at its version. Of a table no two have
    /// one version.
    pub fn marks(&self) -> &Marks
        ensures marks { result.now ≡ marks_of self.now }
        ensures strict { (table : ℕ) → ClimbStrictly (marks_for (marks_of self.now) table) }
    {
        self.marks.get()
    }

    /// Whether the table has a mark at the version.
    pub fn has_mark(&self, table: u16, version: u32) -> bool
        ensures { result ≡ has_mark self.now table version }
    {
        match self.marks().nearest(table, version) {
            None => false,
            Some(mark) => mark.version() == version,
        }
    }

    // The greatest version of a mark of the table, 0 where there is none.
    fn last_mark(&self, table: u16) -> u32
        ensures last { result ≡ last_mark self.now table }
        ensures known { result ≤ (database_of (commits_of self.now)).version }
    {
        let _ = &self.store; // says that the marks are those of the entries
        let marks = self.marks();
        let count = marks.count(table);
        if count == 0 {
            0
        } else {
            marks.at(table, count - 1).version()
        }
    }

    // How many events the table has behind a version.
    fn events_after<L: Ledger>(&self, table: u16, version: u32, blank: Blank) -> u32
        requires name { blank.name ≡ L.name }
        requires parts { blank.parts ≡ L.parts }
        requires some { 0 < blank.parts }
        requires table { table < length (database_of (commits_of self.now)).tables }
        requires version { version ≤ (database_of (commits_of self.now)).version }
        ensures { result ≡ place_of (rows_of (database_of (commits_of self.now)) table)
            (database_of (commits_of self.now)).version
            - place_of (rows_of (database_of (commits_of self.now)) table) version }
    {
        let mut steps = Steps::<L>::new(blank);
        let before = self.version_map(table).end_of(version, &mut steps);
        self.events(table).len() - before
    }

    /// Whether a mark of the table is due: `k` is not 0, and the table has `k` events or more
    /// behind its last mark.
    pub fn due(&self, table: u16, k: u32) -> bool
        requires { table < length (database_of (commits_of self.now)).tables }
        ensures { result ≡ due self.now table k }
    {
        if k == 0 {
            return false;
        }
        let last = self.last_mark(table);
        self.events_after::<Brand>(table, last, Blank::new(1)) >= k
    }

    /// Whether a break is among the entries. It is then the last of them.
    pub fn has_break(&self) -> bool
        ensures value { result ≡ has_break self.now }
        ensures legal { IsTrue (are_legal self.now) }
    {
        self.broken.is_some()
    }

    /// The store of the commits among the entries.
    pub fn store(&self) -> &Store
        ensures { result.now ≡ commits_of self.now }
    {
        self.store.get()
    }

    /// The events of a table up to the present version.
    pub fn events(&self, table: u16) -> &EventList
        requires { table < length (database_of (commits_of self.now)).tables }
        ensures { result.now ≡ events_of (rows_of (database_of (commits_of self.now)) table)
            (database_of (commits_of self.now)).version }
    {
        &self.timelines.get().at(table as usize).events
    }

    /// The versions that have events of a table, with where these end.
    pub fn version_map(&self, table: u16) -> &VersionMap
        requires { table < length (database_of (commits_of self.now)).tables }
        ensures map { result.now ≡ ends_of (rows_of (database_of (commits_of self.now)) table)
            (database_of (commits_of self.now)).version }
        ensures formed { AreWellFormed (database_of (commits_of self.now)).version
            (rows_of (database_of (commits_of self.now)) table) }
        ensures order { BeginInOrder 0 (rows_of (database_of (commits_of self.now)) table) }
    {
        &self.timelines.get().at(table as usize).ends
    }
}

impl Published for Snapshot {
    ghost entries = { λ s. s };

    fn len(&self) -> u32 {
        let commits = self.store.get().versions() + self.log.get().len() as u32;
        match &self.broken {
            Some(_) => commits + 1,
            None => commits,
        }
    }

    fn share(&self) -> Result<Snapshot, NoMemory> {
        let broken = match &self.broken {
            Some(commit) => Some(commit.share(self.alloc)?),
            None => None,
        };
        Ok(Snapshot {
            store: self.store.share(self.alloc)?,
            timelines: self.timelines.share(self.alloc)?,
            log: self.log.share(self.alloc)?,
            marks: self.marks.share(self.alloc)?,
            broken,
            alloc: self.alloc,
        })
    }
}
