//! The least or greatest number of all rows of a scan, while it goes on. It keeps the runs up to
//! the last version that changed anything; a version before that one cannot be taken any more.
ghost use Rattle.std.specs.Prelude.{◌≡◌, ◌<◌, ◌^◌, ℕ, Option, pos, true, [], OnOk, IfOk};
ghost use Rattle.tl_running.specs.Lasting.{Comes};
ghost use Rattle.tl_agg.specs.Extremes.{StandsSince, ExtremeAdvances, ExtremePuts, AreExtremeRuns};

use crate::groups::{make_room, stretch_of};
use std::alloc::Global;
use std::marker::Model;
use tl_query::AggKind;
use tl_running::Extreme;
use tl_types::{NoMemory, Run, add_stretch};

// No row ends after this version; one that is open has it as its end.
const LAST_END: i64 = 4_294_967_295;

/// What is kept of the numbers of the rows that came, the version since which nothing changed, and
/// the runs before it.
#[derive(Drop)]
pub(crate) struct Extremes {
    extreme: Extreme,
    since: u32,
    runs: Vec<Run>,
}

impl Model for Extremes {
    ghost use Rattle.tl_agg.specs.Extremes.{ExtremeState};

    ghost Value = { ExtremeState };

    ghost view = { λ e. record { extreme = e.extreme; since = e.since; runs = e.runs.items } };
}

impl Extremes {
    /// What is kept of no row since a version, without runs before it.
    pub(crate) fn none(alloc: Global, kind: AggKind, since: u32) -> Extremes
        ensures kind { result.extreme.kind ≡ kind }
        ensures since { result.since ≡ since }
        ensures runs { result.runs ≡ [] }
        ensures stands { (column : Option ℕ) → StandsSince result column [] }
    {
        let extreme = Extreme::none(alloc, kind);
        Extremes {
            extreme,
            since,
            runs: Vec::new(alloc),
        }
    }

    // Makes the runs reach up to a version behind that of the last change.
    #[inline(never)]
    fn close(&mut self, to: u32) -> Result<(), NoMemory>
        requires { self.old.since < to }
        ensures { OnOk result (ExtremeAdvances self.old self.new to) }
    {
        make_room(&mut self.runs)?;
        let value = self.extreme.value(i64::from(self.since));
        let stretch = stretch_of(self.since, to, value);
        add_stretch(&mut self.runs, stretch)?;
        self.since = to;
        Ok(())
    }

    /// Makes the runs reach up to a version, which is not before those of the last change. The
    /// error is `NoMemory`.
    #[inline(always)]
    pub(crate) fn advance(&mut self, to: u32) -> Result<(), NoMemory>
        ensures { OnOk result (ExtremeAdvances self.old self.new to) }
    {
        if self.since >= to {
            return Ok(());
        }
        self.close(to)
    }

    /// Whether a row with a number changes nothing, whenever it ends.
    #[inline(always)]
    pub(crate) fn covers(&self, number: i64) -> bool
        ensures { result ≡ true → (end : ℕ) → end < 2 ^ 32
            → Comes self.now.extreme self.now.extreme number (pos end) }
    {
        self.extreme.covers(number, LAST_END)
    }

    /// A row comes with its number and the version at which it has ended. The error is `NoMemory`.
    #[inline(always)]
    pub(crate) fn put(&mut self, number: i64, end: u32) -> Result<(), NoMemory>
        ensures { OnOk result (ExtremePuts self.old self.new number (pos end)) }
    {
        self.extreme.put(number, i64::from(end))?;
        Ok(())
    }

    // The runs.
    fn into_made(self) -> Vec<Run>
        ensures { result.items ≡ self.runs }
    {
        self.runs
    }

    /// The runs up to a version. The error is `NoMemory`.
    pub(crate) fn into_runs(self, to: u32) -> Result<Vec<Run>, NoMemory>
        ensures { IfOk result (λ runs. AreExtremeRuns self to runs.items) }
    {
        let mut extremes = self;
        extremes.advance(to)?;
        Ok(extremes.into_made())
    }
}
