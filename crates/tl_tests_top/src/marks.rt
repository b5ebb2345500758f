//! Marks: those that are kept after the worked history, what a call that tends a table answers
//! then, the marks that one thread makes while another commits, and those that an opening makes
//! again.
ghost use Rattle.std.specs.Prelude.{◌≡◌, ◌<◌, false, IfSome};
ghost use Rattle.tl_engine.specs.Naming.{IsNameOf};
ghost use Rattle.tl_history.specs.Building.{IsCheckpoint};

use crate::crashes::WORKED;
use crate::offers::{Committed, Kind, Left, holds};
use crate::runs::{EMPTY, Wanted, disk_of, run, words_of};
use std::marker::Brand;
use std::sync::Wait;
use std::sync::ledger::{Blank, Ledger};
use std::test::Fail;
use std::thread;
use std::thread::Threads;
use tl_bits::RowSet;
use tl_ckpt::{Checkpoint, Marks};
use tl_device::{MemoryDisk, SureDisk};
use tl_engine::{Closed, Engine, Named, Opening, Pass, Share, Started, TendFault, Tended};
use tl_index::Snapshot;
use tl_journal::Journal;
use tl_types::{Limits, Published, Steps};

// How the worked history is run.
const REPLIES: Wanted = (
    0,
    "a @1 ok\na @2 ok\na @3 ok\na @4 ok\na @5 ok\na @5 rows 2\n1,150\n2,50\n",
);

// Whether rows 1 and 2 are in a set of three rows, and row 0 is not.
fn has_last_two<L: Ledger>(rows: &RowSet, blank: Blank) -> bool
    requires name { blank.name ≡ L.name }
    requires parts { blank.parts ≡ L.parts }
    requires some { 0 < blank.parts }
{
    let mut steps = Steps::<L>::new(blank);
    if rows.rows() != 3 {
        return false;
    }
    rows.word(0, &mut steps) == 6
}

fn is_worked_mark(mark: &Checkpoint) -> bool {
    mark.version() == 3 && mark.place() == 4 && has_last_two::<Brand>(mark.rows(), Blank::new(1))
}

// Whether a snapshot of the worked history has the one mark of version 3.
fn has_worked_mark(snapshot: &Snapshot) -> bool {
    let marks = snapshot.marks();
    if marks.count(0) != 1 {
        return false;
    }
    is_worked_mark(marks.at(0, 0)) && snapshot.has_mark(0, 3) && snapshot.len() == 6
}

fn reads_worked_mark<J: Named, R: AllocGlobal + Wait>(
    rt: &R,
    engine: &Engine<MemoryDisk, J>,
    pass: &mut Pass<Snapshot>,
) -> bool
    requires own { pass.old.table ≡ J.table }
    ensures own { pass.new.table ≡ J.table }
{
    match engine.read(rt, pass) {
        Ok(snapshot) => has_worked_mark(&snapshot),
        Err(_) => false,
    }
}

// Whether the first table is tended by `k` with this answer.
fn is_tended<J: Named, R: AllocGlobal + Wait>(
    rt: &R,
    engine: &Engine<MemoryDisk, J>,
    pass: &mut Pass<Snapshot>,
    k: u32,
    answer: Result<Tended, TendFault>,
) -> bool
    requires own { pass.old.table ≡ J.table }
    ensures own { pass.new.table ≡ J.table }
{
    let Ok(snapshot) = engine.read(rt, pass) else {
        return false;
    };
    if snapshot.store().tables() == 0 {
        return false;
    }
    engine.tend(rt, pass, 0, k) == answer
}

// Whether the table of the worked history is tended as it should be, with its one mark and then
// with one at its end.
fn tends_worked<J: Named, R: AllocGlobal + Wait>(
    rt: &R,
    engine: &Engine<MemoryDisk, J>,
    pass: &mut Pass<Snapshot>,
) -> bool
    requires own { pass.old.table ≡ J.table }
    ensures own { pass.new.table ≡ J.table }
{
    let built = Ok(Tended::Built {
        version: 5,
        read: 6,
    });
    let marked = reads_worked_mark(rt, engine, pass);
    let not_by_three = is_tended(rt, engine, pass, 3, Ok(Tended::NotDue));
    let by_two = is_tended(rt, engine, pass, 2, built);
    let not_again = is_tended(rt, engine, pass, 2, Ok(Tended::NotDue));
    marked & not_by_three & by_two & not_again
}

// The checkpoint of the first table over a snapshot.
fn built<L: Ledger, R: AllocGlobal>(rt: &R, snapshot: &Snapshot, blank: Blank) -> Option<Checkpoint>
    requires name { blank.name ≡ L.name }
    requires parts { blank.parts ≡ L.parts }
    requires some { 0 < blank.parts }
    ensures { IfSome result (λ checkpoint. IsCheckpoint snapshot.now checkpoint) }
{
    if snapshot.store().tables() == 0 {
        return None;
    }
    let mut steps = Steps::<L>::new(blank);
    match snapshot.build(rt.alloc(), 0, &mut steps) {
        Ok(checkpoint) => Some(checkpoint),
        Err(_) => None,
    }
}

// The checkpoint of the first table over what a pass then has seen.
fn built_now<J: Named, R: AllocGlobal + Wait>(
    rt: &R,
    engine: &Engine<MemoryDisk, J>,
    pass: &mut Pass<Snapshot>,
) -> Option<Checkpoint>
    requires own { pass.old.table ≡ J.table }
    ensures own { pass.new.table ≡ J.table }
    ensures checkpoint { IfSome result (λ checkpoint. IsCheckpoint pass.new.seen checkpoint) }
{
    match engine.read(rt, pass) {
        Ok(snapshot) => built::<Brand, R>(rt, &snapshot, Blank::new(1)),
        Err(_) => None,
    }
}

// Whether the mark of a checkpoint that is there is published with this answer.
fn is_published<J: Named, R: AllocGlobal + Wait>(
    rt: &R,
    engine: &Engine<MemoryDisk, J>,
    pass: &mut Pass<Snapshot>,
    checkpoint: Option<Checkpoint>,
    answer: Result<Tended, TendFault>,
) -> bool
    requires own { pass.old.table ≡ J.table }
    requires checkpoint { IfSome checkpoint (λ c. IsCheckpoint pass.old.seen c) }
    ensures own { pass.new.table ≡ J.table }
{
    match checkpoint {
        Some(checkpoint) => engine.publish_mark(rt, pass, checkpoint, 6) == answer,
        None => false,
    }
}

// Whether of two checkpoints of one version, both built before either mark is published, the first
// is published and the second had.
fn has_second<J: Named, R: AllocGlobal + Wait>(
    rt: &R,
    engine: &Engine<MemoryDisk, J>,
    pass: &mut Pass<Snapshot>,
) -> bool
    requires own { pass.old.table ≡ J.table }
    ensures own { pass.new.table ≡ J.table }
{
    let (version, read) = (5, 6);
    let mut other = pass.copy(&engine.head);
    let first = built_now(rt, engine, pass);
    let second = built_now(rt, engine, &mut other);
    let is_built = is_published(rt, engine, pass, first, Ok(Tended::Built { version, read }));
    let is_had = is_published(
        rt,
        engine,
        &mut other,
        second,
        Ok(Tended::Had { version, read }),
    );
    is_built & is_had
}

// What is tried over the worked history.
#[derive(Clone, Copy)]
enum Trial {
    Tends,
    HasSecond,
}

fn tries<J: Named, R: AllocGlobal + Wait>(
    rt: &R,
    engine: &Engine<MemoryDisk, J>,
    pass: &mut Pass<Snapshot>,
    trial: Trial,
) -> bool
    requires own { pass.old.table ≡ J.table }
    ensures own { pass.new.table ≡ J.table }
{
    match trial {
        Trial::Tends => tends_worked(rt, engine, pass),
        Trial::HasSecond => has_second(rt, engine, pass),
    }
}

fn holds_over<J: Named, R: AllocGlobal + Wait>(
    rt: &R,
    opening: Opening<MemoryDisk>,
    trial: Trial,
) -> bool
    requires names { IsNameOf J.table J.first_entries J.first_count J.limits opening }
    requires ledger { (opening.ledger ≡ J.name) × (opening.parts ≡ J.parts) }
    requires untold { J.told ≡ false }
{
    let Started {
        engine,
        mut pass,
        share,
    } = opening.start::<J>();
    let holds = tries(rt, &engine, &mut pass, trial);
    let Closed { snapshot, .. } = engine.close(rt, pass, share);
    holds & (snapshot.len() == 7)
}

// The same of an opening whose names are picked here.
fn holds_by_brand<R: AllocGlobal + Wait>(rt: &R, opening: Opening<MemoryDisk>, trial: Trial) -> bool
    requires { opening.parts ≡ 65536 }
{
    holds_over::<Brand, R>(rt, opening, trial)
}

fn holds_on<R: AllocGlobal + Wait>(rt: &R, disk: MemoryDisk, trial: Trial) -> bool {
    match Engine::attach(rt.alloc(), disk, &Limits::standard(), 3) {
        Ok(opening) => holds_by_brand(rt, opening, trial),
        Err(_) => false,
    }
}

// Whether the worked history is run by these words, and a trial holds over what it leaves.
fn holds_after<R: AllocGlobal + Threads + Wait + Sync>(
    rt: &R,
    words: &[String],
    trial: Trial,
) -> bool {
    match disk_of(rt.alloc(), EMPTY, &[]) {
        Ok(disk) => {
            let (is_run, disk) = run(rt, words, WORKED, disk, REPLIES);
            is_run & holds_on(rt, disk, trial)
        }
        Err(_) => false,
    }
}

// What a thread that makes marks has left: its pass, and whether all answers were right.
#[derive(Drop)]
struct Marker {
    pass: Pass<Snapshot>,
    is_right: bool,
}

// Whether an answer is right by what is seen after it: a mark that was built is there, of a version
// that there was when the entries were read.
fn tells_mark(snapshot: &Snapshot, answer: Result<Tended, TendFault>) -> bool {
    match answer {
        Ok(Tended::NotDue) => true,
        Ok(Tended::Built { version, read }) => {
            version <= read
                && version <= snapshot.store().versions()
                && snapshot.has_mark(0, version)
        }
        _ => false,
    }
}

// Whether the first table is there, and is tended by `k` with a right answer.
fn marks_rightly<J: Named, R: AllocGlobal + Wait>(
    rt: &R,
    engine: &Engine<SureDisk, J>,
    pass: &mut Pass<Snapshot>,
    k: u32,
) -> bool
    requires own { pass.old.table ≡ J.table }
    ensures own { pass.new.table ≡ J.table }
{
    let Ok(before) = engine.read(rt, pass) else {
        return false;
    };
    if before.store().tables() == 0 {
        return false;
    }
    let answer = engine.tend(rt, pass, 0, k);
    let Ok(after) = engine.read(rt, pass) else {
        return false;
    };
    tells_mark(&after, answer)
}

// Makes marks again and again.
fn mark_each<J: Named, R: AllocGlobal + Wait>(
    rt: &R,
    engine: &Engine<SureDisk, J>,
    mut pass: Pass<Snapshot>,
) -> Marker
    requires own { pass.table ≡ J.table }
    ensures own { result.pass.table ≡ J.table }
{
    let mut is_right = true;
    'marking: for _ in 0..200u32 {
        let holds = marks_rightly(rt, engine, &mut pass, 1);
        is_right &= holds;
    }
    Marker { pass, is_right }
}

// Puts the one row of the first table 50 times.
fn commit_each<J: Named, R: AllocGlobal + Wait>(
    rt: &R,
    engine: &Engine<SureDisk, J>,
    mut pass: Pass<Snapshot>,
    mut share: Share<J>,
) -> Committed<J>
    requires own { pass.table ≡ J.table }
    requires part { 0 < share.parts }
    ensures own { result.pass.table ≡ J.table }
    ensures parts { result.share.parts ≡ share.parts }
{
    let mut is_right = true;
    for version in 2..52u32 {
        let case = (Kind::Put(1), "t", Ok(version));
        let holds = holds(rt, engine, &mut pass, &mut share, &case);
        is_right &= holds;
    }
    Committed {
        pass,
        share,
        is_right,
    }
}

// Whether the marks of the first table rise, from a version of the commits to another.
fn are_rising(snapshot: &Snapshot, marks: &Marks) -> bool {
    let mut last = 0;
    for i in 0..marks.count(0) {
        let version = marks.at(0, i).version();
        if version <= last || version > snapshot.store().versions() {
            return false;
        }
        if !snapshot.has_mark(0, version) {
            return false;
        }
        last = version;
    }
    true
}

// Whether the marks that a snapshot keeps are just those among its entries, of which all others are
// commits.
fn are_listed(snapshot: &Snapshot) -> bool {
    let marks = snapshot.marks();
    let commits = snapshot.store().versions() as u64;
    let all = commits.wrapping_add(marks.count(0));
    are_rising(snapshot, marks)
        && snapshot.store().versions() == 51
        && all == snapshot.len() as u64
        && marks.count(0) > 0
}

// Whether all is right where one thread makes marks while another commits. The table is there
// before both, so that no mark waits for it.
fn marks_beside_commits<J: Named + Send + Sync, R: AllocGlobal + Threads + Wait + Sync>(
    rt: &R,
    opening: Opening<SureDisk>,
) -> bool
    requires names { IsNameOf J.table J.first_entries J.first_count J.limits opening }
    requires ledger { (opening.ledger ≡ J.name) × (opening.parts ≡ J.parts) }
    requires untold { J.told ≡ false }
{
    let Started {
        engine,
        mut pass,
        mut share,
    } = opening.start::<J>();
    let is_made = holds(
        rt,
        &engine,
        &mut pass,
        &mut share,
        &(Kind::Create, "t", Ok(1)),
    );
    let other = pass.copy(&engine.head);
    let (marked, committed) = thread::join(
        rt,
        || mark_each(rt, &engine, other),
        || commit_each(rt, &engine, pass, share),
    );
    let Marker {
        pass: theirs,
        is_right: marks,
    } = marked;
    let Committed {
        mut pass,
        share,
        is_right: commits,
    } = committed;
    pass.learn(&engine.head, theirs);
    let last = marks_rightly(rt, &engine, &mut pass, 1);
    let Closed { snapshot, .. } = engine.close(rt, pass, share);
    is_made & marks & commits & last & are_listed(&snapshot)
}

// The same of an opening whose names are picked here.
fn marks_by_brand<R: AllocGlobal + Threads + Wait + Sync>(
    rt: &R,
    opening: Opening<SureDisk>,
) -> bool
    requires { opening.parts ≡ 65536 }
{
    marks_beside_commits::<Brand, R>(rt, opening)
}

fn marks_on<R: AllocGlobal + Threads + Wait + Sync>(rt: &R, disk: SureDisk) -> bool {
    match Engine::attach(rt.alloc(), disk, &Limits::standard(), 0) {
        Ok(opening) => marks_by_brand(rt, opening),
        Err(_) => false,
    }
}

fn marks_over_none<R: AllocGlobal + Threads + Wait + Sync>(rt: &R) -> bool {
    let run = Journal::init(SureDisk::new(rt.alloc(), Vec::new(rt.alloc())));
    run.done.is_ok() && marks_on(rt, run.disk)
}

// What the batch of a version does: the first makes a table, each fourth removes a row, and the
// others put at most two.
fn kind_of(version: u32) -> Kind {
    if version % 4 == 0 {
        return Kind::Remove(1);
    }
    match version {
        1 => Kind::Create,
        _ => Kind::Put((version % 3) as i64),
    }
}

// Whether the engine answers the version to its batch.
fn makes_version<J: Named, R: AllocGlobal + Wait>(
    rt: &R,
    engine: &Engine<SureDisk, J>,
    pass: &mut Pass<Snapshot>,
    share: &mut Share<J>,
    version: u32,
) -> bool
    requires own { pass.old.table ≡ J.table }
    requires part { 0 < share.old.parts }
    ensures own { pass.new.table ≡ J.table }
    ensures parts { share.new.parts ≡ share.old.parts }
{
    let case = (kind_of(version), "t", Ok(version));
    holds(rt, engine, pass, share, &case)
}

// Whether the versions before `end` are made, each tended by 3 then.
fn makes_versions<J: Named, R: AllocGlobal + Wait>(
    rt: &R,
    engine: &Engine<SureDisk, J>,
    pass: &mut Pass<Snapshot>,
    share: &mut Share<J>,
    end: u32,
) -> bool
    requires own { pass.old.table ≡ J.table }
    requires part { 0 < share.old.parts }
    ensures own { pass.new.table ≡ J.table }
    ensures parts { share.new.parts ≡ share.old.parts }
{
    let mut is_right = true;
    for version in 1..end {
        let is_made = makes_version(rt, engine, pass, share, version);
        let is_tended = marks_rightly(rt, engine, pass, 3);
        is_right &= is_made & is_tended;
    }
    is_right
}

// What an engine leaves that makes the versions before `end`.
fn made<J: Named, R: AllocGlobal + Wait>(rt: &R, opening: Opening<SureDisk>, end: u32) -> Left
    requires names { IsNameOf J.table J.first_entries J.first_count J.limits opening }
    requires ledger { (opening.ledger ≡ J.name) × (opening.parts ≡ J.parts) }
    requires untold { J.told ≡ false }
{
    let Started {
        engine,
        mut pass,
        mut share,
    } = opening.start::<J>();
    let is_right = makes_versions(rt, &engine, &mut pass, &mut share, end);
    let closed = engine.close(rt, pass, share);
    Left { closed, is_right }
}

// The same of an opening whose names are picked here.
fn made_by_brand<R: AllocGlobal + Wait>(rt: &R, opening: Opening<SureDisk>, end: u32) -> Left
    requires { opening.parts ≡ 65536 }
{
    made::<Brand, R>(rt, opening, end)
}

// The same on a disk, which is opened with marks by 3.
pub(crate) fn made_on<R: AllocGlobal + Wait>(rt: &R, disk: SureDisk, end: u32) -> Option<Left> {
    match Engine::attach(rt.alloc(), disk, &Limits::standard(), 3) {
        Ok(opening) => Some(made_by_brand(rt, opening, end)),
        Err(_) => None,
    }
}

// Whether the first table has the same marks here and there, by version and place, and three of
// them or more.
fn are_same(marks: &Marks, others: &Marks) -> bool {
    if marks.count(0) < 3 || marks.count(0) != others.count(0) {
        return false;
    }
    for i in 0..marks.count(0) {
        let mark = marks.at(0, i);
        let other = others.at(0, i);
        if mark.version() != other.version() || mark.place() != other.place() {
            return false;
        }
    }
    true
}

// Whether another opening of the disk makes the marks that the snapshot keeps.
fn opens_with_marks<R: AllocGlobal + Wait>(rt: &R, disk: SureDisk, snapshot: &Snapshot) -> bool {
    match made_on(rt, disk, 1) {
        Some(left) => {
            let opened = &left.closed.snapshot;
            opened.len() == snapshot.len() && are_same(opened.marks(), snapshot.marks())
        }
        None => false,
    }
}

// Whether the marks of 12 versions are there again after an opening.
fn marks_again<R: AllocGlobal + Wait>(rt: &R) -> bool {
    let run = Journal::init(SureDisk::new(rt.alloc(), Vec::new(rt.alloc())));
    match made_on(rt, run.disk, 13) {
        Some(left) => {
            let Left { closed, is_right } = left;
            let Closed { snapshot, disk } = closed;
            is_right & opens_with_marks(rt, disk, &snapshot)
        }
        None => false,
    }
}

#[test]
fn marks_of_the_worked_history(rt: HostRuntime) -> Result<(), Fail> {
    let by_three = words_of(rt.alloc(), &["run", "--every", "3"])?;
    assert!(rt; holds_after(&rt, &by_three, Trial::Tends));
    assert!(rt; holds_after(&rt, &by_three, Trial::HasSecond));
    Ok(())
}

#[test]
fn one_thread_marks_while_another_commits(rt: HostRuntime) -> Result<(), Fail> {
    assert!(rt; marks_over_none(&rt));
    Ok(())
}

#[test]
fn an_opening_makes_the_marks_that_tending_left(rt: HostRuntime) -> Result<(), Fail> {
    assert!(rt; marks_again(&rt));
    Ok(())
}
