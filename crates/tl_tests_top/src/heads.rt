//! A head that one thread publishes to while another reads: what is seen never falls.
ghost use Rattle.std.specs.Prelude.{◌≡◌, ◌++◌, ◌∷◌, [], IfSome};
ghost use Rattle.tl_index.specs.Snapshots.{commit_entry};

use std::sync::Wait;
use std::test::Fail;
use std::thread;
use std::thread::Threads;
use tl_head::{Head, NewHead, Pass, WriterPass};
use tl_index::Snapshot;
use tl_types::{Body, Commit, Limits, Published};

// The snapshot after a commit, where it fits and there is memory for it.
fn after<R: AllocGlobal>(rt: &R, snapshot: &Snapshot, commit: &Commit) -> Option<Snapshot>
    ensures { IfSome result (λ next. next ≡ snapshot.now ++ commit_entry commit.now ∷ []) }
{
    if snapshot.has_break() || !snapshot.store().fits(commit, &Limits::standard()) {
        return None;
    }
    match snapshot.apply(rt.alloc(), commit) {
        Ok(next) => Some(next),
        Err(_) => None,
    }
}

// Publishes the snapshot after a commit, and hands a copy of it back; or publishes nothing.
fn publish<R: AllocGlobal + Wait>(
    rt: &R,
    head: &Head<Snapshot>,
    writer: &mut WriterPass<Snapshot>,
    snapshot: &Snapshot,
    commit: &Commit,
) -> Option<Snapshot>
    requires own { writer.old.table ≡ head.now }
    requires written { writer.old.written ≡ snapshot.now }
    ensures own { writer.new.table ≡ head.now }
    ensures written { IfSome result (λ next. writer.new.written ≡ next) }
{
    let next = after(rt, snapshot, commit)?;
    let copy = next.share().ok()?;
    drop(head.publish(rt, writer, next));
    Some(copy)
}

// What a thread that publishes has left: its pass, and whether it published all.
#[derive(Drop)]
struct Publisher {
    writer: WriterPass<Snapshot>,
    has_all: bool,
}

// Publishes a thousand moments, one after the other.
fn publish_each<R: AllocGlobal + Wait>(
    rt: &R,
    head: &Head<Snapshot>,
    mut writer: WriterPass<Snapshot>,
    first: Snapshot,
) -> Publisher
    requires own { writer.table ≡ head.now }
    requires written { writer.written ≡ first }
    ensures own { result.writer.table ≡ head.now }
{
    let mut last = first;
    for moment in 0..1000i64 {
        let body = Body::Moment { moment };
        let commit = Commit { author: 0, body };
        match publish(rt, head, &mut writer, &last, &commit) {
            Some(next) => last = next,
            None => {
                return Publisher {
                    writer,
                    has_all: false,
                };
            }
        }
    }
    Publisher {
        writer,
        has_all: true,
    }
}

// What a thread that reads has left: its pass, and whether what it saw never fell.
#[derive(Drop)]
struct Reader {
    pass: Pass<Snapshot>,
    is_right: bool,
}

// How many entries a read sees, where there is memory for it.
fn seen_len<R: Wait>(rt: &R, head: &Head<Snapshot>, pass: &mut Pass<Snapshot>) -> Option<u32>
    requires own { pass.old.table ≡ head.now }
    ensures own { pass.new.table ≡ head.now }
{
    match head.read(rt, pass) {
        Ok(snapshot) => Some(snapshot.len()),
        Err(_) => None,
    }
}

// Reads a thousand times.
fn read_each<R: Wait>(rt: &R, head: &Head<Snapshot>, mut pass: Pass<Snapshot>) -> Reader
    requires own { pass.table ≡ head.now }
    ensures own { result.pass.table ≡ head.now }
{
    let mut longest = Some(0);
    let mut is_right = true;
    'reading: for _ in 0..1000u32 {
        let len = seen_len(rt, head, &mut pass);
        is_right &= longest <= len;
        longest = len;
    }
    Reader { pass, is_right }
}

// Whether all is right where one thread publishes over a head while another reads.
fn are_right<R: AllocGlobal + Threads + Wait + Sync>(
    rt: &R,
    new_head: NewHead<Snapshot>,
    first: Snapshot,
) -> bool
    requires own { new_head.writer.table ≡ new_head.head }
    requires written { new_head.writer.written ≡ first }
{
    let NewHead { head, mut writer } = new_head;
    let pass = writer.reader(&head);
    let (published, read) = thread::join(
        rt,
        || publish_each(rt, &head, writer, first),
        || read_each(rt, &head, pass),
    );
    let Publisher { writer, has_all } = published;
    let Reader { pass, is_right } = read;
    let last = head.close(rt, writer, pass);
    has_all & is_right & (last.len() == 1000)
}

fn never_falls<R: AllocGlobal + Threads + Wait + Sync>(rt: &R, first: Snapshot) -> bool {
    let Ok(copy) = first.share() else {
        return false;
    };
    match Head::new(rt.alloc(), first) {
        Ok(new_head) => are_right(rt, new_head, copy),
        Err(_) => false,
    }
}

#[test]
fn a_thousand_published_beside_a_thousand_reads(rt: HostRuntime) -> Result<(), Fail> {
    let first = Snapshot::empty(rt.alloc())?;
    assert!(rt; never_falls(&rt, first));
    Ok(())
}
