//! A walk over all steps: two passes, and the commits of the worked history.
use crate::worked::{change, commits};
use std::alloc::Global;
use std::test::Fail;
use tl_core::{Build, PassState, Step, World, is_legal};
use tl_types::{Commit, Entry, NoMemory, Seq};

// The steps that bring these commits.
fn published(alloc: Global, commits: Vec<Commit>) -> Result<Seq<Step>, NoMemory> {
    let mut steps = Seq::new(alloc);
    for commit in commits {
        steps.push(Step::Publish { commit })?;
    }
    Ok(steps)
}

// Takes the step, where it is allowed and there is memory for it.
fn takes(alloc: Global, world: &mut World, step: Step) -> bool {
    if !world.allows(&step) {
        return false;
    }
    world.step(alloc, step).is_ok()
}

// Whether the first pass builds a checkpoint, and its mark is appended once. What is not allowed
// stands between: a pass that does not exist, and a mark without a build.
fn marks(alloc: Global, world: &mut World) -> bool {
    !world.allows(&Step::Begin { pass: 2, table: 0 })
        && !world.allows(&Step::Mark { pass: 0 })
        && takes(alloc, world, Step::Begin { pass: 0, table: 0 })
        && takes(alloc, world, Step::Mark { pass: 0 })
        && takes(alloc, world, Step::Begin { pass: 0, table: 0 })
        && !world.allows(&Step::Mark { pass: 0 })
}

// Whether a change of no row is the break, behind which nothing is published.
fn breaks(alloc: Global, world: &mut World) -> bool {
    match change(alloc, None, Vec::new(alloc)) {
        Ok(commit) => takes(alloc, world, Step::Break { commit }),
        Err(_) => false,
    }
}

fn publishes(alloc: Global, world: &mut World) -> bool {
    match change(alloc, None, Vec::new(alloc)) {
        Ok(commit) => takes(alloc, world, Step::Publish { commit }),
        Err(_) => false,
    }
}

// Whether the second pass reads behind the break too, and the passes are then as they should be.
fn reads(alloc: Global, world: &mut World) -> bool {
    let builder = PassState {
        seen: 6,
        build: Some(Build { table: 0, base: 6 }),
    };
    let reader = PassState {
        seen: 7,
        build: None,
    };
    takes(alloc, world, Step::Read { pass: 1 }) && world.passes() == [builder, reader].as_slice()
}

// Whether a mark of the last commit and the break are the last two of seven legal entries.
fn has_ended(alloc: Global, entries: &[Entry]) -> bool {
    let is_legal = match is_legal(alloc, entries) {
        Ok(legal) => legal,
        Err(_) => false,
    };
    match entries {
        [
            _,
            _,
            _,
            _,
            _,
            Entry::Mark { table, version },
            Entry::Break { .. },
        ] => { is_legal && *table == 0 && *version == 5 }
        _ => false,
    }
}

fn walks(alloc: Global, world: &mut World) -> bool {
    marks(alloc, world)
        && breaks(alloc, world)
        && !publishes(alloc, world)
        && reads(alloc, world)
        && has_ended(alloc, world.entries())
}

fn goes_on(alloc: Global, world: World, steps: Seq<Step>) -> bool {
    match world.run(alloc, steps) {
        Ok(mut world) => walks(alloc, &mut world),
        Err(_) => false,
    }
}

fn begins(alloc: Global, steps: Seq<Step>) -> bool {
    match World::start(alloc, Seq::new(alloc), 2) {
        Ok(world) => goes_on(alloc, world, steps),
        Err(_) => false,
    }
}

#[test]
fn a_walk_over_all_steps(rt: HostRuntime) -> Result<(), Fail> {
    let steps = published(rt.alloc(), commits(rt.alloc())?)?;
    assert!(rt; begins(rt.alloc(), steps));
    Ok(())
}
