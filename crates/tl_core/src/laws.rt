//! The law of the world, for every world and every list of steps. Nothing of it runs.
ghost use Rattle.std.specs.Prelude.{List};
ghost use Rattle.tl_core.specs.declared.steps.Step.{Step};
ghost use Rattle.tl_core.specs.World.{World, IsLegal, after_steps};
ghost use Rattle.tl_core.specs.Law.{GoesOn};

/// Carries the law in its contract, and does nothing: from a legal world every list of steps, those
/// that are not allowed passed over, goes on to a legal world.
pub fn every_run_goes_on()
    ensures { (world : World) (steps : List Step) → IsLegal world
        → GoesOn world (after_steps world steps) }
{}
