//! Tests that wait or start threads: an engine with low limits, and runs of the top call over a
//! disk in memory. The tests of the crates below the engine stand in tl_tests.
#![tactic(auto)]

#[cfg(test)]
mod commits;
#[cfg(test)]
mod crashes;
#[cfg(test)]
mod heads;
#[cfg(test)]
mod limits;
#[cfg(test)]
mod looks;
#[cfg(test)]
mod marks;
#[cfg(test)]
mod meetings;
#[cfg(test)]
mod moments;
#[cfg(test)]
mod offers;
#[cfg(test)]
mod pieces;
#[cfg(test)]
mod runs;
#[cfg(test)]
mod sessions;
