//! Tests of the crates below: what no clause says, and calls that neither a script of `examples/`
//! nor a test of another crate reaches, on their happy path. A crate whose tests stand here is
//! proved once, where one with tests of its own is proved a second time.
#![tactic(auto)]

#[cfg(test)]
mod batches;
#[cfg(test)]
mod bits;
#[cfg(test)]
mod columns;
#[cfg(test)]
mod devices;
#[cfg(test)]
mod events;
#[cfg(test)]
mod files;
#[cfg(test)]
mod lanes;
#[cfg(test)]
mod lists;
#[cfg(test)]
mod masks;
#[cfg(test)]
mod plain;
#[cfg(test)]
mod records;
#[cfg(test)]
mod rows;
#[cfg(test)]
mod statements;
#[cfg(test)]
mod tables;
#[cfg(test)]
mod values;
#[cfg(test)]
mod worked;
#[cfg(test)]
mod worlds;
