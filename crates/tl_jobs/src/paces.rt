//! How the statements of sessions are done: by how many workers, from 1 to 64, and with how many
//! events a mark is due.
ghost use Rattle.std.specs.Prelude.{◌≡◌, ◌<◌, ◌≤◌};

use std::marker::Model;

/// How the statements of sessions are done: by how many workers the work of a query may be shared,
/// from 1 to 64, and with how many events since its last mark a table gets another, 0 for none.
#[derive(Drop)]
pub struct Pace {
    workers: u32,
    every: u32,
}

impl Model for Pace {
    ghost use Rattle.std.specs.Prelude.{◌≡◌, ◌<◌, ◌≤◌};
    ghost use Rattle.tl_jobs.specs.Plain as plain;

    ghost Value = { plain.Pace };

    ghost view = { λ p. record { workers = p.workers; every = p.every } };

    ghost invariant = { λ p. (0 < p.workers) × (p.workers ≤ 64) };
}

impl Pace {
    /// The pace of so many workers, with a mark after so many events, 0 for none.
    pub fn new(workers: u32, every: u32) -> Pace
        requires some { 0 < workers }
        requires few { workers ≤ 64 }
        ensures { result ≡ record { workers = workers; every = every } }
    {
        Pace { workers, every }
    }

    /// By how many workers the work of a query may be shared, from 1 to 64.
    pub fn workers(&self) -> u32
        ensures is { result ≡ self.now.workers }
        ensures some { 0 < result }
        ensures few { result ≤ 64 }
    {
        self.workers
    }

    /// With how many events since its last mark a table gets another; 0 for none.
    pub fn every(&self) -> u32
        ensures { result ≡ self.now.every }
    {
        self.every
    }
}
