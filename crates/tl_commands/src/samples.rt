//! The sample: its phases, one after the other. A table is made, filled block by block and asked,
//! all from two numbers; no source is read.
ghost use Rattle.std.specs.Prelude.{◌≡◌, ◌<◌, ◌+◌, ◌^◌, IfOk, false, true};
ghost use Rattle.std.specs.String.{string_bytes};
ghost use Rattle.tl_commands.specs.Sample.{job_with, phase_with, queries_from, sum_text, sample_coming, GivesNext};

use crate::no_source::NoSource;
use std::alloc::Global;
use std::marker::Model;
use tl_command::Phases;
use tl_csv::Sample;
use tl_script::{Job, NextError, Phase};
use tl_types::{Bytes, Line, NoMemory};

/// The phases of a sample: a table, then a phase for each block of rows, then three queries.
#[derive(Drop)]
pub(crate) struct SamplePhases {
    sample: Sample,
    given: u64,
    asked: bool,
}

impl Model for SamplePhases {
    ghost use Rattle.std.specs.Prelude.{◌≡◌, ◌≤◌, ◌<◌, ◌+◌, ◌^◌};
    ghost use Rattle.tl_commands.specs.Sample.{SampleState};

    ghost Value = { SampleState };

    ghost view = { λ p. record { sample = p.sample; given = p.given; asked = p.asked } };

    ghost invariant = { λ p. (p.given ≤ p.sample.given + 1) × (p.sample.given ≤ p.sample.lines)
        × (p.sample.lines < 2 ^ 32) };
}

// A job of the one session.
fn job_with(alloc: Global, number: u64, text: &str, block: Option<Bytes>) -> Result<Job, NoMemory>
    ensures { IfOk result (λ job. job ≡ job_with number text.now block) }
{
    Ok(Job {
        session: 0,
        line: number,
        text: Line::new(alloc, text)?,
        block,
    })
}

// A phase of one job.
fn phase_with(
    alloc: Global,
    number: u64,
    text: &str,
    block: Option<Bytes>,
) -> Result<Phase, NoMemory>
    ensures { IfOk result (λ phase. phase.jobs.items ≡ phase_with number text.now block) }
{
    let mut jobs = Vec::new(alloc);
    jobs.push(job_with(alloc, number, text, block)?)?;
    Ok(Phase { jobs })
}

// The query for the sums of the groups at the last version.
fn sum_text(alloc: Global, last: u64) -> Result<String, NoMemory>
    requires { last + 1 < 2 ^ 64 }
    ensures { IfOk result (λ text. string_bytes text ≡ sum_text last) }
{
    let end = last + 1;
    format!(in alloc; "SUM val FROM sample BY grp OVER SYSTEM {last} TO {end}")
}

// The phase of the three queries, of which the first has this number and the last asks for this
// version.
fn query_phase(alloc: Global, number: u64, last: u64) -> Result<Phase, NoMemory>
    requires numbered { number + 2 < 2 ^ 64 }
    requires versioned { last + 1 < 2 ^ 64 }
    ensures { IfOk result (λ phase. phase.jobs.items ≡ queries_from number last) }
{
    let sums = sum_text(alloc, last)?;
    let mut jobs = Vec::new(alloc);
    jobs.push(job_with(alloc, number, "MIN val FROM sample OVER SYSTEM ALL", None)?)?;
    jobs.push(job_with(
        alloc,
        number + 1,
        "MAX val FROM sample OVER SYSTEM ALL",
        None,
    )?)?;
    jobs.push(job_with(alloc, number + 2, sums.as_str(), None)?)?;
    Ok(Phase { jobs })
}

// The name of the session.
const NAME: &str = "sample";

// The statement that makes the table.
const TABLE: &str = "CREATE TABLE sample (id INT, grp INT, val INT) KEY id";

impl SamplePhases {
    /// The phases of a sample of so many lines, whose generator begins with `start`.
    pub(crate) fn new(lines: u32, start: u64) -> SamplePhases
        ensures { result ≡ record {
          sample = record { lines = lines; start = start; given = 0 };
          given = 0;
          asked = false;
        } }
    {
        SamplePhases {
            sample: Sample::new(lines, start),
            given: 0,
            asked: false,
        }
    }

    // The phase that makes the table.
    fn table(&mut self, alloc: Global) -> Result<Phase, NoMemory>
        requires first { (self.old.given ≡ 0) × (self.old.asked ≡ false) }
        ensures { IfOk result (λ phase. GivesNext self.old phase.jobs.items self.new) }
    {
        let phase = phase_with(alloc, 1, TABLE, None)?;
        self.given = 1;
        Ok(phase)
    }

    // The phase that puts the next block, or asks, once all blocks were put.
    fn rows(&mut self, alloc: Global) -> Result<Phase, NoMemory>
        requires later { (0 < self.old.given) × (self.old.asked ≡ false) }
        ensures { IfOk result (λ phase. GivesNext self.old phase.jobs.items self.new) }
    {
        match self.sample.next_block(alloc)? {
            Some(block) => {
                let phase = phase_with(alloc, self.given + 1, "PUT sample", Some(block))?;
                self.given += 1;
                Ok(phase)
            }
            None => {
                let phase = query_phase(alloc, self.given + 1, self.given)?;
                self.asked = true;
                Ok(phase)
            }
        }
    }

    // The next phase.
    fn some_phase(&mut self, alloc: Global) -> Result<Phase, NoMemory>
        requires { self.old.asked ≡ false }
        ensures { IfOk result (λ phase. GivesNext self.old phase.jobs.items self.new) }
    {
        if self.given == 0 {
            return self.table(alloc);
        }
        self.rows(alloc)
    }
}

impl Phases<NoSource> for SamplePhases {
    ghost coming = { sample_coming };

    fn next(&mut self, alloc: Global, _source: &mut NoSource) -> Result<Option<Phase>, NextError> {
        if self.asked {
            return Ok(None);
        }
        let phase = self.some_phase(alloc)?;
        Ok(Some(phase))
    }

    fn session_count(&self) -> u32 {
        1
    }

    fn session_name(&self, _number: u32) -> &str {
        NAME
    }
}
