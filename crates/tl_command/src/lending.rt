//! The jobs of a phase, lent to those who do them. Nothing is copied but where a text and a block
//! stand.
ghost use Rattle.std.specs.Prelude.{◌≡◌, IfOk, map, option_map};
ghost use Rattle.tl_command.specs.Jobs.{asked};
ghost use Rattle.tl_jobs.specs.Jobs.{job_of};

use std::alloc::Global;
use tl_jobs::LentJob;
use tl_script::Job;
use tl_types::{Bytes, NoMemory};

fn lent_block(block: &Option<Bytes>) -> Option<&[u8]>
    ensures { option_map (λ b. b.now) result ≡ block.now }
{
    match block {
        Some(bytes) => Some(bytes.as_slice()),
        None => None,
    }
}

fn lent_job<'a>(job: &'a Job) -> LentJob<'a>
    ensures { job_of result ≡ asked job.now }
{
    LentJob {
        session: job.session,
        line: job.line,
        text: job.text.as_str(),
        block: lent_block(&job.block),
    }
}

/// The jobs of a phase as those who are asked to do them see them: each lends its text and its
/// block. The error is `NoMemory`.
pub fn lent_jobs<'a>(alloc: Global, jobs: &'a [Job]) -> Result<Vec<LentJob<'a>>, NoMemory>
    ensures { IfOk result (λ lent. map job_of lent.items ≡ map asked jobs.now) }
{
    let mut lent = Vec::new(alloc);
    for job in jobs {
        lent.push(lent_job(job))?;
    }
    Ok(lent)
}
