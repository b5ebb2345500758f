//! What a session is asked to do: a job, which borrows its text and its block from the script.
ghost use Rattle.std.specs.Prelude.{◌≡◌};
ghost use Rattle.tl_jobs.specs.Jobs.{job_of};
ghost use Rattle.tl_jobs.specs.Reading.{block_of};

/// One statement of a session.
#[derive(Clone, Copy, Drop)]
pub struct LentJob<'a> {
    /// The number of its session, from 0: the author of its batch.
    pub session: u32,
    /// The number of the line that it stands on, from 1.
    pub line: u64,
    /// The statement's text, without the session's name and the spaces and tabs around it.
    pub text: &'a str,
    /// The bytes of its block, where it has one.
    pub block: Option<&'a [u8]>,
}

impl<'a> LentJob<'a> {
    /// The bytes of its block, none where it has none.
    pub fn block_bytes(&self) -> &'a [u8]
        ensures { result.now ≡ block_of (job_of self.now).block }
    {
        match self.block {
            Some(block) => block,
            None => &[],
        }
    }
}
