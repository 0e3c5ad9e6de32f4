//! Jobs, as many as a test asks for.

ghost use Rattle.std.specs.Prelude.{◌≡◌, ◌+◌, length, IfSome};

use edge_io::Job;
use std::alloc::Global;
use sub_number::Bytes;

fn job(alloc: Global) -> Option<Job> {
    let command = Bytes::new(alloc, b"true").ok()?;
    Some(Job {
        command,
        id_file: None,
    })
}

// A loop that owns nothing, so that an early end drops nothing.
fn push_jobs(alloc: Global, jobs: &mut Vec<Job>, count: usize) -> Option<()>
    ensures { IfSome result (λ _. length jobs.new.items ≡ length jobs.old.items + count) }
{
    for _ in 0..count {
        let job = job(alloc)?;
        jobs.push(job).ok()?;
    }
    Some(())
}

/// So many jobs.
pub fn jobs(alloc: Global, count: usize) -> Option<Vec<Job>>
    ensures { IfSome result (λ jobs. length jobs.items ≡ count) }
{
    let mut jobs = Vec::new(alloc);
    push_jobs(alloc, &mut jobs, count)?;
    Some(jobs)
}
