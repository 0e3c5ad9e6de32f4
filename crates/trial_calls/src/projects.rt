//! Projects in memory: their files, and what the programs give that they are started with.

use crate::call_outcome::CallOutcome;
use crate::calls::{call_beside, call_with};
use edge_io::{Finish, Job, MapSite, MemShelf, Plan, PlanSpawner, Shelf, Spawner};
use std::alloc::Global;
use std::sync::Wait;
use std::test::Fail;
use std::thread::Threads;
use sub_number::{Bytes, Text};

/// The files of a project, and the programs that it is started with.
#[derive(Drop)]
pub struct Project {
    /// The files.
    pub site: MapSite,
    /// The programs.
    pub spawner: PlanSpawner,
}

/// Gives the project a file more.
pub fn put_file(
    alloc: Global,
    project: &mut Project,
    name: &[u8],
    bytes: &[u8],
) -> Result<(), Fail> {
    let name = Text::new(alloc, name)?;
    let bytes = Bytes::new(alloc, bytes)?;
    project.site.put(name, bytes)?;
    Ok(())
}

/// A project of this configuration, whose programs give these outputs in this order. Reads and starts of these numbers fail.
pub fn project_of(
    alloc: Global,
    conf: &[u8],
    outputs: &[(&[u8], Finish)],
    reads: &[u64],
    starts: &[u64],
) -> Result<Project, Fail> {
    project_with(alloc, &[(b".testr.conf", conf)], outputs, reads, starts)
}

// A program that gives this output, five bytes at once.
fn plan_of(alloc: Global, output: &[u8], finish: Finish) -> Result<Plan, Fail> {
    let output = Bytes::new(alloc, output)?;
    Ok(Plan {
        output,
        piece: 5,
        finish,
    })
}

// A loop that owns nothing, so that an early end drops nothing.
fn push_plans(
    alloc: Global,
    plans: &mut Vec<Plan>,
    outputs: &[(&[u8], Finish)],
) -> Result<(), Fail> {
    for (output, finish) in outputs {
        let plan = plan_of(alloc, output, *finish)?;
        plans.push(plan)?;
    }
    Ok(())
}

// Programs that give these outputs in this order. Starts of these numbers fail.
fn spawner_of(
    alloc: Global,
    outputs: &[(&[u8], Finish)],
    starts: &[u64],
) -> Result<PlanSpawner, Fail> {
    let mut plans = Vec::new(alloc);
    push_plans(alloc, &mut plans, outputs)?;
    let starts = starts.to_vec(alloc)?;
    Ok(PlanSpawner::new(alloc, plans, starts))
}

// A project without files.
fn bare_project(
    alloc: Global,
    outputs: &[(&[u8], Finish)],
    reads: &[u64],
    starts: &[u64],
) -> Result<Project, Fail> {
    let reads = reads.to_vec(alloc)?;
    let spawner = spawner_of(alloc, outputs, starts)?;
    let site = MapSite::new(alloc, reads);
    Ok(Project { site, spawner })
}

fn put_files(alloc: Global, project: &mut Project, files: &[(&[u8], &[u8])]) -> Result<(), Fail> {
    for (name, bytes) in files {
        put_file(alloc, project, name, bytes)?;
    }
    Ok(())
}

/// A project of these files, whose programs give these outputs in this order. Reads and starts of these numbers fail.
pub fn project_with(
    alloc: Global,
    files: &[(&[u8], &[u8])],
    outputs: &[(&[u8], Finish)],
    reads: &[u64],
    starts: &[u64],
) -> Result<Project, Fail> {
    let mut project = bare_project(alloc, outputs, reads, starts)?;
    put_files(alloc, &mut project, files)?;
    Ok(project)
}

/// Calls the program over a project, and an output that fails at these writes.
pub fn call_in<R: Threads + Wait + Sync + AllocGlobal, H: Shelf>(
    rt: &R,
    words: &[&str],
    shelf: &mut H,
    project: &mut Project,
    writes: &[u64],
) -> Result<CallOutcome, Fail> {
    let Project { site, spawner } = project;
    call_with(rt, words, shelf, spawner, site, writes)
}

/// The same, over a sink of errors that fails at these writes, too.
pub fn call_failing<R: Threads + Wait + Sync + AllocGlobal, H: Shelf>(
    rt: &R,
    words: &[&str],
    shelf: &mut H,
    project: &mut Project,
    writes: &[u64],
    errors: &[u64],
) -> Result<CallOutcome, Fail> {
    let Project { site, spawner } = project;
    call_beside(rt, words, shelf, spawner, site, writes, errors)
}

// Whether the job has this command, and a file of ids of this name with these bytes, or none where the two are empty.
fn is_job(job: &Job, parts: &[&[u8]; 3]) -> bool {
    let [command, name, ids] = parts;
    let has_file = match &job.id_file {
        Some(file) => file.name.bytes() == *name && file.bytes.bytes() == *ids,
        None => name.is_empty() && ids.is_empty(),
    };
    job.command.bytes() == *command && has_file
}

/// Whether these jobs were started, in this order: of each its command, and the name and the bytes of its file of ids, or
/// nothing.
pub fn has_started(project: &Project, wanted: &[[&[u8]; 3]]) -> bool {
    let jobs = project.spawner.started();
    if jobs.len() != wanted.len() {
        return false;
    }
    for (job, parts) in jobs.iter().zip(wanted) {
        if !is_job(job, parts) {
            return false;
        }
    }
    true
}

/// Whether the program tells this over a project: the status, the bytes of the output, and those of the sink of errors.
pub fn shows<R: Threads + Wait + Sync + AllocGlobal>(
    rt: &R,
    words: &[&str],
    shelf: &mut MemShelf,
    project: &mut Project,
    wanted: (u8, &[u8], &[u8]),
) -> Result<bool, Fail> {
    let (status, out, err) = wanted;
    Ok(call_in(rt, words, shelf, project, &[])?.is(status, out, err))
}
