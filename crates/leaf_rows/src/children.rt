//! Children in memory, and what starts them.

use crate::confs::put_job;
use crate::fields::{fails_of, field, owned_bytes, text_of};
use crate::told::{Calls, make_all, put_value};
use edge_io::{Child, Failed, Finish, IdFile, Job, Plan, PlanChild, PlanSpawner, Spawner};
use std::alloc::Global;

// How many bytes a child gives in reads of two, and whether these come to an end or fail. None where they do neither.
fn read_out(child: &mut PlanChild) -> Option<(usize, bool)> {
    let mut buf = [0u8; 2];
    let mut size = 0usize;
    for _ in 0..10 {
        match child.read(&mut buf) {
            Ok(0) => return Some((size, true)),
            Ok(count) => size = size.saturating_add(count),
            Err(Failed) => return Some((size, false)),
        }
    }
    None
}

impl Calls for PlanChild {
    fn call(&mut self, alloc: Global, name: &str, words: &str, said: &mut Vec<u8>) -> Option<()> {
        match (name, words) {
            ("read_out", "") => put_value(alloc, &read_out(self), said),
            ("wait", "") => put_value(alloc, &self.wait(), said),
            ("stop", "") => {
                self.stop();
                put_value(alloc, &(), said)
            }
            _ => None,
        }
    }
}

fn finish_of(word: &str) -> Option<Finish> {
    match word {
        "read_fault" => Some(Finish::ReadFault),
        "wait_fault" => Some(Finish::WaitFault),
        _ => Some(Finish::Exit(word.strip_prefix("exit:")?.parse().ok()?)),
    }
}

/// Answers calls of a child of `bytes=`, which come in pieces of at most `piece=`, and which ends as `finish=` says.
pub fn answer_child(alloc: Global, words: &str, lines: &[&str], said: &mut Vec<u8>) -> Option<()> {
    let finish = finish_of(field(words, "finish=")?)?;
    let piece: usize = field(words, "piece=")?.parse().ok()?;
    if piece < 1 {
        return None;
    }
    let bytes = owned_bytes(alloc, field(words, "bytes=")?)?;
    make_all(
        alloc,
        &mut PlanChild::new(bytes, piece, finish),
        lines,
        said,
    )
}

// ---- what starts children

#[derive(Drop)]
struct JobStarter {
    spawner: PlanSpawner,
    job: Job,
}

// How many bytes the next child gives. None where its start fails.
fn start(spawner: &mut PlanSpawner, job: &Job) -> Option<usize> {
    let mut child = spawner.start(job).ok()?;
    Some(read_out(&mut child)?.0)
}

fn put_started(alloc: Global, jobs: &[Job], said: &mut Vec<u8>) -> Option<()> {
    put_value(alloc, &jobs.len(), said)?;
    for job in jobs {
        put_job(job, said)?;
    }
    Some(())
}

impl Calls for JobStarter {
    fn call(&mut self, alloc: Global, name: &str, words: &str, said: &mut Vec<u8>) -> Option<()> {
        match (name, words) {
            ("start", "") => put_value(alloc, &start(&mut self.spawner, &self.job), said),
            ("started", "") => put_started(alloc, self.spawner.started(), said),
            ("short", "") => put_value(alloc, &self.spawner.memory_faults(), said),
            _ => None,
        }
    }
}

// A child of these bytes, which come one by one.
fn plan_of(alloc: Global, output: &str) -> Option<Plan> {
    Some(Plan {
        output: owned_bytes(alloc, output)?,
        piece: 1,
        finish: Finish::Exit(0),
    })
}

fn push_plans(alloc: Global, list: &str, plans: &mut Vec<Plan>) -> Option<()> {
    for output in list.split(',') {
        plans.push(plan_of(alloc, output)?).ok()?;
    }
    Some(())
}

fn spawner_of(alloc: Global, words: &str) -> Option<PlanSpawner> {
    let fails = fails_of(alloc, words, "fails=")?;
    let mut plans = Vec::new(alloc);
    push_plans(alloc, field(words, "outputs=")?, &mut plans)?;
    Some(PlanSpawner::new(alloc, plans, fails))
}

fn id_file_of(alloc: Global, words: &str) -> Option<IdFile> {
    let name = text_of(alloc, field(words, "name=")?)?;
    let bytes = owned_bytes(alloc, field(words, "ids=")?)?;
    Some(IdFile { name, bytes })
}

fn job_of(alloc: Global, words: &str) -> Option<Job> {
    let command = owned_bytes(alloc, field(words, "command=")?)?;
    let id_file = Some(id_file_of(alloc, words)?);
    Some(Job { command, id_file })
}

/// Answers calls of a spawner of children of these `outputs=`, of which these starts are to fail: `fails=`. Each start is of
/// the job of this `command=`, whose file of ids has this `name=` and these bytes, `ids=`.
pub fn answer_spawner(
    alloc: Global,
    words: &str,
    lines: &[&str],
    said: &mut Vec<u8>,
) -> Option<()> {
    let mut starter = JobStarter {
        spawner: spawner_of(alloc, words)?,
        job: job_of(alloc, words)?,
    };
    make_all(alloc, &mut starter, lines, said)
}
