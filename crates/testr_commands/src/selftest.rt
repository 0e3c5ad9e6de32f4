//! `testr selftest`.

ghost use Rattle.std.specs.Prelude.{◌≡◌, ◌≤◌, true, ℕ, List, [], length, IfOk, IfSome};
ghost use Rattle.edge_io.specs.Seen.{Seen};
ghost use Rattle.outcome_fold.specs.Summed.{Sums};
ghost use Rattle.outcome_fold.specs.declared.row.Row.{Row as ARow};
ghost use Rattle.testr_words.specs.Drawings.{are_few};
ghost use Rattle.command_steps.specs.Outside.{work};
ghost use Rattle.testr_commands.specs.SelfTest.{TestsItself, SumsUp, RunsInTurn, rows_in_turn};

use crate::null_sink::NullSink;
use crate::{Refusal, Verdict};
use command_steps::{
    Silenced, Told, check_next_number, make_store, open_store, print_text, run_workers,
    verdict_of_summary,
};
use drawn_lanes::drawn_plans;
use edge_io::{Job, MemShelf, PlanSpawner, Shelf, Sink, Spawner};
use itoa::Buffer;
use live_text::Live;
use outcome_fold::Summary;
use packet_codec::Tags;
use std::alloc::Global;
use std::sync::Wait;
use std::thread::Threads;
use sub_number::{Bytes, NoMemory};
use sub_text::summary_from;
use suite_run::{Echo, Shown};
use testr_words::SelfTestWords;

/// Runs workers whose outputs are made up, in memory, as `testr run` runs those of a project; and prints the summary of
/// that run. It may wait for the threads that read them.
pub fn selftest<R: Threads + Wait + Sync, O: Sink>(
    rt: &R,
    alloc: Global,
    drawing: SelfTestWords,
    out: &mut O,
) -> Result<Verdict, Refusal<'static>>
    requires few { are_few drawing.lanes drawing.tests ≡ true }
    ensures { (folder : _) → (site : _) → (spawner : _) → (input : Seen (List ℕ)) → TestsItself drawing
        (work folder site spawner input (O.seen out.old))
        (work folder site spawner input (O.seen out.new))
        result }
{
    let told = sum_up(rt, alloc, drawing)?;
    print_text(out, &told.text)?;
    Ok(told.verdict)
}

// The summary of the drawing's workers, and their verdict.
fn sum_up<R: Threads + Wait + Sync>(
    rt: &R,
    alloc: Global,
    drawing: SelfTestWords,
) -> Result<Told, NoMemory>
    requires few { are_few drawing.lanes drawing.tests ≡ true }
    ensures { SumsUp drawing result }
{
    let summary = drawn_summary(rt, alloc, drawing)?;
    let mut text = Vec::new(alloc);
    summary_from(summary.counts(), 0, &mut text)?;
    Ok(Told {
        text,
        verdict: verdict_of_summary(&summary),
    })
}

// What is kept of the rows of the drawing's workers. What is in memory fails only for want of memory.
fn drawn_summary<R: Threads + Wait + Sync>(
    rt: &R,
    alloc: Global,
    drawing: SelfTestWords,
) -> Result<Summary, NoMemory>
    requires few { are_few drawing.lanes drawing.tests ≡ true }
    ensures { IfOk result (Sums [] (rows_in_turn drawing)) }
{
    let plans = drawn_plans(alloc, drawing.seed, drawing.lanes, drawing.tests)?;
    let jobs = lane_jobs(alloc, drawing.lanes)?;
    let mut spawner = PlanSpawner::new(alloc, plans, Vec::new(alloc));
    let mut shelf = MemShelf::new(alloc, Vec::new(alloc));
    match run_drawn(rt, alloc, &jobs, &mut shelf, &mut spawner) {
        Ok(summary) => Ok(summary),
        Err(_) => Err(NoMemory),
    }
}

// A job for each lane, whose command is the lane's number.
fn lane_jobs(alloc: Global, lanes: u32) -> Result<Vec<Job>, NoMemory>
    requires { lanes ≤ 64 }
    ensures count { IfOk result (λ jobs. length jobs.items ≡ lanes) }
    ensures few { IfOk result (λ jobs. length jobs.items ≤ 64) }
{
    let mut jobs = Vec::with_capacity(alloc, lanes as usize)?;
    let mut digits = Buffer::new();
    for lane in 0..lanes {
        let command = Bytes::new(alloc, digits.format(lane).as_bytes())?;
        jobs.push(Job {
            command,
            id_file: None,
        })?;
    }
    Ok(jobs)
}

// Makes a repository in the folder, and keeps what is recorded of the jobs' workers as its next run.
fn run_drawn<R: Threads + Wait + Sync, H: Shelf, S: Spawner>(
    rt: &R,
    alloc: Global,
    jobs: &[Job],
    shelf: &mut H,
    spawner: &mut S,
) -> Result<Summary, Refusal<'static>>
    requires few { length jobs.now ≤ 64 }
    ensures { IfOk result (λ summary. (rows : List ARow) × Sums [] rows summary × IfSome (S.seen spawner.old).told (λ s. RunsInTurn jobs.now s rows)) }
{
    make_store(shelf)?;
    let found = open_store(alloc, shelf)?;
    check_next_number(&found)?;
    let filter_tags = Tags::new(alloc);
    let unshown = Shown {
        live: Live::Nothing,
        echo: Echo::Nothing,
    };
    let mut silenced = Silenced::none();
    match run_workers(
        rt,
        alloc,
        jobs,
        &[],
        false,
        false,
        shelf,
        found,
        spawner,
        filter_tags,
        unshown,
        &mut NullSink,
        &mut NullSink,
        &mut silenced,
    ) {
        Ok(kept) => Ok(kept.summary),
        Err(refusal) => Err(refusal),
    }
}
