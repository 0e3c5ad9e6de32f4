//! Starts that fail, over children that count what is done with them.

ghost use Rattle.std.specs.Prelude.{◌≡◌};

use crate::many_jobs::jobs;
use edge_io::{Child, Failed, Job, Spawner};
use std::alloc::Global;
use std::process::Abort;
use std::sync::Arc;
use std::sync::atomic::{AtomicU32, Ordering};
use std::test::Fail;
use suite_run::{StartRefusal, start_lanes};

// A child that gives nothing. It counts that it is stopped, and that it is waited for once it was.
#[derive(Drop)]
struct Watched {
    is_stopped: bool,
    stopped: Arc<AtomicU32>,
    waited: Arc<AtomicU32>,
}

impl Child for Watched {
    ghost use Rattle.std.specs.Prelude.{None};

    ghost seen = { λ s. record { told = None; faults = 0 } };

    fn read(&mut self, _buf: &mut [u8]) -> Result<usize, Failed> {
        Ok(0)
    }

    fn wait(&mut self) -> Result<i32, Failed> {
        if self.is_stopped {
            self.waited.fetch_add(1, Ordering::SeqCst);
        }
        Ok(0)
    }

    fn stop(&mut self) {
        self.is_stopped = true;
        self.stopped.fetch_add(1, Ordering::SeqCst);
    }

    ghost are_bytes = { λ s. tt };

    ghost has_finish = { λ s. tt };
}

// It starts so many children, and no more.
#[derive(Drop)]
struct Limited {
    left: u32,
    stopped: Arc<AtomicU32>,
    waited: Arc<AtomicU32>,
    faults: u64,
}

impl Limited {
    fn child(&mut self) -> Option<Watched>
        ensures { self.new.faults ≡ self.old.faults }
    {
        self.left = self.left.checked_sub(1)?;
        Some(Watched {
            is_stopped: false,
            stopped: Arc::try_clone(&self.stopped).ok()?,
            waited: Arc::try_clone(&self.waited).ok()?,
        })
    }
}

impl Spawner for Limited {
    ghost use Rattle.std.specs.Prelude.{None};

    type Child = Watched;

    ghost seen = { λ s. record { told = None; faults = s.faults } };

    fn start(&mut self, _job: &Job) -> Result<Watched, Failed> {
        match self.child() {
            Some(child) => Ok(child),
            None => {
                self.faults = self.faults.saturating_add(1);
                Err(Failed)
            }
        }
    }
}

// It starts two children, which count there.
fn spawner_of_two(stopped: &Arc<AtomicU32>, waited: &Arc<AtomicU32>) -> Option<Limited> {
    Some(Limited {
        left: 2,
        stopped: Arc::try_clone(stopped).ok()?,
        waited: Arc::try_clone(waited).ok()?,
        faults: 0,
    })
}

// Whether a start fails among three jobs.
fn is_refused(alloc: Global, spawner: &mut Limited, jobs: &[Job]) -> bool {
    jobs.len() == 3
        && matches!(
            start_lanes(alloc, spawner, jobs, &[]),
            Err(StartRefusal::Spawn)
        )
}

// Whether a start fails behind two.
fn third_is_refused(
    alloc: Global,
    stopped: &Arc<AtomicU32>,
    waited: &Arc<AtomicU32>,
) -> Option<bool> {
    let jobs = jobs(alloc, 3)?;
    let mut spawner = spawner_of_two(stopped, waited)?;
    Some(is_refused(alloc, &mut spawner, &jobs))
}

fn are_stopped_and_waited_for<R: AllocGlobal + Abort>(
    rt: &R,
    stopped: &Arc<AtomicU32>,
    waited: &Arc<AtomicU32>,
) -> Result<(), Fail> {
    assert!(rt; third_is_refused(rt.alloc(), stopped, waited).ok_or("no memory")?);
    assert_eq!(rt; stopped.load(Ordering::SeqCst), 2);
    assert_eq!(rt; waited.load(Ordering::SeqCst), 2);
    Ok(())
}

#[test]
fn children_are_stopped_and_waited_for_where_a_later_start_fails(
    rt: HostRuntime,
) -> Result<(), Fail> {
    let stopped = Arc::new(rt.alloc(), AtomicU32::new(0))?;
    let waited = Arc::new(rt.alloc(), AtomicU32::new(0))?;
    are_stopped_and_waited_for(&rt, &stopped, &waited)
}
