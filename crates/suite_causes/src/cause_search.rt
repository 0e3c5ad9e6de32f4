//! The search for what makes a test fail: probes that are run, one after another.

ghost use Rattle.std.specs.Prelude.{◌≡◌, ◌⊎◌, ◌≤◌, Ok, Err, [], length, take, IfOk, IfErr, OnOk};
ghost use Rattle.isolation_bisect.specs.Probes.{IsWithin, probe_ids};
ghost use Rattle.suite_causes.specs.Searching.{RunsProbe, CanHandIds, IsAmong, Searches, probe_job};

use crate::probe_run::{ProbeFault, read_probe};
use edge_io::{Failed, Job, Spawner};
use isolation_bisect::{Bisect, Found, Probe, probe_ids};
use std::alloc::Global;
use sub_number::{IdList, NoMemory, Text};
use testr_conf::{Conf, JobFault};

/// Why a search came to no verdict.
#[derive(Clone, Copy, Debug, PartialEq, Eq)]
pub enum SearchFault {
    /// The child of a probe was not started.
    Spawn,
    /// The child of a probe was not read to its end, or not waited for.
    Child,
    /// There is not enough memory.
    NoMemory,
}

impl From<NoMemory> for SearchFault {
    ghost use Rattle.std.specs.Prelude.{◌≡◌};
    ghost use Rattle.suite_causes.specs.declared.cause_search.SearchFault.TheVariants.{NoMemory};

    ghost from_gives = { λ _ fault. fault ≡ NoMemory };

    fn from(_: NoMemory) -> Self {
        SearchFault::NoMemory
    }
}

/// Whether each probe of the project's tests has a job. To be asked before a search. A command that takes no ids has one, which
/// runs all tests.
///
/// `NoOption` comes exactly where `$IDOPTION` is in the command and `test_id_option` is not set, but for want of memory.
pub fn can_hand_ids(alloc: Global, conf: &Conf) -> Result<(), JobFault>
    ensures handed { OnOk result (CanHandIds conf.now) }
    ensures refused { IfErr result (λ fault. (probe_job conf.now [] ≡ Err fault) ⊎ (fault ≡ JobFault.NoMemory)) }
    ensures exactly { IfErr (probe_job conf.now []) (λ fault. (result ≡ Err fault) ⊎ (result ≡ Err JobFault.NoMemory)) }
{
    let ids = IdList::new(alloc);
    match conf.run_job(alloc, Some(&ids), 0) {
        Ok(_) => Ok(()),
        Err(fault) => Err(fault),
    }
}

/// Searches for what makes the test fail, among the first of these ids, so many. Each probe is a job of the configuration that
/// runs the probe's ids, and its child is read as lane 0 on this thread, one after another; nothing of it is stored.
///
/// `Spawn` comes exactly where a start fails, and raises the spawner's count of faults; then nothing more is started. `Child`
/// comes exactly where the reads of a child or the wait for it fail. What was asked by then is said.
pub fn search_cause<S: Spawner>(
    alloc: Global,
    conf: &Conf,
    spawner: &mut S,
    ids: &IdList,
    count: u32,
    test: &Text,
) -> Result<Found, SearchFault>
    requires few { count ≤ length ids.now }
    requires handed { CanHandIds conf.now }
    ensures step { Searches conf.now (take count ids.now) test.now (S.seen spawner.old) (S.seen spawner.new) result }
    ensures among { IfOk result (IsAmong (take count ids.now)) }
{
    let mut bisect = Bisect::new(count);
    while let Some(probe) = bisect.next() {
        let failed = ask(alloc, conf, spawner, ids, &probe, test)?;
        bisect.answer(failed);
    }
    let Some(found) = bisect.found() else {
        unreachable!()
    };
    Ok(found)
}

// Runs the probe.
fn ask<S: Spawner>(
    alloc: Global,
    conf: &Conf,
    spawner: &mut S,
    ids: &IdList,
    probe: &Probe,
    test: &Text,
) -> Result<bool, SearchFault>
    requires within { IsWithin (length ids.now) probe.now }
    requires handed { CanHandIds conf.now }
    ensures { RunsProbe conf.now (probe_ids ids.now probe.now test.now) test.now (S.seen spawner.old) (S.seen spawner.new) result }
{
    let job = probe_job(alloc, conf, ids, probe, test)?;
    let child = match spawner.start(&job) {
        Ok(child) => child,
        Err(Failed) => return Err(SearchFault::Spawn),
    };
    match read_probe(alloc, child, test) {
        Ok(failed) => Ok(failed),
        Err(ProbeFault::Child) => Err(SearchFault::Child),
        Err(ProbeFault::NoMemory) => Err(SearchFault::NoMemory),
    }
}

// The job of the probe.
fn probe_job(
    alloc: Global,
    conf: &Conf,
    ids: &IdList,
    probe: &Probe,
    test: &Text,
) -> Result<Job, NoMemory>
    requires within { IsWithin (length ids.now) probe.now }
    requires handed { CanHandIds conf.now }
    ensures { IfOk result (λ job. probe_job conf.now (probe_ids ids.now probe.now test.now) ≡ Ok job) }
{
    let ids = probe_ids(alloc, ids, probe, test)?;
    match conf.run_job(alloc, Some(&ids), 0) {
        Ok(job) => Ok(job),
        Err(JobFault::NoOption(_)) => unreachable!(),
        Err(JobFault::NoMemory) => Err(NoMemory),
    }
}
