//! What each worker of a run is started with.

ghost use Rattle.std.specs.Prelude.{◌≡◌, ◌≤◌, ◌⊎◌, ◌∷◌, ◌++◌, [], Some, length, IfOk, IfErr, IfSome, OnOk};
ghost use Rattle.std.specs.Option.{option_copied};
ghost use Rattle.testr_conf.specs.Jobs.{all_job_of};
ghost use Rattle.suite_plan.specs.declared.worker_shares.TheConstants.{MOST_WORKERS};
ghost use Rattle.suite_plan.specs.LaneJobs.{lane_jobs};

use edge_io::Job;
use std::alloc::Global;
use sub_number::{IdList, NoMemory};
use testr_conf::{Conf, JobFault};

/// The jobs of the workers in the order of their lanes: where no shares are given one job of all tests, else one for
/// each share, whose id file has the number of its lane. Where there is no share there is no job.
///
/// `NoOption` comes exactly where there is a share, `$IDOPTION` is in the command and `test_id_option` is not set.
pub fn jobs_of_lanes(
    alloc: Global,
    conf: &Conf,
    shares: Option<&[IdList]>,
) -> Result<Vec<Job>, JobFault>
    requires { IfSome (option_copied shares) (λ shares. length shares ≤ MOST_WORKERS) }
    ensures ok { IfOk result (λ jobs. lane_jobs conf.now (option_copied shares.entry) ≡ Ok jobs.items) }
    ensures refused { IfErr result (λ fault. (lane_jobs conf.now (option_copied shares.entry) ≡ Err fault) ⊎ (fault ≡ JobFault.NoMemory)) }
    ensures exactly { IfErr (lane_jobs conf.now (option_copied shares.entry)) (λ fault. (result ≡ Err fault) ⊎ (result ≡ Err JobFault.NoMemory)) }
    ensures few { IfOk result (λ jobs. length jobs.items ≤ MOST_WORKERS) }
{
    match shares {
        Some(shares) => jobs_of_shares(alloc, conf, shares),
        None => job_of_all(alloc, conf),
    }
}

// The job of all tests, alone.
fn job_of_all(alloc: Global, conf: &Conf) -> Result<Vec<Job>, JobFault>
    ensures ok { IfOk result (λ jobs. jobs.items ≡ all_job_of conf.now ∷ []) }
    ensures refused { IfErr result (λ fault. fault ≡ JobFault.NoMemory) }
{
    let mut jobs = Vec::new(alloc);
    push_job(&mut jobs, conf.run_job(alloc, None, 0)?)?;
    Ok(jobs)
}

// The job of each share, the first share being that of lane 0.
fn jobs_of_shares(alloc: Global, conf: &Conf, shares: &[IdList]) -> Result<Vec<Job>, JobFault>
    requires { length shares.now ≤ MOST_WORKERS }
    ensures ok { IfOk result (λ jobs. lane_jobs conf.now (Some shares.now) ≡ Ok jobs.items) }
    ensures refused { IfErr result (λ fault. (lane_jobs conf.now (Some shares.now) ≡ Err fault) ⊎ (fault ≡ JobFault.NoMemory)) }
    ensures count { IfOk result (λ jobs. length jobs.items ≡ length shares.now) }
{
    let mut jobs = Vec::new(alloc);
    for lane in 0..shares.len() {
        push_job(
            &mut jobs,
            conf.run_job(alloc, Some(&shares[lane]), lane as u32)?,
        )?;
    }
    Ok(jobs)
}

// Puts the job behind the others.
fn push_job(jobs: &mut Vec<Job>, job: Job) -> Result<(), NoMemory>
    ensures { OnOk result (jobs.new.items ≡ jobs.old.items ++ job ∷ []) }
{
    jobs.push(job)?;
    Ok(())
}
