// A spawner of children in memory.
ghost use Rattle.std.specs.Prelude.{◌≡◌, ◌≤◌, ◌∷◌, ◌++◌, Some, [], map, OnOk, OnErr};

use crate::fault_plan::FaultPlan;
use crate::{Failed, Finish, Job, PlanChild, Spawner};
use std::alloc::Global;
use std::collections::VecDeque;
use sub_number::{Bytes, NoMemory};

/// What a child in memory gives, at most `piece` bytes at once, at least one, and how it ends.
#[derive(Drop)]
pub struct Plan {
    /// All its output.
    pub output: Bytes,
    /// How many bytes come at once.
    pub piece: usize,
    /// How it ends.
    pub finish: Finish,
    ghost has_piece: { 1 ≤ piece },
}

/// A spawner of children over a list of plans, which keeps the jobs that it started. It fails at the calls that it is
/// told to, where no plan is left, and where memory runs out.
#[derive(Drop)]
pub struct PlanSpawner {
    alloc: Global,
    plans: VecDeque<Plan>,
    jobs: Vec<Job>,
    plan: FaultPlan,
}

impl PlanSpawner {
    ghost use Rattle.edge_io.specs.Planned.{planned_output, spawning_of, spawner_course, spawner_faults};

    /// These plans, in order. `fails` lists the starts, by their numbers from 0, that are to fail. It takes no memory.
    pub fn new(alloc: Global, plans: Vec<Plan>, fails: Vec<u64>) -> Self
        ensures spawning { spawning_of result ≡ record { outputs = map planned_output plans.items; started = [] } }
        ensures fails { (spawner_course result).fails ≡ fails.items }
        ensures calls { (spawner_course result).calls ≡ 0 }
        ensures short { (spawner_course result).short ≡ 0 }
        ensures faults { spawner_faults result ≡ 0 }
    {
        PlanSpawner {
            alloc,
            plans: VecDeque::from(plans),
            jobs: Vec::new(alloc),
            plan: FaultPlan::new(fails),
        }
    }

    /// The jobs started so far, in order.
    pub fn started(&self) -> &[Job]
        ensures { result.now ≡ (spawning_of self.now).started }
    {
        &self.jobs
    }

    /// How many starts failed for want of memory; they are a part of its faults. It stops at the last value of a `u64`.
    pub fn memory_faults(&self) -> u64
        ensures count { result ≡ (spawner_course self.now).short }
        ensures part { result ≤ spawner_faults self.now }
    {
        self.plan.short
    }
}

impl Spawner for PlanSpawner {
    type Child = PlanChild;

    ghost use Rattle.edge_io.specs.Causes.{HasCause};
    ghost use Rattle.edge_io.specs.Spawners.{StartsOne};
    ghost use Rattle.edge_io.specs.Planned.{child_output, planned_output, spawning_of, spawner_course, spawner_faults, SpawnsAsListed};

    ghost seen = { λ s. record { told = Some (record { outputs = map planned_output s.plans.items; started = s.jobs.items }); faults = s.plan.faults } };

    /// Each child is one over the next plan.
    fn start(&mut self, job: &Job) -> Result<PlanChild, Failed>
        ensures started { StartsOne job.now (λ child. Some (child_output child)) (Some (spawning_of self.old)) (Some (spawning_of self.new)) result }
        ensures cause { HasCause (spawner_faults self.old) (spawner_faults self.new) result }
        ensures listed { SpawnsAsListed (spawning_of self.old).outputs (spawner_course self.old) (spawner_course self.new) result }
    {
        self.plan.count_call()?;
        if self.plans.is_empty() {
            return Err(self.plan.count_fault());
        }
        let Ok(()) = keep(self.alloc, &mut self.jobs, job) else {
            return Err(self.plan.count_short());
        };
        let plan = self.plans.pop_front().unwrap();
        Ok(PlanChild::new(plan.output, plan.piece, plan.finish))
    }
}

// One job more. For want of memory the jobs are as before.
fn keep(alloc: Global, jobs: &mut Vec<Job>, job: &Job) -> Result<(), NoMemory>
    ensures ok { OnOk result (jobs.new.items ≡ jobs.old.items ++ job.now ∷ []) }
    ensures err { OnErr result (jobs.new.items ≡ jobs.old.items) }
{
    let copy = job.copy(alloc)?;
    match jobs.push(copy) {
        Ok(()) => Ok(()),
        Err(_) => Err(NoMemory),
    }
}
