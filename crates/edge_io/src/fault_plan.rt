// Which calls of a form in memory are to fail, and how often it has failed.
ghost use Rattle.std.specs.Prelude.{◌≤◌, ◌↔◌, IsErr, Contains};
ghost use Rattle.edge_io.specs.Causes.{HasCause};

use crate::Failed;

/// The listed calls, by their numbers from 0, and counts that stop at the last value of a `u64`.
#[derive(Drop)]
pub struct FaultPlan {
    pub fails: Vec<u64>,
    pub calls: u64,
    pub faults: u64,
    pub short: u64,
    ghost part: { short ≤ faults },
}

impl FaultPlan {
    ghost use Rattle.edge_io.specs.Plans.{IsNewPlan, Advances, CountsFault, Shortens};

    /// A plan of which no call was made yet: the calls of these numbers, from 0, are to fail.
    pub fn new(fails: Vec<u64>) -> Self
        ensures { IsNewPlan result fails.items }
    {
        FaultPlan {
            fails,
            calls: 0,
            faults: 0,
            short: 0,
        }
    }

    /// Counts one more call. It fails where it is one of those that are to fail, which counts a fault.
    pub fn count_call(&mut self) -> Result<(), Failed>
        ensures planned { IsErr result ↔ Contains self.old.fails.items self.old.calls }
        ensures state { Advances self.old self.new }
        ensures cause { HasCause self.old.faults self.new.faults result }
    {
        let planned = self.fails.contains(&self.calls);
        self.calls = self.calls.saturating_add(1);
        if planned {
            self.faults = self.faults.saturating_add(1);
            return Err(Failed);
        }
        Ok(())
    }

    /// Counts a fault that is no want of memory.
    pub fn count_fault(&mut self) -> Failed
        ensures state { CountsFault self.old self.new }
    {
        self.faults = self.faults.saturating_add(1);
        Failed
    }

    /// Counts a fault for want of memory.
    pub fn count_short(&mut self) -> Failed
        ensures state { Shortens self.old self.new }
    {
        self.faults = self.faults.saturating_add(1);
        self.short = self.short.saturating_add(1);
        Failed
    }
}
