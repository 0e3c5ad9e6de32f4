// What starts children.
ghost use Rattle.edge_io.specs.Causes.{HasCause};
ghost use Rattle.edge_io.specs.Seen.{Seen};
ghost use Rattle.edge_io.specs.Spawners.{Spawning, StartsOne};

use crate::{Child, Failed, Job};

/// What starts child processes. Each call that answers `Failed` raises its count of faults, which never falls; the outputs
/// and the jobs are then as before.
pub trait Spawner {
    /// What is started. It may go to another thread.
    type Child: Child + Send + Drop;

    /// The outputs of the children that are still to be started and the jobs started so far, each in order, where these
    /// are told, and how often a start has failed.
    ghost seen: { Self → Seen Spawning };

    /// Writes the file of the job, where it has one, and starts its command. The child tells the first of the outputs to
    /// come, which is taken away, and the job is one more of those started.
    fn start(&mut self, job: &Job) -> Result<Self::Child, Failed>
        ensures started { StartsOne job.now (λ child. (Self.Child.seen child).told) (seen self.old).told (seen self.new).told result }
        ensures cause { HasCause (seen self.old).faults (seen self.new).faults result };
}
