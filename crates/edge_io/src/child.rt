// A process that gives bytes and then ends.
ghost use Rattle.std.specs.Prelude.{◌≡◌};
ghost use Rattle.std.specs.Io.{ReadsAtMost};
ghost use Rattle.edge_io.specs.Causes.{HasCause};
ghost use Rattle.edge_io.specs.Children.{Output, ReadsFront, ReadsToEnd, WaitsAsTold, Stops, AreBytesLeft, CanFinish};
ghost use Rattle.edge_io.specs.Seen.{Seen};
ghost use Rattle.edge_io.specs.Steps.{Goes};

use crate::Failed;

/// How a child comes to its end.
#[derive(Clone, Copy, Debug, PartialEq, Eq)]
pub enum Finish {
    /// With this status, or with the negative number of the signal that ended it.
    Exit(i32),
    /// Its reads fail once its bytes have been read.
    ReadFault,
    /// Its bytes end, and the wait for it fails.
    WaitFault,
}

/// A child process: its output, and how it ends. Each call that answers `Failed` raises its count of faults, which never
/// falls; what is left is then as before.
pub trait Child {
    /// The bytes that reads have not given yet and how the child comes to its end, where these are told, and how often a
    /// read or a wait has failed.
    ghost seen: { Self → Seen Output };

    /// Moves bytes from the front of what is left into the front of `buf`, and answers how many; it may wait for the
    /// child. After `Failed` nothing was moved.
    ///
    /// Where it is told and `buf` is not empty: none come exactly where nothing is left and the reads do not fail there,
    /// and the call fails exactly where nothing is left and they do.
    fn read(&mut self, buf: &mut [u8]) -> Result<usize, Failed>
        ensures bound { ReadsAtMost result buf.new }
        ensures bytes { ReadsFront (seen self.old).told (seen self.new).told result buf.new }
        ensures end { ReadsToEnd (seen self.old).told result buf.new }
        ensures cause { HasCause (seen self.old).faults (seen self.new).faults result };

    /// Waits for the child to end, and answers its status, or the negative number of the signal that ended it. What is
    /// left stays. Where the finish is told the answer is that of the finish, but where the reads fail any may come.
    fn wait(&mut self) -> Result<i32, Failed>
        ensures status { WaitsAsTold (seen self.old).told result }
        ensures same { (seen self.new).told ≡ (seen self.old).told }
        ensures cause { HasCause (seen self.old).faults (seen self.new).faults result };

    /// Asks the child to end. What it has left may be anything then; its finish stays.
    fn stop(&mut self)
        ensures finish { Goes (seen self.old).told (seen self.new).told Stops }
        ensures faults { (seen self.new).faults ≡ (seen self.old).faults };

    /// What is told to be left are bytes.
    ghost are_bytes: { (child : Self) → AreBytesLeft (seen child).told };

    /// A status that is told has 32 bits.
    ghost has_finish: { (child : Self) → CanFinish (seen child).told };
}
