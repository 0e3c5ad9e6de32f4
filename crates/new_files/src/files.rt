// What makes files that take their names at the end.
ghost use Rattle.std.specs.Prelude.{◌≡◌, IfOk, OnOk, OnErr};
ghost use Rattle.edge_io.specs.Causes.{HasCause};
ghost use Rattle.edge_io.specs.Disk.{Files};
ghost use Rattle.edge_io.specs.Seen.{Seen};
ghost use Rattle.new_files.specs.Naming.{IsEmptyDraft, TakesName};

use edge_io::{Failed, Sink};

/// What makes files that take their names at the end. Each call that answers `Failed` raises its count of faults, which
/// never falls; what each name holds is then as before.
pub trait NewFiles {
    /// A file that has no name yet.
    type Draft: Sink + Drop;

    /// What the file of each name holds, and which names have none, where this is told, and how often a call has failed.
    ghost seen: { Self → Seen Files };

    /// An empty draft of the file of this name. What the name holds stays.
    fn begin(&mut self, name: &str) -> Result<Self::Draft, Failed>
        ensures empty { IfOk result (λ draft. IsEmptyDraft (Self.Draft.seen draft).told) }
        ensures same { (seen self.new).told ≡ (seen self.old).told }
        ensures cause { HasCause (seen self.old).faults (seen self.new).faults result };

    /// Gives the draft this name, in one step: what was written to it stands under the name, in place of whatever the name
    /// held. After `Failed` each name holds what it did, and there is no draft any more.
    fn take_name(&mut self, name: &str, draft: Self::Draft) -> Result<(), Failed>
        ensures done { OnOk result (TakesName name.now (Self.Draft.seen draft).told (seen self.old).told (seen self.new).told) }
        ensures failed { OnErr result ((seen self.new).told ≡ (seen self.old).told) }
        ensures cause { HasCause (seen self.old).faults (seen self.new).faults result };

    /// Removes the draft. What each name holds stays.
    fn give_up(&mut self, draft: Self::Draft)
        ensures same { (seen self.new).told ≡ (seen self.old).told }
        ensures faults { (seen self.new).faults ≡ (seen self.old).faults };
}
