//! The end of a child.

ghost use Rattle.std.specs.Prelude.{◌≡◌, ◌≤◌, true, IfSome};
ghost use Rattle.edge_io.specs.Causes.{Rose};
ghost use Rattle.edge_io.specs.Children.{Stops};
ghost use Rattle.edge_io.specs.Steps.{Goes};
ghost use Rattle.worker_lane.specs.Endings.{EndsSo};
ghost use Rattle.worker_lane.specs.declared.lot.Ending.TheVariants.{Fault, NoMemory as without_memory};

use crate::lot::Ending;
use edge_io::{Child, Failed};

/// Waits for a child whose output was read to its end.
pub(crate) fn wait_for_child<C: Child>(child: &mut C) -> Ending
    ensures told { IfSome (C.seen child.old).told (EndsSo result) }
    ensures same { (C.seen child.new).told ≡ (C.seen child.old).told }
    ensures later { (C.seen child.old).faults ≤ (C.seen child.new).faults }
    ensures fault { result ≡ Fault → Rose (C.seen child.old).faults (C.seen child.new).faults }
    ensures memory { result ≡ without_memory → ⊥ }
{
    match child.wait() {
        Ok(status) => Ending::Exit(status),
        Err(Failed) => Ending::Fault,
    }
}

/// Asks a child to end, and waits for it. True where the wait failed.
pub(crate) fn stop_child<C: Child>(child: &mut C) -> bool
    ensures finish { Goes (C.seen child.old).told (C.seen child.new).told Stops }
    ensures later { (C.seen child.old).faults ≤ (C.seen child.new).faults }
    ensures failed { result ≡ true → Rose (C.seen child.old).faults (C.seen child.new).faults }
{
    child.stop();
    child.wait().is_err()
}
