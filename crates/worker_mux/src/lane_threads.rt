//! One thread for each lane, level by level.

ghost use Rattle.std.specs.Prelude.{◌≡◌, ◌≤◌, length};
ghost use Rattle.std.specs.List.{AllByRecursion};
ghost use Rattle.worker_mux.specs.Callers.{IsCaller, GoesOn, IsOpen, tape};
ghost use Rattle.worker_mux.specs.Passes.{settled_lanes};
ghost use Rattle.worker_mux.specs.Works.{IsReady, IsReadyOutcome, Drives, Settles};

use crate::caller::Caller;
use crate::listener::Listener;
use crate::run_appender::RunAppender;
use crate::work::{Outcome, Shared, Work, drive_work};
use edge_io::{Child, Shelf};
use std::collections::VecDeque;
use std::snapshot::Snapshot;
use std::sync::Wait;
use std::sync::atomic::{AtomicBool, Ordering};
use std::thread::{Promise, Scope, Threads};

/// What a thread hands back is its work, driven.
#[derive(Drop)]
pub(crate) struct Driven<C>(Snapshot<Work<C>>);

impl<C: Child> Promise<Outcome<C>> for Driven<C> {
    ghost use Rattle.worker_mux.specs.Works.{IsDriven};

    ghost kept_by = { λ p r. IsDriven C.seen p.0.value r };
}

/// Starts a thread for the first lane, does the same for the lanes after it, and then joins that thread and settles the
/// lane. Where the thread does not start, the lane is driven here, at once and to its end.
pub(crate) fn run_level<
    's,
    R: Threads + Wait + Sync,
    C: Child + Send + Drop + 's,
    H: Shelf,
    L: Listener,
    E,
>(
    rt: &'s R,
    scope: &Scope<'s, E>,
    shared: &'s Shared,
    flags: &'s [AtomicBool],
    works: &mut VecDeque<Work<C>>,
    caller: &mut Caller<L>,
    pen: &mut RunAppender<'_, H>,
)
    requires caller { IsCaller L.heard shared.now.belt caller.old }
    requires is_open { IsOpen (tape pen.old.fault (H.seen pen.old.shelf.now) (H.clock pen.old.shelf.now)) }
    requires works { AllByRecursion (IsReady shared.now.belt) works.old.items }
    requires flags { length works.old.items ≤ length flags.now }
    ensures ready { IsCaller L.heard shared.now.belt caller.new }
    ensures loan { pen.new.shelf.ghost_name ≡ pen.old.shelf.ghost_name }
    ensures goes { GoesOn L.heard L.keeps caller.old caller.new (tape pen.old.fault (H.seen pen.old.shelf.now) (H.clock pen.old.shelf.now)) (tape pen.new.fault (H.seen pen.new.shelf.now) (H.clock pen.new.shelf.now)) }
    ensures settled { Settles C.seen caller.new.stopped works.old.items (settled_lanes caller.old.taker) (settled_lanes caller.new.taker) }
{
    let Some(work) = works.pop_front() else {
        caller.take_all_ends(rt, shared, pen);
        return;
    };
    let flag = &flags[0];
    let flags = &flags[1..];
    let spawned = scope.spawn_with(
        Driven(Snapshot::of(&work)),
        move || -> Outcome<C>
            requires { IsReady shared.now.belt work }
            ensures ready { IsReadyOutcome shared.entry.now.belt result }
            ensures drives { Drives C.seen work result }
        { drive_work(rt, shared, flag, work) },
    );
    match spawned {
        Ok(handle) => {
            run_level(rt, scope, shared, flags, works, caller, pen);
            let outcome = handle.join(rt);
            let pass = caller.drive_out(rt, shared, flag, outcome, pen);
            caller.settle(rt, shared, pass);
        }
        Err(refused) => {
            flag.store(true, Ordering::SeqCst);
            let outcome = (refused.value)();
            let pass = caller.drive_out(rt, shared, flag, outcome, pen);
            run_level(rt, scope, shared, flags, works, caller, pen);
            caller.settle(rt, shared, pass);
        }
    }
}
