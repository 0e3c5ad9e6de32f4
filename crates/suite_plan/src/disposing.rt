//! The end of a project's instances.

ghost use Rattle.std.specs.Prelude.{◌≡◌, length, IfOk, IfSome};
ghost use Rattle.std.specs.Option.{option_map};
ghost use Rattle.testr_conf.specs.Jobs.{dispose_job_of};
ghost use Rattle.suite_plan.specs.Provisioning.{Disposes, TellsEnd, IsOfDisposer};

use crate::output::{OutputFault, Taker, read_buffer, read_to_end};
use edge_io::{Child, Failed, Job, Spawner};
use std::alloc::Global;
use std::marker::Model;
use sub_number::NoMemory;
use testr_conf::Conf;

/// Why the instances may not be disposed of.
#[derive(Clone, Copy, PartialEq, Eq, Debug)]
pub enum DisposeFault {
    /// The child was not started.
    Spawn,
    /// The output of the child was not read to its end, or the child not waited for.
    Child,
    /// The child ended with this status, which is not 0, or with the negative number of a signal.
    Ended(i32),
    /// The output is longer than can be counted.
    NoMemory,
}

/// What disposes of instances, made while there is memory: to run it takes none. Contracts see it as its job.
#[derive(Drop)]
pub struct Disposal {
    job: Job,
    buffer: Vec<u8>,
}

impl Model for Disposal {
    ghost use Rattle.std.specs.Prelude.{◌≡◌, length};
    ghost use Rattle.edge_io.specs.declared.job.Job.{Job as AJob};

    ghost Value = { AJob };

    ghost view = { λ d. d.job };

    ghost invariant = { λ d. length d.buffer.items ≡ 65536 };
}

impl Disposal {
    /// That of the configuration's instances. `None` comes exactly where `instance_dispose` is not set.
    pub fn of(alloc: Global, conf: &Conf) -> Result<Option<Self>, NoMemory>
        ensures { IfOk result (λ disposal. disposal ≡ dispose_job_of conf.now) }
    {
        match conf.dispose_job(alloc)? {
            Some(job) => {
                let buffer = read_buffer(alloc)?;
                Ok(Some(Disposal { job, buffer }))
            }
            None => Ok(None),
        }
    }

    /// Runs the job, and reads its output to the end. What it says is left.
    ///
    /// `Spawn` comes exactly where the start fails, and raises the spawner's count of faults; `Child` exactly where the reads of
    /// the child or the wait for it fail; `Ended` exactly where it ended with another status than 0. In each case the child was
    /// waited for, and before that stopped where it was not read to its end.
    pub fn run<S: Spawner>(self, spawner: &mut S) -> Result<(), DisposeFault>
        ensures step { Disposes self (S.seen spawner.old) (S.seen spawner.new) result }
    {
        let Disposal { job, mut buffer } = self;
        match spawner.start(&job) {
            Ok(mut child) => end_child(&mut child, &mut buffer),
            Err(Failed) => Err(DisposeFault::Spawn),
        }
    }
}

// How the child ends, whose output is left.
fn end_child<C: Child>(child: &mut C, buffer: &mut [u8]) -> Result<(), DisposeFault>
    requires room { length buffer.old ≡ 65536 }
    ensures of_child { IsOfDisposer result }
    ensures told { IfSome (C.seen child.old).told (TellsEnd result) }
{
    let mut leaver = Leaver;
    match read_to_end(child, buffer, &mut leaver) {
        Ok(0) => Ok(()),
        Ok(status) => Err(DisposeFault::Ended(status)),
        Err(OutputFault::Child) => Err(DisposeFault::Child),
        Err(OutputFault::NoMemory) => Err(DisposeFault::NoMemory),
    }
}

// Takes an output and leaves it.
#[derive(Drop)]
struct Leaver;

impl Taker for Leaver {
    ghost use Rattle.std.specs.Prelude.{false};

    ghost has = { λ _ _. Unit {0} };

    ghost lacks = { false };

    ghost ready = { λ _. Unit {0} };

    fn take(&mut self, _piece: &[u8]) -> Result<(), NoMemory> {
        Ok(())
    }
}
