//! The instances that a project's tests run on: provided in front of a run, disposed of behind it.

ghost use Rattle.std.specs.Prelude.{◌≡◌, ◌++◌, codes, None, Some, IfErr, IfOk, OnOk};
ghost use Rattle.std.specs.Fmt.{signed_decimal};
ghost use Rattle.std.specs.Io.KnownBytes.{Appends};
ghost use Rattle.edge_io.specs.Bytes.{AppendsPrefix};
ghost use Rattle.edge_io.specs.Causes.{HasCause};
ghost use Rattle.edge_io.specs.Seen.{Seen};
ghost use Rattle.edge_io.specs.Spawners.{Spawning};
ghost use Rattle.suite_plan.specs.Provisioning.{Provisions};
ghost use Rattle.suite_plan.specs.declared.provisioning.ProvisionRefusal.TheVariants.{NamesLost, NoMemory as WantsMemory};
ghost use Rattle.command_steps.specs.Instances.{Provides, disposal_behind, DisposesOf, TellsOfEnd, provided, provision_code, provision_said, provision_text, dispose_text};
ghost use Rattle.command_steps.specs.Telling.{line_text};
ghost use Rattle.testr_conf.specs.Jobs.{dispose_job_of};
ghost use Rattle.testr_conf.specs.Settings.{Settings};

use crate::refusal_line::{Line, Part, tell_line};
use crate::suite_refusals::{FAULT_OF_A_CHILD, FAULT_OF_A_START, OUT_OF_MEMORY};
use edge_io::{Failed, Sink, Spawner};
use std::alloc::Global;
use sub_number::{IdList, NoMemory};
use suite_plan::{Disposal, DisposeFault, ProvisionRefusal, provision, workers_on};
use testr_conf::Conf;

/// A project whose jobs run on instances, or here where it asks for none.
#[derive(Drop)]
pub struct Provided {
    /// Its settings, with the instances.
    pub conf: Conf,
    /// The number of workers: no more than there are instances.
    pub workers: u32,
    /// What disposes of the instances.
    pub disposal: Option<Disposal>,
}

/// A project whose jobs were to run on instances, of which there are none.
#[derive(Drop)]
pub struct Unprovided {
    /// Why there are none.
    pub refusal: ProvisionRefusal,
    /// What disposes of them all the same, as their provisioning ended well.
    pub disposal: Option<Disposal>,
}

/// Has instances provisioned for so many workers, where the project asks for them. The job that disposes of them is made here, so
/// that it wants no memory at their end.
///
/// They are to be disposed of exactly where the provisioning ended with 0: so behind the refusals `NoneNamed` and `NamesLost`,
/// too, by a job that was made in front of it and names none of them. `NoMemory` comes where the provisioning was not started, or did
/// not end with 0, or its output is longer than can be counted.
pub fn provide<S: Spawner>(
    alloc: Global,
    conf: Conf,
    workers: u32,
    spawner: &mut S,
) -> Result<Provided, Unprovided>
    ensures step { Provides conf workers (S.seen spawner.old) (S.seen spawner.new) result }
{
    match Disposal::of(alloc, &conf) {
        Ok(spare) => {
            let answer = provision(alloc, &conf, workers, spawner);
            provided_by(alloc, conf, workers, answer, spare)
        }
        Err(NoMemory) => Err(not_begun()),
    }
}

// No instances were asked for, for want of memory.
fn not_begun() -> Unprovided
    ensures memory { result.refusal ≡ WantsMemory }
    ensures disposal { result.disposal ≡ None }
{
    Unprovided {
        refusal: ProvisionRefusal::NoMemory,
        disposal: None,
    }
}

// What goes on behind this answer of the provisioning, where this disposes of instances that have no name.
fn provided_by(
    alloc: Global,
    conf: Conf,
    workers: u32,
    answer: Result<Option<IdList>, ProvisionRefusal>,
    spare: Option<Disposal>,
) -> Result<Provided, Unprovided>
    requires spare { spare ≡ dispose_job_of conf }
    ensures step { (before after : Seen Spawning) → Provisions conf workers before after answer → Provides conf workers before after result }
{
    match answer {
        Ok(Some(names)) => provided_on(alloc, conf, workers, names, spare),
        Ok(None) => Ok(Provided {
            conf,
            workers,
            disposal: None,
        }),
        Err(refusal) => Err(refused(refusal, spare)),
    }
}

// What goes on with these instances, of which this disposes where memory is wanting for their names.
fn provided_on(
    alloc: Global,
    conf: Conf,
    workers: u32,
    names: IdList,
    spare: Option<Disposal>,
) -> Result<Provided, Unprovided>
    requires spare { spare ≡ dispose_job_of conf }
    ensures given { IfOk result (λ given. given ≡ provided conf workers (Some names)) }
    ensures lost { IfErr result (λ fault. (fault.refusal ≡ NamesLost) × (fault.disposal ≡ dispose_job_of conf)) }
{
    match on_names(alloc, conf, workers, names) {
        Ok(given) => Ok(given),
        Err(NoMemory) => Err(Unprovided {
            refusal: ProvisionRefusal::NamesLost,
            disposal: spare,
        }),
    }
}

// There are no instances for this reason. This disposes of them, where their provisioning ended well.
fn refused(refusal: ProvisionRefusal, spare: Option<Disposal>) -> Unprovided
    ensures why { result.refusal ≡ refusal }
    ensures disposal { (settings : Settings) → spare ≡ dispose_job_of settings → result.disposal ≡ disposal_behind settings refusal }
{
    let disposal = match &refusal {
        ProvisionRefusal::NoneNamed | ProvisionRefusal::NamesLost => spare,
        ProvisionRefusal::Spawn
        | ProvisionRefusal::Child
        | ProvisionRefusal::Failed(_, _)
        | ProvisionRefusal::NoMemory => None,
    };
    Unprovided { refusal, disposal }
}

// The project on these instances.
fn on_names(alloc: Global, conf: Conf, workers: u32, names: IdList) -> Result<Provided, NoMemory>
    ensures { IfOk result (λ given. given ≡ provided conf workers (Some names)) }
{
    let workers = workers_on(workers, &names);
    let conf = conf.on_instances(names);
    let disposal = Disposal::of(alloc, &conf)?;
    Ok(Provided {
        conf,
        workers,
        disposal,
    })
}

/// Disposes of the instances, and tells of an end that is not well. It refuses nothing. Of memory it
/// takes what the start of a program does.
pub fn dispose<S: Spawner, E: Sink>(disposal: Option<Disposal>, spawner: &mut S, err: &mut E)
    ensures step { DisposesOf disposal (S.seen spawner.old) (S.seen spawner.new) (E.seen err.old) (E.seen err.new) }
{
    let Some(disposal) = disposal else {
        return;
    };
    let end = disposal.run(spawner);
    tell_end(end, err);
}

// Tells of an end that is not well. Whether the line was written changes nothing.
fn tell_end<E: Sink>(end: Result<(), DisposeFault>, err: &mut E)
    ensures { TellsOfEnd end (E.seen err.old) (E.seen err.new) }
{
    match end {
        Ok(()) => {}
        Err(fault) => {
            let _ = tell_fault(fault, err);
        }
    }
}

// Writes the line of an end that is not well.
fn tell_fault<E: Sink>(fault: DisposeFault, err: &mut E) -> Result<(), Failed>
    ensures whole { OnOk result (Appends (E.seen err.old).told (E.seen err.new).told (dispose_text fault)) }
    ensures prefix { AppendsPrefix (E.seen err.old).told (E.seen err.new).told (dispose_text fault) }
    ensures cause { HasCause (E.seen err.old).faults (E.seen err.new).faults result }
{
    tell_line(err, dispose_line(fault))
}

/// The status where there are no instances.
pub fn provision_code(refusal: &ProvisionRefusal) -> u8
    ensures { result ≡ provision_code refusal.now }
{
    match refusal {
        ProvisionRefusal::Failed(_, _) | ProvisionRefusal::NoneNamed => 3,
        ProvisionRefusal::Spawn | ProvisionRefusal::Child => 4,
        ProvisionRefusal::NamesLost | ProvisionRefusal::NoMemory => 5,
    }
}

/// What the provision job said that failed.
pub fn provision_said(refusal: &ProvisionRefusal) -> &[u8]
    ensures { result.now ≡ provision_said refusal.now }
{
    match refusal {
        ProvisionRefusal::Failed(_, said) => said.bytes(),
        ProvisionRefusal::Spawn
        | ProvisionRefusal::Child
        | ProvisionRefusal::NoneNamed
        | ProvisionRefusal::NamesLost
        | ProvisionRefusal::NoMemory => b"",
    }
}

/// The line that tells of it.
pub fn provision_line(refusal: &ProvisionRefusal) -> Line<'static>
    ensures { line_text result ≡ provision_text refusal.now }
{
    match refusal {
        ProvisionRefusal::Spawn => Line::of(FAULT_OF_A_START),
        ProvisionRefusal::Child => Line::of(FAULT_OF_A_CHILD),
        ProvisionRefusal::Failed(status, _) => ended("testr: provisioning ended with ", *status),
        ProvisionRefusal::NoneNamed => Line::of("testr: no instances\n"),
        ProvisionRefusal::NamesLost | ProvisionRefusal::NoMemory => Line::of(OUT_OF_MEMORY),
    }
}

// The line that tells of an end of the instances that is not well.
fn dispose_line(fault: DisposeFault) -> Line<'static>
    ensures { line_text result ≡ dispose_text fault }
{
    match fault {
        DisposeFault::Spawn => Line::of(FAULT_OF_A_START),
        DisposeFault::Child => Line::of(FAULT_OF_A_CHILD),
        DisposeFault::Ended(status) => ended("testr: disposing ended with ", status),
        DisposeFault::NoMemory => Line::of(OUT_OF_MEMORY),
    }
}

// The line of these words that tells how a program ended.
fn ended(front: &'static str, status: i32) -> Line<'static>
    ensures { line_text result ≡ front.now ++ signed_decimal status ++ codes "\n" }
{
    Line {
        front,
        part: Part::Status(status),
        rest: "\n",
    }
}
