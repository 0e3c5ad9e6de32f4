//! The instances that a project's own command provisions.

ghost use Rattle.std.specs.Prelude.{◌≡◌, ◌<◌, ℕ, List, [], length, IfOk, IfSome};
ghost use Rattle.sub_number.specs.Texts.{IsShortText};
ghost use Rattle.outcome_fold.specs.Order.{in_byte_order};
ghost use Rattle.testr_conf.specs.White.{words_of};
ghost use Rattle.suite_plan.specs.Held.{HasHeld, TellsOtherwise};
ghost use Rattle.suite_plan.specs.Provisioning.{Provisions, TellsInstances, TellsNames, IsOfProvider, named_in, workers_on};

use crate::conf_file::copied_list;
use crate::output::{OutputFault, Taker, read_buffer, read_to_end};
use crate::tail::Tail;
use edge_io::{Child, Failed, Spawner};
use outcome_fold::in_order;
use std::alloc::Global;
use sub_number::{Bytes, IdList, NoMemory, is_text};
use testr_conf::{Conf, read_words};

// An output names instances where it has fewer bytes.
const TOO_MANY: usize = 65_536;

/// Why there are no instances.
#[derive(Drop)]
pub enum ProvisionRefusal {
    /// The child was not started.
    Spawn,
    /// The output of the child was not read to its end, or the child not waited for.
    Child,
    /// The child ended with this status, which is not 0, or with the negative number of a signal. Beside it stands what is
    /// told of its output, as a text (docs/FORMATS.md, "What a failed job says").
    Failed(i32, Bytes),
    /// The child ended with 0, and its output names no instance.
    NoneNamed,
    /// The child ended with 0, and there is not enough memory for the names of its instances.
    NamesLost,
    /// There is not enough memory. No child was started, or it ended with another status than 0, or its output is longer than
    /// can be counted.
    NoMemory,
}

impl From<NoMemory> for ProvisionRefusal {
    ghost use Rattle.std.specs.Prelude.{◌≡◌};
    ghost use Rattle.suite_plan.specs.declared.provisioning.ProvisionRefusal.TheVariants.{NoMemory};

    ghost from_gives = { λ _ refusal. refusal ≡ NoMemory };

    fn from(_: NoMemory) -> Self {
        ProvisionRefusal::NoMemory
    }
}

/// Runs the job of the configuration that provisions instances for so many workers, and gives those that its output names, in
/// the order of their bytes, each once: one at least (docs/FORMATS.md, "Instances"). `None` comes exactly where
/// `instance_provision` is not set; then nothing is started.
///
/// `Spawn` comes exactly where the start fails, and raises the spawner's count of faults; `Child` exactly where the
/// reads of the child or the wait for it fail; `Failed` exactly where the child ended with another status than 0, and with it
/// comes what is told of its output; `NoneNamed` exactly where the output has no word, is no text, or has 65,536 bytes or more.
/// `NamesLost` comes only where the child ended with 0. In each case the child was waited for, and before that stopped where it was
/// not read to its end.
pub fn provision<S: Spawner>(
    alloc: Global,
    conf: &Conf,
    workers: u32,
    spawner: &mut S,
) -> Result<Option<IdList>, ProvisionRefusal>
    ensures step { Provisions conf.now workers (S.seen spawner.old) (S.seen spawner.new) result }
{
    let Some(job) = conf.provision_job(alloc, workers)? else {
        return Ok(None);
    };
    let mut buffer = read_buffer(alloc)?;
    match spawner.start(&job) {
        Ok(mut child) => Ok(Some(name_instances(alloc, &mut child, &mut buffer)?)),
        Err(Failed) => Err(ProvisionRefusal::Spawn),
    }
}

// The instances that the output of the child names.
fn name_instances<C: Child>(
    alloc: Global,
    child: &mut C,
    buffer: &mut [u8],
) -> Result<IdList, ProvisionRefusal>
    requires room { length buffer.old ≡ 65536 }
    ensures of_child { IsOfProvider result }
    ensures told { IfSome (C.seen child.old).told (TellsInstances result) }
{
    let mut output = HeldOutput::new(alloc);
    match read_to_end(child, buffer, &mut output) {
        Ok(0) => name_held(alloc, &output),
        Ok(status) => Err(told_otherwise(alloc, status, output)),
        Err(OutputFault::Child) => Err(ProvisionRefusal::Child),
        Err(OutputFault::NoMemory) => Err(ProvisionRefusal::NoMemory),
    }
}

// The last bytes of an output, and none where there was no memory for them. So a child is never stopped for want of memory
// while it makes instances, and it is known whether it ended with 0.
#[derive(Drop)]
struct HeldOutput {
    tail: Option<Tail>,
}

impl HeldOutput {
    fn new(alloc: Global) -> Self
        ensures { HasHeld result [] }
    {
        HeldOutput {
            tail: Some(Tail::new(alloc)),
        }
    }
}

impl Taker for HeldOutput {
    ghost use Rattle.std.specs.Prelude.{false};
    ghost use Rattle.suite_plan.specs.Held.{HasHeld};

    ghost has = { HasHeld };

    ghost lacks = { false };

    ghost ready = { λ _. Unit {0} };

    fn take(&mut self, piece: &[u8]) -> Result<(), NoMemory> {
        if let Some(mut tail) = self.tail.take()
            && tail.add(piece).is_ok()
        {
            self.tail = Some(tail);
        }
        Ok(())
    }
}

// The instances that the output of a child names which ended with 0, of which there is one at least.
fn name_held(alloc: Global, output: &HeldOutput) -> Result<IdList, ProvisionRefusal>
    ensures { (bytes : List ℕ) → HasHeld output.now bytes → TellsNames (named_in bytes) result }
{
    match &output.tail {
        Some(tail) => name_some(alloc, tail.bytes()),
        None => Err(ProvisionRefusal::NamesLost),
    }
}

// What is refused of a child that ended with another status than 0.
fn told_otherwise(alloc: Global, status: i32, output: HeldOutput) -> ProvisionRefusal
    ensures { (bytes : List ℕ) → HasHeld output bytes → TellsOtherwise status bytes result }
{
    let Some(tail) = output.tail else {
        return ProvisionRefusal::NoMemory;
    };
    match tail.into_told(alloc) {
        Ok(told) => ProvisionRefusal::Failed(status, told),
        Err(NoMemory) => ProvisionRefusal::NoMemory,
    }
}

// The instances that a whole output of these bytes names, of which there is one at least.
fn name_some(alloc: Global, bytes: &[u8]) -> Result<IdList, ProvisionRefusal>
    ensures { TellsNames (named_in bytes.now) result }
{
    match named(alloc, bytes) {
        Ok(names) => unless_none(names),
        Err(NoMemory) => Err(ProvisionRefusal::NamesLost),
    }
}

// These instances, of which there has to be one at least.
fn unless_none(names: IdList) -> Result<IdList, ProvisionRefusal>
    ensures { TellsNames names result }
{
    if names.list().is_empty() {
        return Err(ProvisionRefusal::NoneNamed);
    }
    Ok(names)
}

// The instances that a whole output of these bytes names.
fn named(alloc: Global, bytes: &[u8]) -> Result<IdList, NoMemory>
    ensures { IfOk result (λ names. names ≡ named_in bytes.now) }
{
    if bytes.len() >= TOO_MANY {
        return Ok(IdList::new(alloc));
    }
    named_by_few(alloc, bytes)
}

// The same of so few bytes that they may name some.
fn named_by_few(alloc: Global, bytes: &[u8]) -> Result<IdList, NoMemory>
    requires { length bytes.now < 65536 }
    ensures { IfOk result (λ names. names ≡ named_in bytes.now) }
{
    if is_text(bytes) {
        words_in_order(alloc, bytes)
    } else {
        Ok(IdList::new(alloc))
    }
}

// The words of a text in the order of their bytes, each once.
fn words_in_order(alloc: Global, text: &[u8]) -> Result<IdList, NoMemory>
    requires { IsShortText text.now }
    ensures { IfOk result (λ words. words ≡ in_byte_order (words_of text.now)) }
{
    let words = in_order(read_words(alloc, text)?);
    copied_list(alloc, words.list())
}

/// The number of workers that run on the instances: no more than there are.
pub fn workers_on(workers: u32, instances: &IdList) -> u32
    ensures { result ≡ workers_on workers instances.now }
{
    match u32::try_from(instances.list().len()) {
        Ok(count) => workers.min(count),
        Err(_) => workers,
    }
}
