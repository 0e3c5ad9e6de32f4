//! The number of workers that a project's own command tells.

ghost use Rattle.std.specs.Prelude.{◌≡◌, [], length, IfSome};
ghost use Rattle.suite_plan.specs.Calling.{CallsOut};
ghost use Rattle.suite_plan.specs.Counting.{TellsCount, IsOfCounter};

use crate::output::{OutputFault, read_buffer, read_to_end};
use crate::output_number::number_told;
use crate::tail::Tail;
use edge_io::{Child, Failed, Spawner};
use std::alloc::Global;
use sub_number::{Bytes, NoMemory};
use testr_conf::Conf;

/// Why no number was told.
#[derive(Drop)]
pub enum CallRefusal {
    /// The child was not started.
    Spawn,
    /// The output of the child was not read to its end, or the child not waited for.
    Child,
    /// The child ended with another status than 0, or its output is no number. What is told of its output
    /// (docs/FORMATS.md, "What a failed job says").
    NoNumber(Bytes),
    /// There is not enough memory.
    NoMemory,
}

impl From<NoMemory> for CallRefusal {
    ghost use Rattle.std.specs.Prelude.{◌≡◌};
    ghost use Rattle.suite_plan.specs.declared.count_command.CallRefusal.TheVariants.{NoMemory};

    ghost from_gives = { λ _ refusal. refusal ≡ NoMemory };

    fn from(_: NoMemory) -> Self {
        CallRefusal::NoMemory
    }
}

/// Runs the count job of the configuration, and gives the number, 999,999,999 at most, that its output tells
/// (docs/FORMATS.md, "What a count job tells"). `None` comes exactly where `test_run_concurrency` is not set; then nothing
/// is started.
///
/// `Spawn` comes exactly where the start fails, and raises the spawner's count of faults; `Child` exactly where the
/// reads of the child or the wait for it fail; `NoNumber` exactly where the child ended with another status than 0, its
/// output has more than 64 bytes, or is not 1 to 9 digits between white space and newlines, and with it comes what is
/// told of the output. In each case the child was waited for, and before that stopped where it was not read to its end.
pub fn run_count_command<S: Spawner>(
    alloc: Global,
    conf: &Conf,
    spawner: &mut S,
) -> Result<Option<u32>, CallRefusal>
    ensures step { CallsOut conf.now (S.seen spawner.old) (S.seen spawner.new) result }
{
    let Some(job) = conf.count_job(alloc)? else {
        return Ok(None);
    };
    let mut buffer = read_buffer(alloc)?;
    match spawner.start(&job) {
        Ok(mut child) => Ok(Some(count_child(alloc, &mut child, &mut buffer)?)),
        Err(Failed) => Err(CallRefusal::Spawn),
    }
}

// The number that the output of the child tells.
fn count_child<C: Child>(
    alloc: Global,
    child: &mut C,
    buffer: &mut [u8],
) -> Result<u32, CallRefusal>
    requires room { length buffer.old ≡ 65536 }
    ensures of_child { IsOfCounter result }
    ensures told { IfSome (C.seen child.old).told (TellsCount result) }
{
    let mut output = Tail::new(alloc);
    match read_to_end(child, buffer, &mut output) {
        Ok(0) => match number_told(output.bytes()) {
            Some(number) => Ok(number),
            None => Err(CallRefusal::NoNumber(output.into_told(alloc)?)),
        },
        Ok(_) => Err(CallRefusal::NoNumber(output.into_told(alloc)?)),
        Err(OutputFault::Child) => Err(CallRefusal::Child),
        Err(OutputFault::NoMemory) => Err(CallRefusal::NoMemory),
    }
}
