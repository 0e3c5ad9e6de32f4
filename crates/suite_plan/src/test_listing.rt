//! The listing of the tests of a project.

ghost use Rattle.std.specs.Prelude.{◌≡◌, [], length, IfOk, IfSome};
ghost use Rattle.std.specs.List.{IsDistinct};
ghost use Rattle.std.specs.Str.{bytes_eq};
ghost use Rattle.suite_plan.specs.Gathering.{HasGatheredListing, HasRoomForPiece, TellsIds, IsOfChild};
ghost use Rattle.suite_plan.specs.Listing.{ListsTests};

use crate::listing_reader::ListingReader;
use crate::output::{OutputFault, read_buffer, read_to_end};
use edge_io::{Child, Failed, Spawner};
use std::alloc::Global;
use sub_number::{Bytes, IdList, NoMemory};
use testr_conf::{Conf, JobFault};

/// Why no tests were listed.
#[derive(Drop)]
pub enum ListingRefusal {
    /// `test_list_option` is not set, or `$LISTOPT` is not in `test_command`.
    NoListOption,
    /// The child was not started.
    Spawn,
    /// The output of the child was not read to its end, or the child not waited for.
    Child,
    /// The child ended with this status, which is not 0, or with the negative number of a signal. Beside it stands what is
    /// told of its output (docs/FORMATS.md, "What a failed job says").
    Failed(i32, Bytes),
    /// There is not enough memory.
    NoMemory,
}

impl From<NoMemory> for ListingRefusal {
    ghost use Rattle.std.specs.Prelude.{◌≡◌};
    ghost use Rattle.suite_plan.specs.declared.test_listing.ListingRefusal.TheVariants.{NoMemory};

    ghost from_gives = { λ _ refusal. refusal ≡ NoMemory };

    fn from(_: NoMemory) -> Self {
        ListingRefusal::NoMemory
    }
}

impl From<JobFault> for ListingRefusal {
    ghost use Rattle.std.specs.Prelude.{◌≡◌};
    ghost use Rattle.suite_plan.specs.Gathering.{refusal_of};

    ghost from_gives = { λ fault refusal. refusal ≡ refusal_of fault };

    fn from(fault: JobFault) -> Self {
        match fault {
            JobFault::NoOption(_) => ListingRefusal::NoListOption,
            JobFault::NoMemory => ListingRefusal::NoMemory,
        }
    }
}

/// Runs the list job of the configuration, and gives the ids of the tests of which its output tells that they exist, in
/// order, of repeats the first (docs/FORMATS.md, "Listings"). Foreign bytes and other events are passed over.
///
/// `NoListOption` comes exactly where there is no list job; then nothing is started. `Spawn` comes exactly where the
/// start fails, and raises the spawner's count of faults; `Child` exactly where the reads of the child or the wait for
/// it fail; `Failed` exactly where the child ended with another status than 0, and with it comes what is told of its
/// output. In each case the child was waited for, and before that stopped where it was not read to its end.
pub fn list_tests<S: Spawner>(
    alloc: Global,
    conf: &Conf,
    spawner: &mut S,
) -> Result<IdList, ListingRefusal>
    ensures step { ListsTests conf.now (S.seen spawner.old) (S.seen spawner.new) result }
{
    let job = match conf.list_job(alloc) {
        Ok(job) => job,
        Err(fault) => return Err(ListingRefusal::from(fault)),
    };
    let gathered = ListingReader::new(alloc)?;
    let mut buffer = read_buffer(alloc)?;
    match spawner.start(&job) {
        Ok(mut child) => list_child(alloc, &mut child, &mut buffer, gathered),
        Err(Failed) => Err(ListingRefusal::Spawn),
    }
}

// The ids that the output of the child lists.
fn list_child<C: Child>(
    alloc: Global,
    child: &mut C,
    buffer: &mut [u8],
    mut gathered: ListingReader,
) -> Result<IdList, ListingRefusal>
    requires ready { HasRoomForPiece gathered }
    requires has { HasGatheredListing gathered [] }
    requires room { length buffer.old ≡ 65536 }
    ensures of_child { IsOfChild result }
    ensures told { IfSome (C.seen child.old).told (TellsIds result) }
    ensures distinct { IfOk result (IsDistinct bytes_eq) }
{
    match read_to_end(child, buffer, &mut gathered) {
        Ok(0) => Ok(gathered.close()?.into_ids()),
        Ok(status) => {
            let told = gathered.close()?.into_told(alloc)?;
            Err(ListingRefusal::Failed(status, told))
        }
        Err(OutputFault::Child) => Err(ListingRefusal::Child),
        Err(OutputFault::NoMemory) => Err(ListingRefusal::NoMemory),
    }
}
