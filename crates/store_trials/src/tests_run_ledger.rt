//! Runs of a few events in folders in memory: which rows they give, and what the runs say together.

ghost use Rattle.packet_codec.specs.Packets.{ArePackets};

use crate::packets::{ended, says};
use edge_io::{Failed, MemShelf, Shelf};
use outcome_fold::Summary;
use packet_codec::{Status, Tags};
use run_ledger::{LedgerFault, WrittenRun, failing, rows_of, times};
use run_shelf::{ShelfCall, Store, StoreFault};
use std::alloc::Global;
use std::test::Fail;
use sub_number::{IdList, Text, TimeMap};
use trial_events::are;

const FORMAT: &[u8] = b"subunit-store 1\n";

const BASED: &[u8] = b"subunit-store 2\n";

// Keeps a file over any stop, in six calls.
pub(crate) fn keep<H: Shelf>(shelf: &mut H, name: &str, bytes: &[u8]) -> Result<(), Failed> {
    shelf.sync_folder()?;
    shelf.start_draft()?;
    shelf.append(bytes)?;
    shelf.sync_draft()?;
    shelf.publish(name)?;
    shelf.sync_folder()
}

// An empty repository, made in six calls, of which these calls of all are to fail.
pub(crate) fn repository(alloc: Global, fails: &[u64]) -> Result<MemShelf, Fail> {
    let mut shelf = MemShelf::new(alloc, fails.to_vec(alloc)?);
    keep(&mut shelf, "format", FORMAT)?;
    Ok(shelf)
}

// A run in which one test takes so many seconds.
fn timed(alloc: Global, id: u8, seconds: u32) -> Option<Vec<u8>> {
    let mut run = Vec::new(alloc);
    says(alloc, &mut run, id, Status::InProgress, 0)?;
    says(alloc, &mut run, id, Status::Success, seconds)?;
    Some(run)
}

fn fails<H: Shelf>(alloc: Global, shelf: &mut H, names: &[u8]) -> Result<bool, Fail> {
    let mut store = Store::open(alloc, shelf)?;
    let ids = failing(alloc, &mut store)?;
    Ok(are(ids.list(), names))
}

// What is kept of the rows of a run where a passes and c fails.
pub(crate) fn passed_and_failed(alloc: Global) -> Option<Summary> {
    let packets = ended(alloc, b'a', Status::Success, b'c', Status::Fail)?;
    let mut run = WrittenRun::new(alloc, Tags::new(alloc));
    run.hear(&packets).ok()?;
    run.close().ok()
}

// Keeps a run in which two tests end so.
pub(crate) fn keep_ended<H: Shelf>(
    alloc: Global,
    shelf: &mut H,
    name: &str,
    a: (u8, Status),
    b: (u8, Status),
) -> Result<bool, Fail> {
    let Some(run) = ended(alloc, a.0, a.1, b.0, b.1) else {
        return Ok(false);
    };
    keep(shelf, name, &run)?;
    Ok(true)
}

// Whether a and b fail behind the first run, and these ids behind a second one, where a passes and c fails.
fn behind_two<H: Shelf>(
    alloc: Global,
    shelf: &mut H,
    name: &str,
    names: &[u8],
) -> Result<bool, Fail> {
    let (fail, pass) = (Status::Fail, Status::Success);
    Ok(
        keep_ended(alloc, shelf, "0", (b'b', fail), (b'a', fail))?
            && fails(alloc, shelf, b"ab")?
            && keep_ended(alloc, shelf, name, (b'a', pass), (b'c', fail))?
            && fails(alloc, shelf, names)?,
    )
}

#[test]
fn a_partial_run_changes_the_failing_set(rt: HostRuntime) -> Result<(), Fail> {
    let mut shelf = repository(rt.alloc(), &[])?;
    assert!(rt; behind_two(rt.alloc(), &mut shelf, "1.part", b"bc")?);
    Ok(())
}

// Two runs from before, after which b and d failed, beside this `format`.
fn begun_before<H: Shelf>(alloc: Global, shelf: &mut H, format: &[u8]) -> Result<bool, Fail> {
    keep(shelf, "format", format)?;
    keep(shelf, "base.set", b"subunit-base 1\n2\nb\0d\0")?;
    keep(shelf, "1.part", b"")?;
    keep_ended(
        alloc,
        shelf,
        "0.part",
        (b'a', Status::Fail),
        (b'c', Status::Fail),
    )
}

// Whether these ids fail behind the base alone, behind a partial run more, and behind a full one.
fn behind_a_base<H: Shelf>(alloc: Global, shelf: &mut H) -> Result<bool, Fail> {
    let (fail, pass) = (Status::Fail, Status::Success);
    Ok(
        begun_before(alloc, shelf, BASED)?
            && fails(alloc, shelf, b"bd")?
            && keep_ended(alloc, shelf, "2.part", (b'b', pass), (b'c', fail))?
            && fails(alloc, shelf, b"cd")?
            && keep_ended(alloc, shelf, "3", (b'a', fail), (b'b', pass))?
            && fails(alloc, shelf, b"a")?,
    )
}

#[test]
fn the_base_begins_the_failing_set(rt: HostRuntime) -> Result<(), Fail> {
    let mut shelf = MemShelf::new(rt.alloc(), Vec::new(rt.alloc()));
    assert!(rt; behind_a_base(rt.alloc(), &mut shelf)?);
    Ok(())
}

#[test]
fn under_the_first_format_there_is_no_base(rt: HostRuntime) -> Result<(), Fail> {
    let mut shelf = MemShelf::new(rt.alloc(), Vec::new(rt.alloc()));
    assert!(rt; begun_before(rt.alloc(), &mut shelf, FORMAT)?);
    assert!(rt; fails(rt.alloc(), &mut shelf, b"ac")?);
    Ok(())
}

#[test]
fn a_full_run_replaces_the_failing_set(rt: HostRuntime) -> Result<(), Fail> {
    let mut shelf = repository(rt.alloc(), &[])?;
    assert!(rt; behind_two(rt.alloc(), &mut shelf, "1", b"c")?);
    Ok(())
}

// Whether these ids fail behind four runs, of which the first and the third are full.
fn behind_four<H: Shelf>(alloc: Global, shelf: &mut H, names: &[u8]) -> Result<bool, Fail> {
    let (fail, pass) = (Status::Fail, Status::Success);
    Ok(
        keep_ended(alloc, shelf, "0", (b'a', fail), (b'b', fail))?
            && keep_ended(alloc, shelf, "1.part", (b'a', pass), (b'e', fail))?
            && keep_ended(alloc, shelf, "2", (b'd', fail), (b'c', fail))?
            && keep_ended(alloc, shelf, "3.part", (b'c', pass), (b'a', fail))?
            && fails(alloc, shelf, names)?,
    )
}

// After the first run a and b fail, after the second b and e, after the third c and d, and after the fourth a and d.
#[test]
fn runs_before_the_last_full_one_do_not_count(rt: HostRuntime) -> Result<(), Fail> {
    let mut shelf = repository(rt.alloc(), &[])?;
    assert!(rt; behind_four(rt.alloc(), &mut shelf, b"ad")?);
    Ok(())
}

// Whether b and c fail behind two full runs.
fn behind_full<H: Shelf>(alloc: Global, shelf: &mut H) -> Result<bool, Fail> {
    let fail = Status::Fail;
    Ok(
        keep_ended(alloc, shelf, "0", (b'a', fail), (b'b', fail))?
            && keep_ended(alloc, shelf, "1", (b'c', fail), (b'b', fail))?
            && fails(alloc, shelf, b"bc")?,
    )
}

#[test]
fn the_last_full_run_alone_is_read(rt: HostRuntime) -> Result<(), Fail> {
    // Eighteen calls keep three files, four look at the folder, one looks for the cache, and one reads a run. The next fails.
    let mut shelf = repository(rt.alloc(), &[24])?;
    assert!(rt; behind_full(rt.alloc(), &mut shelf)?);
    Ok(())
}

// Keeps a run in which one test takes so many seconds.
fn keep_timed<H: Shelf>(
    alloc: Global,
    shelf: &mut H,
    name: &str,
    id: u8,
    seconds: u32,
) -> Result<bool, Fail> {
    let Some(run) = timed(alloc, id, seconds) else {
        return Ok(false);
    };
    keep(shelf, name, &run)?;
    Ok(true)
}

// A run of a alone, one of b alone, and a partial one of a again.
fn keep_three<H: Shelf>(alloc: Global, shelf: &mut H) -> Result<bool, Fail> {
    Ok(
        keep_timed(alloc, shelf, "0", b'a', 2)?
            && keep_timed(alloc, shelf, "1", b'b', 7)?
            && keep_timed(alloc, shelf, "2.part", b'a', 1)?,
    )
}

// The time of this id.
fn time_of(alloc: Global, latest: &TimeMap, id: u8) -> Option<u64> {
    latest.get(&Text::new(alloc, &[id]).ok()?)
}

// The times of both ids.
fn both_times<H: Shelf>(alloc: Global, shelf: &mut H) -> Result<(Option<u64>, Option<u64>), Fail> {
    let mut store = Store::open(alloc, shelf)?;
    let latest = times(alloc, &mut store)?;
    Ok((time_of(alloc, &latest, b'a'), time_of(alloc, &latest, b'b')))
}

#[test]
fn the_last_time_of_an_id_is_its_time(rt: HostRuntime) -> Result<(), Fail> {
    let mut shelf = repository(rt.alloc(), &[])?;
    let both = (Some(1_000_000_000), Some(7_000_000_000));
    assert!(rt; keep_three(rt.alloc(), &mut shelf)?);
    assert_eq!(rt; both_times(rt.alloc(), &mut shelf)?, both);
    Ok(())
}

// Two packets behind so many foreign bytes.
fn behind_foreign(alloc: Global, foreign: usize) -> Result<Vec<u8>, Fail> {
    let mut run = vec![in alloc; b'.'; foreign]?;
    if let Some(packets) = ended(alloc, b'a', Status::Fail, b'b', Status::Success) {
        run.extend_from_slice(&packets)?;
    }
    Ok(run)
}

// Keeps them as the first run.
fn keep_behind_foreign<H: Shelf>(alloc: Global, shelf: &mut H, foreign: usize) -> Result<(), Fail> {
    let run = behind_foreign(alloc, foreign)?;
    keep(shelf, "0", &run)?;
    Ok(())
}

// How many rows the only run has.
fn row_count<H: Shelf>(alloc: Global, shelf: &mut H) -> Result<Option<usize>, Fail> {
    let mut store = Store::open(alloc, shelf)?;
    if store.runs() != 1 {
        return Ok(None);
    }
    Ok(Some(rows_of(alloc, &mut store, 0)?.list().len()))
}

#[test]
fn a_packet_may_stand_across_two_pieces(rt: HostRuntime) -> Result<(), Fail> {
    for foreign in [0, 65_530, 65_536, 131_070] {
        let mut shelf = repository(rt.alloc(), &[])?;
        keep_behind_foreign(rt.alloc(), &mut shelf, foreign)?;
        assert_eq!(rt; row_count(rt.alloc(), &mut shelf)?, Some(2));
    }
    Ok(())
}

// What both calls answer where the read of the one run fails, and then without a call of the folder.
fn refused<H: Shelf>(
    alloc: Global,
    shelf: &mut H,
) -> Result<(Option<LedgerFault>, Option<LedgerFault>), Fail> {
    let mut store = Store::open(alloc, shelf)?;
    let first = failing(alloc, &mut store).err();
    let second = times(alloc, &mut store).err();
    Ok((first, second))
}

#[test]
fn a_closed_store_is_not_read(rt: HostRuntime) -> Result<(), Fail> {
    let alloc = rt.alloc();
    // Twelve calls keep two files, four look at the folder, one looks for the cache, and then one reads the run.
    let mut shelf = repository(alloc, &[17])?;
    keep(&mut shelf, "0", b"x")?;
    let (first, second) = refused(alloc, &mut shelf)?;
    let shelf_failed = LedgerFault::Store(StoreFault::Shelf(ShelfCall::ReadAt));
    let closed = LedgerFault::Store(StoreFault::Closed(ShelfCall::ReadAt));
    assert_eq!(rt; first, Some(shelf_failed));
    assert_eq!(rt; second, Some(closed));
    Ok(())
}

// Hears both pieces.
fn hear_both(run: &mut WrittenRun, first: &[u8], second: &[u8]) -> Option<()>
    requires first { ArePackets first.now }
    requires second { ArePackets second.now }
{
    run.hear(first).ok()?;
    run.hear(second).ok()
}

// What is kept of a run that is heard in these two pieces.
fn heard(alloc: Global, first: &[u8], second: &[u8]) -> Option<Summary>
    requires first { ArePackets first.now }
    requires second { ArePackets second.now }
{
    let mut run = WrittenRun::new(alloc, Tags::new(alloc));
    hear_both(&mut run, first, second)?;
    run.close().ok()
}

// The ids that fail in it.
fn fail_when_heard(alloc: Global, first: &[u8], second: &[u8]) -> Option<IdList>
    requires first { ArePackets first.now }
    requires second { ArePackets second.now }
{
    heard(alloc, first, second)?.failing_ids(alloc).ok()
}

#[test]
fn each_packet_of_a_piece_is_heard(rt: HostRuntime) -> Result<(), Fail> {
    let alloc = rt.alloc();
    let first = ended(alloc, b'c', Status::Fail, b'a', Status::Fail).ok_or("packets")?;
    let second = ended(alloc, b'b', Status::Success, b'd', Status::Fail).ok_or("packets")?;
    let ids = fail_when_heard(alloc, &first, &second).ok_or("memory")?;
    assert!(rt; are(ids.list(), b"acd"));
    Ok(())
}
