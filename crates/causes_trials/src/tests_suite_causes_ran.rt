//! The tests that began to run on a lane of a stored run.

use edge_io::{MemShelf, Shelf};
use packet_codec::Status;
use run_ledger::LedgerFault;
use run_shelf::{ShelfCall, Store, StoreFault};
use std::alloc::Global;
use std::test::Fail;
use sub_number::IdList;
use suite_causes::ran_ids;
use trial_events::{are, says, spelled};

// Keeps a file, in six calls.
fn keep(shelf: &mut MemShelf, name: &str, bytes: &[u8]) -> Result<(), Fail> {
    shelf.sync_folder()?;
    shelf.start_draft()?;
    shelf.append(bytes)?;
    shelf.sync_draft()?;
    shelf.publish(name)?;
    shelf.sync_folder()?;
    Ok(())
}

// What the run tells: routes, ids and statuses.
const TOLD: [(&[u8], &[u8], Status); 9] = [
    (b"0", b"a", Status::InProgress),
    (b"1", b"z", Status::Success),
    (b"0", b"e", Status::Exists),
    (b"0", b"b", Status::Success),
    (b"0", b"a", Status::Success),
    (b"0/x", b"c", Status::Fail),
    (b"0", b"process-returncode", Status::Fail),
    (b"10", b"y", Status::Success),
    (b"0", b"e", Status::Unset),
];

fn add(alloc: Global, told: &(&[u8], &[u8], Status), run: &mut Vec<u8>) -> Option<()> {
    let packet = spelled(alloc, &says(alloc, told.0, told.1, told.2))?;
    run.extend_from_slice(&packet).ok()
}

fn run_bytes(alloc: Global) -> Option<Vec<u8>> {
    let mut run = Vec::new(alloc);
    for told in &TOLD {
        add(alloc, told, &mut run)?;
        // Foreign bytes are of no lane.
        run.push(b'0').ok()?;
    }
    Some(run)
}

// A repository of one run, of whose calls these are to fail.
fn repository(alloc: Global, fails: &[u64]) -> Result<MemShelf, Fail> {
    let mut shelf = MemShelf::new(alloc, Vec::from_slice(alloc, fails)?);
    keep(&mut shelf, "format", b"subunit-store 1\n")?;
    let run = run_bytes(alloc).ok_or("no memory")?;
    keep(&mut shelf, "0", &run)?;
    Ok(shelf)
}

fn ran(
    alloc: Global,
    shelf: &mut MemShelf,
    lane: u32,
) -> Result<Result<IdList, LedgerFault>, Fail> {
    let mut store = Store::open(alloc, shelf)?;
    if store.runs() == 0 {
        return Ok(Err(LedgerFault::NoMemory));
    }
    Ok(ran_ids(alloc, &mut store, 0, lane))
}

fn are_ran(alloc: Global, shelf: &mut MemShelf, lane: u32, names: &[u8]) -> Result<bool, Fail> {
    match ran(alloc, shelf, lane)? {
        Ok(ids) => Ok(are(ids.list(), names)),
        Err(_) => Ok(false),
    }
}

#[test]
fn tests_are_told_of_by_lane_in_the_order_in_which_they_began(rt: HostRuntime) -> Result<(), Fail> {
    let mut shelf = repository(rt.alloc(), &[])?;
    assert!(rt; are_ran(rt.alloc(), &mut shelf, 0, b"abce")?);
    assert!(rt; are_ran(rt.alloc(), &mut shelf, 1, b"z")?);
    assert!(rt; are_ran(rt.alloc(), &mut shelf, 10, b"y")?);
    assert!(rt; are_ran(rt.alloc(), &mut shelf, 2, b"")?);
    Ok(())
}

// Whether the read of the run fails.
fn is_fault(alloc: Global, shelf: &mut MemShelf) -> Result<bool, Fail> {
    let fault = ran(alloc, shelf, 0)?;
    Ok(matches!(
        fault,
        Err(LedgerFault::Store(StoreFault::Shelf(ShelfCall::ReadAt)))
    ))
}

#[test]
fn a_read_that_fails_is_told(rt: HostRuntime) -> Result<(), Fail> {
    // Twelve calls keep the files, and four open the repository.
    let mut shelf = repository(rt.alloc(), &[16])?;
    assert!(rt; is_fault(rt.alloc(), &mut shelf)?);
    Ok(())
}
