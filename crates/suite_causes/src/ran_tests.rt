//! The tests that began to run on a lane of a stored run.

ghost use Rattle.std.specs.Prelude.{◌≡◌, ◌<◌, ℕ, [], None, length, vec_len, IfSome, IfOk, OnOk};
ghost use Rattle.run_ledger.specs.Outcomes.{LedgerReads};
ghost use Rattle.run_shelf.specs.Stores.{store_kinds, store_fault, FitsUnlessBroken, seen_store};
ghost use Rattle.suite_causes.specs.Ran.{HasRanIds, HasRanAt, HasRanIdsOfRun, HasRoomForRanIds, ReadsRanIdsOn};

use crate::ran_reader::RanReader;
use edge_io::Shelf;
use run_ledger::{LedgerFault, check_open};
use run_shelf::Store;
use std::alloc::Global;
use sub_number::{IdList, NoMemory};

/// The ids of the tests that began to run on the lane in the run of this number, which there must be: each once, in the order
/// in which they began. The run's bytes are read once, in pieces of 65,536, until a read gives fewer. Nothing changes in the
/// folder.
///
/// `Store` comes only where a call of the folder failed, and where one had failed before, which comes first. `NoMemory` comes
/// for want of memory, or of a run without an end in a folder that tells nothing, and leaves the store open.
pub fn ran_ids<H: Shelf>(
    alloc: Global,
    store: &mut Store<'_, H>,
    number: u32,
    lane: u32,
) -> Result<IdList, LedgerFault>
    requires known { number < length (store_kinds store.old) }
    requires fits { FitsUnlessBroken (store_kinds store.old) (store_fault store.old) (H.seen store.old.shelf.now).told }
    ensures same_reference { store.new.shelf.ghost_name ≡ store.old.shelf.ghost_name }
    ensures ids { IfOk result (λ ids. IfSome (H.seen store.old.shelf.now).told (HasRanAt number lane ids)) }
    ensures reads { LedgerReads (seen_store store.old (H.seen store.old.shelf.now)) (seen_store store.new (H.seen store.new.shelf.now)) result }
{
    check_open(store)?;
    let mut ran = RanReader::new(alloc, lane)?;
    let mut buf = piece_buffer(alloc)?;
    read_pieces(store, number, &mut buf, &mut ran)?;
    Ok(ran.close(alloc)?)
}

// How many bytes are read at once.
const PIECE: u64 = 65_536;

// A file has fewer than 2^63 bytes, so fewer pieces than these.
const MOST_PIECES: u64 = 1 << 47;

// Room for one piece.
fn piece_buffer(alloc: Global) -> Result<Vec<u8>, NoMemory>
    ensures { IfOk result (λ buf. vec_len buf ≡ 65536) }
{
    Ok(vec![in alloc; 0u8; PIECE as usize]?)
}

// Hands the bytes of the run on to the reader, piece by piece, until a read gives fewer than were asked for.
fn read_pieces<H: Shelf>(
    store: &mut Store<'_, H>,
    number: u32,
    buf: &mut [u8],
    ran: &mut RanReader,
) -> Result<(), LedgerFault>
    requires room { length buf.old ≡ 65536 }
    requires known { number < length (store_kinds store.old) }
    requires fits { FitsUnlessBroken (store_kinds store.old) (store_fault store.old) (H.seen store.old.shelf.now).told }
    requires going_on { store_fault store.old ≡ None }
    requires space { HasRoomForRanIds ran.old }
    ensures same_reference { store.new.shelf.ghost_name ≡ store.old.shelf.ghost_name }
    ensures read { (lane : ℕ) → HasRanIds lane ran.old [] → OnOk result (IfSome (H.seen store.old.shelf.now).told (HasRanIdsOfRun number lane ran.new)) }
    ensures reads { LedgerReads (seen_store store.old (H.seen store.old.shelf.now)) (seen_store store.new (H.seen store.new.shelf.now)) result }
{
    for piece in 0..MOST_PIECES {
        let count = read_piece(store, number, piece * PIECE, buf, ran)?;
        if count < buf.len() {
            return Ok(());
        }
    }
    // No folder has such a run.
    Err(LedgerFault::NoMemory)
}

// Hands the bytes from this place on to the reader, as many as the buffer holds, and answers how many there were.
fn read_piece<H: Shelf>(
    store: &mut Store<'_, H>,
    number: u32,
    place: u64,
    buf: &mut [u8],
    ran: &mut RanReader,
) -> Result<usize, LedgerFault>
    requires room { length buf.old ≡ 65536 }
    requires known { number < length (store_kinds store.old) }
    requires fits { FitsUnlessBroken (store_kinds store.old) (store_fault store.old) (H.seen store.old.shelf.now).told }
    requires space { HasRoomForRanIds ran.old }
    ensures same_reference { store.new.shelf.ghost_name ≡ store.old.shelf.ghost_name }
    ensures read { (lane : ℕ) → IfOk result (λ count. IfSome (H.seen store.old.shelf.now).told (ReadsRanIdsOn number lane place (length buf.old) count ran.old ran.new)) }
    ensures space { OnOk result (HasRoomForRanIds ran.new) }
    ensures reads { LedgerReads (seen_store store.old (H.seen store.old.shelf.now)) (seen_store store.new (H.seen store.new.shelf.now)) result }
{
    let count = store.read_run(number, place, buf)?;
    ran.feed(&buf[..count])?;
    Ok(count)
}
