//! The rows of a run of a store, and the packets of the parts of some tests.

ghost use Rattle.std.specs.Prelude.{◌≡◌, ◌<◌, [], None, length, vec_len, IfSome, IfOk, OnOk};
ghost use Rattle.run_ledger.specs.Costs.{ReadsOnce};
ghost use Rattle.run_ledger.specs.Outcomes.{LedgerReads};
ghost use Rattle.run_shelf.specs.Outcomes.{TicksUpTo};
ghost use Rattle.run_shelf.specs.Stores.{store_kinds, store_fault, FitsUnlessBroken, seen_store};
ghost use Rattle.last_failures.specs.Gathering.{HasPartsOfBytes, HasPartsOfRun, HasRoomForParts, IsGatheredAt, ReadsPartsOn};

use crate::ids_without_row::IdsWithoutRow;
use crate::run_parts::{RunFailures, RunParts};
use edge_io::Shelf;
use run_ledger::LedgerFault;
use run_shelf::Store;
use std::alloc::Global;
use sub_number::NoMemory;

/// The rows of the run of this number, which there must be, and of each id that is wanted the packets of the last part of its
/// test that failed, route by route. The run's bytes are read once, in pieces of 65,536, until a read gives fewer.
///
/// `NoMemory` comes for want of memory, or of a run without an end in a folder that tells nothing, and leaves the store open.
pub fn read_run<H: Shelf>(
    alloc: Global,
    store: &mut Store<'_, H>,
    number: u32,
    wanted: &IdsWithoutRow,
) -> Result<RunFailures, LedgerFault>
    requires known { number < length (store_kinds store.old) }
    requires fits { FitsUnlessBroken (store_kinds store.old) (store_fault store.old) (H.seen store.old.shelf.now).told }
    requires open { store_fault store.old ≡ None }
    ensures same_reference { store.new.shelf.ghost_name ≡ store.old.shelf.ghost_name }
    ensures gathered { IfOk result (λ run. IfSome (H.seen store.old.shelf.now).told (IsGatheredAt wanted.now number run)) }
    ensures reads { LedgerReads (seen_store store.old (H.seen store.old.shelf.now)) (seen_store store.new (H.seen store.new.shelf.now)) result }
    ensures time { IfSome (H.seen store.old.shelf.now).told (ReadsOnce number (H.clock store.old.shelf.now) (H.clock store.new.shelf.now)) }
{
    let mut buf = piece_buffer(alloc)?;
    let mut run = RunParts::new(alloc)?;
    read_pieces(alloc, store, number, wanted, &mut buf, &mut run)?;
    Ok(run.close(alloc, wanted)?)
}

// How many bytes are read at once.
const PIECE: u64 = 65_536;

// A file has fewer than 2^63 bytes, so fewer pieces than these.
const MOST_PIECES: u64 = 1 << 47;

// Room for one piece.
fn piece_buffer(alloc: Global) -> Result<Vec<u8>, NoMemory>
    ensures { IfOk result (λ buf. vec_len buf ≡ 65536) }
{
    Ok(vec![in alloc; 0u8; PIECE as usize]?)
}

// Hands the bytes of the run on to the reader, piece by piece, until a read gives fewer than were asked for.
fn read_pieces<H: Shelf>(
    alloc: Global,
    store: &mut Store<'_, H>,
    number: u32,
    wanted: &IdsWithoutRow,
    buf: &mut [u8],
    run: &mut RunParts,
) -> Result<(), LedgerFault>
    requires room { length buf.old ≡ 65536 }
    requires known { number < length (store_kinds store.old) }
    requires fits { FitsUnlessBroken (store_kinds store.old) (store_fault store.old) (H.seen store.old.shelf.now).told }
    requires open { store_fault store.old ≡ None }
    requires fresh { HasPartsOfBytes wanted.now run.old [] }
    requires space { HasRoomForParts run.old }
    ensures same_reference { store.new.shelf.ghost_name ≡ store.old.shelf.ghost_name }
    ensures read { OnOk result (IfSome (H.seen store.old.shelf.now).told (HasPartsOfRun wanted.now number run.new)) }
    ensures reads { LedgerReads (seen_store store.old (H.seen store.old.shelf.now)) (seen_store store.new (H.seen store.new.shelf.now)) result }
    ensures time { IfSome (H.seen store.old.shelf.now).told (ReadsOnce number (H.clock store.old.shelf.now) (H.clock store.new.shelf.now)) }
{
    for piece in 0..MOST_PIECES {
        let count = read_piece(alloc, store, number, piece * PIECE, wanted, buf, run)?;
        if count < buf.len() {
            return Ok(());
        }
    }
    // No folder has such a run.
    Err(LedgerFault::NoMemory)
}

// Hands the bytes from this place on to the reader, as many as the buffer holds, and answers how many there were.
fn read_piece<H: Shelf>(
    alloc: Global,
    store: &mut Store<'_, H>,
    number: u32,
    place: u64,
    wanted: &IdsWithoutRow,
    buf: &mut [u8],
    run: &mut RunParts,
) -> Result<usize, LedgerFault>
    requires room { length buf.old ≡ 65536 }
    requires known { number < length (store_kinds store.old) }
    requires fits { FitsUnlessBroken (store_kinds store.old) (store_fault store.old) (H.seen store.old.shelf.now).told }
    requires space { HasRoomForParts run.old }
    ensures same_reference { store.new.shelf.ghost_name ≡ store.old.shelf.ghost_name }
    ensures read { IfOk result (λ count. IfSome (H.seen store.old.shelf.now).told (ReadsPartsOn wanted.now number place (length buf.old) count run.old run.new)) }
    ensures space { OnOk result (HasRoomForParts run.new) }
    ensures reads { LedgerReads (seen_store store.old (H.seen store.old.shelf.now)) (seen_store store.new (H.seen store.new.shelf.now)) result }
    ensures time { TicksUpTo 1 (H.clock store.old.shelf.now) (H.clock store.new.shelf.now) }
{
    let count = store.read_run(number, place, buf)?;
    run.feed(alloc, wanted, &buf[..count])?;
    Ok(count)
}
