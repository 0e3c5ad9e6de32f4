//! The cache of the times, written and read.

ghost use Rattle.std.specs.Prelude.{◌≡◌, ◌++◌, ℕ, All, IfSome, IfNone, IfOk, OnOk};
ghost use Rattle.std.specs.List.{flat_map};
ghost use Rattle.std.specs.FinMap.{FinMap};
ghost use Rattle.outcome_fold.specs.Order.{text_cmp};
ghost use Rattle.run_shelf.specs.IdFiles.{heading};
ghost use Rattle.run_ledger.specs.Caches.{times_title, times_cache, IsTimed, IsTimesCache};
ghost use Rattle.run_ledger.specs.Cuts.{AreTimeEntries, IsTimedAt, entry_if_timed, entry_at};

use crate::cache_parts::read_heading;
use crate::entries::{Entries, are_entries, map_of};
use itoa::Buffer;
use std::alloc::Global;
use sub_number::{Bytes, NoMemory, Text, TimeMap};

// The first line.
const TITLE: &[u8] = b"subunit-times 1\n";

/// What a cache of the times holds: of how many runs, from the first on, and the times.
#[derive(Drop)]
pub struct TimesCache {
    pub covers: u64,
    pub times: TimeMap,
}

/// The same, the times as entries.
#[derive(Drop)]
pub(crate) struct EntriesCache {
    pub(crate) covers: u64,
    pub(crate) times: Entries,
}

/// The bytes of the cache of these times, of so many runs. They are read again as that.
#[tactic(auto, using(crate::proofs::TimedLemmas::entries_by_id))]
pub fn write_times_cache(alloc: Global, covers: u64, times: &TimeMap) -> Result<Bytes, NoMemory>
    ensures bytes { IfOk result (λ bytes. bytes ≡ times_cache covers times.now) }
    ensures form { IfOk result (λ bytes. IsTimesCache bytes covers times.now) }
{
    let ids = times.ids(alloc)?;
    let mut bytes = Vec::new(alloc);
    write_heading(covers, &mut bytes)?;
    write_times(ids.list(), times, &mut bytes)?;
    Ok(Bytes::from_vec(bytes))
}

/// The bytes of the cache of these times, of so many runs. The entries are not copied: the heading is put before them in the
/// memory where they stand.
pub(crate) fn write_entries_cache(
    alloc: Global,
    covers: u64,
    times: Entries,
) -> Result<Bytes, NoMemory>
    ensures form { IfOk result (λ bytes. IsTimesCache bytes covers times) }
{
    let mut heading = Vec::new(alloc);
    write_heading(covers, &mut heading)?;
    let mut bytes = times.into_vec();
    put_before(heading, &mut bytes)?;
    Ok(Bytes::from_vec(bytes))
}

// Puts the front before the bytes, which are moved once, and all at once.
fn put_before(front: Vec<u8>, bytes: &mut Vec<u8>) -> Result<(), NoMemory>
    ensures { OnOk result (bytes.new.items ≡ front.items ++ bytes.old.items) }
{
    bytes.splice(0..0, front)?;
    Ok(())
}

// The first two lines.
fn write_heading(covers: u64, bytes: &mut Vec<u8>) -> Result<(), NoMemory>
    ensures { OnOk result (bytes.new.items ≡ bytes.old.items ++ heading times_title covers) }
{
    bytes.extend_from_slice(TITLE)?;
    bytes.extend_from_slice(Buffer::new().format(covers).as_bytes())?;
    bytes.push(b'\n')?;
    Ok(())
}

// Each id that has a time, and its time.
fn write_times(ids: &[Text], times: &TimeMap, bytes: &mut Vec<u8>) -> Result<(), NoMemory>
    ensures bytes { OnOk result (bytes.new.items ≡ bytes.old.items ++ flat_map (entry_at times.now) ids.now) }
    ensures timed { OnOk result (All (IsTimedAt times.now) ids.now) }
{
    for id in ids {
        write_time(id, times.get(id), bytes)?;
    }
    Ok(())
}

// The id and this time, and a zero byte behind each.
fn write_time(id: &Text, time: Option<u64>, bytes: &mut Vec<u8>) -> Result<(), NoMemory>
    ensures bytes { OnOk result (bytes.new.items ≡ bytes.old.items ++ entry_if_timed id.now time) }
    ensures timed { OnOk result (IfSome time (λ nanos. IsTimed (id.now, nanos))) }
{
    let Some(nanos) = time else {
        return Ok(());
    };
    bytes.extend_from_slice(id.bytes())?;
    bytes.push(0)?;
    bytes.extend_from_slice(Buffer::new().format(nanos).as_bytes())?;
    bytes.push(0)?;
    Ok(())
}

/// What the bytes hold, where they are a cache of the times. `None` comes exactly where they are none. Each byte is
/// looked at a few times.
pub fn read_times_cache(alloc: Global, bytes: &[u8]) -> Result<Option<TimesCache>, NoMemory>
    ensures some { IfOk result (λ found. IfSome found (λ cache. IsTimesCache bytes.now cache.covers cache.times)) }
    ensures none { IfOk result (λ found. IfNone found ((covers : ℕ) (times : FinMap text_cmp ℕ) → IsTimesCache bytes.now covers times → ⊥)) }
{
    let Some((covers, rest)) = read_entries(bytes) else {
        return Ok(None);
    };
    let times = map_of(alloc, rest)?;
    Ok(Some(TimesCache { covers, times }))
}

/// The same, the times as entries, whose bytes are copied as they are.
pub(crate) fn read_entries_cache(
    alloc: Global,
    bytes: &[u8],
) -> Result<Option<EntriesCache>, NoMemory>
    ensures some { IfOk result (λ found. IfSome found (λ cache. IsTimesCache bytes.now cache.covers cache.times)) }
    ensures none { IfOk result (λ found. IfNone found ((covers : ℕ) (times : FinMap text_cmp ℕ) → IsTimesCache bytes.now covers times → ⊥)) }
{
    let Some((covers, rest)) = read_entries(bytes) else {
        return Ok(None);
    };
    let times = Entries::from_vec(Vec::from_slice(alloc, rest)?);
    Ok(Some(EntriesCache { covers, times }))
}

// How many runs the cache covers, and the bytes of its entries.
fn read_entries(bytes: &[u8]) -> Option<(u64, &[u8])>
    ensures some { IfSome result (λ parts. (times : FinMap text_cmp ℕ) × AreTimeEntries parts.1.now times × IsTimesCache bytes.now parts.0 times) }
    ensures none { IfNone result ((covers : ℕ) (times : FinMap text_cmp ℕ) → IsTimesCache bytes.now covers times → ⊥) }
{
    let (covers, rest) = read_heading(TITLE, bytes)?;
    if are_entries(rest) {
        Some((covers, rest))
    } else {
        None
    }
}
