//! Times that replace earlier ones: both lists are in order, and are gone through once.

ghost use Rattle.std.specs.Prelude.{◌≡◌, ◌++◌, ◌<◌, ◌≤◌, ◌^◌, ℕ, List, [], map, length, All, IfSome, IfNone, IfOk, OnOk};
ghost use Rattle.std.specs.List.{flat_map};
ghost use Rattle.outcome_fold.specs.declared.row.Row.{Row};
ghost use Rattle.outcome_fold.specs.Answers.{times_of};
ghost use Rattle.outcome_fold.specs.Summed.{Sums};
ghost use Rattle.run_ledger.specs.Caches.{time_entry};
ghost use Rattle.run_ledger.specs.Ledger.{replaced};
ghost use Rattle.outcome_fold.specs.Summed.{shown_time};
ghost use Rattle.run_ledger.specs.Merging.{AreEntriesOfTimes, BeginsWithEntry, below, not_below, past, merged};

use crate::cache_parts::split_at_mark;
use crate::entries::Entries;
use crate::longest_times::longest_times;
use itoa::Buffer;
use outcome_fold::{Rows, Summary, Timed};
use std::alloc::Global;
use sub_number::NoMemory;

// The most bytes of an entry beside its id: twenty digits of a time, and two zero bytes.
const BESIDE_AN_ID: usize = 22;

/// Gives each id that has a time in these rows that time. It takes one sort of the rows' times; the entries are gone
/// through once, and those that stay are copied as they are, many at once.
///
/// After `NoMemory` nothing is known of the entries.
pub(crate) fn replace_times(
    alloc: Global,
    latest: &mut Entries,
    rows: &Rows,
) -> Result<(), NoMemory>
    ensures { OnOk result (latest.new ≡ replaced latest.old (times_of rows.now)) }
{
    let later = longest_times(alloc, rows.list())?;
    let bytes = merge(alloc, latest.bytes(), &later)?;
    *latest = Entries::from_vec(bytes);
    Ok(())
}

/// Gives each id that has a time in the rows of which this is kept that time. The entries are gone through once, and those
/// that stay are copied as they are, many at once.
///
/// After `NoMemory` nothing is known of the entries.
pub(crate) fn replace_summed(
    alloc: Global,
    latest: &mut Entries,
    summary: &Summary,
) -> Result<(), NoMemory>
    ensures { (filter_tags : List (List ℕ)) (rows : List Row) → Sums filter_tags rows summary.now → OnOk result (latest.new ≡ replaced latest.old (times_of rows)) }
{
    let later = summary.times(alloc)?;
    let bytes = merge(alloc, latest.bytes(), &later)?;
    *latest = Entries::from_vec(bytes);
    Ok(())
}

// The later times among the earlier entries, in place of those of their ids.
fn merge(alloc: Global, earlier: &[u8], later: &[Timed<'_>]) -> Result<Vec<u8>, NoMemory>
    ensures bytes { (entries : List (List ℕ × ℕ)) → AreEntriesOfTimes earlier.now entries → IfOk result (λ bytes. bytes.items ≡ flat_map time_entry (merged entries (map shown_time later.now))) }
    ensures small { IfOk result (λ _. All (λ timed. timed.nanos < 2 ^ 64) later.now) }
{
    let mut bytes = Vec::with_capacity(alloc, room_for(earlier, later))?;
    let mut rest = earlier;
    for timed in later {
        rest = put_among(rest, timed, &mut bytes)?;
    }
    bytes.extend_from_slice(rest)?;
    Ok(bytes)
}

// Bytes that are enough for the entries of both. Taken at once, so that no part of them stands twice while they grow; what
// is not needed is not touched.
fn room_for(earlier: &[u8], later: &[Timed<'_>]) -> usize {
    let mut room = earlier.len();
    for timed in later {
        room = room
            .saturating_add(timed.id.bytes().len())
            .saturating_add(BESIDE_AN_ID);
    }
    room
}

// Puts the entries below this one to the end of the bytes, and then this one. Gives the entries above it.
fn put_among<'b>(
    entries: &'b [u8],
    timed: &Timed<'_>,
    bytes: &mut Vec<u8>,
) -> Result<&'b [u8], NoMemory>
    ensures rest { IfOk result (λ rest. (each : List (List ℕ × ℕ)) → AreEntriesOfTimes entries.now each → AreEntriesOfTimes rest.now (past timed.now.id.now (not_below timed.now.id.now each))) }
    ensures bytes { OnOk result ((each : List (List ℕ × ℕ)) → AreEntriesOfTimes entries.now each → bytes.new.items ≡ bytes.old.items ++ (flat_map time_entry (below timed.now.id.now each) ++ time_entry (shown_time timed.now))) }
    ensures small { OnOk result (timed.now.nanos < 2 ^ 64) }
{
    let rest = skip_below(entries, timed.id.bytes());
    bytes.extend_from_slice(&entries[..entries.len() - rest.len()])?;
    put_entry(timed, bytes)?;
    Ok(skip_same(rest, timed.id.bytes()))
}

// The entries from the first on whose id is not below this one.
fn skip_below<'b>(entries: &'b [u8], id: &[u8]) -> &'b [u8]
    ensures rest { (each : List (List ℕ × ℕ)) → AreEntriesOfTimes entries.now each → AreEntriesOfTimes result.now (not_below id.now each) }
    ensures short { length result.now ≤ length entries.now }
{
    let mut rest = entries;
    while let Some((first, behind)) = first_entry(rest) {
        if !first.cmp(id).is_lt() {
            return rest;
        }
        rest = behind;
    }
    rest
}

// The entries behind one of this id, where they begin with one.
fn skip_same<'b>(entries: &'b [u8], id: &[u8]) -> &'b [u8]
    ensures { (each : List (List ℕ × ℕ)) → AreEntriesOfTimes entries.now each → AreEntriesOfTimes result.now (past id.now each) }
{
    match first_entry(entries) {
        Some((first, behind)) if first.cmp(id).is_eq() => behind,
        _ => entries,
    }
}

// The id of the first entry, and the entries behind that one.
fn first_entry(entries: &[u8]) -> Option<(&[u8], &[u8])>
    ensures some { IfSome result (λ parts. (each : List (List ℕ × ℕ)) → AreEntriesOfTimes entries.now each → BeginsWithEntry parts.0.now parts.1.now each) }
    ensures none { IfNone result ((each : List (List ℕ × ℕ)) → AreEntriesOfTimes entries.now each → each ≡ []) }
    ensures short { IfSome result (λ parts. length parts.1.now < length entries.now) }
{
    let (id, rest) = split_at_mark(0, entries)?;
    let (_, behind) = split_at_mark(0, rest)?;
    Some((id, behind))
}

// Puts the id and its time to the end of the bytes, and a zero byte behind each.
fn put_entry(timed: &Timed<'_>, bytes: &mut Vec<u8>) -> Result<(), NoMemory>
    ensures bytes { OnOk result (bytes.new.items ≡ bytes.old.items ++ time_entry (shown_time timed.now)) }
    ensures small { timed.now.nanos < 2 ^ 64 }
{
    let nanos = timed.nanos;
    bytes.extend_from_slice(timed.id.bytes())?;
    bytes.push(0)?;
    bytes.extend_from_slice(Buffer::new().format(nanos).as_bytes())?;
    bytes.push(0)?;
    Ok(())
}
