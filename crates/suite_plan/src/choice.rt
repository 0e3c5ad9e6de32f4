//! Which tests a run has.

ghost use Rattle.std.specs.Prelude.{◌≡◌, ◌++◌, [], IfOk, IfSome};
ghost use Rattle.std.specs.List.{IsDistinct, filter};
ghost use Rattle.std.specs.Option.{unwrap_or};
ghost use Rattle.std.specs.Str.{bytes_eq};
ghost use Rattle.partition_times.specs.Patterns.{is_found, picked_ids};
ghost use Rattle.suite_plan.specs.Choosing.{ids_in_both, given_ids, base_ids, with_further, missed_ids, wanted_ids, chosen_of, chosen_ids};

use crate::first_ids::first_of_each;
use crate::picks::{FurtherPicks, Picks};
use outcome_fold::TextSet;
use partition_times::{Filters, Finder, pick};
use std::alloc::Global;
use sub_number::{IdList, NoMemory, Text};

/// The ids, in their order, that stand among the others too. Both are moved, and none is copied.
pub fn ids_in_both(alloc: Global, ids: IdList, others: IdList) -> Result<IdList, NoMemory>
    ensures { IfOk result (λ both. both ≡ ids_in_both ids others) }
{
    let mut known = TextSet::new(alloc);
    known.put_all(others)?;
    those_in(alloc, ids.into_list(), &known)
}

// The ids, in their order, that are in the set. They are moved.
fn those_in(alloc: Global, ids: Vec<Text>, known: &TextSet) -> Result<IdList, NoMemory>
    ensures { IfOk result (λ both. both ≡ ids_in_both ids.items known.now) }
{
    let mut both = IdList::new(alloc);
    for id in ids {
        if known.contains(&id) {
            both.push(id)?;
        }
    }
    Ok(both)
}

// The ids in which some pattern is found, of these or of the further ones. Where there is no pattern, the list itself is
// handed on.
fn picked(
    alloc: Global,
    ids: IdList,
    filters: &Filters,
    further: &Option<Filters>,
) -> Result<IdList, NoMemory>
    ensures { IfOk result (λ picked. picked ≡ picked_ids (filters.now ++ unwrap_or further.now []) ids) }
{
    match further {
        Some(further) => picked_by_both(alloc, ids, filters, further),
        None => picked_by(alloc, ids, filters),
    }
}

// The same without further ones.
fn picked_by(alloc: Global, ids: IdList, filters: &Filters) -> Result<IdList, NoMemory>
    ensures { IfOk result (λ picked. picked ≡ picked_ids filters.now ids) }
{
    if filters.is_empty() {
        return Ok(ids);
    }
    pick(alloc, &ids, filters)
}

// The same with them.
fn picked_by_both(
    alloc: Global,
    ids: IdList,
    filters: &Filters,
    further: &Filters,
) -> Result<IdList, NoMemory>
    ensures { IfOk result (λ picked. picked ≡ picked_ids (filters.now ++ further.now) ids) }
{
    if further.is_empty() {
        return picked_by(alloc, ids, filters);
    }
    let mut first = filters.finder(alloc)?;
    let mut second = further.finder(alloc)?;
    found_in(alloc, ids.into_list(), &mut first, &mut second)
}

// The ids in which one of the two finds a pattern. They are moved.
fn found_in(
    alloc: Global,
    ids: Vec<Text>,
    first: &mut Finder<'_>,
    second: &mut Finder<'_>,
) -> Result<IdList, NoMemory>
    ensures { IfOk result (λ found. found ≡ filter (is_found (first.old ++ second.old)) ids.items) }
{
    let mut found = IdList::new(alloc);
    for id in ids {
        if first.found(&id) || second.found(&id) {
            found.push(id)?;
        }
    }
    Ok(found)
}

// The ids in which none of the patterns is found. Where there is no pattern, the list itself is handed on.
fn missed(alloc: Global, ids: IdList, filters: &Filters) -> Result<IdList, NoMemory>
    ensures { IfOk result (λ missed. missed ≡ missed_ids filters.now ids) }
{
    if filters.is_empty() {
        return Ok(ids);
    }
    let mut finder = filters.finder(alloc)?;
    missed_by(alloc, ids.into_list(), &mut finder)
}

// The ids in which it finds no pattern. They are moved.
fn missed_by(alloc: Global, ids: Vec<Text>, finder: &mut Finder<'_>) -> Result<IdList, NoMemory>
    ensures { IfOk result (λ missed. missed ≡ missed_ids finder.old ids.items) }
{
    let mut missed = IdList::new(alloc);
    for id in ids {
        if !finder.found(&id) {
            missed.push(id)?;
        }
    }
    Ok(missed)
}

// The ids that are wanted by these patterns and the further ones, in their order.
fn wanted(
    alloc: Global,
    ids: IdList,
    picks: &Picks,
    further: &FurtherPicks,
) -> Result<IdList, NoMemory>
    ensures { IfOk result (λ wanted. wanted ≡ wanted_ids (with_further picks.now further.now) ids) }
{
    let ids = picked(alloc, ids, &picks.including, &further.including)?;
    let ids = missed(alloc, ids, &picks.excluding)?;
    match &further.excluding {
        Some(filters) => missed(alloc, ids, filters),
        None => Ok(ids),
    }
}

/// The ids, of which each stands once, that are wanted by these patterns and the further ones, in their order.
pub fn choose_ids(
    alloc: Global,
    ids: IdList,
    picks: &Picks,
    further: &FurtherPicks,
) -> Result<IdList, NoMemory>
    requires distinct { IsDistinct bytes_eq ids }
    ensures { IfOk result (λ chosen. chosen ≡ chosen_of (with_further picks.now further.now) ids) }
{
    wanted(alloc, ids, picks, further)
}

// The same of ids that may be repeated. Of repeated ones the first is chosen.
fn choose_firsts(
    alloc: Global,
    ids: IdList,
    picks: &Picks,
    further: &FurtherPicks,
) -> Result<IdList, NoMemory>
    ensures { IfOk result (λ chosen. chosen ≡ chosen_of (with_further picks.now further.now) ids) }
{
    first_of_each(alloc, wanted(alloc, ids, picks, further)?)
}

// The ids that are given without a listing: of the failing ids those that a load list has, or the failing ids, or those of
// the load list. None comes exactly where neither is given.
fn choose_given(
    alloc: Global,
    failing: Option<IdList>,
    listed: Option<IdList>,
) -> Result<Option<IdList>, NoMemory>
    ensures { IfOk result (λ given. given ≡ given_ids failing listed) }
{
    match (failing, listed) {
        (Some(failing), Some(listed)) => Ok(Some(ids_in_both(alloc, failing, listed)?)),
        (Some(failing), None) => Ok(Some(failing)),
        (None, listed) => Ok(listed),
    }
}

/// The ids of a run: of those that are given the ones that are wanted by the patterns, of repeated ones the first. Where failing ids and
/// a load list are given, they are those of the failing ids that the load list has, in the order of the failing ids.
/// Else they are the failing ids, or those of the load list, or those of a listing, of which each stands once,
/// whichever is given first. `None` comes exactly where none of the three is given: then one worker runs all tests.
pub fn chosen_ids(
    alloc: Global,
    failing: Option<IdList>,
    listed: Option<IdList>,
    listing: Option<IdList>,
    picks: &Picks,
    further: &FurtherPicks,
) -> Result<Option<IdList>, NoMemory>
    requires distinct { IfSome listing (IsDistinct bytes_eq) }
    ensures { IfOk result (λ ids. ids ≡ chosen_ids (with_further picks.now further.now) (base_ids failing listed listing)) }
{
    match (choose_given(alloc, failing, listed)?, listing) {
        (Some(given), _) => Ok(Some(choose_firsts(alloc, given, picks, further)?)),
        (None, Some(listing)) => Ok(Some(choose_ids(alloc, listing, picks, further)?)),
        (None, None) => Ok(None),
    }
}
