//! The rows of a run, in their groups, how many there are, and what they say.

ghost use Rattle.outcome_fold.specs.Rows as rows_are;
ghost use Rattle.outcome_fold.specs.Answers as answers;
ghost use Rattle.std.specs.FinMap as map;
ghost use Rattle.std.specs.Prelude.{◌≡◌, IsTrue, IfOk, OnOk, None, ◌&&◌, not, max, if◌then◌else◌, ◌+◌, ◌≤◌, ◌<◌, ◌^◌, ◌||◌, Some, is_some, List, [], ◌∷◌, ◌++◌};
ghost use Rattle.std.specs.Option.{unwrap_or};
ghost use Rattle.std.specs.List.{filter};
ghost use Rattle.outcome_fold.specs.Order.{among, in_byte_order, without};
ghost use Rattle.outcome_fold.specs.declared.row.Row.{Row as ARow};
ghost use Rattle.outcome_fold.specs.Grouped.{groups_in, joined_groups};

use crate::row::{Counts, Ended, Row};
use crate::test_key::copy_route;
use crate::text_set::TextSet;
use packet_codec::Tags;
use std::alloc::Global;
use std::collections::BTreeMap;
use std::marker::Model;
use sub_number::{IdList, NoMemory, Text, TimeMap};

/// The rows of a run. Contracts see them as their list.
#[derive(Drop)]
pub struct Rows {
    rows: Vec<Row>,
}

impl Model for Rows {
    ghost use Rattle.std.specs.Prelude.{List};
    ghost use Rattle.outcome_fold.specs.declared.row.Row.{Row as ARow};

    ghost Value = { List ARow };

    ghost view = { λ r. r.rows.items };
}

impl Rows {
    /// These rows.
    pub fn of(rows: Vec<Row>) -> Self
        ensures { result ≡ rows.items }
    {
        Rows { rows }
    }

    /// The rows, in their order.
    pub fn list(&self) -> &[Row]
        ensures { result.now ≡ self.now }
    {
        &self.rows
    }

    /// The ids of the rows that fail, in the order of their bytes, each once.
    pub fn failing_ids(&self, alloc: Global) -> Result<IdList, NoMemory>
        ensures { IfOk result (λ ids. ids ≡ answers.failing_of self.now) }
    {
        failing_set(alloc, &self.rows)?.into_ids(alloc)
    }

    /// The ids of the tests that ran, where none of the id's rows fails, in the order of their bytes, each once.
    pub fn passed_ids(&self, alloc: Global) -> Result<IdList, NoMemory>
        ensures { IfOk result (λ ids. ids ≡ answers.passed_of self.now) }
    {
        passed_list(alloc, &self.rows)
    }

    /// Takes the ids of `passed_ids` out of the set, and adds those of `failing_ids`: what a partial run makes of the
    /// failing tests.
    ///
    /// After `NoMemory` nothing is known of the set.
    pub fn change_failing(&self, alloc: Global, failed: &mut TextSet) -> Result<(), NoMemory>
        ensures { OnOk result (failed.new ≡ in_byte_order (without failed.old (answers.passed_of self.now) ++ answers.failing_of self.now)) }
    {
        change_set(alloc, &self.rows, failed)
    }

    /// Each id of a test that ran and has a time, with the longest of its times in nanoseconds.
    pub fn times(&self, alloc: Global) -> Result<TimeMap, NoMemory>
        ensures { IfOk result (λ times. times ≡ answers.times_of self.now) }
    {
        longest_times(alloc, &self.rows)
    }

    /// The tags of the tests that ran, in the order of their bytes, each once.
    pub fn seen_tags(&self, alloc: Global) -> Result<Tags, NoMemory>
        ensures { IfOk result (λ tags. tags ≡ answers.seen_tags_of self.now) }
    {
        tag_set(alloc, &self.rows)?.into_tags(alloc)
    }

    /// How many rows there are of tests that ran, but for those that have one of the tags and do not fail. It takes no
    /// memory.
    pub fn counts(&self, filter_tags: &Tags) -> Counts
        ensures { result ≡ answers.counts_of filter_tags.now self.now }
    {
        count_rows(filter_tags.list(), &self.rows)
    }
}

/// The ids of the rows that fail. Each is copied once.
pub(crate) fn failing_set(alloc: Global, rows: &[Row]) -> Result<TextSet, NoMemory>
    ensures { IfOk result (λ ids. ids ≡ answers.failing_of rows.now) }
{
    let mut ids = TextSet::new(alloc);
    for row in rows {
        if row.ended.fails() {
            ids.insert(&row.id)?;
        }
    }
    Ok(ids)
}

// Whether the row is of a test that ran and is not among the failing ones.
fn has_passed(failing: &TextSet, row: &Row) -> bool
    ensures { result ≡ (answers.is_run row.now && not (among failing.now row.now.id)) }
{
    is_run(row) && !failing.contains(&row.id)
}

// Takes the ids out of the set that passed, and adds those that fail.
fn change_set(alloc: Global, rows: &[Row], failed: &mut TextSet) -> Result<(), NoMemory>
    ensures { OnOk result (failed.new ≡ in_byte_order (without failed.old (answers.passed_of rows.now) ++ answers.failing_of rows.now)) }
{
    let failing = failing_set(alloc, rows)?;
    remove_passed(&failing, rows, failed);
    failed.put_all(failing.into_ids(alloc)?)
}

// The ids of the rows of tests that ran and are not among the failing ones.
fn passed_set(alloc: Global, failing: &TextSet, rows: &[Row]) -> Result<TextSet, NoMemory>
    ensures { IfOk result (λ ids. ids ≡ in_byte_order (answers.ids_of (filter (λ row. answers.is_run row && not (among failing.now row.id)) rows.now))) }
{
    let mut ids = TextSet::new(alloc);
    for row in rows {
        if has_passed(failing, row) {
            ids.insert(&row.id)?;
        }
    }
    Ok(ids)
}

// Takes the ids of the same rows out of the set.
fn remove_passed(failing: &TextSet, rows: &[Row], ids: &mut TextSet)
    ensures { ids.new ≡ without ids.old (answers.ids_of (filter (λ row. answers.is_run row && not (among failing.now row.id)) rows.now)) }
{
    for row in rows {
        if has_passed(failing, row) {
            ids.remove(&row.id);
        }
    }
}

fn passed_list(alloc: Global, rows: &[Row]) -> Result<IdList, NoMemory>
    ensures { IfOk result (λ ids. ids ≡ answers.passed_of rows.now) }
{
    let failing = failing_set(alloc, rows)?;
    passed_set(alloc, &failing, rows)?.into_ids(alloc)
}

// How long the test of the row ran, in nanoseconds, where it ran and has a time.
fn run_time(row: &Row) -> Option<u64>
    ensures { result ≡ (if answers.is_run row.now then row.now.nanos else None) }
{
    if is_run(row) { row.nanos } else { None }
}

// Gives the id this time, unless it has a longer one.
fn put_longest(times: &mut TimeMap, id: &Text, nanos: u64) -> Result<(), NoMemory>
    ensures { OnOk result (times.new ≡ map.insert times.old id.now (max nanos (unwrap_or (map.get times.old id.now) 0))) }
{
    let before = times.get(id).unwrap_or(0);
    times.put(id, nanos.max(before))
}

// The longest time of each id.
fn longest_times(alloc: Global, rows: &[Row]) -> Result<TimeMap, NoMemory>
    ensures { IfOk result (λ times. times ≡ answers.times_of rows.now) }
{
    let mut times = TimeMap::new(alloc);
    for row in rows {
        if let Some(nanos) = run_time(row) {
            put_longest(&mut times, &row.id, nanos)?;
        }
    }
    Ok(times)
}

// The tags of the rows of tests that ran.
fn tag_set(alloc: Global, rows: &[Row]) -> Result<TextSet, NoMemory>
    ensures { IfOk result (λ tags. tags ≡ answers.seen_tags_of rows.now) }
{
    let mut tags = TextSet::new(alloc);
    for row in rows {
        if is_run(row) {
            tags.insert_all(row.tags.list())?;
        }
    }
    Ok(tags)
}

/// Whether the row is of a test that ran.
pub fn is_run(row: &Row) -> bool
    ensures { result ≡ answers.is_run row.now }
{
    row.ended != Ended::Exists
}

// Whether the row has one of the tags.
fn has_one_of(tags: &[Text], row: &Row) -> bool
    ensures { result ≡ answers.has_one_of tags.now row.now }
{
    tags.iter().any(|tag| row.tags.list().contains(tag))
}

// Whether the row is counted.
fn is_counted(filter_tags: &[Text], row: &Row) -> bool
    ensures { result ≡ answers.is_counted filter_tags.now row.now }
{
    is_run(row) && (row.ended.fails() || !has_one_of(filter_tags, row))
}

// The sum of the times that there are.
fn sum_time(total: Option<u128>, nanos: Option<u64>) -> Option<u128>
    requires { unwrap_or total 0 + 2 ^ 64 ≤ 2 ^ 128 }
    ensures sum { result ≡ (if is_some total || is_some nanos then Some (unwrap_or total 0 + unwrap_or nanos 0) else None) }
    ensures bound { unwrap_or result 0 ≤ unwrap_or total 0 + 2 ^ 64 }
{
    match (total, nanos) {
        (None, None) => None,
        (None, Some(nanos)) => Some(u128::from(nanos)),
        (Some(total), None) => Some(total),
        (Some(total), Some(nanos)) => Some(total + u128::from(nanos)),
    }
}

// The counts with one row more.
fn with(counts: Counts, row: &Row) -> Counts
    requires total { counts.total + 1 < 2 ^ 64 }
    requires passed { counts.passed + 1 < 2 ^ 64 }
    requires failed { counts.failed + 1 < 2 ^ 64 }
    requires skipped { counts.skipped + 1 < 2 ^ 64 }
    requires nanos { unwrap_or counts.nanos 0 + 2 ^ 64 ≤ 2 ^ 128 }
    ensures counted { (rows : List ARow) → counts ≡ answers.counts_in rows → result ≡ answers.counts_in (rows ++ row.now ∷ []) }
    ensures total { result.total ≤ counts.total + 1 }
    ensures passed { result.passed ≤ counts.passed + 1 }
    ensures failed { result.failed ≤ counts.failed + 1 }
    ensures skipped { result.skipped ≤ counts.skipped + 1 }
    ensures nanos { unwrap_or result.nanos 0 ≤ unwrap_or counts.nanos 0 + 2 ^ 64 }
{
    let fails = row.ended.fails();
    let skip = row.ended == Ended::Skip;
    Counts {
        total: counts.total + 1,
        passed: counts.passed + if fails || skip { 0 } else { 1 },
        failed: counts.failed + if fails { 1 } else { 0 },
        skipped: counts.skipped + if skip { 1 } else { 0 },
        nanos: sum_time(counts.nanos, row.nanos),
    }
}

// Whether each of the counts, and the sum, can take one row more.
fn have_room(counts: Counts) -> bool
    ensures total { IsTrue result → counts.total + 1 < 2 ^ 64 }
    ensures passed { IsTrue result → counts.passed + 1 < 2 ^ 64 }
    ensures failed { IsTrue result → counts.failed + 1 < 2 ^ 64 }
    ensures skipped { IsTrue result → counts.skipped + 1 < 2 ^ 64 }
    ensures nanos { IsTrue result → unwrap_or counts.nanos 0 + 2 ^ 64 ≤ 2 ^ 128 }
{
    counts.total < u64::MAX
        && counts.passed < u64::MAX
        && counts.failed < u64::MAX
        && counts.skipped < u64::MAX
        && counts.nanos.unwrap_or(0) <= u128::MAX - (1 << 64)
}

/// The counts with the row too, if it is counted, where these tags filter.
///
/// `NoMemory` comes where one of the counts, or the sum of the times, has no room for a row more.
#[inline]
pub fn count_with(counts: Counts, filter_tags: &[Text], row: &Row) -> Result<Counts, NoMemory>
    ensures { (rows : List ARow) → counts ≡ answers.counts_of filter_tags.now rows → IfOk result (λ next. next ≡ answers.counts_of filter_tags.now (rows ++ row.now ∷ [])) }
{
    if !is_counted(filter_tags, row) {
        return Ok(counts);
    }
    if !have_room(counts) {
        return Err(NoMemory);
    }
    Ok(with(counts, row))
}

/// How many rows are counted, where these tags filter.
pub fn count_rows(filter_tags: &[Text], rows: &[Row]) -> Counts
    ensures { result ≡ answers.counts_of filter_tags.now rows.now }
{
    let mut counts = Counts {
        total: 0,
        passed: 0,
        failed: 0,
        skipped: 0,
        nanos: None,
    };
    for row in rows {
        if is_counted(filter_tags, row) {
            counts = with(counts, row);
        }
    }
    counts
}

/// The rows of one route. Contracts see it as their list.
#[derive(Drop)]
pub struct Group {
    rows: Vec<Row>,
}

impl Model for Group {
    ghost use Rattle.std.specs.Prelude.{List};
    ghost use Rattle.outcome_fold.specs.declared.row.Row.{Row as ARow};

    ghost Value = { List ARow };

    ghost view = { λ g. g.rows.items };
}

impl Group {
    fn one(alloc: Global, row: Row) -> Result<Self, NoMemory>
        ensures { IfOk result (λ group. group ≡ row ∷ []) }
    {
        let mut rows = Vec::new(alloc);
        rows.push(row)?;
        Ok(Group { rows })
    }

    fn push(&mut self, row: Row) -> Result<(), NoMemory>
        ensures { OnOk result (self.new ≡ self.old ++ row ∷ []) }
    {
        self.rows.push(row)?;
        Ok(())
    }

    // Moves the rows to the end of the others.
    fn move_to(mut self, rows: &mut Vec<Row>) -> Result<(), NoMemory>
        ensures { OnOk result (rows.new.items ≡ rows.old.items ++ self) }
    {
        rows.append(&mut self.rows)?;
        Ok(())
    }
}

/// The rows of each route.
#[derive(Drop)]
struct Groups {
    alloc: Global,
    groups: BTreeMap<Option<Text>, Group>,
}

impl Groups {
    fn new(alloc: Global) -> Self
        ensures { groups_in result ≡ map.empty }
    {
        Groups {
            alloc,
            groups: BTreeMap::new(alloc),
        }
    }

    // Puts the row to the end of its route's group.
    fn push(&mut self, row: Row) -> Result<(), NoMemory>
        ensures { OnOk result (groups_in self.new ≡ map.insert (groups_in self.old) row.route (unwrap_or (map.get (groups_in self.old) row.route) [] ++ row ∷ [])) }
    {
        match self.groups.get_mut(&row.route) {
            Some(group) => group.push(row),
            None => self.start(row),
        }
    }

    // Starts a group with the row.
    fn start(&mut self, row: Row) -> Result<(), NoMemory>
        ensures { OnOk result (groups_in self.new ≡ map.insert (groups_in self.old) row.route (row ∷ [])) }
    {
        let route = copy_route(&row.route)?;
        let group = Group::one(self.alloc, row)?;
        self.groups.insert(route, group)?;
        Ok(())
    }

    // All rows, group by group.
    fn joined(self) -> Result<Vec<Row>, NoMemory>
        ensures { IfOk result (λ rows. rows.items ≡ joined_groups (groups_in self)) }
    {
        let mut rows = Vec::new(self.alloc);
        for (_, group) in self.groups {
            group.move_to(&mut rows)?;
        }
        Ok(rows)
    }
}

/// The rows route by route, no route first, and those of one route in their order.
pub fn by_route(alloc: Global, rows: Vec<Row>) -> Result<Vec<Row>, NoMemory>
    ensures { IfOk result (λ ordered. ordered.items ≡ rows_are.by_route rows.items) }
{
    let mut groups = Groups::new(alloc);
    for row in rows {
        groups.push(row)?;
    }
    groups.joined()
}
