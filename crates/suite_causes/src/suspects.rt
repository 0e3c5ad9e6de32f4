//! The tests that failed, and what stands before them.

ghost use Rattle.std.specs.Prelude.{◌≡◌, ◌≤◌, [], ◌∷◌, ◌++◌, ◌==◌, Some, List, ℕ, length, nat_eq, IfOk, OnOk, if◌then◌else◌};
ghost use Rattle.std.specs.Cmp.Lexicographic.{pointwise};
ghost use Rattle.std.specs.Fmt.{decimal};
ghost use Rattle.std.specs.List.{list_any};
ghost use Rattle.std.specs.Option.{option_map};
ghost use Rattle.outcome_fold.specs.declared.row.Row.{Row as ARow};
ghost use Rattle.packet_codec.specs.Lanes.{lane_name};
ghost use Rattle.suite_causes.specs.Suspects.{is_returncode, count_before, lane_in, suspect_in, is_same_suspect, suspects_of};

use itoa::Buffer;
use outcome_fold::Row;
use std::alloc::Global;
use sub_number::{IdList, NoMemory, Text};

/// A test that failed, and the lane on which it ran.
#[derive(Drop)]
pub struct Suspect {
    /// The test's id.
    pub id: Text,
    /// The lane's number.
    pub lane: u32,
}

/// The tests of these rows, which fail, each on its lane, in order, of repeats the first. Rows that tell of the end of a
/// worker are left out, and rows of no lane.
///
/// Each is compared with those before it: a search for one of them starts programs, which takes far longer.
pub fn suspects_of(alloc: Global, failing: &[Row]) -> Result<Vec<Suspect>, NoMemory>
    ensures { IfOk result (λ list. list.items ≡ suspects_of failing.now) }
{
    let mut found = Vec::new(alloc);
    for row in failing {
        take(&mut found, row)?;
    }
    Ok(found)
}

// Takes the test of one row more.
fn take(found: &mut Vec<Suspect>, row: &Row) -> Result<(), NoMemory>
    ensures { (rows : List ARow) → found.old.items ≡ suspects_of rows → OnOk result (found.new.items ≡ suspects_of (rows ++ row.now ∷ [])) }
{
    match lane_of(row) {
        Some(lane) => add(found, &row.id, lane),
        None => Ok(()),
    }
}

// Adds the test, unless it is there.
fn add(found: &mut Vec<Suspect>, id: &Text, lane: u32) -> Result<(), NoMemory>
    ensures { OnOk result (found.new.items ≡ (if list_any (λ one. is_same_suspect one (record { id = id.now; lane = lane })) found.old.items then found.old.items else found.old.items ++ record { id = id.now; lane = lane } ∷ [])) }
{
    if is_among(found, id, lane) {
        return Ok(());
    }
    let id = id.copy()?;
    found.push(Suspect { id, lane })?;
    Ok(())
}

// Whether the test is among these.
fn is_among(found: &[Suspect], id: &Text, lane: u32) -> bool
    ensures { result ≡ list_any (λ one. is_same_suspect one (record { id = id.now; lane = lane })) found.now }
{
    found.iter().any(|one| one.lane == lane && one.id == *id)
}

// The lane of the row's test, if a cause of it is looked for.
fn lane_of(row: &Row) -> Option<u32>
    ensures { option_map (λ lane. record { id = row.now.id; lane = lane }) result ≡ suspect_in row.now }
{
    if is_returncode(&row.id) {
        return None;
    }
    match &row.route {
        Some(route) => lane_in(route.bytes()),
        None => None,
    }
}

// Whether the id is the one under which the end of a worker is told.
pub(crate) fn is_returncode(id: &Text) -> bool
    ensures { result ≡ is_returncode id.now }
{
    id.bytes() == b"process-returncode".as_slice()
}

// The lane that the route names, if it names one of 64.
fn lane_in(route: &[u8]) -> Option<u32>
    ensures { result ≡ lane_in (Some route.now) }
{
    let name = lane_name(route);
    for lane in 0..64 {
        if is_lane(lane, name) {
            return Some(lane);
        }
    }
    None
}

// Whether the name is that of the lane.
pub(crate) fn is_lane(lane: u32, name: &[u8]) -> bool
    ensures { result ≡ pointwise nat_eq name.now (decimal lane) }
{
    name == Buffer::new().format(lane).as_bytes()
}

// The route up to its first slash.
pub(crate) fn lane_name(route: &[u8]) -> &[u8]
    ensures { result.now ≡ lane_name route.now }
{
    for end in 0..route.len() {
        if route[end] == b'/' {
            return &route[..end];
        }
    }
    route
}

/// How many of the ids stand before the test: of those that ran on a lane, its candidates. There are fewer than 2^32.
pub fn count_before(ids: &IdList, test: &Text) -> u32
    ensures count { result ≡ count_before test.now ids.now }
    ensures few { result ≤ length ids.now }
{
    let mut count = 0;
    for id in ids.list() {
        if *id == *test || count == u32::MAX {
            return count;
        }
        count += 1;
    }
    count
}
