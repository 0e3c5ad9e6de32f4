//! How many tests ended in each way, and how many tests each lane had.

ghost use Rattle.std.specs.Prelude.{◌≡◌, ◌++◌, ◌∷◌, [], ℕ, ◌<◌, Bool, List, Option, Some, None, take, length, replicate, IfOk, IfSome, OnOk};
ghost use Rattle.std.specs.List.{filter};
ghost use Rattle.outcome_fold.specs.declared.row.Row.{Row as ARow};
ghost use Rattle.outcome_fold.specs.Rows.{is_skip};
ghost use Rattle.live_text.specs.Live.{lane_shown};
ghost use Rattle.live_text.specs.Totals as spec;
ghost use Rattle.live_text.specs.Written.{CountsKinds, CountsLanes};

use crate::live::lane_name;
use itoa::Buffer;
use outcome_fold::{Counts, Ended, Row, count_with};
use std::alloc::Global;
use sub_number::NoMemory;
use sub_text::seconds_text;

/// So many lanes have a line of their own.
const MOST_LANES: usize = 100;

/// How many tests ended in each way.
#[derive(Clone, Copy)]
pub(crate) struct Kinds {
    success: Counts,
    skipped: Counts,
    expected: Counts,
    unexpected: Counts,
    failed: Counts,
}

/// How many tests there are, in each way that the totals tell.
#[derive(Drop)]
pub struct Totals {
    all: Counts,
    kinds: Kinds,
    lanes: Vec<Counts>,
}

// The counts of no rows.
fn none() -> Counts
    ensures { result ≡ spec.sum_of [] }
{
    Counts {
        total: 0,
        passed: 0,
        failed: 0,
        skipped: 0,
        nanos: None,
    }
}

// The sum with the row too, where it is one of those that are counted there.
fn sum_with(sum: Counts, is_in: bool, row: &Row) -> Result<Counts, NoMemory>
    ensures { (p : ARow → Bool) (rows : List ARow) → p row.now ≡ is_in → sum ≡ spec.sum_of (filter p rows) → IfOk result (λ next. next ≡ spec.sum_of (filter p (rows ++ row.now ∷ []))) }
{
    if is_in {
        return count_with(sum, &[], row);
    }
    Ok(sum)
}

impl Kinds {
    fn new() -> Self
        ensures { CountsKinds result [] }
    {
        Kinds {
            success: none(),
            skipped: none(),
            expected: none(),
            unexpected: none(),
            failed: none(),
        }
    }

    // The row too.
    fn with(self, row: &Row) -> Result<Self, NoMemory>
        ensures { (rows : List ARow) → CountsKinds self rows → IfOk result (λ next. CountsKinds next (rows ++ row.now ∷ [])) }
    {
        let ended = row.ended;
        Ok(Kinds {
            success: sum_with(self.success, is_success(ended), row)?,
            skipped: sum_with(self.skipped, is_skipped(ended), row)?,
            expected: sum_with(self.expected, is_expected(ended), row)?,
            unexpected: sum_with(self.unexpected, is_unexpected(ended), row)?,
            failed: sum_with(self.failed, is_failed(ended), row)?,
        })
    }
}

fn is_success(ended: Ended) -> bool
    ensures { result ≡ spec.is_success ended }
{
    ended == Ended::Success
}

fn is_skipped(ended: Ended) -> bool
    ensures { result ≡ is_skip ended }
{
    ended == Ended::Skip
}

fn is_expected(ended: Ended) -> bool
    ensures { result ≡ spec.is_expected ended }
{
    ended == Ended::XFail
}

fn is_unexpected(ended: Ended) -> bool
    ensures { result ≡ spec.is_unexpected ended }
{
    ended == Ended::UxSuccess
}

fn is_failed(ended: Ended) -> bool
    ensures { result ≡ spec.is_failed ended }
{
    match ended {
        Ended::Fail | Ended::Open => true,
        Ended::Exists | Ended::Success | Ended::UxSuccess | Ended::Skip | Ended::XFail => false,
    }
}

// The number that the bytes spell, where it is one of a lane that has a line.
fn number_of_lane(name: &[u8]) -> Option<usize>
    ensures number { result ≡ spec.number_of_lane name.now }
    ensures below { IfSome result (λ lane. lane < 100) }
{
    match name {
        [a] if a.is_ascii_digit() => Some(usize::from(*a - b'0')),
        [a, b] if a.is_ascii_digit() && b.is_ascii_digit() && *a != b'0' => {
            Some(10 * usize::from(*a - b'0') + usize::from(*b - b'0'))
        }
        _ => None,
    }
}

// The lane of a row, where it is one that has a line.
fn lane_of(row: &Row) -> Option<usize>
    ensures lane { result ≡ spec.number_of_lane (lane_shown row.now.route) }
    ensures below { IfSome result (λ lane. lane < 100) }
{
    match &row.route {
        Some(route) => number_of_lane(lane_name(route.bytes())),
        None => Some(0),
    }
}

// Counts the row where its lane stands.
fn add_to_lane(lanes: &mut Vec<Counts>, row: &Row) -> Result<(), NoMemory>
    ensures { (rows : List ARow) → CountsLanes lanes.old.items rows → OnOk result (CountsLanes lanes.new.items (rows ++ row.now ∷ [])) }
{
    let Some(lane) = lane_of(row) else {
        return Ok(());
    };
    if lane >= lanes.len() {
        return Ok(());
    }
    lanes[lane] = count_with(lanes[lane], &[], row)?;
    Ok(())
}

impl Totals {
    ghost use Rattle.live_text.specs.Written.{HasTotalled};

    /// Of no rows.
    pub fn new(alloc: Global) -> Result<Self, NoMemory>
        ensures { IfOk result (λ totals. HasTotalled totals []) }
    {
        let mut lanes = Vec::new(alloc);
        lanes.resize(MOST_LANES, none())?;
        Ok(Totals {
            all: none(),
            kinds: Kinds::new(),
            lanes,
        })
    }

    /// Counts one row more. `NoMemory` comes where a count, or a sum of times, has no room for it; nothing is known then of
    /// the totals.
    pub fn add(&mut self, row: &Row) -> Result<(), NoMemory>
        ensures { (rows : List ARow) → HasTotalled self.old rows → OnOk result (HasTotalled self.new (rows ++ row.now ∷ [])) }
    {
        self.all = count_with(self.all, &[], row)?;
        self.kinds = self.kinds.with(row)?;
        add_to_lane(&mut self.lanes, row)?;
        Ok(())
    }

    /// How many tests ran, and how many of them failed.
    pub fn counts(&self) -> Counts
        ensures { (rows : List ARow) → HasTotalled self.now rows → result ≡ spec.sum_of rows }
    {
        self.all
    }

    /// Appends the totals, below an empty line. After `NoMemory` a first part of them was appended.
    pub fn write(&self, text: &mut Vec<u8>) -> Result<(), NoMemory>
        ensures { (rows : List ARow) → HasTotalled self.now rows → OnOk result (text.new.items ≡ text.old.items ++ spec.totals_text rows) }
    {
        self.write_lines(text)
    }

    // The same, by what is counted.
    #[tactic(auto, unfolding(crate::specs::Totals::totals_lines))]
    fn write_lines(&self, text: &mut Vec<u8>) -> Result<(), NoMemory>
        ensures { OnOk result (text.new.items ≡ text.old.items ++ spec.totals_lines self.now.all self.now.kinds.success.total self.now.kinds.skipped.total self.now.kinds.expected.total self.now.kinds.unexpected.total self.now.kinds.failed.total self.now.lanes.items) }
    {
        text.extend_from_slice(b"\nTotals\n")?;
        write_ran(self.all, text)?;
        write_kinds(&self.kinds, text)?;
        write_lanes(&self.lanes, text)
    }
}

// How many tests ran, and how long they took.
fn write_ran(all: Counts, text: &mut Vec<u8>) -> Result<(), NoMemory>
    ensures { OnOk result (text.new.items ≡ text.old.items ++ spec.ran_line all) }
{
    text.extend_from_slice(b"Ran: ")?;
    text.extend_from_slice(Buffer::new().format(all.total).as_bytes())?;
    text.extend_from_slice(b" tests")?;
    write_time(b" in ", all.nanos, text)?;
    text.push(b'\n')?;
    Ok(())
}

// A time in seconds behind these words, where there is one.
fn write_time(front: &[u8], nanos: Option<u128>, text: &mut Vec<u8>) -> Result<(), NoMemory>
    ensures { OnOk result (text.new.items ≡ text.old.items ++ spec.time_behind front.now nanos) }
{
    let Some(nanos) = nanos else {
        return Ok(());
    };
    text.extend_from_slice(front)?;
    seconds_text(nanos, text)?;
    text.push(b's')?;
    Ok(())
}

// How many tests ended in one way.
#[tactic(auto, unfolding(crate::specs::Totals::kind_line))]
fn write_kind(name: &[u8], count: u64, text: &mut Vec<u8>) -> Result<(), NoMemory>
    ensures { OnOk result (text.new.items ≡ text.old.items ++ spec.kind_line name.now count) }
{
    text.extend_from_slice(b" - ")?;
    text.extend_from_slice(name)?;
    text.extend_from_slice(b": ")?;
    text.extend_from_slice(Buffer::new().format(count).as_bytes())?;
    text.push(b'\n')?;
    Ok(())
}

// How many tests ended in each way.
#[tactic(auto, unfolding(crate::specs::Totals::kinds_lines))]
fn write_kinds(kinds: &Kinds, text: &mut Vec<u8>) -> Result<(), NoMemory>
    ensures { OnOk result (text.new.items ≡ text.old.items ++ spec.kinds_lines kinds.now.success.total kinds.now.skipped.total kinds.now.expected.total kinds.now.unexpected.total kinds.now.failed.total) }
{
    write_kind(b"Passed", kinds.success.total, text)?;
    write_kind(b"Skipped", kinds.skipped.total, text)?;
    write_kind(b"Expected Fail", kinds.expected.total, text)?;
    write_kind(b"Unexpected Success", kinds.unexpected.total, text)?;
    write_kind(b"Failed", kinds.failed.total, text)
}

// The line of a lane, where tests of it ran.
fn write_lane(lane: usize, sum: Counts, text: &mut Vec<u8>) -> Result<(), NoMemory>
    ensures { OnOk result (text.new.items ≡ text.old.items ++ spec.lane_line lane sum) }
{
    if sum.total == 0 {
        return Ok(());
    }
    text.extend_from_slice(b" - Worker ")?;
    text.extend_from_slice(Buffer::new().format(lane).as_bytes())?;
    text.extend_from_slice(b" (")?;
    text.extend_from_slice(Buffer::new().format(sum.total).as_bytes())?;
    text.extend_from_slice(b" tests)")?;
    write_time(b" => ", sum.nanos, text)?;
    text.push(b'\n')?;
    Ok(())
}

// The lines of all lanes.
fn write_lanes(lanes: &[Counts], text: &mut Vec<u8>) -> Result<(), NoMemory>
    ensures { OnOk result (text.new.items ≡ text.old.items ++ spec.lines_from 0 lanes.now) }
{
    let mut lane = 0;
    for sum in lanes {
        write_lane(lane, *sum, text)?;
        lane += 1;
    }
    Ok(())
}
