//! The longest times of the ids of tests.

ghost use Rattle.std.specs.Prelude.{◌≡◌, ℕ, max, map, All, IfOk, OnOk};
ghost use Rattle.sub_number.specs.Texts.{IsShortText};
ghost use Rattle.outcome_fold.specs.Order.{without};
ghost use Rattle.std.specs.FinMap as fin;
ghost use Rattle.std.specs.Option.{unwrap_or};
ghost use Rattle.outcome_fold.specs.Longest.{AreSorted, Joins, ends_before, last_of_each, kept_time};
ghost use Rattle.outcome_fold.specs.Summed.{shown_time};

use crate::summary::Timed;
use crate::text_set::TextSet;
use std::alloc::Global;
use std::marker::Model;
use sub_number::{NoMemory, Text};

// The times are put in order for the first time where there are so many.
const FIRST_LIMIT: usize = 4096;

/// The longest time of each id so far, in nanoseconds. Contracts see it as a finite map from the ids' bytes.
///
/// The times stand as they came. Where they are four times as many as were left the last time, and at least 4,096, they are
/// put in order, and of each id the longest is left. So a time costs a place in a list and its part of a sort. An ordered map
/// would look up each id as it comes, each time in other places of memory.
#[derive(Drop)]
pub(crate) struct LongestTimes {
    times: Vec<KeptTime>,
    limit: usize,
}

/// An id with a time of it, in nanoseconds. They are in the order of the ids, and those of one id in that of their times.
#[derive(Drop, PartialEq, Eq, PartialOrd, Ord)]
struct KeptTime {
    id: Text,
    nanos: u64,
}

impl Model for LongestTimes {
    ghost use Rattle.std.specs.Prelude.{ℕ, map};
    ghost use Rattle.std.specs.FinMap as fin;
    ghost use Rattle.std.specs.Coded.{coded_ℕ, coded_list};
    ghost use Rattle.outcome_fold.specs.Order.{text_cmp};
    ghost use Rattle.outcome_fold.specs.Longest.{longest_in, kept_time};

    ghost Value = { fin.FinMap text_cmp ℕ };

    ghost coded = { fin.code (coded_list coded_ℕ) coded_ℕ };

    ghost view = { λ l. longest_in (map kept_time l.times.items) };
}

impl LongestTimes {
    /// No id has a time. It takes no memory yet.
    pub(crate) fn new(alloc: Global) -> Self
        ensures { result ≡ fin.empty }
    {
        LongestTimes {
            times: Vec::new(alloc),
            limit: FIRST_LIMIT,
        }
    }

    /// Gives the id this time, unless it has a longer one. The id is moved.
    ///
    /// After `NoMemory` nothing is known of the times.
    #[inline]
    pub(crate) fn raise(&mut self, id: Text, nanos: u64) -> Result<(), NoMemory>
        ensures { OnOk result (self.new ≡ fin.insert self.old id (max nanos (unwrap_or (fin.get self.old id) 0))) }
    {
        self.times.push(KeptTime { id, nanos })?;
        if self.times.len() >= self.limit {
            self.settle();
        }
        Ok(())
    }

    /// Puts the times in order, each id once. For contracts nothing changes.
    pub(crate) fn settle(&mut self)
        ensures { self.new ≡ self.old }
    {
        self.times.sort_unstable();
        self.times.dedup_by(|next, kept| join(next, kept));
        self.limit = self.times.len().saturating_mul(4).max(FIRST_LIMIT);
    }

    /// Takes the ids that have a time out of the set.
    pub(crate) fn remove_from(&self, ids: &mut TextSet)
        ensures { ids.new ≡ without ids.old (fin.keys self.now) }
    {
        for time in &self.times {
            ids.remove(&time.id);
        }
    }

    /// Each id that has a time, with its longest, in the order of the ids' bytes, each once. No id is copied.
    pub(crate) fn list(&self, alloc: Global) -> Result<Vec<Timed<'_>>, NoMemory>
        ensures times { IfOk result (λ times. map shown_time times.items ≡ fin.entries self.now) }
        ensures texts { IfOk result (λ times. All (λ timed. IsShortText timed.id.now) times.items) }
    {
        let mut sorted = lent_times(alloc, &self.times)?;
        sorted.sort_unstable();
        keep_longest(alloc, &sorted)
    }
}

// Whether both are times of one id. Then the longer of them goes to the one that is kept.
#[inline(always)]
fn join(next: &mut KeptTime, kept: &mut KeptTime) -> bool
    ensures { Joins (kept_time next.old) (kept_time kept.old) result (kept_time next.new) (kept_time kept.new) }
{
    if next.id != kept.id {
        return false;
    }
    kept.nanos = kept.nanos.max(next.nanos);
    true
}

// The same times, lent.
fn lent_times(alloc: Global, times: &[KeptTime]) -> Result<Vec<Timed<'_>>, NoMemory>
    ensures times { IfOk result (λ lent. map shown_time lent.items ≡ map kept_time times.now) }
    ensures texts { IfOk result (λ lent. All (λ timed. IsShortText timed.id.now) lent.items) }
{
    let mut lent = Vec::with_capacity(alloc, times.len())?;
    for time in times {
        lent.push(timed(&time.id, time.nanos))?;
    }
    Ok(lent)
}

// The id and its time. Its bytes tell what a text is.
#[inline(always)]
fn timed(id: &Text, nanos: u64) -> Timed<'_>
    ensures shown { shown_time result ≡ (id.now, nanos) }
    ensures text { IsShortText result.id.now }
{
    let _bytes = id.bytes();
    Timed { id, nanos }
}

/// Of times in the order of their ids, the last of each id. It is the longest where those of one id are in the order of their
/// times.
pub fn keep_longest<'r>(alloc: Global, sorted: &[Timed<'r>]) -> Result<Vec<Timed<'r>>, NoMemory>
    ensures { IfOk result (λ times. map shown_time times.items ≡ last_of_each (map shown_time sorted.now)) }
{
    let mut longest = Vec::with_capacity(alloc, sorted.len())?;
    for place in 0..sorted.len() {
        let timed = sorted[place];
        if is_last(&timed, &sorted[place + 1..]) {
            longest.push(timed)?;
        }
    }
    Ok(longest)
}

// Whether none of the same id stands behind it.
fn is_last(timed: &Timed<'_>, behind: &[Timed<'_>]) -> bool
    ensures { result ≡ ends_before (shown_time timed.now) (map shown_time behind.now) }
{
    match behind.first() {
        Some(next) => timed.id.cmp(next.id).is_lt(),
        None => true,
    }
}
