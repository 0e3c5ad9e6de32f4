//! What is kept of the rows of a run by those who need no row that passes: what its report shows, and what it says of the
//! failing tests and of their times.

ghost use Rattle.std.specs.Prelude.{◌≡◌, ◌++◌, ◌∷◌, [], ℕ, List, map, All, IfOk, OnOk};
ghost use Rattle.std.specs.List.{filter};
ghost use Rattle.std.specs.FinMap as fin;
ghost use Rattle.sub_number.specs.Texts.{IsShortText};
ghost use Rattle.outcome_fold.specs.Answers as answers;
ghost use Rattle.outcome_fold.specs.Rows as rows_are;
ghost use Rattle.outcome_fold.specs.Order.{in_byte_order, without};
ghost use Rattle.outcome_fold.specs.declared.row.Row.{Row as ARow};

use crate::longest_times::LongestTimes;
use crate::row::{Counts, Ended, Row};
use crate::rows::{by_route, count_with, failing_set};
use crate::text_set::TextSet;
use packet_codec::Tags;
use std::alloc::Global;
use sub_number::{IdList, NoMemory, Text};

/// An id, and a time of it, in nanoseconds. They are in the order of the ids, and those of one id in that of their times.
#[derive(Clone, Copy, PartialEq, Eq, PartialOrd, Ord)]
pub struct Timed<'r> {
    /// The id.
    pub id: &'r Text,
    /// The time.
    pub nanos: u64,
}

/// What the rows of a run say together. Of the rows themselves it keeps those alone that fail, so that it does not grow beyond
/// a bound with a run of the same tests that pass.
#[derive(Drop)]
pub struct Summary {
    pub(crate) failing: Vec<Row>,
    pub(crate) counts: Counts,
    pub(crate) times: LongestTimes,
    pub(crate) untimed: TextSet,
}

impl Summary {
    ghost use Rattle.outcome_fold.specs.Summed.{Sums, HasTime, untimed_of, shown_time, times_kept};

    /// Of no rows. It takes no memory yet.
    pub(crate) fn new(alloc: Global) -> Self
        ensures { (filter_tags : List (List ℕ)) → Sums filter_tags [] result }
    {
        Summary {
            failing: Vec::new(alloc),
            counts: Counts {
                total: 0,
                passed: 0,
                failed: 0,
                skipped: 0,
                nanos: None,
            },
            times: LongestTimes::new(alloc),
            untimed: TextSet::new(alloc),
        }
    }

    /// Takes one row more. Of its id one copy is made, where it fails; else it is moved. An id without a time is let go where it
    /// is known.
    ///
    /// `NoMemory` comes for want of memory, and where a count or the sum of the times has no room for a row more. Nothing is
    /// known then of what is kept.
    #[inline]
    pub(crate) fn take(&mut self, filter_tags: &Tags, row: Row) -> Result<(), NoMemory>
        ensures { (rows : List ARow) → Sums filter_tags.now rows self.old → OnOk result (Sums filter_tags.now (rows ++ row ∷ []) self.new) }
    {
        self.counts = count_with(self.counts, filter_tags.list(), &row)?;
        if row.ended.fails() {
            let id = row.id.copy()?;
            Self::take_time(&mut self.times, &mut self.untimed, id, row.ended, row.nanos)?;
            self.failing.push(row)?;
            return Ok(());
        }
        let Row {
            id,
            ended,
            nanos,
            ..
        } = row;
        Self::take_time(&mut self.times, &mut self.untimed, id, ended, nanos)
    }

    // Takes the time of a row of the id that ended so, if its test ran, or that it has none.
    #[inline]
    fn take_time(
        times: &mut LongestTimes,
        untimed: &mut TextSet,
        id: Text,
        ended: Ended,
        nanos: Option<u64>,
    ) -> Result<(), NoMemory>
        ensures times { (rows : List ARow) (row : ARow) → HasTime row id ended nanos → times.old ≡ answers.times_of rows → OnOk result (times.new ≡ answers.times_of (rows ++ row ∷ [])) }
        ensures untimed { (rows : List ARow) (row : ARow) → HasTime row id ended nanos → untimed.old ≡ untimed_of rows → OnOk result (untimed.new ≡ untimed_of (rows ++ row ∷ [])) }
    {
        if ended == Ended::Exists {
            return Ok(());
        }
        match nanos {
            Some(nanos) => times.raise(id, nanos),
            None => untimed.put(id),
        }
    }

    /// Takes each of the rows, one after another.
    ///
    /// `NoMemory` comes as by `take`.
    pub(crate) fn take_all(&mut self, filter_tags: &Tags, rows: Vec<Row>) -> Result<(), NoMemory>
        ensures { (before : List ARow) → Sums filter_tags.now before self.old → OnOk result (Sums filter_tags.now (before ++ rows.items) self.new) }
    {
        for row in rows {
            self.take(filter_tags, row)?;
        }
        Ok(())
    }

    /// The same of the rows route by route, no route first, and those of one route in their order. The times are put in order as
    /// well, so that those who list them find them so.
    pub(crate) fn in_order(self, alloc: Global) -> Result<Self, NoMemory>
        ensures { (filter_tags : List (List ℕ)) (rows : List ARow) → Sums filter_tags rows self → IfOk result (Sums filter_tags (rows_are.by_route rows)) }
    {
        let Summary {
            failing,
            counts,
            mut times,
            untimed,
        } = self;
        times.settle();
        Ok(Summary {
            failing: by_route(alloc, failing)?,
            counts,
            times,
            untimed,
        })
    }

    /// The rows that fail, in the order of the rows.
    pub fn failing(&self) -> &[Row]
        ensures { (filter_tags : List (List ℕ)) (rows : List ARow) → Sums filter_tags rows self.now → result.now ≡ filter answers.row_fails rows }
    {
        &self.failing
    }

    /// How many rows there are, where the tags filter that it was begun with.
    pub fn counts(&self) -> Counts
        ensures { (filter_tags : List (List ℕ)) (rows : List ARow) → Sums filter_tags rows self.now → result ≡ answers.counts_of filter_tags rows }
    {
        self.counts
    }

    /// The ids of the rows that fail, in the order of their bytes, each once.
    pub fn failing_ids(&self, alloc: Global) -> Result<IdList, NoMemory>
        ensures { (filter_tags : List (List ℕ)) (rows : List ARow) → Sums filter_tags rows self.now → IfOk result (λ ids. ids ≡ answers.failing_of rows) }
    {
        failing_set(alloc, &self.failing)?.into_ids(alloc)
    }

    /// Takes the ids of the tests that ran, where none of the id's rows fails, out of the set, and adds those of the rows
    /// that fail: what a partial run makes of the failing tests.
    ///
    /// After `NoMemory` nothing is known of the set.
    pub fn change_failing(&self, alloc: Global, failed: &mut TextSet) -> Result<(), NoMemory>
        ensures { (filter_tags : List (List ℕ)) (rows : List ARow) → Sums filter_tags rows self.now → OnOk result (failed.new ≡ in_byte_order (without failed.old (answers.passed_of rows) ++ answers.failing_of rows)) }
    {
        let failing = failing_set(alloc, &self.failing)?;
        self.times.remove_from(failed);
        failed.remove_set(&self.untimed);
        failed.put_all(failing.into_ids(alloc)?)
    }

    /// Each id of a test that ran and has a time, with the longest of its times, in the order of the ids' bytes, each once. No
    /// id is copied.
    pub fn times(&self, alloc: Global) -> Result<Vec<Timed<'_>>, NoMemory>
        ensures times { (filter_tags : List (List ℕ)) (rows : List ARow) → Sums filter_tags rows self.now → IfOk result (λ times. map shown_time times.items ≡ fin.entries (answers.times_of rows)) }
        ensures kept { IfOk result (λ times. map shown_time times.items ≡ fin.entries (times_kept self.now)) }
        ensures texts { IfOk result (λ times. All (λ timed. IsShortText timed.id.now) times.items) }
    {
        self.times.list(alloc)
    }
}
