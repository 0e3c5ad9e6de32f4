//! The times of the rows of a run, by id, the longest of each.

ghost use Rattle.std.specs.Prelude.{◌≡◌, ◌++◌, ℕ, List, map, All, IfSome, IfOk, OnOk, None, if◌then◌else◌};
ghost use Rattle.outcome_fold.specs.Answers.{is_run as has_run};
ghost use Rattle.run_ledger.specs.Caches.{IsTimed};
ghost use Rattle.outcome_fold.specs.Longest.{AreSorted, last_of_each};
ghost use Rattle.outcome_fold.specs.Summed.{shown_time};
ghost use Rattle.run_ledger.specs.Merging.{timed_of};

use outcome_fold::{Ended, Row, Timed, keep_longest};
use std::alloc::Global;
use sub_number::{NoMemory, Text};

/// The ids of the rows of tests that ran and have a time, in the order of their bytes, each once and with its longest time.
/// It takes one sort, and no id is copied.
pub(crate) fn longest_times<'r>(alloc: Global, rows: &'r [Row]) -> Result<Vec<Timed<'r>>, NoMemory>
    ensures times { IfOk result (λ times. (sorted : List (List ℕ × ℕ)) × AreSorted (timed_of rows.now) sorted × (map shown_time times.items ≡ last_of_each sorted)) }
    ensures timed { IfOk result (λ times. All IsTimed (map shown_time times.items)) }
{
    let sorted = sorted_times(alloc, rows)?;
    keep_longest(alloc, &sorted)
}

// All of them, in order.
fn sorted_times<'r>(alloc: Global, rows: &'r [Row]) -> Result<Vec<Timed<'r>>, NoMemory>
    ensures sorted { IfOk result (λ times. AreSorted (timed_of rows.now) (map shown_time times.items)) }
    ensures timed { IfOk result (λ times. All IsTimed (map shown_time times.items)) }
{
    let mut times = all_times(alloc, rows)?;
    times.sort_unstable();
    Ok(times)
}

// All of them, in the order of the rows.
fn all_times<'r>(alloc: Global, rows: &'r [Row]) -> Result<Vec<Timed<'r>>, NoMemory>
    ensures times { IfOk result (λ times. map shown_time times.items ≡ timed_of rows.now) }
    ensures timed { IfOk result (λ times. All IsTimed (map shown_time times.items)) }
{
    let mut times = Vec::new(alloc);
    for row in rows {
        if let Some(nanos) = run_time(row) {
            times.push(timed_by(&row.id, nanos))?;
        }
    }
    Ok(times)
}

// The id with this time. Its bytes tell what a text is.
fn timed_by(id: &Text, nanos: u64) -> Timed<'_>
    ensures shown { shown_time result ≡ (id.now, nanos) }
    ensures timed { IsTimed (shown_time result) }
{
    let _bytes = id.bytes();
    Timed { id, nanos }
}

// How long the test of the row ran, where it ran and has a time.
fn run_time(row: &Row) -> Option<u64>
    ensures { result ≡ (if has_run row.now then row.now.nanos else None) }
{
    if row.ended == Ended::Exists {
        None
    } else {
        row.nanos
    }
}
