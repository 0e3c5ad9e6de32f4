//! How a run changes the failing set.

ghost use Rattle.std.specs.Prelude.{◌≡◌, OnOk};
ghost use Rattle.outcome_fold.specs.Answers.{failing_of};
ghost use Rattle.run_ledger.specs.Ledger.{failing_behind};

use outcome_fold::{Rows, TextSet};
use std::alloc::Global;
use sub_number::NoMemory;

/// Takes one run more, whose rows these are. A full run replaces the ids by those that fail in it; a partial run takes
/// those out that passed in it, and adds those that fail.
///
/// After `NoMemory` nothing is known of the ids.
pub fn take_run(
    alloc: Global,
    failed: &mut TextSet,
    partial: bool,
    rows: &Rows,
) -> Result<(), NoMemory>
    ensures { OnOk result (failed.new ≡ failing_behind failed.old (record { partial = partial; rows = rows.now })) }
{
    if partial {
        rows.change_failing(alloc, failed)
    } else {
        take_full(alloc, failed, rows)
    }
}

// Keeps the ids alone that fail.
fn take_full(alloc: Global, failed: &mut TextSet, rows: &Rows) -> Result<(), NoMemory>
    ensures { OnOk result (failed.new ≡ failing_of rows.now) }
{
    let mut full = TextSet::new(alloc);
    full.put_all(rows.failing_ids(alloc)?)?;
    *failed = full;
    Ok(())
}
