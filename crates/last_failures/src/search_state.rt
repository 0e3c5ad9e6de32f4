//! What was found so far.

ghost use Rattle.std.specs.Prelude.{◌≡◌, ◌∷◌, ◌++◌, ◌&&◌, [], ℕ, List, true, false, map, IsTrue, IfOk, OnOk};
ghost use Rattle.std.specs.FinMap as fin;
ghost use Rattle.outcome_fold.specs.declared.row.Row.{Row as ARow};
ghost use Rattle.outcome_fold.specs.Answers.{row_fails};
ghost use Rattle.outcome_fold.specs.Order.{among, without};
ghost use Rattle.last_failures.specs.Gathering.{packets_of_row};
ghost use Rattle.last_failures.specs.Last.{failures_in};
ghost use Rattle.last_failures.specs.Looking.{Looks, with_packets};
ghost use Rattle.last_failures.specs.declared.failures.Failure.{Failure as AFailure};

use crate::failures::{Failure, LastFailures};
use crate::ids_without_row::IdsWithoutRow;
use crate::parts::{FailedParts, copy_of_route};
use outcome_fold::{Row, copies_of};
use std::alloc::Global;
use sub_number::{Bytes, IdList, NoMemory};

/// The rows that were found of some ids, and the ids that have none yet. Runs are looked at from the last one back, and so
/// are the rows of each.
#[derive(Drop)]
pub struct SearchState {
    /// The ids that have no row yet.
    pub missing: IdsWithoutRow,
    /// The rows of the others.
    pub found: LastFailures,
}

impl SearchState {
    /// No row was looked at yet.
    pub fn new(alloc: Global, ids: &IdList) -> Result<Self, NoMemory>
        ensures { IfOk result (Looks ids.now []) }
    {
        Ok(SearchState {
            missing: IdsWithoutRow::of(alloc, ids)?,
            found: LastFailures::new(alloc),
        })
    }

    /// Whether each id has its row.
    pub fn is_done(&self) -> bool
        ensures { IsTrue result → (id : List ℕ) → among self.now.missing id ≡ false }
    {
        self.missing.is_empty()
    }

    /// Looks at the rows of a run, the last one first. These are the packets of their parts.
    pub fn take_rows(
        &mut self,
        alloc: Global,
        rows: &[Row],
        parts: &FailedParts,
    ) -> Result<(), NoMemory>
        ensures { OnOk result ((ids : List (List ℕ)) (later : List AFailure) (packets : ARow → List ℕ) → ((row : ARow) → among self.old.missing row.id ≡ true → packets_of_row parts.now row ≡ packets row) → Looks ids later self.old → Looks ids (map (with_packets packets) rows.now ++ later) self.new) }
    {
        let mut place = rows.len();
        while place > 0 {
            place -= 1;
            self.take_row(alloc, &rows[place], parts)?;
        }
        Ok(())
    }

    // Looks at one row more, which stands in front of the others.
    fn take_row(&mut self, alloc: Global, row: &Row, parts: &FailedParts) -> Result<(), NoMemory>
        ensures looks { OnOk result ((ids : List (List ℕ)) (later : List AFailure) (packets : ARow → List ℕ) → (among self.old.missing row.now.id ≡ true → packets_of_row parts.now row.now ≡ packets row.now) → Looks ids later self.old → Looks ids (with_packets packets row.now ∷ later) self.new) }
        ensures fewer { OnOk result ((id : List ℕ) → among self.new.missing id ≡ true → among self.old.missing id ≡ true) }
    {
        if self.counts(row) {
            return self.keep(alloc, row, parts);
        }
        Ok(())
    }

    // Whether the row fails, and its id has none yet.
    fn counts(&self, row: &Row) -> bool
        ensures { result ≡ (row_fails row.now && among self.now.missing row.now.id) }
    {
        row.ended.fails() && self.missing.has(&row.id)
    }

    // Keeps the row of its id, which is missing no more, and its packets.
    fn keep(&mut self, alloc: Global, row: &Row, parts: &FailedParts) -> Result<(), NoMemory>
        ensures missing { OnOk result (self.new.missing ≡ without self.old.missing (row.now.id ∷ [])) }
        ensures found { OnOk result (failures_in self.new.found ≡ fin.insert (failures_in self.old.found) row.now.id (record { row = row.now; packets = packets_of_row parts.now row.now })) }
    {
        self.missing.take_out(&row.id);
        let packets = parts.copy_for(row)?;
        let row = copy_of(alloc, row)?;
        self.found.put(Failure { row, packets })
    }
}

// A copy of the row.
fn copy_of(alloc: Global, row: &Row) -> Result<Row, NoMemory>
    ensures { IfOk result (λ copy. copy ≡ row.now) }
{
    Ok(Row {
        id: row.id.copy()?,
        route: copy_of_route(&row.route)?,
        ended: row.ended,
        tags: copies_of(alloc, row.tags.list())?,
        nanos: row.nanos,
        text: Bytes::new(alloc, row.text.bytes())?,
        reason: Bytes::new(alloc, row.reason.bytes())?,
    })
}
