//! The lines of rows, one after another.

ghost use Rattle.std.specs.Prelude.{◌≡◌, ◌++◌, ◌∷◌, [], ℕ, List, length, IfOk, OnOk};
ghost use Rattle.std.specs.List.{filter};
ghost use Rattle.outcome_fold.specs.Answers.{is_run};
ghost use Rattle.outcome_fold.specs.declared.row.Row.{Row as ARow};
ghost use Rattle.live_text.specs.Live as spec;
ghost use Rattle.live_text.specs.Totals.{sum_of, totals_text};
ghost use Rattle.live_text.specs.declared.live.Live.{Live as ALive};

use crate::live::{Live, live_line, next_column};
use crate::totals::Totals;
use outcome_fold::{Counts, Ended, Row};
use std::alloc::Global;
use sub_number::NoMemory;

// Whether the test ran.
fn is_run(row: &Row) -> bool
    ensures { result ≡ is_run row.now }
{
    match row.ended {
        Ended::Exists => false,
        Ended::Success
        | Ended::UxSuccess
        | Ended::Skip
        | Ended::Fail
        | Ended::XFail
        | Ended::Open => true,
    }
}

/// Writes the lines of rows as they come, and counts them.
#[derive(Drop)]
pub struct LiveWriter {
    kind: Live,
    // So many marks stand in the last line.
    column: u32,
    totals: Totals,
}

impl LiveWriter {
    ghost use Rattle.live_text.specs.Written.{HasWritten};

    /// Of no rows yet.
    pub fn new(alloc: Global, kind: Live) -> Result<Self, NoMemory>
        ensures { IfOk result (λ writer. HasWritten kind writer []) }
    {
        Ok(LiveWriter {
            kind,
            column: 0,
            totals: Totals::new(alloc)?,
        })
    }

    /// Appends the lines of the next row, and counts it. Of a test that is only known to exist nothing is appended.
    ///
    /// `NoMemory` comes for want of memory, and where a count has no room for a row more; nothing is known then of what was
    /// counted.
    pub fn row(&mut self, row: &Row, text: &mut Vec<u8>) -> Result<(), NoMemory>
        ensures text { (kind : ALive) (rows : List ARow) → HasWritten kind self.old rows → OnOk result (text.new.items ≡ text.old.items ++ spec.live_rows kind (length (filter is_run rows)) (row.now ∷ [])) }
        ensures written { (kind : ALive) (rows : List ARow) → HasWritten kind self.old rows → OnOk result (HasWritten kind self.new (rows ++ row.now ∷ [])) }
    {
        self.totals.add(row)?;
        if !is_run(row) {
            return Ok(());
        }
        live_line(self.kind, self.column, row, text)?;
        self.column = next_column(self.column);
        Ok(())
    }

    /// Appends the lines of these rows, one after another, and counts them. `NoMemory` comes as by `row`.
    pub fn rows(&mut self, rows: &[Row], text: &mut Vec<u8>) -> Result<(), NoMemory>
        ensures text { (kind : ALive) (before : List ARow) → HasWritten kind self.old before → OnOk result (text.new.items ≡ text.old.items ++ spec.live_rows kind (length (filter is_run before)) rows.now) }
        ensures written { (kind : ALive) (before : List ARow) → HasWritten kind self.old before → OnOk result (HasWritten kind self.new (before ++ rows.now)) }
    {
        for row in rows {
            self.row(row, text)?;
        }
        Ok(())
    }

    /// Appends the end of the last line, where marks stand in it.
    pub fn end(&self, text: &mut Vec<u8>) -> Result<(), NoMemory>
        ensures { (kind : ALive) (rows : List ARow) → HasWritten kind self.now rows → OnOk result (text.new.items ≡ text.old.items ++ spec.end_behind_rows kind (length (filter is_run rows))) }
    {
        if self.kind == Live::Dots && self.column != 0 {
            text.push(b'\n')?;
        }
        Ok(())
    }

    /// How many tests ran, and how many of them failed.
    pub fn counts(&self) -> Counts
        ensures { (kind : ALive) (rows : List ARow) → HasWritten kind self.now rows → result ≡ sum_of rows }
    {
        self.totals.counts()
    }

    /// Appends the totals of the rows, below an empty line.
    pub fn write_totals(&self, text: &mut Vec<u8>) -> Result<(), NoMemory>
        ensures { (kind : ALive) (rows : List ARow) → HasWritten kind self.now rows → OnOk result (text.new.items ≡ text.old.items ++ totals_text rows) }
    {
        self.totals.write(text)
    }
}
