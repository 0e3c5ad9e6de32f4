//! The tests of a stream as JUnit XML.

ghost use Rattle.std.specs.Prelude.{◌≡◌, ◌||◌, List, ◌++◌, OnOk};
ghost use Rattle.std.specs.List.{list_any};
ghost use Rattle.std.specs.Option.{option_to_list};
ghost use Rattle.outcome_fold.specs.declared.row.Row.{Row as ARow};
ghost use Rattle.outcome_fold.specs.Answers.{row_fails};
ghost use Rattle.filter_cli.specs.JunitCases.{HasCases};

use crate::junit_cases::JunitCases;
use crate::ls::{any_failed, failed_after};
use crate::notes::NoteFilter;
use outcome_fold::{Fold, Row};
use packet_codec::Packet;
use std::alloc::Global;
use sub_number::NoMemory;

/// Writes the document of a stream's tests at its end, since their counts stand in front. Foreign bytes are dropped.
///
/// Of a test that is complete its case is kept until then, as it is written; the document is made as one text.
#[derive(Drop)]
pub(crate) struct SubunitToJunit {
    fold: Fold,
    cases: JunitCases,
    // A test that is complete failed.
    failed: bool,
}

impl SubunitToJunit {
    ghost use Rattle.std.specs.Prelude.{[], false};
    ghost use Rattle.outcome_fold.specs.Folded.{HasSeen};

    /// The document of nothing yet.
    pub(crate) fn new(alloc: Global) -> Self
        ensures fold { HasSeen result.fold [] }
        ensures cases { HasCases result.cases [] }
        ensures failed { result.failed ≡ false }
    {
        SubunitToJunit {
            fold: Fold::new(alloc),
            cases: JunitCases::new(alloc),
            failed: false,
        }
    }
}

impl NoteFilter for SubunitToJunit {
    ghost use Rattle.outcome_fold.specs.Folded.{HasSeen};
    ghost use Rattle.outcome_fold.specs.Rows.{completed_rows};
    ghost use Rattle.filter_cli.specs.Events.{events_among};
    ghost use Rattle.filter_cli.specs.Junit.{junit_plan};

    ghost plan = { λ f. junit_plan };

    ghost has = { λ f notes. HasSeen f.fold (events_among notes) × (HasCases f.cases (completed_rows (events_among notes)) × (f.failed ≡ list_any row_fails (completed_rows (events_among notes)))) };

    #[inline(always)]
    fn take(&mut self, packet: &Packet<'_>, _text: &mut Vec<u8>) -> Result<(), NoMemory> {
        let row = self.fold.hear(packet)?;
        self.failed = failed_after(self.failed, &row);
        put_row(&mut self.cases, row)?;
        Ok(())
    }

    fn take_foreign(&mut self, _bytes: &[u8], _text: &mut Vec<u8>) -> Result<(), NoMemory> {
        Ok(())
    }

    fn close(self, text: &mut Vec<u8>) -> Result<u8, NoMemory> {
        let SubunitToJunit {
            fold,
            mut cases,
            failed,
        } = self;
        let rows = fold.close()?;
        let failed = failed_with(failed, &rows);
        put_rows(&mut cases, rows)?;
        cases.write(text)?;
        Ok(u8::from(failed))
    }

    fn let_go(self) {}
}

// Whether a test failed, these rows included.
fn failed_with(failed: bool, rows: &[Row]) -> bool
    ensures { result ≡ (failed || list_any row_fails rows.now) }
{
    failed || any_failed(rows)
}

// Puts the case of the row, where there is one.
fn put_row(cases: &mut JunitCases, row: Option<Row>) -> Result<(), NoMemory>
    ensures { (rows : List ARow) → HasCases cases.old rows → OnOk result (HasCases cases.new (rows ++ option_to_list row)) }
{
    if let Some(row) = row {
        cases.put(row)?;
    }
    Ok(())
}

// Puts the cases of the rows.
fn put_rows(cases: &mut JunitCases, rows: Vec<Row>) -> Result<(), NoMemory>
    ensures { (before : List ARow) → HasCases cases.old before → OnOk result (HasCases cases.new (before ++ rows.items)) }
{
    for row in rows {
        cases.put(row)?;
    }
    Ok(())
}
