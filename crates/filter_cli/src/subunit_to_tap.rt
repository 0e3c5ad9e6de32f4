//! The tests of a stream as lines of the Test Anything Protocol.

ghost use Rattle.std.specs.Prelude.{◌≡◌, ◌++◌, List, OnOk};
ghost use Rattle.std.specs.List.{flat_map};
ghost use Rattle.std.specs.Option.{option_to_list};
ghost use Rattle.outcome_fold.specs.declared.row.Row.{Row as ARow};
ghost use Rattle.tap_bridge.specs.Texts.{HasWrittenRows, tap_text_at, tap_text_behind};

use crate::ls::{any_failed, failed_after};
use crate::notes::NoteFilter;
use outcome_fold::{Fold, Row};
use packet_codec::Packet;
use std::alloc::Global;
use sub_number::NoMemory;
use tap_bridge::TapWriter;

/// Writes a line for each test where it completes, at the end those of the tests that are left open, and then the plan.
/// Foreign bytes are dropped.
#[derive(Drop)]
pub(crate) struct SubunitToTap {
    fold: Fold,
    writer: TapWriter,
    // A test that is complete failed.
    failed: bool,
}

impl SubunitToTap {
    ghost use Rattle.std.specs.Prelude.{[], false};
    ghost use Rattle.outcome_fold.specs.Folded.{HasSeen};

    /// The lines of nothing yet.
    pub(crate) fn new(alloc: Global) -> Self
        ensures fold { HasSeen result.fold [] }
        ensures writer { HasWrittenRows result.writer [] }
        ensures failed { result.failed ≡ false }
    {
        SubunitToTap {
            fold: Fold::new(alloc),
            writer: TapWriter::new(),
            failed: false,
        }
    }
}

impl NoteFilter for SubunitToTap {
    ghost use Rattle.std.specs.List.{list_any};
    ghost use Rattle.outcome_fold.specs.Answers.{row_fails};
    ghost use Rattle.outcome_fold.specs.Folded.{HasSeen};
    ghost use Rattle.outcome_fold.specs.Rows.{completed_rows};
    ghost use Rattle.filter_cli.specs.Events.{events_among};
    ghost use Rattle.filter_cli.specs.TapRows.{tap_plan};

    ghost plan = { λ f. tap_plan };

    ghost has = { λ f notes. HasSeen f.fold (events_among notes) × HasWrittenRows f.writer (completed_rows (events_among notes)) × (f.failed ≡ list_any row_fails (completed_rows (events_among notes))) };

    fn take(&mut self, packet: &Packet<'_>, text: &mut Vec<u8>) -> Result<(), NoMemory> {
        let row = self.fold.hear(packet)?;
        put_row(&mut self.writer, &row, text)?;
        self.failed = failed_after(self.failed, &row);
        Ok(())
    }

    fn take_foreign(&mut self, _bytes: &[u8], _text: &mut Vec<u8>) -> Result<(), NoMemory> {
        Ok(())
    }

    fn close(self, text: &mut Vec<u8>) -> Result<u8, NoMemory> {
        let failed = self.failed;
        let mut writer = self.writer;
        let rows = self.fold.close()?;
        put_rows(&mut writer, &rows, text)?;
        writer.close(text)?;
        Ok(u8::from(failed || any_failed(&rows)))
    }

    fn let_go(self) {}
}

// Appends the line of the row, where there is one.
fn put_row(writer: &mut TapWriter, row: &Option<Row>, text: &mut Vec<u8>) -> Result<(), NoMemory>
    ensures text { (rows : List ARow) → HasWrittenRows writer.old rows → OnOk result (text.new.items ≡ text.old.items ++ flat_map (tap_text_at rows) (option_to_list row.now)) }
    ensures written { (rows : List ARow) → HasWrittenRows writer.old rows → OnOk result (HasWrittenRows writer.new (rows ++ option_to_list row.now)) }
{
    let Some(row) = row else {
        return Ok(());
    };
    writer.row(row, text)?;
    Ok(())
}

// Appends the lines of the rows.
fn put_rows(writer: &mut TapWriter, rows: &[Row], text: &mut Vec<u8>) -> Result<(), NoMemory>
    ensures text { (before : List ARow) → HasWrittenRows writer.old before → OnOk result (text.new.items ≡ text.old.items ++ tap_text_behind before rows.now) }
    ensures written { (before : List ARow) → HasWrittenRows writer.old before → OnOk result (HasWrittenRows writer.new (before ++ rows.now)) }
{
    for row in rows {
        writer.row(row, text)?;
    }
    Ok(())
}
