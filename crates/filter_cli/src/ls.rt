//! The tests of a stream, listed as they complete.

ghost use Rattle.std.specs.Prelude.{◌≡◌, ◌++◌, ◌||◌, OnOk};
ghost use Rattle.std.specs.List.{flat_map, list_any};
ghost use Rattle.std.specs.Option.{option_map, option_to_list};
ghost use Rattle.outcome_fold.specs.Answers.{row_fails};
ghost use Rattle.outcome_fold.specs.EndedParts.{row_of_part};
ghost use Rattle.outcome_fold.specs.declared.row.Row.{Row as ARow};
ghost use Rattle.filter_cli.specs.Ls.{shown_line};

use crate::loose_output::{put_foreign, put_loose};
use crate::notes::NoteFilter;
use outcome_fold::{Ended, EndedPart, Fold, Row, elapsed};
use packet_codec::Packet;
use std::alloc::Global;
use sub_number::{NoMemory, Text};
use sub_text::ls_line;

/// What is listed.
#[derive(Clone, Copy, Debug, PartialEq, Eq)]
pub struct Listing {
    /// With the time of each test that has one.
    pub times: bool,
    /// Also tests that are only known to exist.
    pub exists: bool,
    /// Without output of no test.
    pub hidden: bool,
}

/// Lists each test where it completes, and at the end those that are left open.
#[derive(Drop)]
pub(crate) struct Ls {
    listing: Listing,
    fold: Fold,
    // A test that is complete failed.
    failed: bool,
}

impl Ls {
    ghost use Rattle.std.specs.Prelude.{[], false};
    ghost use Rattle.outcome_fold.specs.Folded.{HasSeen};

    /// A list of nothing yet.
    pub(crate) fn new(alloc: Global, listing: Listing) -> Self
        ensures listing { result.listing ≡ listing }
        ensures fold { HasSeen result.fold [] }
        ensures failed { result.failed ≡ false }
    {
        Ls {
            listing,
            fold: Fold::new(alloc),
            failed: false,
        }
    }
}

impl NoteFilter for Ls {
    ghost use Rattle.outcome_fold.specs.Folded.{HasSeen};
    ghost use Rattle.outcome_fold.specs.Rows.{completed_rows};
    ghost use Rattle.filter_cli.specs.Events.{events_among};
    ghost use Rattle.filter_cli.specs.Ls.{ls_plan};

    ghost plan = { λ f. ls_plan f.listing };

    ghost has = { λ f notes. HasSeen f.fold (events_among notes) × (f.failed ≡ list_any row_fails (completed_rows (events_among notes))) };

    #[inline(always)]
    fn take(&mut self, packet: &Packet<'_>, text: &mut Vec<u8>) -> Result<(), NoMemory> {
        put_loose(self.listing.hidden, packet, text)?;
        let part = self.fold.hear_part(packet)?;
        put_part(self.listing, &part, text)?;
        self.failed = failed_after_part(self.failed, &part);
        Ok(())
    }

    fn take_foreign(&mut self, bytes: &[u8], text: &mut Vec<u8>) -> Result<(), NoMemory> {
        put_foreign(self.listing.hidden, bytes, text)?;
        Ok(())
    }

    fn close(self, text: &mut Vec<u8>) -> Result<u8, NoMemory> {
        let failed = self.failed;
        let rows = self.fold.close()?;
        put_rows(self.listing, &rows, text)?;
        Ok(u8::from(failed || any_failed(&rows)))
    }

    fn let_go(self) {}
}

// The line of a row of this id, which ended so and took so long.
#[inline(always)]
fn put_line(
    listing: Listing,
    id: &Text,
    ended: Ended,
    nanos: Option<u64>,
    text: &mut Vec<u8>,
) -> Result<(), NoMemory>
    ensures { (row : ARow) → row.id ≡ id.now → row.ended ≡ ended → row.nanos ≡ nanos → OnOk result (text.new.items ≡ text.old.items ++ shown_line listing row) }
{
    if ended != Ended::Exists || listing.exists {
        ls_line(id, nanos, listing.times, text)?;
    }
    Ok(())
}

// The line of the part of a test that has ended. No row is made of it.
#[inline(always)]
fn put_part(listing: Listing, part: &Option<EndedPart>, text: &mut Vec<u8>) -> Result<(), NoMemory>
    ensures { OnOk result (text.new.items ≡ text.old.items ++ flat_map (shown_line listing) (option_to_list (option_map row_of_part part.now))) }
{
    if let Some(part) = part {
        let nanos = elapsed(part.started.start, part.end);
        put_line(listing, &part.key.id, part.ended, nanos, text)?;
    }
    Ok(())
}

fn put_rows(listing: Listing, rows: &[Row], text: &mut Vec<u8>) -> Result<(), NoMemory>
    ensures { OnOk result (text.new.items ≡ text.old.items ++ flat_map (shown_line listing) rows.now) }
{
    for row in rows {
        put_line(listing, &row.id, row.ended, row.nanos, text)?;
    }
    Ok(())
}

// Whether a test failed, this part included.
#[inline(always)]
fn failed_after_part(failed: bool, part: &Option<EndedPart>) -> bool
    ensures { result ≡ (failed || list_any row_fails (option_to_list (option_map row_of_part part.now))) }
{
    match part {
        Some(part) => failed || part.ended.fails(),
        None => failed,
    }
}

// Whether a test failed, this row included.
pub(crate) fn failed_after(failed: bool, row: &Option<Row>) -> bool
    ensures { result ≡ (failed || list_any row_fails (option_to_list row.now)) }
{
    match row {
        Some(row) => failed || row.ended.fails(),
        None => failed,
    }
}

// Whether some row fails.
pub(crate) fn any_failed(rows: &[Row]) -> bool
    ensures { result ≡ list_any row_fails rows.now }
{
    rows.iter().any(|row| row.ended.fails())
}
