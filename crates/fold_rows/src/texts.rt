//! Texts that are printed of rows.

use crate::events::text_of;
use crate::results::{put_line, row_of, rows_of};
use build_notes::notes_text;
use outcome_fold::Row;
use packet_codec::Tags;
use row_book::put_all;
use std::alloc::Global;
use sub_number::IdList;
use sub_text::{
    failing_text, failure_parts, ls_line, report_text, seconds_text, slowest_text, stats_text,
    summary_text,
};

/// Answers the seconds of each number of nanoseconds.
pub fn answer_seconds(lines: &[&str], out: &mut Vec<u8>) -> Option<()> {
    for line in lines {
        seconds_text(line.parse().ok()?, out).ok()?;
        put_line(b"", out)?;
    }
    Some(())
}

/// Answers the summary of the rows of the run of this number.
pub fn answer_summary(alloc: Global, run: &str, lines: &[&str], out: &mut Vec<u8>) -> Option<()> {
    let run = run.parse().ok()?;
    let rows = rows_of(alloc, lines)?;
    summary_text(&rows, run, &Tags::new(alloc), out).ok()
}

/// Answers the report of the rows of the run of this number.
pub fn answer_report(alloc: Global, run: &str, lines: &[&str], out: &mut Vec<u8>) -> Option<()> {
    let run = run.parse().ok()?;
    let rows = rows_of(alloc, lines)?;
    report_text(&rows, run, &Tags::new(alloc), out).ok()
}

// The parts of the row's block of the report, with a bar behind each.
fn put_parts(row: &Row, out: &mut Vec<u8>) -> Option<()> {
    for part in failure_parts(row) {
        put_all(&[part, b"|"], out)?;
    }
    put_line(b"", out)
}

/// Answers the parts of the block of each row in the report.
pub fn answer_parts(alloc: Global, lines: &[&str], out: &mut Vec<u8>) -> Option<()> {
    for line in lines {
        let row = row_of(alloc, line)?;
        put_parts(&row, out)?;
    }
    Some(())
}

fn ids_of(alloc: Global, lines: &[&str]) -> Option<IdList> {
    let mut ids = IdList::new(alloc);
    for line in lines {
        ids.push(text_of(alloc, line)?).ok()?;
    }
    Some(ids)
}

/// Answers the text of these failing ids: with their number, or as a list.
pub fn answer_failing(alloc: Global, list: bool, lines: &[&str], out: &mut Vec<u8>) -> Option<()> {
    let ids = ids_of(alloc, lines)?;
    failing_text(&ids, list, out).ok()
}

/// Answers the slowest rows: ten, or all.
pub fn answer_slowest(alloc: Global, all: bool, lines: &[&str], out: &mut Vec<u8>) -> Option<()> {
    let rows = rows_of(alloc, lines)?;
    slowest_text(alloc, &rows, all, out).ok()
}

/// Answers the line of each row in a list: with times, or without.
pub fn answer_listing(alloc: Global, times: bool, lines: &[&str], out: &mut Vec<u8>) -> Option<()> {
    for line in lines {
        let row = row_of(alloc, line)?;
        ls_line(&row.id, row.nanos, times, out).ok()?;
    }
    Some(())
}

/// Answers the counts and tags of the rows.
pub fn answer_stats(alloc: Global, lines: &[&str], out: &mut Vec<u8>) -> Option<()> {
    let rows = rows_of(alloc, lines)?;
    stats_text(&rows, out).ok()
}

/// Answers the notes of the rows, behind a line that stands there.
pub fn answer_notes(alloc: Global, lines: &[&str], out: &mut Vec<u8>) -> Option<()> {
    let rows = rows_of(alloc, lines)?;
    put_line(b"notes", out)?;
    notes_text(rows.list(), out).ok()
}
