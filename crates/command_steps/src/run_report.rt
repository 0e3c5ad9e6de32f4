//! What is told of a run.

ghost use Rattle.std.specs.Prelude.{◌≡◌, ◌++◌, [], ℕ, List, All, IfOk, OnOk};
ghost use Rattle.std.specs.List.{filter, list_any};
ghost use Rattle.outcome_fold.specs.Answers.{row_fails};
ghost use Rattle.outcome_fold.specs.Summed.{Sums};
ghost use Rattle.outcome_fold.specs.declared.row.Row.{Row as ARow};
ghost use Rattle.sub_text.specs.Texts.{report_of};
ghost use Rattle.command_steps.specs.Verdicts.{verdict_of};
ghost use Rattle.command_steps.specs.Reporting.{Reports, Prints, notes_for, shown_with, print_text};
ghost use Rattle.command_steps.specs.Telling.{line_text};

use crate::Verdict;
use crate::refusal_line::Line;
use build_notes::notes_text;
use edge_io::{Failed, Sink, write_whole};
use outcome_fold::{Row, Rows, Summary};
use packet_codec::Tags;
use std::alloc::Global;
use sub_number::NoMemory;
use sub_text::{report_text, summary_from};
use testr_words::FormatKind;

/// How the report of a run ends. It is made before anything is printed, so that printing takes no memory; `load` makes it before
/// the run is kept, too.
#[derive(Drop)]
pub struct Ending {
    /// The last two lines, and the notes behind them.
    pub lines: Vec<u8>,
    /// Whether the tests passed.
    pub verdict: Verdict,
}

/// How the report of the run of this number ends, for this reader, of whose rows this is kept. Tests that do not fail and have one
/// of the tags that filter it are not counted.
pub fn end_report(
    alloc: Global,
    format: FormatKind,
    number: u32,
    summary: &Summary,
) -> Result<Ending, NoMemory>
    ensures { (filter_tags : List (List ℕ)) (rows : List ARow) → Sums filter_tags rows summary.now → Reports format number filter_tags rows (shown_with (filter row_fails rows) result) }
{
    let mut lines = Vec::new(alloc);
    summary_from(summary.counts(), number, &mut lines)?;
    put_notes(format, summary, &mut lines)?;
    Ok(Ending {
        lines,
        verdict: verdict_of_summary(summary),
    })
}

// Appends the notes of the rows that fail, where this reader has them.
fn put_notes(format: FormatKind, summary: &Summary, text: &mut Vec<u8>) -> Result<(), NoMemory>
    ensures { (filter_tags : List (List ℕ)) (rows : List ARow) → Sums filter_tags rows summary.now → OnOk result (text.new.items ≡ text.old.items ++ notes_for format rows) }
{
    match format {
        FormatKind::Plain => Ok(()),
        FormatKind::Github => notes_text(summary.failing(), text),
    }
}

/// A write failed.
#[derive(Clone, Copy, Debug, PartialEq, Eq)]
pub struct PrintFault;

impl PrintFault {
    /// The line that tells of it.
    pub fn line(self) -> Line<'static>
        ensures { line_text result ≡ print_text }
    {
        Line::of("testr: fault writing output\n")
    }
}

impl From<Failed> for PrintFault {
    fn from(_: Failed) -> Self {
        PrintFault
    }
}

/// Prints the text.
pub fn print_text<O: Sink>(out: &mut O, text: &[u8]) -> Result<(), PrintFault>
    ensures { Prints text.now (O.seen out.old) (O.seen out.new) result }
{
    write_whole(out, text)?;
    Ok(())
}

/// The report of the run of this number.
pub fn report(alloc: Global, rows: &Rows, number: u32) -> Result<Vec<u8>, NoMemory>
    ensures { IfOk result (λ text. text.items ≡ report_of rows.now number []) }
{
    let mut text = Vec::new(alloc);
    report_text(rows, number, &Tags::new(alloc), &mut text)?;
    Ok(text)
}

/// Whether the tests passed.
pub fn verdict_of_rows(rows: &Rows) -> Verdict
    ensures { result ≡ verdict_of rows.now }
{
    if one_fails(rows.list()) {
        Verdict::Failed
    } else {
        Verdict::Passed
    }
}

// Whether one of the rows fails.
fn one_fails(rows: &[Row]) -> bool
    ensures { result ≡ list_any row_fails rows.now }
{
    rows.iter().any(|row| row.ended.fails())
}

/// Whether the tests passed, by what is kept of their rows.
pub fn verdict_of_summary(summary: &Summary) -> Verdict
    ensures { (filter_tags : List (List ℕ)) (rows : List ARow) → Sums filter_tags rows summary.now → result ≡ verdict_of rows }
{
    if summary.failing().is_empty() {
        Verdict::Passed
    } else {
        Verdict::Failed
    }
}
