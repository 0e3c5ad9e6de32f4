//! The lines of a run that is heard as it is recorded, and what is kept of its rows.

ghost use Rattle.std.specs.Prelude.{◌≡◌, ◌++◌, ◌+◌, ◌%◌, [], ℕ, List, length, IfOk, OnOk};
ghost use Rattle.live_text.specs.Live.{end_behind_rows, live_end, marks_a_line, rows_done};
ghost use Rattle.live_text.specs.declared.live.Live.{Live as ALive};
ghost use Rattle.outcome_fold.specs.Answers.{is_run as spec_is_run};
ghost use Rattle.outcome_fold.specs.Rows.{open_rows, rows_of};
ghost use Rattle.outcome_fold.specs.Summed.{Sums};
ghost use Rattle.packet_codec.specs.Packets.{ArePackets, ArePacketsOf};
ghost use Rattle.packet_codec.specs.declared.event.Event.{Event};
ghost use Rattle.suite_run.specs.Aloud.{Gathered, Gathers, unsaid};

use live_text::{Live, live_line};
use outcome_fold::{Ended, Row, RowListener, Summary};
use packet_codec::Tags;
use run_ledger::WrittenRun;
use std::alloc::Global;
use sub_number::NoMemory;

// Whether the test ran.
fn is_run(row: &Row) -> bool
    ensures { result ≡ spec_is_run row.now }
{
    match row.ended {
        Ended::Exists => false,
        Ended::Success
        | Ended::UxSuccess
        | Ended::Skip
        | Ended::Fail
        | Ended::XFail
        | Ended::Open => true,
    }
}

// How many marks stand in the line behind one more.
fn next_column(column: u32) -> u32
    ensures { (before : ℕ) → column ≡ before % marks_a_line → result ≡ (before + 1) % marks_a_line }
{
    if column < 69 { column + 1 } else { 0 }
}

/// The lines of rows that were completed and are not said yet.
#[derive(Drop)]
pub struct Lines {
    pub(crate) kind: Live,
    // So many marks stand in the last line.
    pub(crate) column: u32,
    pub(crate) text: Vec<u8>,
}

impl RowListener for Lines {
    ghost heard = { λ begun lines rows. Gathered begun lines rows };

    fn hear_row(&mut self, row: &Row) -> Result<(), NoMemory> {
        if !is_run(row) {
            return Ok(());
        }
        live_line(self.kind, self.column, row, &mut self.text)?;
        self.column = next_column(self.column);
        Ok(())
    }
}

impl Lines {
    // Appends the end of the last line, where marks stand in it.
    fn end(&mut self) -> Result<(), NoMemory>
        ensures { (kind : ALive) (before : ℕ) → self.old.kind ≡ kind → self.old.column ≡ before % marks_a_line → OnOk result (self.new.text.items ≡ self.old.text.items ++ end_behind_rows kind before) }
    {
        if self.kind == Live::Dots && self.column != 0 {
            self.text.push(b'\n')?;
        }
        Ok(())
    }
}

/// What is heard of a run: what is kept of its rows, and the lines that are not said yet.
#[derive(Drop)]
pub struct Hearing {
    pub(crate) run: WrittenRun,
    pub(crate) lines: Lines,
}

/// What is left of a run that was heard.
#[derive(Drop)]
pub struct Closed {
    /// What is kept of its rows.
    pub summary: Summary,
    /// The lines that are not said yet: those of the tests that were left open, and the end of the last line.
    pub end: Vec<u8>,
}

impl Hearing {
    /// Of nothing. It takes no memory yet.
    pub fn new(alloc: Global, filter_tags: Tags, kind: Live) -> Self
        ensures gathers { Gathers filter_tags kind [] result [] }
        ensures none { unsaid result ≡ [] }
    {
        Hearing {
            run: WrittenRun::new(alloc, filter_tags),
            lines: Lines {
                kind,
                column: 0,
                text: Vec::new(alloc),
            },
        }
    }

    /// Folds the packets, and gathers the lines of the rows that they complete. `NoMemory` comes as by `WrittenRun::hear`.
    pub fn hear(&mut self, packets: &[u8]) -> Result<(), NoMemory>
        requires packets { ArePackets packets.now }
        ensures { (filter_tags : List (List ℕ)) (kind : ALive) (said : List ℕ) (seen events : List Event) → ArePacketsOf events packets.now → Gathers filter_tags kind said self.old seen → OnOk result (Gathers filter_tags kind said self.new (seen ++ events)) }
    {
        self.run.hear_with(packets, &mut self.lines)
    }

    /// Ends the run. `NoMemory` comes as by `hear`.
    pub fn close(self) -> Result<Closed, NoMemory>
        ensures { (filter_tags : List (List ℕ)) (kind : ALive) (said : List ℕ) (events : List Event) → Gathers filter_tags kind said self events → unsaid self ≡ [] → IfOk result (λ closed. Sums filter_tags (rows_of events) closed.summary × (closed.end.items ≡ live_end kind (length (rows_done events)) (open_rows events))) }
    {
        let Hearing { run, mut lines } = self;
        let summary = run.close_with(&mut lines)?;
        lines.end()?;
        Ok(Closed {
            summary,
            end: lines.text,
        })
    }
}
