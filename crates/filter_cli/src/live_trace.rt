//! The lines of the tests of a stream as they complete, and their totals.

ghost use Rattle.std.specs.Prelude.{◌≡◌, ◌++◌, List, map, length, OnOk, IfSome, if◌then◌else◌, []};
ghost use Rattle.std.specs.List.{filter};
ghost use Rattle.std.specs.Option.{option_to_list};
ghost use Rattle.command_words.specs.Code.{item_meant};
ghost use Rattle.outcome_fold.specs.declared.row.Row.{Row as ARow};
ghost use Rattle.outcome_fold.specs.Answers.{is_run};
ghost use Rattle.live_text.specs.Live.{live_rows};
ghost use Rattle.live_text.specs.Totals.{totals_text};
ghost use Rattle.live_text.specs.Written.{HasWritten};
ghost use Rattle.live_text.specs.declared.live.Live.{Live as ALive};
ghost use Rattle.filter_cli.specs.Pipe.{pipe};
ghost use Rattle.filter_cli.specs.Plan.{IsSeen, IsFiltered};
ghost use Rattle.stream_end.specs.Inside.{ends_inside};
ghost use Rattle.filter_cli.specs.Pumping.{Pumps, WritesFirst};
ghost use Rattle.filter_cli.specs.Tracing as tracing;

use crate::filter::StreamEnd;
use crate::note_pump::pump_notes;
use crate::notes::NoteFilter;
use crate::pump_loop::PumpFault;
use command_words::{Item, has_flag};
use edge_io::{Sink, Source};
use live_text::{Live, LiveWriter};
use outcome_fold::{Counts, Fold, Row};
use packet_codec::Packet;
use std::alloc::Global;
use sub_number::NoMemory;

/// What is printed of the tests.
#[derive(Clone, Copy, Debug, PartialEq, Eq)]
pub struct Trace {
    /// What is printed of each.
    pub kind: Live,
    /// Whether the totals stand at the end.
    pub totals: bool,
}

/// What the options of `subunit-trace` ask for. None comes exactly where a value of `--live` names no kind.
pub(crate) fn trace_of(items: &[Item<'_>]) -> Option<Trace>
    ensures { result ≡ tracing.trace_of (map item_meant items.now) }
{
    match live_asked(items) {
        Some(kind) => Some(Trace {
            kind,
            totals: !has_flag(items, "--no-summary"),
        }),
        None => None,
    }
}

// The kind that the options ask for.
fn live_asked(items: &[Item<'_>]) -> Option<Live>
    ensures { result ≡ tracing.live_asked (map item_meant items.now) }
{
    let mut kind = Some(Live::Tests);
    for item in items {
        kind = live_behind(kind, item);
    }
    kind
}

// The kind behind one item more.
fn live_behind(kind: Option<Live>, item: &Item<'_>) -> Option<Live>
    ensures { result ≡ tracing.live_behind kind (item_meant item.now) }
{
    let Some(kind) = kind else {
        return None;
    };
    match item {
        Item::Valued(option, value) => live_with(kind, option, value),
        Item::Flag(_) | Item::Name(_) => Some(kind),
    }
}

// The kind behind an option with this value.
fn live_with(kind: Live, option: &str, value: &str) -> Option<Live>
    ensures { result ≡ tracing.live_with kind option.now value.now }
{
    if option == "--live" {
        return live_named(value);
    }
    Some(kind)
}

// The kind that a word names.
fn live_named(word: &str) -> Option<Live>
    ensures { result ≡ tracing.live_named word.now }
{
    if word == "none" {
        return Some(Live::Nothing);
    }
    if word == "tests" {
        return Some(Live::Tests);
    }
    if word == "failures" {
        return Some(Live::Failures);
    }
    if word == "dots" {
        return Some(Live::Dots);
    }
    None
}

/// Writes the lines of each test where it completes, at the end those of the tests that are left open, and then the totals,
/// where they are asked for. Foreign bytes are dropped.
#[derive(Drop)]
pub(crate) struct TraceFilter {
    fold: Fold,
    writer: LiveWriter,
    trace: Trace,
}

impl TraceFilter {
    ghost use Rattle.std.specs.Prelude.{[], IfOk};
    ghost use Rattle.outcome_fold.specs.Folded.{HasSeen};

    /// The lines of nothing yet.
    pub(crate) fn new(alloc: Global, trace: Trace) -> Result<Self, NoMemory>
        ensures { IfOk result (λ filter. HasSeen filter.fold [] × HasWritten trace.kind filter.writer [] × (filter.trace ≡ trace)) }
    {
        Ok(TraceFilter {
            fold: Fold::new(alloc),
            writer: LiveWriter::new(alloc, trace.kind)?,
            trace,
        })
    }
}

impl NoteFilter for TraceFilter {
    ghost use Rattle.outcome_fold.specs.Folded.{HasSeen};
    ghost use Rattle.outcome_fold.specs.Rows.{completed_rows};
    ghost use Rattle.filter_cli.specs.Events.{events_among};
    ghost use Rattle.filter_cli.specs.Tracing.{trace_plan};

    ghost plan = { λ f. trace_plan f.trace };

    ghost has = { λ f notes. HasSeen f.fold (events_among notes) × HasWritten f.trace.kind f.writer (completed_rows (events_among notes)) };

    fn take(&mut self, packet: &Packet<'_>, text: &mut Vec<u8>) -> Result<(), NoMemory> {
        let row = self.fold.hear(packet)?;
        put_row(&mut self.writer, &row, text)?;
        Ok(())
    }

    fn take_foreign(&mut self, _bytes: &[u8], _text: &mut Vec<u8>) -> Result<(), NoMemory> {
        Ok(())
    }

    fn close(self, text: &mut Vec<u8>) -> Result<u8, NoMemory> {
        let TraceFilter {
            fold,
            mut writer,
            trace,
        } = self;
        let rows = fold.close()?;
        writer.rows(&rows, text)?;
        writer.end(text)?;
        put_totals(&writer, trace.totals, text)?;
        Ok(status_of(writer.counts()))
    }

    fn let_go(self) {}
}

// Appends the lines of the row, where there is one.
fn put_row(writer: &mut LiveWriter, row: &Option<Row>, text: &mut Vec<u8>) -> Result<(), NoMemory>
    ensures text { (kind : ALive) (rows : List ARow) → HasWritten kind writer.old rows → OnOk result (text.new.items ≡ text.old.items ++ live_rows kind (length (filter is_run rows)) (option_to_list row.now)) }
    ensures written { (kind : ALive) (rows : List ARow) → HasWritten kind writer.old rows → OnOk result (HasWritten kind writer.new (rows ++ option_to_list row.now)) }
{
    let Some(row) = row else {
        return Ok(());
    };
    writer.row(row, text)
}

// Appends the totals, where they are asked for.
fn put_totals(writer: &LiveWriter, totals: bool, text: &mut Vec<u8>) -> Result<(), NoMemory>
    ensures { (kind : ALive) (rows : List ARow) → HasWritten kind writer.now rows → OnOk result (text.new.items ≡ text.old.items ++ (if totals then totals_text rows else [])) }
{
    if totals {
        writer.write_totals(text)?;
    }
    Ok(())
}

// 1 where a test failed, or none ran.
fn status_of(all: Counts) -> u8
    ensures { result ≡ tracing.status_of_counts all }
{
    u8::from(all.failed > 0 || all.total == 0)
}

/// Writes the lines of the tests of the input to its end, each where it completes, and then the totals, where they are asked
/// for. The status is 1 where a test failed, or none ran, else 0.
///
/// Each `PumpFault` comes as `pump_notes` says, and at each a first part of the text was written, and nothing else.
pub(crate) fn trace_stream<I: Source, O: Sink>(
    alloc: Global,
    trace: Trace,
    input: &mut I,
    out: &mut O,
) -> Result<StreamEnd, PumpFault>
    ensures pumps { Pumps ends_inside (IsSeen (tracing.trace_plan trace)) (IsFiltered (tracing.trace_plan trace)) (pipe (I.seen input.old) (O.seen out.old)) (pipe (I.seen input.new) (O.seen out.new)) result }
    ensures prefix { IfSome (I.seen input.old).told (WritesFirst (IsFiltered (tracing.trace_plan trace)) (O.seen out.old).told (O.seen out.new).told) }
{
    let filter = TraceFilter::new(alloc, trace)?;
    pump_notes(alloc, filter, input, out)
}
