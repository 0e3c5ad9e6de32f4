//! The record of a part of a test.

ghost use Rattle.std.specs.Prelude.{◌≡◌, ◌++◌, Some, IfOk, OnOk, OnErr};
ghost use Rattle.std.specs.Option.{option_map, option_copied};
ghost use Rattle.outcome_fold.specs.Parts as parts;
ghost use Rattle.sub_export.specs.Records as spec;

use crate::fields::put_row;
use instants::put_instant;
use outcome_fold::{Ended, ended_by, instant_of};
use packet_codec::Event;
use std::alloc::Global;
use sub_number::NoMemory;

// The word of a test that ended so. None comes exactly where it is only known to exist.
fn status_word(ended: Ended) -> Option<&'static str>
    ensures { option_map (λ word. word.now) result ≡ spec.status_word ended }
{
    match ended {
        Ended::Exists => None,
        Ended::Success => Some("success"),
        Ended::UxSuccess => Some("uxsuccess"),
        Ended::Skip => Some("skip"),
        Ended::Fail => Some("fail"),
        Ended::XFail => Some("xfail"),
        Ended::Open => Some("inprogress"),
    }
}

// The instant as text, which is empty where there is none.
fn time_text(alloc: Global, instant: Option<u64>) -> Result<Vec<u8>, NoMemory>
    ensures { IfOk result (λ text. text.items ≡ spec.time_text instant) }
{
    let mut text = Vec::new(alloc);
    if let Some(nanos) = instant {
        put_instant(nanos, &mut text)?;
        text.extend_from_slice(b"+00:00")?;
    }
    Ok(text)
}

// The id that the events have.
fn id_of(part: &[Event]) -> Option<&[u8]>
    ensures { option_map (λ id. id.now) result ≡ spec.id_of part.now }
{
    match part.first() {
        Some(event) => match &event.id {
            Some(id) => Some(id.bytes()),
            None => None,
        },
        None => None,
    }
}

// The instant of the first event.
fn start_of(part: &[Event]) -> Option<u64>
    ensures { result ≡ parts.start_of part.now }
{
    match part.first() {
        Some(event) => instant_of(event),
        None => None,
    }
}

// How the events end.
fn end_by(last: Option<&Event>) -> Ended
    ensures { result ≡ spec.end_by (option_copied last.entry) }
{
    match last {
        Some(event) => match ended_by(event.status) {
            Some(ended) => ended,
            None => Ended::Open,
        },
        None => Ended::Open,
    }
}

// The instant of the event that completes the test.
fn stop_by(last: Option<&Event>) -> Option<u64>
    ensures { result ≡ spec.stop_by (option_copied last.entry) }
{
    match last {
        Some(event) if ended_by(event.status).is_some() => instant_of(event),
        _ => None,
    }
}

// Appends the row of these fields.
fn put_record(
    alloc: Global,
    id: &[u8],
    word: &str,
    start: Option<u64>,
    stop: Option<u64>,
    out: &mut Vec<u8>,
) -> Result<(), NoMemory>
    ensures ok { OnOk result (out.new.items ≡ out.old.items ++ spec.row_if (spec.record_with (Some id.now) (Some word.now) start stop)) }
    ensures err { OnErr result (out.new.items ≡ out.old.items) }
{
    let start = time_text(alloc, start)?;
    let stop = time_text(alloc, stop)?;
    put_row(alloc, &[id, word.as_bytes(), &start, &stop], out)
}

/// Appends the row of the names of the fields.
pub fn csv_head(alloc: Global, out: &mut Vec<u8>) -> Result<(), NoMemory>
    ensures ok { OnOk result (out.new.items ≡ out.old.items ++ spec.csv_head_text) }
    ensures err { OnErr result (out.new.items ≡ out.old.items) }
{
    put_row(
        alloc,
        &[b"test", b"status", b"start_time", b"stop_time"],
        out,
    )
}

/// Appends the row of the record of a part of a test's events. Nothing is appended where the test is only known to exist,
/// and of events that speak of no test.
pub fn csv_row(alloc: Global, part: &[Event], out: &mut Vec<u8>) -> Result<(), NoMemory>
    ensures ok { OnOk result (out.new.items ≡ out.old.items ++ spec.csv_row_of part.now) }
    ensures err { OnErr result (out.new.items ≡ out.old.items) }
{
    let last = part.last();
    match (id_of(part), status_word(end_by(last))) {
        (Some(id), Some(word)) => put_record(alloc, id, word, start_of(part), stop_by(last), out),
        _ => Ok(()),
    }
}
