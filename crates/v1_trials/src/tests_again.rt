//! Tests that are written and read again are the same rows.

ghost use Rattle.std.specs.Prelude.{◌<◌};

use crate::heard::events_of;
use crate::shown::show_tags;
use drawn_lanes::Draws;
use outcome_fold::{Ended, Fold, Row};
use packet_codec::{Event, FilePart, Status};
use std::alloc::Global;
use sub_number::Bytes;
use trial_events::{Told, at, event_of, text};
use v1_bridge::V1Writer;

// How a row is read again, where it is written.
fn word(ended: Ended) -> Option<&'static [u8]> {
    match ended {
        Ended::Exists => None,
        Ended::Success => Some(b"success"),
        Ended::UxSuccess => Some(b"uxsuccess"),
        Ended::Skip => Some(b"skip"),
        Ended::Fail | Ended::Open => Some(b"fail"),
        Ended::XFail => Some(b"xfail"),
    }
}

// Appends the row as a line, where it is written: its end, its id and its tags.
fn show_row(row: &Row, shown: &mut Vec<u8>) -> Option<()> {
    let Some(word) = word(row.ended) else {
        return Some(());
    };
    shown.extend_from_slice(word).ok()?;
    shown.push(b' ').ok()?;
    shown.extend_from_slice(row.id.bytes()).ok()?;
    show_tags(&row.tags, shown)?;
    shown.push(b'\n').ok()
}

fn show_each(rows: &[Row], shown: &mut Vec<u8>) -> Option<()> {
    for row in rows {
        show_row(row, shown)?;
    }
    Some(())
}

// The row that the event completes, if it completes one.
fn show_completed(fold: &mut Fold, event: &Event, shown: &mut Vec<u8>) -> Option<()> {
    match fold.add(event).ok()? {
        Some(row) => show_row(&row, shown),
        None => Some(()),
    }
}

fn show_all_completed(fold: &mut Fold, events: &[Event], shown: &mut Vec<u8>) -> Option<()> {
    for event in events {
        show_completed(fold, event, shown)?;
    }
    Some(())
}

fn show_open(fold: Fold, shown: &mut Vec<u8>) -> Option<()> {
    let open = fold.close().ok()?;
    show_each(&open, shown)
}

// The rows of the events in the order in which they are written.
fn show_rows(alloc: Global, events: &[Event], shown: &mut Vec<u8>) -> Option<()> {
    let mut fold = Fold::new(alloc);
    show_all_completed(&mut fold, events, shown)?;
    show_open(fold, shown)
}

fn rows(alloc: Global, events: &[Event]) -> Option<Vec<u8>> {
    let mut shown = Vec::new(alloc);
    show_rows(alloc, events, &mut shown)?;
    Some(shown)
}

fn write_each(writer: &mut V1Writer, events: &[Event], lines: &mut Vec<u8>) -> Option<()> {
    for event in events {
        writer.add(event, lines).ok()?;
    }
    Some(())
}

fn write_lines(alloc: Global, events: &[Event], lines: &mut Vec<u8>) -> Option<()> {
    let mut writer = V1Writer::new(alloc);
    write_each(&mut writer, events, lines)?;
    writer.close(lines).ok()
}

// The lines of the events.
fn lines(alloc: Global, events: &[Event]) -> Option<Vec<u8>> {
    let mut lines = Vec::new(alloc);
    write_lines(alloc, events, &mut lines)?;
    Some(lines)
}

// The events that are read where these were written.
fn read_again(alloc: Global, events: &[Event]) -> Option<Vec<Event>> {
    let lines = lines(alloc, events)?;
    events_of(alloc, &lines)
}

// The rows of those.
fn rows_again(alloc: Global, events: &[Event]) -> Option<Vec<u8>> {
    let again = read_again(alloc, events)?;
    rows(alloc, &again)
}

const TOLD: [Told; 12] = [
    (b"", b"a", Status::InProgress, None),
    (b"", b"b [", Status::InProgress, Some(b"y")),
    (b"", b"a", Status::Success, Some(b"xw")),
    (b"", b"e", Status::Exists, Some(b"e")),
    (b"1", b"a", Status::Fail, Some(b"")),
    (b"", b"b [", Status::Skip, None),
    (b"", b"c [ multipart", Status::UxSuccess, Some(b"aba")),
    (b"0", b" ]", Status::XFail, None),
    (b"", b"o", Status::InProgress, Some(b"z")),
    (b"2", b"o", Status::Unset, None),
    (b"0", b"p", Status::InProgress, None),
    (b"1", b"a", Status::Success, None),
];

// The open tests stand behind the others, by route and id, and have failed.
const ROWS: &[u8] =
    b"success a #w #x\nfail a\nskip b [ #y\nuxsuccess c [ multipart #a #b\nxfail  ]\nsuccess a\nfail o #z\nfail p\nfail o\n";

fn push_event(alloc: Global, events: &mut Vec<Event>, told: &Told) -> Option<()> {
    let event = event_of(alloc, told)?;
    events.push(event).ok()
}

fn push_told(alloc: Global, events: &mut Vec<Event>) -> Option<()> {
    for told in &TOLD {
        push_event(alloc, events, told)?;
    }
    Some(())
}

fn told_events(alloc: Global) -> Option<Vec<Event>> {
    let mut events = Vec::new(alloc);
    push_told(alloc, &mut events)?;
    Some(events)
}

// Whether these are the rows of the events that are written and read again.
fn are_rows_again(alloc: Global, events: &[Event], wanted: &[u8]) -> Option<bool> {
    let again = rows_again(alloc, events)?;
    Some(again.as_slice() == wanted)
}

fn told_rows_again(alloc: Global) -> Option<bool> {
    let events = told_events(alloc)?;
    are_rows_again(alloc, &events, ROWS)
}

#[test]
fn tests_are_read_as_they_were_written(rt: HostRuntime) {
    assert_eq!(rt; told_rows_again(rt.alloc()), Some(true));
}

const IDS: [&[u8]; 8] = [
    b"a",
    b"a [",
    b"a [ multipart",
    b" ",
    b"]",
    b"time: 1970-01-01 00:00:00Z",
    b"-\xc3\xa4",
    b"test: a",
];

const ROUTES: [&[u8]; 4] = [b"", b"", b"0", b"1"];

const STATUSES: [Status; 8] = [
    Status::Unset,
    Status::Exists,
    Status::InProgress,
    Status::Success,
    Status::UxSuccess,
    Status::Skip,
    Status::Fail,
    Status::XFail,
];

const TAGS: [Option<&[u8]>; 4] = [None, Some(b""), Some(b"yx"), Some(b"=z=")];

const TEXTS: [&[u8]; 4] = [
    b"]",
    b"]\n ]\n] \n",
    b"test: a\nsuccess: a\n]",
    b"tags: t\r\n]\r\nerror: a [",
];

fn eighth(draws: &mut Draws) -> usize
    ensures { result < 8 }
{
    (draws.next() % 8) as usize
}

fn fourth(draws: &mut Draws) -> usize
    ensures { result < 4 }
{
    (draws.next() % 4) as usize
}

fn file_of(alloc: Global, bytes: &[u8]) -> Option<FilePart> {
    let name = text(alloc, b"log")?;
    let bytes = Bytes::new(alloc, bytes).ok()?;
    Some(FilePart { name, bytes })
}

// The bytes as a file of text. Without memory for it the event stays without a file.
fn give_text(alloc: Global, event: &mut Event, bytes: &[u8]) {
    event.mime = text(alloc, b"text/plain");
    event.file = file_of(alloc, bytes);
}

// An event of a drawn test, at a drawn time.
fn drawn_test(alloc: Global, draws: &mut Draws) -> Option<Event> {
    let route = ROUTES[fourth(draws)];
    let id = IDS[eighth(draws)];
    let status = STATUSES[eighth(draws)];
    let tags = TAGS[fourth(draws)];
    let seconds = draws.next();
    let event = event_of(alloc, &(route, id, status, tags))?;
    Some(at(event, seconds, 0))
}

// The same, with a drawn text now and then.
fn drawn_event(alloc: Global, draws: &mut Draws) -> Option<Event> {
    let mut event = drawn_test(alloc, draws)?;
    if fourth(draws) == 0 {
        give_text(alloc, &mut event, TEXTS[fourth(draws)]);
    }
    Some(event)
}

fn push_one(alloc: Global, draws: &mut Draws, events: &mut Vec<Event>) -> Option<()> {
    let event = drawn_event(alloc, draws)?;
    events.push(event).ok()
}

fn push_drawn(alloc: Global, draws: &mut Draws, count: u32, events: &mut Vec<Event>) -> Option<()> {
    for _ in 0..count {
        push_one(alloc, draws, events)?;
    }
    Some(())
}

fn drawn_events(alloc: Global, seed: u32, count: u32) -> Option<Vec<Event>> {
    let mut draws = Draws::new(seed);
    let mut events = Vec::new(alloc);
    push_drawn(alloc, &mut draws, count, &mut events)?;
    Some(events)
}

fn are_their_rows_again(alloc: Global, events: &[Event]) -> Option<bool> {
    let rows = rows(alloc, events)?;
    are_rows_again(alloc, events, &rows)
}

// Whether the drawn events have the same rows where they are written and read again.
fn are_same_again(alloc: Global, seed: u32, count: u32) -> Option<bool> {
    let events = drawn_events(alloc, seed, count)?;
    are_their_rows_again(alloc, &events)
}

#[test]
fn drawn_tests_are_read_as_they_were_written(rt: HostRuntime) {
    for seed in 0..20u32 {
        assert_eq!(rt;
            are_same_again(rt.alloc(), seed, 100),
            Some(true),
            "seed {seed}"
        );
    }
}
