//! Events that are folded into rows: one by one, and of a whole run. A row of the book is told as events and as packets, and
//! both must give the same.

use crate::events::events_of;
use crate::results::{put_row, put_rows};
use itoa::Buffer;
use outcome_fold::{Fold, Outcomes, Row, Rows};
use packet_codec::{Event, Sight, see_front};
use row_book::put_all;
use std::alloc::Global;
use trial_events::spelled;

// All that a row says.
const COLUMNS: &str = "route id ended tags nanos text reason";

// What the fold answers to the event, which it is given, or of which it hears the packet.
fn row_at(alloc: Global, by_packet: bool, fold: &mut Fold, event: &Event) -> Option<Option<Row>> {
    if !by_packet {
        return fold.add(event).ok();
    }
    let bytes = spelled(alloc, event)?;
    match see_front(&bytes) {
        Sight::Packet(packet) => fold.hear(&packet).ok(),
        _ => None,
    }
}

fn put_completed(number: usize, row: &Option<Row>, columns: &str, out: &mut Vec<u8>) -> Option<()> {
    let Some(row) = row else {
        return Some(());
    };
    let mut digits = Buffer::new();
    put_all(&[digits.format(number).as_bytes()], out)?;
    put_row(b": ", row, columns, out)
}

fn fold_each(
    alloc: Global,
    by_packet: bool,
    fold: &mut Fold,
    events: &[Event],
    columns: &str,
    out: &mut Vec<u8>,
) -> Option<()> {
    let mut number: usize = 0;
    for event in events {
        number = number.saturating_add(1);
        let row = row_at(alloc, by_packet, fold, event)?;
        put_completed(number, &row, columns, out)?;
    }
    Some(())
}

// The rows where they come: behind the number of the event that completes each, and those of open tests behind `end`.
fn put_fold(
    alloc: Global,
    by_packet: bool,
    events: &[Event],
    columns: &str,
    out: &mut Vec<u8>,
) -> Option<()> {
    let mut fold = Fold::new(alloc);
    fold_each(alloc, by_packet, &mut fold, events, columns, out)?;
    let open = fold.close().ok()?;
    put_rows(b"end: ", &open, columns, out)
}

fn take(alloc: Global, by_packet: bool, outcomes: &mut Outcomes, event: &Event) -> Option<()> {
    if !by_packet {
        return outcomes.add(event).ok();
    }
    let bytes = spelled(alloc, event)?;
    match see_front(&bytes) {
        Sight::Packet(packet) => outcomes.hear(&packet).ok(),
        _ => None,
    }
}

fn take_all(
    alloc: Global,
    by_packet: bool,
    outcomes: &mut Outcomes,
    events: &[Event],
) -> Option<()> {
    for event in events {
        take(alloc, by_packet, outcomes, event)?;
    }
    Some(())
}

/// The rows of a run of these events, which are given, or heard as packets.
pub fn rows_by(alloc: Global, by_packet: bool, events: &[Event]) -> Option<Rows> {
    let mut outcomes = Outcomes::new(alloc);
    take_all(alloc, by_packet, &mut outcomes, events)?;
    outcomes.close().ok()
}

fn put_run(
    alloc: Global,
    by_packet: bool,
    events: &[Event],
    columns: &str,
    out: &mut Vec<u8>,
) -> Option<()> {
    let rows = rows_by(alloc, by_packet, events)?;
    put_rows(b"", rows.list(), columns, out)
}

fn put_either(
    alloc: Global,
    one_by_one: bool,
    by_packet: bool,
    events: &[Event],
    columns: &str,
    out: &mut Vec<u8>,
) -> Option<()> {
    if one_by_one {
        put_fold(alloc, by_packet, events, columns, out)
    } else {
        put_run(alloc, by_packet, events, columns, out)
    }
}

// All that the rows say.
fn whole(alloc: Global, one_by_one: bool, by_packet: bool, events: &[Event]) -> Option<Vec<u8>> {
    let mut text = Vec::new(alloc);
    put_either(alloc, one_by_one, by_packet, events, COLUMNS, &mut text)?;
    Some(text)
}

/// Answers the columns of the rows of these events: of a run, or one by one where they come.
pub fn answer_rows(
    alloc: Global,
    one_by_one: bool,
    columns: &str,
    lines: &[&str],
    out: &mut Vec<u8>,
) -> Option<()> {
    let events = events_of(alloc, lines)?;
    let given = whole(alloc, one_by_one, false, &events)?;
    let heard = whole(alloc, one_by_one, true, &events)?;
    if given.as_slice() != heard.as_slice() {
        return put_all(&[b"by events:\n", &given, b"by packets:\n", &heard], out);
    }
    put_either(alloc, one_by_one, false, &events, columns, out)
}
