//! Rows of a run, as lines of the book tell them, and as answers show them.
//!
//! A line has the id and how the test ended. Behind them may stand `route=`, `nanos=`, `tags=` as in `tags=a,b`, and `text=`
//! at the end of the line, behind which each space counts.

use crate::events::{tags_of, text_of};
use crate::fields::{are_known, field, first_word, parted};
use itoa::Buffer;
use outcome_fold::{Ended, Row, Rows};
use packet_codec::Tags;
use row_book::{bytes_of, put_all};
use std::alloc::Global;
use sub_number::{Bytes, Text};

fn ended_of(word: &str) -> Option<Ended> {
    match word {
        "exists" => Some(Ended::Exists),
        "success" => Some(Ended::Success),
        "uxsuccess" => Some(Ended::UxSuccess),
        "skip" => Some(Ended::Skip),
        "fail" => Some(Ended::Fail),
        "xfail" => Some(Ended::XFail),
        "open" => Some(Ended::Open),
        _ => None,
    }
}

fn ended_word(ended: Ended) -> &'static [u8] {
    match ended {
        Ended::Exists => b"exists",
        Ended::Success => b"success",
        Ended::UxSuccess => b"uxsuccess",
        Ended::Skip => b"skip",
        Ended::Fail => b"fail",
        Ended::XFail => b"xfail",
        Ended::Open => b"open",
    }
}

fn bare_row(alloc: Global, id: Text, ended: Ended) -> Row {
    Row {
        id,
        route: None,
        ended,
        tags: Tags::new(alloc),
        nanos: None,
        text: Bytes::from_vec(Vec::new(alloc)),
        reason: Bytes::from_vec(Vec::new(alloc)),
    }
}

fn put_fields(alloc: Global, fields: &str, row: &mut Row) -> Option<()> {
    if let Some(route) = field(fields, "route=") {
        row.route = Some(text_of(alloc, route)?);
    }
    if let Some(nanos) = field(fields, "nanos=") {
        row.nanos = Some(nanos.parse().ok()?);
    }
    if let Some(tags) = field(fields, "tags=") {
        row.tags = tags_of(alloc, tags)?;
    }
    Some(())
}

/// The row that the line tells.
pub fn row_of(alloc: Global, line: &str) -> Option<Row> {
    let (front, text) = parted(line, " text=");
    let (id, rest) = first_word(front);
    let (ended, fields) = first_word(rest);
    if !are_known(fields, &["route=", "nanos=", "tags="]) {
        return None;
    }
    let ended = ended_of(ended)?;
    let mut row = bare_row(alloc, text_of(alloc, id)?, ended);
    put_fields(alloc, fields, &mut row)?;
    if let Some(text) = text {
        row.text = Bytes::from_vec(bytes_of(alloc, text)?);
    }
    Some(row)
}

fn push_rows(alloc: Global, lines: &[&str], rows: &mut Vec<Row>) -> Option<()> {
    for line in lines {
        rows.push(row_of(alloc, line)?).ok()?;
    }
    Some(())
}

/// The rows that the lines tell, in their order.
pub fn rows_of(alloc: Global, lines: &[&str]) -> Option<Rows> {
    let mut rows = Vec::new(alloc);
    push_rows(alloc, lines, &mut rows)?;
    Some(Rows::of(rows))
}

// ---- answers

/// Appends the bytes, and for none a dash.
pub fn put_bytes(bytes: &[u8], out: &mut Vec<u8>) -> Option<()> {
    if bytes.is_empty() {
        out.push(b'-').ok()
    } else {
        out.extend_from_slice(bytes).ok()
    }
}

/// Appends the text, and for none a dash.
pub fn put_name(name: &Option<Text>, out: &mut Vec<u8>) -> Option<()> {
    match name {
        Some(name) => put_bytes(name.bytes(), out),
        None => put_bytes(b"", out),
    }
}

/// Appends the number.
pub fn put_number(number: u128, out: &mut Vec<u8>) -> Option<()> {
    let mut digits = Buffer::new();
    out.extend_from_slice(digits.format(number).as_bytes()).ok()
}

/// Appends the nanoseconds, and for none a dash.
pub fn put_nanos(nanos: Option<u128>, out: &mut Vec<u8>) -> Option<()> {
    match nanos {
        Some(nanos) => put_number(nanos, out),
        None => put_bytes(b"", out),
    }
}

/// Appends the texts with commas between.
pub fn put_list(texts: &[Text], out: &mut Vec<u8>) -> Option<()> {
    for (place, text) in texts.iter().enumerate() {
        if place > 0 {
            out.push(b',').ok()?;
        }
        out.extend_from_slice(text.bytes()).ok()?;
    }
    Some(())
}

/// Appends the texts with commas between, and for none a dash.
pub fn put_texts(texts: &[Text], out: &mut Vec<u8>) -> Option<()> {
    if texts.is_empty() {
        put_bytes(b"", out)
    } else {
        put_list(texts, out)
    }
}

fn put_column(row: &Row, column: &str, out: &mut Vec<u8>) -> Option<()> {
    match column {
        "route" => put_name(&row.route, out),
        "id" => put_bytes(row.id.bytes(), out),
        "ended" => put_bytes(ended_word(row.ended), out),
        "tags" => put_texts(row.tags.list(), out),
        "nanos" => put_nanos(row.nanos.map(u128::from), out),
        "text" => put_bytes(row.text.bytes(), out),
        "text_size" => put_number(row.text.bytes().len() as u128, out),
        "reason" => put_bytes(row.reason.bytes(), out),
        "reason_size" => put_number(row.reason.bytes().len() as u128, out),
        _ => None,
    }
}

/// Appends a line of the columns of the row that are named, behind what it is told with.
pub fn put_row(front: &[u8], row: &Row, columns: &str, out: &mut Vec<u8>) -> Option<()> {
    out.extend_from_slice(front).ok()?;
    for (place, column) in columns.split(' ').enumerate() {
        if place > 0 {
            out.push(b' ').ok()?;
        }
        put_column(row, column, out)?;
    }
    out.push(b'\n').ok()
}

/// Appends a line of the columns of each row.
pub fn put_rows(front: &[u8], rows: &[Row], columns: &str, out: &mut Vec<u8>) -> Option<()> {
    for row in rows {
        put_row(front, row, columns, out)?;
    }
    Some(())
}

/// Appends a line.
pub fn put_line(line: &[u8], out: &mut Vec<u8>) -> Option<()> {
    put_all(&[line, b"\n"], out)
}
