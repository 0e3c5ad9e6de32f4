//! The rows of a book, each asked and compared.
//!
//! Where a function gives none, a line cannot be read, a table gave no answer, or memory was wanting.

use crate::spelled_bytes::put_spelled;
use itoa::Buffer;
use std::alloc::Global;

/// A row as its table is given it.
#[derive(Clone, Copy)]
pub struct Row<'b> {
    /// The name of the table.
    pub table: &'b str,
    /// What stands behind the name.
    pub words: &'b str,
    /// The lines that are given, without their marks.
    pub given: &'b [&'b str],
}

/// Who answers the rows of a book.
pub trait Tables {
    /// Appends the answer to the row, line by line. None where there is no such table, or it cannot read the row.
    fn answer(&self, alloc: Global, row: Row<'_>, said: &mut Vec<u8>) -> Option<()>;
}

/// Appends the parts, one behind the other.
pub fn put_all(parts: &[&[u8]], out: &mut Vec<u8>) -> Option<()> {
    for part in parts {
        out.extend_from_slice(part).ok()?;
    }
    Some(())
}

// What stands behind the mark and a space. A line of a mark alone has nothing there.
fn behind_mark(line: &str, mark: char) -> Option<&str> {
    let text = line.strip_prefix(mark)?;
    if text.is_empty() {
        Some(text)
    } else {
        text.strip_prefix(' ')
    }
}

// The lines with this mark that stand first, and those below them.
fn with_mark<'l, 'b>(lines: &'l [&'b str], mark: char) -> Option<(&'l [&'b str], &'l [&'b str])> {
    let end = lines.iter().position(|line| !line.starts_with(mark));
    lines.split_at_checked(end.unwrap_or(lines.len()))
}

fn push_given<'b>(lines: &[&'b str], given: &mut Vec<&'b str>) -> Option<()> {
    for line in lines {
        given.push(behind_mark(line, '>')?).ok()?;
    }
    Some(())
}

// What the tables answer. Where that is no byte, it is told in words, so that a row always expects a line.
fn said_by<T: Tables>(alloc: Global, tables: &T, head: &str, lines: &[&str]) -> Option<Vec<u8>> {
    let (table, words) = head.split_once(' ').unwrap_or((head, ""));
    let mut given = Vec::new(alloc);
    push_given(lines, &mut given)?;
    let mut said = Vec::new(alloc);
    let row = Row {
        table,
        words,
        given: &given,
    };
    tables.answer(alloc, row, &mut said)?;
    if said.is_empty() {
        said.extend_from_slice(b"(nothing)\n").ok()?;
    }
    Some(said)
}

fn put_expected(lines: &[&str], expected: &mut Vec<u8>) -> Option<()> {
    for line in lines {
        put_spelled(behind_mark(line, '=')?, expected)?;
        expected.push(b'\n').ok()?;
    }
    Some(())
}

// What the row must answer. A row without such a line has none.
fn expected_by(alloc: Global, lines: &[&str]) -> Option<Vec<u8>> {
    let mut expected = Vec::new(alloc);
    put_expected(lines, &mut expected)?;
    (!expected.is_empty()).then_some(expected)
}

fn are_same(text: &Option<Vec<u8>>, other: &Option<Vec<u8>>) -> bool {
    match (text, other) {
        (Some(text), Some(other)) => text.as_slice() == other.as_slice(),
        _ => false,
    }
}

fn tell_text(title: &[u8], text: &Option<Vec<u8>>, told: &mut Vec<u8>) -> Option<()> {
    match text {
        Some(text) => put_all(&[title, text], told),
        None => put_all(&[title, b"(nothing that can be read)\n"], told),
    }
}

fn tell_place(place: usize, head: &str, told: &mut Vec<u8>) -> Option<()> {
    let mut digits = Buffer::new();
    let number = digits.format(place.saturating_add(1)).as_bytes();
    put_all(&[b"line ", number, b": ", head.as_bytes(), b"\n"], told)
}

// How many rows there were, and how many of them agreed.
#[derive(Clone, Copy)]
struct Tally {
    rows: usize,
    agreed: usize,
}

fn counted(tally: Tally, agrees: bool) -> Tally {
    Tally {
        rows: tally.rows.saturating_add(1),
        agreed: tally.agreed.saturating_add(usize::from(agrees)),
    }
}

fn tell_tally(tally: Tally, told: &mut Vec<u8>) -> Option<()> {
    let mut digits = Buffer::new();
    let agreed = digits.format(tally.agreed).as_bytes();
    put_all(&[agreed, b" of "], told)?;
    let rows = digits.format(tally.rows).as_bytes();
    put_all(&[rows, b" rows agree\n"], told)
}

// Whether the row agrees. Where it does not, that is told.
fn agrees<T: Tables>(
    alloc: Global,
    tables: &T,
    place: usize,
    head: &str,
    given: &[&str],
    expected: &[&str],
    told: &mut Vec<u8>,
) -> Option<bool> {
    let expected = expected_by(alloc, expected);
    let said = said_by(alloc, tables, head, given);
    if are_same(&expected, &said) {
        return Some(true);
    }
    tell_place(place, head, told)?;
    tell_text(b"expected:\n", &expected, told)?;
    tell_text(b"said:\n", &said, told)?;
    Some(false)
}

fn is_remark(line: &str) -> bool {
    line.is_empty() || line.starts_with('#')
}

// Reads the row that begins at this place, if one does. Answers how many lines it has.
fn read_row<T: Tables>(
    alloc: Global,
    tables: &T,
    place: usize,
    lines: &[&str],
    tally: &mut Tally,
    told: &mut Vec<u8>,
) -> Option<usize> {
    let (_, lines) = lines.split_at_checked(place)?;
    let Some((head, below)) = lines.split_first() else {
        return Some(0);
    };
    if is_remark(head) {
        return Some(1);
    }
    let (given, below) = with_mark(below, '>')?;
    let (expected, _) = with_mark(below, '=')?;
    let agrees = agrees(alloc, tables, place, head, given, expected, told)?;
    *tally = counted(*tally, agrees);
    Some(given.len().saturating_add(expected.len()).saturating_add(1))
}

fn read_lines<T: Tables>(
    alloc: Global,
    tables: &T,
    lines: &[&str],
    told: &mut Vec<u8>,
) -> Option<Tally> {
    let mut tally = Tally { rows: 0, agreed: 0 };
    let mut place: usize = 0;
    for _ in 0..lines.len() {
        let count = read_row(alloc, tables, place, lines, &mut tally, told)?;
        place = place.saturating_add(count);
    }
    Some(tally)
}

fn push_lines<'b>(book: &'b str, lines: &mut Vec<&'b str>) -> Option<()> {
    for line in book.lines() {
        lines.push(line).ok()?;
    }
    Some(())
}

/// Asks each row of the book, and appends what is to be told: each row whose answer is another than expected, with the line
/// of the book in which it begins, and how many rows agree of how many. A row that cannot be read does not agree.
///
/// Answers whether there are rows, and all agree. None comes for want of memory.
pub fn read_book<T: Tables>(
    alloc: Global,
    tables: &T,
    book: &str,
    told: &mut Vec<u8>,
) -> Option<bool> {
    let mut lines = Vec::new(alloc);
    push_lines(book, &mut lines)?;
    let tally = read_lines(alloc, tables, &lines, told)?;
    tell_tally(tally, told)?;
    Some(tally.rows > 0 && tally.agreed == tally.rows)
}
