//! A book inside the book, whose one table says what it is given. So the rows show that an answer which is another than
//! expected is told.

use crate::results::put_line;
use row_book::{Row, Tables, read_book};
use std::alloc::Global;

struct Echo;

impl Tables for Echo {
    fn answer(&self, _alloc: Global, row: Row<'_>, said: &mut Vec<u8>) -> Option<()> {
        if row.table != "echo" {
            return None;
        }
        for line in row.given {
            put_line(line.as_bytes(), said)?;
        }
        Some(())
    }
}

fn push_lines(lines: &[&str], book: &mut String) -> Option<()> {
    for line in lines {
        book.push_str(line).ok()?;
        book.push('\n').ok()?;
    }
    Some(())
}

/// Answers what is told of the book of these lines, and whether all of its rows agree.
pub fn answer_book(alloc: Global, lines: &[&str], out: &mut Vec<u8>) -> Option<()> {
    let mut book = String::new(alloc);
    push_lines(lines, &mut book)?;
    let agree = read_book(alloc, &Echo, book.as_str(), out)?;
    put_line(if agree { b"agree" } else { b"do not agree" }, out)
}
