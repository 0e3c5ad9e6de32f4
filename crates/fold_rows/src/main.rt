//! The rows of `stdin`: what became of the tests of a stream, as tables of what is given and what is answered.
//!
//! The book says what its tables take and answer. The lines are as `row_book` says.
//!
//! - `events`, `results`: events and rows, as lines of the book tell them
//! - `fields`: the words of a line
//! - `folds`, `facts`: events that are folded, and what their rows say together
//! - `sifts`, `tags`: what a filter lets through, and what tags it gives
//! - `texts`, `exports`: what is printed and exported
//! - `small_book`: a book inside the book
#![tactic(auto)]

mod events;
mod exports;
mod facts;
mod fields;
mod folds;
mod results;
mod sifts;
mod small_book;
mod tags;
mod texts;

use row_book::{Row, Tables, read_book};
use std::alloc::Global;
use std::io;
use std::io::Write;
use std::process::ExitCode;

struct AllTables;

impl Tables for AllTables {
    fn answer(&self, alloc: Global, row: Row<'_>, said: &mut Vec<u8>) -> Option<()> {
        match row.table {
            "book" => small_book::answer_book(alloc, row.given, said),
            "rows" | "fold" | "facts" | "summing" | "set" => answer_run(alloc, row, said),
            "keep" | "filtered" | "sift" | "sift_parts" => answer_sift(alloc, row, said),
            "tags" | "tagged_packets" | "lent_tags" => answer_tags(alloc, row, said),
            "output" | "path" | "record" | "head" | "exported" => answer_export(alloc, row, said),
            _ => answer_text(alloc, row, said),
        }
    }
}

fn answer_run(alloc: Global, row: Row<'_>, said: &mut Vec<u8>) -> Option<()> {
    match row.table {
        "rows" => folds::answer_rows(alloc, false, row.words, row.given, said),
        "fold" => folds::answer_rows(alloc, true, row.words, row.given, said),
        "facts" => facts::answer_facts(alloc, row.words, row.given, said),
        "summing" => facts::answer_sums(alloc, row.words, row.given, said),
        "set" => facts::answer_set(alloc, row.given, said),
        _ => None,
    }
}

fn answer_sift(alloc: Global, row: Row<'_>, said: &mut Vec<u8>) -> Option<()> {
    match row.table {
        "keep" => sifts::answer_keep(alloc, row.words, row.given, said),
        "filtered" => sifts::answer_filtered(alloc, row.words, row.given, said),
        "sift" => sifts::answer_sift(alloc, false, row.words, row.given, said),
        "sift_parts" => sifts::answer_sift(alloc, true, row.words, row.given, said),
        _ => None,
    }
}

fn answer_tags(alloc: Global, row: Row<'_>, said: &mut Vec<u8>) -> Option<()> {
    match row.table {
        "tags" => tags::answer_tags(alloc, row.words, row.given, said),
        "tagged_packets" => tags::answer_tagged_packets(alloc, row.words, row.given, said),
        "lent_tags" => tags::answer_lent_tags(alloc, row.words, row.given, said),
        _ => None,
    }
}

fn answer_export(alloc: Global, row: Row<'_>, said: &mut Vec<u8>) -> Option<()> {
    match row.table {
        "output" => exports::answer_output(alloc, row.words, row.given, said),
        "path" => exports::answer_path(alloc, row.given, said),
        "record" => exports::answer_record(alloc, row.given, said),
        "head" => exports::answer_head(alloc, said),
        "exported" => exports::answer_exported(alloc, row.given, said),
        _ => None,
    }
}

fn answer_text(alloc: Global, row: Row<'_>, said: &mut Vec<u8>) -> Option<()> {
    match row.table {
        "seconds" => texts::answer_seconds(row.given, said),
        "summary" => texts::answer_summary(alloc, row.words, row.given, said),
        "report" => texts::answer_report(alloc, row.words, row.given, said),
        "parts" => texts::answer_parts(alloc, row.given, said),
        "failing" => texts::answer_failing(alloc, false, row.given, said),
        "failing_list" => texts::answer_failing(alloc, true, row.given, said),
        "slowest" => texts::answer_slowest(alloc, false, row.given, said),
        "slowest_all" => texts::answer_slowest(alloc, true, row.given, said),
        "listing" => texts::answer_listing(alloc, false, row.given, said),
        "listing_times" => texts::answer_listing(alloc, true, row.given, said),
        "stats" => texts::answer_stats(alloc, row.given, said),
        "notes" => texts::answer_notes(alloc, row.given, said),
        _ => None,
    }
}

// Prints what is to be told of the book, and answers whether all of its rows agree.
fn run(rt: &HostRuntime) -> io::Result<bool> {
    let book = io::read_to_string(rt.alloc(), rt.stdin())?;
    let mut told = Vec::new(rt.alloc());
    let agree = read_book(rt.alloc(), &AllTables, book.as_str(), &mut told);
    io::writer(rt).write_all(&told)?;
    Ok(agree == Some(true))
}

fn main(rt: HostRuntime) -> ExitCode {
    match run(&rt) {
        Ok(true) => ExitCode::SUCCESS,
        _ => ExitCode::FAILURE,
    }
}
