//! The rows of `stdin`: packets, streams of them, checksums of their parts, and what is recorded of a worker's output, as
//! tables of what is given and what is answered.
//!
//! The book says what its tables take and answer. The lines are as `row_book` says.
//!
//! - `checksums`, `draws`: checksums of parts, and numbers that are drawn
//! - `reading`, `writing`: packets that are read, and those that are written
//! - `streams`, `scribes`, `lanes`: the notes of streams, what is recorded of them, and what lanes give
//! - `events`: events in words
//! - `fields`, `told`: the words of a row, and values as lines of an answer
#![tactic(auto)]

mod checksums;
mod draws;
mod events;
mod fields;
mod lanes;
mod reading;
mod scribes;
mod streams;
mod told;
mod writing;

use crate::streams::{Notes, answer_in_pieces, answer_reader, stream_of};
use crate::told::put_short;
use row_book::{Row, Tables, read_book};
use std::alloc::Global;
use std::io;
use std::io::Write;
use std::process::ExitCode;

struct AllTables;

impl Tables for AllTables {
    fn answer(&self, alloc: Global, row: Row<'_>, said: &mut Vec<u8>) -> Option<()> {
        let given = stream_of(alloc, row.given)?;
        let mut whole = Vec::new(alloc);
        answer_table(alloc, row.table, row.words, &given, &mut whole)?;
        put_short(&whole, said)
    }
}

fn answer_table(
    alloc: Global,
    table: &str,
    words: &str,
    given: &[u8],
    said: &mut Vec<u8>,
) -> Option<()> {
    match table {
        "part_crc" | "prefixes" => checksums::answer(alloc, table, words, said),
        "draws" => draws::answer_draws(words, said),
        "plans" => draws::answer_plans(alloc, words, said),
        "notes" => answer_in_pieces(alloc, &Notes { as_sizes: false }, words, given, said),
        "note_sizes" => answer_in_pieces(alloc, &Notes { as_sizes: true }, words, given, said),
        "reader" => answer_reader(alloc, words, given, said),
        "recorded" | "recorded_notes" | "scribe" | "ending" => {
            scribes::answer(alloc, table, words, given, said)
        }
        "lane" => lanes::answer_lane(alloc, 0, words, given, said),
        "lane_more" => lanes::answer_lane(alloc, 1000, words, given, said),
        "broken_child" => lanes::answer_broken(alloc, said),
        _ => reading::answer(alloc, table, words, given, said),
    }
}

// Prints what is to be told of the book, and answers whether all of its rows agree.
fn run(rt: &HostRuntime) -> io::Result<bool> {
    let book = io::read_to_string(rt.alloc(), rt.stdin())?;
    let mut told = Vec::new(rt.alloc());
    let agree = read_book(rt.alloc(), &AllTables, book.as_str(), &mut told);
    io::writer(rt).write_all(&told)?;
    Ok(agree == Some(true))
}

fn main(rt: HostRuntime) -> ExitCode {
    match run(&rt) {
        Ok(true) => ExitCode::SUCCESS,
        _ => ExitCode::FAILURE,
    }
}
