//! The rows of `stdin`: what the public calls of the leaves must give, as tables of what is given and what is answered.
//!
//! The book says what its tables take and answer. The lines are as `row_book` says.
//!
//! - `fields`: the words of a row, and lists among them
//! - `told`: values as lines, and calls one behind another
//! - `numbers`: numbers, texts, checksums, ids and times
//! - `words`: words of a command line, and instants
//! - `searches`: searches for a cause
//! - `confs`: configurations and their jobs
//! - `shares`: patterns of ids, and shares of workers
//! - `streams`, `shelves`, `children`, `sites`: the outside in memory
#![tactic(auto)]

mod children;
mod confs;
mod fields;
mod numbers;
mod searches;
mod shares;
mod shelves;
mod sites;
mod streams;
mod told;
mod words;

use row_book::{Row, Tables, read_book};
use std::alloc::Global;
use std::io;
use std::io::Write;
use std::process::ExitCode;

struct AllTables;

impl Tables for AllTables {
    fn answer(&self, alloc: Global, row: Row<'_>, said: &mut Vec<u8>) -> Option<()> {
        match row.table {
            "words" | "instant" | "printed" => answer_words(alloc, row, said),
            "search" | "cause" | "each_cause" | "probe_ids" => answer_search(alloc, row, said),
            "conf" | "stestr" | "pyproject" | "id_list" => answer_conf(alloc, row, said),
            "pick" | "found" | "partition" => answer_share(alloc, row, said),
            "stream" | "shelf" | "child" | "spawner" | "site" => answer_outside(alloc, row, said),
            _ => numbers::answer_number(alloc, row, said),
        }
    }
}

fn answer_words(alloc: Global, row: Row<'_>, said: &mut Vec<u8>) -> Option<()> {
    match row.table {
        "words" => words::answer_words(alloc, row.given, said),
        "instant" => words::answer_instant(alloc, row.words, said),
        "printed" => words::answer_printed(row.words, said),
        _ => None,
    }
}

fn answer_search(alloc: Global, row: Row<'_>, said: &mut Vec<u8>) -> Option<()> {
    match row.table {
        "search" => searches::answer_search(alloc, row.words, row.given, said),
        "cause" => searches::answer_cause(alloc, row.words, said),
        "each_cause" => searches::answer_each_cause(alloc, row.words, said),
        "probe_ids" => searches::answer_probe_ids(alloc, row.words, row.given, said),
        _ => None,
    }
}

fn answer_conf(alloc: Global, row: Row<'_>, said: &mut Vec<u8>) -> Option<()> {
    match row.table {
        "conf" => confs::answer_conf(alloc, row.words, row.given, said),
        "stestr" => confs::answer_stestr(alloc, row.words, row.given, said),
        "pyproject" => confs::answer_pyproject(alloc, row.words, row.given, said),
        "id_list" => confs::answer_id_list(alloc, row.given, said),
        _ => None,
    }
}

fn answer_share(alloc: Global, row: Row<'_>, said: &mut Vec<u8>) -> Option<()> {
    match row.table {
        "pick" => shares::answer_pick(alloc, row.words, row.given, said),
        "found" => shares::answer_found(alloc, row.words, row.given, said),
        "partition" => shares::answer_partition(alloc, row.words, row.given, said),
        _ => None,
    }
}

fn answer_outside(alloc: Global, row: Row<'_>, said: &mut Vec<u8>) -> Option<()> {
    match row.table {
        "stream" => streams::answer_stream(alloc, row.words, row.given, said),
        "shelf" => shelves::answer_shelf(alloc, row.words, row.given, said),
        "child" => children::answer_child(alloc, row.words, row.given, said),
        "spawner" => children::answer_spawner(alloc, row.words, row.given, said),
        "site" => sites::answer_site(alloc, row.words, row.given, said),
        _ => None,
    }
}

// Prints what is to be told of the book, and answers whether all of its rows agree.
fn run(rt: &HostRuntime) -> io::Result<bool> {
    let book = io::read_to_string(rt.alloc(), rt.stdin())?;
    let mut told = Vec::new(rt.alloc());
    let agree = read_book(rt.alloc(), &AllTables, book.as_str(), &mut told);
    io::writer(rt).write_all(&told)?;
    Ok(agree == Some(true))
}

fn main(rt: HostRuntime) -> ExitCode {
    match run(&rt) {
        Ok(true) => ExitCode::SUCCESS,
        _ => ExitCode::FAILURE,
    }
}
