//! Events from words, and records of tests.

use crate::events::events_of;
use crate::results::{put_line, put_number};
use packet_codec::encode;
use row_book::{bytes_of, put_all};
use std::alloc::Global;
use sub_export::{OutputJob, csv_head, csv_row, exported_names, exported_records};

fn push_words(alloc: Global, lines: &[&str], words: &mut Vec<String>) -> Option<()> {
    for line in lines {
        words.push(line.to_string(alloc).ok()?).ok()?;
    }
    Some(())
}

// The job of the words. None inside where they are no command.
fn job_of(alloc: Global, lines: &[&str]) -> Option<Option<OutputJob>> {
    let mut words = Vec::new(alloc);
    push_words(alloc, lines, &mut words)?;
    OutputJob::read(alloc, &words).ok()
}

// Appends the packet of the piece, where there is one and the job attaches a file.
fn put_piece(job: &OutputJob, piece: &[u8], packets: &mut Vec<u8>) -> Option<()> {
    if piece.is_empty() {
        return Some(());
    }
    if !job.attaches() || piece.len() > 65_536 {
        return None;
    }
    let event = job.piece(piece).ok()?;
    encode(&event, packets).ok()
}

fn put_last(job: &OutputJob, packets: &mut Vec<u8>) -> Option<()> {
    let event = job.last().ok()?;
    encode(&event, packets).ok()
}

fn put_packets(job: &OutputJob, piece: &[u8], out: &mut Vec<u8>) -> Option<()> {
    put_piece(job, piece, out)?;
    put_last(job, out)?;
    put_line(b"", out)
}

/// Answers the packets that the words ask for, each word in a line, where these are the bytes of the file, if any.
pub fn answer_output(alloc: Global, piece: &str, lines: &[&str], out: &mut Vec<u8>) -> Option<()> {
    let piece = bytes_of(alloc, piece)?;
    match job_of(alloc, lines)? {
        Some(job) => put_packets(&job, &piece, out),
        None => put_line(b"no command", out),
    }
}

/// Answers the path of the file that the words attach, where there is one.
pub fn answer_path(alloc: Global, lines: &[&str], out: &mut Vec<u8>) -> Option<()> {
    let job = job_of(alloc, lines)??;
    match job.path() {
        Some(path) => put_line(path.bytes(), out),
        None => Some(()),
    }
}

/// Answers the record of a test of these events, where it has one.
pub fn answer_record(alloc: Global, lines: &[&str], out: &mut Vec<u8>) -> Option<()> {
    let part = events_of(alloc, lines)?;
    csv_row(alloc, &part, out).ok()
}

/// Answers the head of records.
pub fn answer_head(alloc: Global, out: &mut Vec<u8>) -> Option<()> {
    csv_head(alloc, out).ok()
}

fn put_sizes(alloc: Global, text: &[u8], out: &mut Vec<u8>) -> Option<()> {
    let names = exported_names(alloc, text).ok()?;
    let records = exported_records(alloc, text).ok()?;
    put_number(names.len() as u128, out)?;
    put_all(&[b" names, "], out)?;
    put_number(records.len() as u128, out)?;
    put_line(b" records", out)
}

/// Answers how many names the text of records has, and how many records below them.
pub fn answer_exported(alloc: Global, lines: &[&str], out: &mut Vec<u8>) -> Option<()> {
    let mut text = Vec::new(alloc);
    for line in lines {
        put_line(line.as_bytes(), &mut text)?;
    }
    put_sizes(alloc, &text, out)
}
