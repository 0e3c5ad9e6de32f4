//! Numbers, texts, checksums, ids and times.

use crate::fields::{first_word, text_of};
use crate::told::{Calls, make_all, put_line, put_texts, put_value};
use row_book::{Row, bytes_of, put_all};
use std::alloc::Global;
use sub_number::{
    Bytes, Crc, IdList, Text, TimeMap, Width, crc_of, is_text, number_size, read_number, read_text,
    write_number,
};

/// Answers the row, if its table is one of numbers, texts, checksums, ids and times.
pub fn answer_number(alloc: Global, row: Row<'_>, said: &mut Vec<u8>) -> Option<()> {
    match row.table {
        "spelled" => answer_spelled(alloc, row.words, said),
        "number" => answer_read(alloc, row.words, said),
        "text_in" => answer_text_in(alloc, row.words, said),
        "text" => answer_text(alloc, row.words, said),
        "bytes" => answer_bytes(alloc, row.words, said),
        "checksum" => put_line(&crc_of(&bytes_of(alloc, row.words)?).to_be_bytes(), said),
        "checksum_long" => answer_checksum_long(alloc, row.words, said),
        "crc" => answer_crc(alloc, row.given, said),
        "crc_in_two" => answer_crc_in_two(alloc, row.words, said),
        "ids" => answer_ids(alloc, row.given, said),
        "times" => make_all(alloc, &mut TimeMap::new(alloc), row.given, said),
        _ => None,
    }
}

// ---- numbers

fn answer_spelled(alloc: Global, word: &str, said: &mut Vec<u8>) -> Option<()> {
    let value: u32 = word.parse().ok()?;
    if value >= 1 << 30 {
        return None;
    }
    put_all(&[b"before"], said)?;
    write_number(said, value).ok()?;
    put_line(b"", said)?;
    put_value(alloc, &number_size(value), said)
}

fn width_of(word: &str) -> Option<Width> {
    let size: usize = word.parse().ok()?;
    if size == Width::Three.bytes() {
        Some(Width::Three)
    } else if size == Width::Four.bytes() {
        Some(Width::Four)
    } else {
        None
    }
}

fn answer_read(alloc: Global, words: &str, said: &mut Vec<u8>) -> Option<()> {
    let (width, bytes) = first_word(words);
    let width = width_of(width)?;
    let bytes = bytes_of(alloc, bytes)?;
    put_value(alloc, &read_number(&bytes, width), said)
}

// ---- texts

fn answer_text_in(alloc: Global, words: &str, said: &mut Vec<u8>) -> Option<()> {
    let bytes = bytes_of(alloc, words)?;
    put_value(alloc, &read_text(&bytes), said)
}

fn put_twice(text: &Text, said: &mut Vec<u8>) -> Option<()> {
    put_line(text.bytes(), said)?;
    let copy = text.copy().ok()?;
    put_line(copy.bytes(), said)
}

fn answer_text(alloc: Global, words: &str, said: &mut Vec<u8>) -> Option<()> {
    let bytes = bytes_of(alloc, words)?;
    put_value(alloc, &is_text(&bytes), said)?;
    match Text::new(alloc, &bytes) {
        Ok(text) => put_twice(&text, said),
        Err(fault) => put_value(alloc, &fault, said),
    }
}

fn answer_bytes(alloc: Global, words: &str, said: &mut Vec<u8>) -> Option<()> {
    let bytes = bytes_of(alloc, words)?;
    let owned = Bytes::new(alloc, &bytes).ok()?;
    put_line(owned.bytes(), said)
}

// ---- checksums

// So many bytes, of which each is one more than that before, and 0 stands behind 250.
fn push_counted(count: u32, bytes: &mut Vec<u8>) -> Option<()> {
    for index in 0..count {
        bytes.push((index % 251) as u8).ok()?;
    }
    Some(())
}

fn answer_checksum_long(alloc: Global, word: &str, said: &mut Vec<u8>) -> Option<()> {
    let mut bytes = Vec::new(alloc);
    push_counted(word.parse().ok()?, &mut bytes)?;
    put_line(&crc_of(&bytes).to_be_bytes(), said)
}

fn answer_crc(alloc: Global, pieces: &[&str], said: &mut Vec<u8>) -> Option<()> {
    let mut crc = Crc::new();
    for piece in pieces {
        crc.add(&bytes_of(alloc, piece)?);
    }
    put_line(&crc.value().to_be_bytes(), said)
}

fn crc_in_two(bytes: &[u8], cut: usize) -> Option<u32> {
    let (front, behind) = bytes.split_at_checked(cut)?;
    let mut crc = Crc::new();
    crc.add(front);
    crc.add(behind);
    Some(crc.value())
}

// In how many places the bytes can be cut so that their checksum stays.
fn cuts_of(bytes: &[u8]) -> usize {
    let whole = crc_of(bytes);
    let mut cuts: usize = 0;
    for cut in 0..=bytes.len() {
        if crc_in_two(bytes, cut) == Some(whole) {
            cuts = cuts.saturating_add(1);
        }
    }
    cuts
}

fn cuts_of_fronts(bytes: &[u8]) -> usize {
    let mut cuts: usize = 0;
    for len in 0..=bytes.len() {
        cuts = cuts.saturating_add(cuts_of(&bytes[..len]));
    }
    cuts
}

fn answer_crc_in_two(alloc: Global, words: &str, said: &mut Vec<u8>) -> Option<()> {
    let bytes = bytes_of(alloc, words)?;
    put_value(alloc, &cuts_of_fronts(&bytes), said)
}

// ---- ids and times

fn push_ids(alloc: Global, lines: &[&str], ids: &mut IdList) -> Option<()> {
    for line in lines {
        ids.push(text_of(alloc, line)?).ok()?;
    }
    Some(())
}

// The ids as they are lent, and as they are moved out.
fn answer_ids(alloc: Global, lines: &[&str], said: &mut Vec<u8>) -> Option<()> {
    let mut ids = IdList::new(alloc);
    push_ids(alloc, lines, &mut ids)?;
    put_texts(ids.list(), said)?;
    put_texts(&ids.into_list(), said)
}

fn put_time(alloc: Global, times: &mut TimeMap, words: &str, said: &mut Vec<u8>) -> Option<()> {
    let (id, time) = first_word(words);
    let id = text_of(alloc, id)?;
    put_value(alloc, &times.put(&id, time.parse().ok()?), said)
}

impl Calls for TimeMap {
    fn call(&mut self, alloc: Global, name: &str, words: &str, said: &mut Vec<u8>) -> Option<()> {
        match name {
            "put" => put_time(alloc, self, words, said),
            "get" => put_value(alloc, &self.get(&text_of(alloc, words)?), said),
            "ids" => put_texts(self.ids(alloc).ok()?.list(), said),
            _ => None,
        }
    }
}
