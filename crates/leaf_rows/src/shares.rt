//! Patterns of ids, and shares of workers. Ids stand in a line with spaces between, and so do patterns.

use crate::fields::{field, ids_of, text_in, text_of};
use crate::told::{put_line, put_texts, put_value};
use partition_times::{Filters, Groups, partition, pick};
use std::alloc::Global;
use sub_number::{IdList, TimeMap};

fn put_picked(alloc: Global, filters: &Filters, ids: &str, said: &mut Vec<u8>) -> Option<()> {
    let ids = ids_of(alloc, ids, ' ')?;
    let picked = pick(alloc, &ids, filters).ok()?;
    put_texts(picked.list(), said)
}

// What is picked of the ids of each line, behind a line that tells where there is no pattern.
fn put_each_picked(
    alloc: Global,
    filters: &Filters,
    lines: &[&str],
    said: &mut Vec<u8>,
) -> Option<()> {
    if filters.is_empty() {
        put_line(b"no pattern", said)?;
    }
    for line in lines {
        put_picked(alloc, filters, line, said)?;
    }
    Some(())
}

/// Answers which ids of each line the patterns pick, or which pattern is bad.
pub fn answer_pick(alloc: Global, words: &str, lines: &[&str], said: &mut Vec<u8>) -> Option<()> {
    let patterns = ids_of(alloc, words, ' ')?;
    match Filters::new(alloc, patterns.list()) {
        Ok(filters) => put_each_picked(alloc, &filters, lines, said),
        Err(fault) => put_value(alloc, &fault, said),
    }
}

fn put_found(alloc: Global, filters: &Filters, line: &str, said: &mut Vec<u8>) -> Option<()> {
    let text = text_of(alloc, line)?;
    put_value(alloc, &filters.found(alloc, &text), said)
}

fn put_each_found(
    alloc: Global,
    filters: &Filters,
    lines: &[&str],
    said: &mut Vec<u8>,
) -> Option<()> {
    for line in lines {
        put_found(alloc, filters, line, said)?;
    }
    Some(())
}

/// Answers whether one of the patterns is found in each text.
pub fn answer_found(alloc: Global, words: &str, lines: &[&str], said: &mut Vec<u8>) -> Option<()> {
    let patterns = ids_of(alloc, words, ' ')?;
    let filters = Filters::new(alloc, patterns.list()).ok()?;
    put_each_found(alloc, &filters, lines, said)
}

// ---- shares

// The seconds of an id, as `a:5`.
fn put_time(alloc: Global, word: &str, times: &mut TimeMap) -> Option<()> {
    let (id, seconds) = word.split_once(':')?;
    let seconds: u64 = seconds.parse().ok()?;
    let nanos = seconds.checked_mul(1_000_000_000)?;
    times.put(&text_of(alloc, id)?, nanos).ok()
}

fn put_times(alloc: Global, list: &str, times: &mut TimeMap) -> Option<()> {
    for word in list.split(',') {
        put_time(alloc, word, times)?;
    }
    Some(())
}

fn times_of(alloc: Global, words: &str) -> Option<TimeMap> {
    let mut times = TimeMap::new(alloc);
    if let Some(list) = field(words, "times=") {
        put_times(alloc, list, &mut times)?;
    }
    Some(times)
}

fn put_each(shares: &[IdList], said: &mut Vec<u8>) -> Option<()> {
    for share in shares {
        put_texts(share.list(), said)?;
    }
    Some(())
}

fn put_shares(
    alloc: Global,
    groups: &Groups,
    words: &str,
    ids: &IdList,
    said: &mut Vec<u8>,
) -> Option<()> {
    let workers: u32 = field(words, "workers=")?.parse().ok()?;
    let times = times_of(alloc, words)?;
    let shares = partition(alloc, ids, &times, groups, workers.max(1)).ok()?;
    put_each(&shares, said)
}

/// Answers the share of each worker, of ids in a line, with these `workers=`, `times=` and `groups=`, or that the pattern
/// of groups is bad.
pub fn answer_partition(
    alloc: Global,
    words: &str,
    lines: &[&str],
    said: &mut Vec<u8>,
) -> Option<()> {
    let ids = ids_of(alloc, lines.first()?, ' ')?;
    let pattern = text_in(alloc, words, "groups=")?;
    match Groups::new(alloc, pattern.as_ref()) {
        Ok(groups) => put_shares(alloc, &groups, words, &ids, said),
        Err(fault) => put_value(alloc, &fault, said),
    }
}
