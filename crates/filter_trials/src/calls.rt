// Calls of a filter by its words, over streams in memory.

use crate::sources::source;
use edge_io::{ListSink, ListSource, MapSite, Site};
use filter_cli::filters;
use std::alloc::Global;
use sub_number::{Bytes, Text};

// Words as a program is given them.
pub fn owned(alloc: Global, words: &[&str]) -> Option<Vec<String>> {
    let mut owned = Vec::new(alloc);
    for word in words {
        owned.push(word.to_string(alloc).ok()?).ok()?;
    }
    Some(owned)
}

pub fn are_texts(out: &ListSink, err: &ListSink, text: &[u8], line: &[u8]) -> bool {
    out.taken() == text && err.taken() == line
}

// The status of the words over the files and the input.
pub fn ran_over<S: Site>(
    alloc: Global,
    words: &[&str],
    site: &mut S,
    input: &mut ListSource,
    out: &mut ListSink,
    err: &mut ListSink,
) -> Option<u8> {
    let words = owned(alloc, words)?;
    Some(filters(alloc, &words, site, input, out, err))
}

// The same, where there are no files.
pub fn ran(
    alloc: Global,
    words: &[&str],
    input: &mut ListSource,
    out: &mut ListSink,
    err: &mut ListSink,
) -> Option<u8> {
    let mut site = MapSite::new(alloc, Vec::new(alloc));
    ran_over(alloc, words, &mut site, input, out, err)
}

// The reads that fail, and the writes.
pub type Faults = (&'static [u64], &'static [u64]);

pub const NO_FAULT: Faults = (&[], &[]);

// What both sinks were given, and how many bytes were left.
pub type Left<'a> = (&'a [u8], &'a [u8], usize);

// The status of the words over the stream, with these faults, where this is what they leave.
pub fn status_of(
    alloc: Global,
    words: &[&str],
    stream: &[u8],
    faults: &Faults,
    left: &Left<'_>,
) -> Option<u8> {
    let fails = faults.1.to_vec(alloc).ok()?;
    let mut input = source(alloc, stream, faults.0)?;
    let mut out = ListSink::new(alloc, fails);
    let mut err = ListSink::new(alloc, Vec::new(alloc));
    let status = ran(alloc, words, &mut input, &mut out, &mut err);
    if are_texts(&out, &err, left.0, left.1) && input.left().len() == left.2 {
        status
    } else {
        None
    }
}

// Whether it is done, with this text and status.
pub fn gives(alloc: Global, words: &[&str], stream: &[u8], text: &[u8], status: u8) -> bool {
    status_of(alloc, words, stream, &NO_FAULT, &(text, b"", 0)) == Some(status)
}

// Words, a stream, the text that is written of it, and the status.
pub type Done = (&'static [&'static str], &'static [u8], &'static [u8], u8);

pub fn does(alloc: Global, row: &Done) -> bool {
    gives(alloc, row.0, row.1, row.2, row.3)
}

// The file `log` alone, of which these reads fail.
pub fn site_with(alloc: Global, bytes: Vec<u8>, fails: &[u64]) -> Option<MapSite> {
    let mut site = MapSite::new(alloc, fails.to_vec(alloc).ok()?);
    let name = Text::new(alloc, b"log").ok()?;
    site.put(name, Bytes::from_vec(bytes)).ok()?;
    Some(site)
}

// The status of the words over the files, where this is written and this said, and the input is left, which is `x`.
pub fn status_over<S: Site>(
    alloc: Global,
    words: &[&str],
    site: &mut S,
    fails: &[u64],
    told: &Told<'_>,
) -> Option<u8> {
    let mut input = source(alloc, b"x", &[])?;
    let mut out = ListSink::new(alloc, fails.to_vec(alloc).ok()?);
    let mut err = ListSink::new(alloc, Vec::new(alloc));
    let status = ran_over(alloc, words, site, &mut input, &mut out, &mut err);
    if are_texts(&out, &err, told.0, told.1) && input.left().len() == 1 {
        status
    } else {
        None
    }
}

// What is written, and what is said of a refusal.
pub type Told<'a> = (&'a [u8], &'a [u8]);
