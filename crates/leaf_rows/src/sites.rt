//! Files by name in memory.

use crate::fields::{fails_of, first_word, owned_bytes, text_of};
use crate::told::{Calls, make_all, put_line, put_value};
use edge_io::{MapSite, Site, read_file};
use std::alloc::Global;

fn put(alloc: Global, site: &mut MapSite, words: &str, said: &mut Vec<u8>) -> Option<()> {
    let (name, bytes) = first_word(words);
    let name = text_of(alloc, name)?;
    let bytes = owned_bytes(alloc, bytes)?;
    put_value(alloc, &site.put(name, bytes), said)
}

// A read of four bytes from a place on, and what stands in the buffer then.
fn read(alloc: Global, site: &mut MapSite, words: &str, said: &mut Vec<u8>) -> Option<()> {
    let (name, place) = first_word(words);
    let mut buf = [0u8; 4];
    let found = site.read_at(name, place.parse().ok()?, &mut buf);
    put_value(alloc, &found, said)?;
    if found.is_err() {
        return Some(());
    }
    put_line(&buf, said)
}

fn read_whole(alloc: Global, site: &mut MapSite, words: &str, said: &mut Vec<u8>) -> Option<()> {
    let (name, most) = first_word(words);
    match read_file(alloc, site, name, most.parse().ok()?) {
        Ok(Some(bytes)) => put_line(&bytes, said),
        Ok(None) => put_line(b"none", said),
        Err(fault) => put_value(alloc, &fault, said),
    }
}

impl Calls for MapSite {
    fn call(&mut self, alloc: Global, name: &str, words: &str, said: &mut Vec<u8>) -> Option<()> {
        match name {
            "put" => put(alloc, self, words, said),
            "read" => read(alloc, self, words, said),
            "read_file" => read_whole(alloc, self, words, said),
            _ => None,
        }
    }
}

/// Answers calls of an empty site, of which these reads are to fail: `fails=`.
pub fn answer_site(alloc: Global, words: &str, lines: &[&str], said: &mut Vec<u8>) -> Option<()> {
    let mut site = MapSite::new(alloc, fails_of(alloc, words, "fails=")?);
    make_all(alloc, &mut site, lines, said)
}
