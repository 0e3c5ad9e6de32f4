//! Tags that a tagger gives to events, and to lists of tags that are lent.

use crate::events::{event_of, tags_of};
use crate::fields::{are_known, field};
use crate::results::{put_line, put_list};
use event_sift::Tagger;
use packet_codec::{Event, Tags};
use row_book::put_all;
use std::alloc::Global;
use trial_events::spelled;

// The tagger that the words ask for, as in `add=a,b remove=c`.
fn tagger_of(alloc: Global, words: &str) -> Option<Tagger> {
    if !are_known(words, &["add=", "remove="]) {
        return None;
    }
    let add = tags_of(alloc, field(words, "add=").unwrap_or(""))?;
    let remove = tags_of(alloc, field(words, "remove=").unwrap_or(""))?;
    Some(Tagger::new(alloc, add, remove))
}

fn tagged_event(alloc: Global, words: &str, line: &str) -> Option<Event> {
    let tagger = tagger_of(alloc, words)?;
    let mut event = event_of(alloc, line)?;
    tagger.apply(&mut event).ok()?;
    Some(event)
}

fn put_tags(tags: &Option<Tags>, out: &mut Vec<u8>) -> Option<()> {
    match tags {
        Some(tags) => put_list(tags.list(), out),
        None => put_all(&[b"none"], out),
    }
}

fn put_tagged(alloc: Global, words: &str, line: &str, out: &mut Vec<u8>) -> Option<()> {
    let event = tagged_event(alloc, words, line)?;
    put_tags(&event.tags, out)?;
    put_line(b"", out)
}

/// Answers the tags that each event gets.
pub fn answer_tags(alloc: Global, words: &str, lines: &[&str], out: &mut Vec<u8>) -> Option<()> {
    for line in lines {
        put_tagged(alloc, words, line, out)?;
    }
    Some(())
}

/// Answers the packet of each event with the tags that it gets.
pub fn answer_tagged_packets(
    alloc: Global,
    words: &str,
    lines: &[&str],
    out: &mut Vec<u8>,
) -> Option<()> {
    for line in lines {
        let event = tagged_event(alloc, words, line)?;
        let packet = spelled(alloc, &event)?;
        put_line(&packet, out)?;
    }
    Some(())
}

fn lent_of<'l>(alloc: Global, line: &'l str) -> Option<Vec<&'l [u8]>> {
    let mut lent = Vec::new(alloc);
    for tag in line.split(',') {
        lent.push(tag.as_bytes()).ok()?;
    }
    Some(lent)
}

fn put_lent(tagger: &Tagger, lent: Vec<&[u8]>, out: &mut Vec<u8>) -> Option<()> {
    let tags = tagger.tags_for(lent).ok()?;
    for tag in tags.iter() {
        put_line(tag, out)?;
    }
    Some(())
}

/// Answers what becomes of each list of tags, as `a,b`: each tag in a line.
pub fn answer_lent_tags(
    alloc: Global,
    words: &str,
    lines: &[&str],
    out: &mut Vec<u8>,
) -> Option<()> {
    let tagger = tagger_of(alloc, words)?;
    for line in lines {
        put_lent(&tagger, lent_of(alloc, line)?, out)?;
    }
    Some(())
}
