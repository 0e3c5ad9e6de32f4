//! Searches for a cause.

use crate::fields::{first_word, ids_of, text_of};
use crate::told::{Calls, make_all, put_texts, put_value};
use isolation_bisect::{Bisect, Found, Probe, probe_ids};
use std::alloc::Global;

// Answers the probe that is next, and answers it. Nothing may be found before.
fn answer_probe(
    alloc: Global,
    search: &mut Bisect,
    failed: bool,
    said: &mut Vec<u8>,
) -> Option<()> {
    let probe = search.next()?;
    if search.found().is_some() {
        return None;
    }
    search.answer(failed);
    put_value(alloc, &probe, said)
}

impl Calls for Bisect {
    fn call(&mut self, alloc: Global, name: &str, words: &str, said: &mut Vec<u8>) -> Option<()> {
        match (name, words) {
            ("passes", "") => answer_probe(alloc, self, false, said),
            ("fails", "") => answer_probe(alloc, self, true, said),
            ("next", "") => put_value(alloc, &self.next(), said),
            ("found", "") => put_value(alloc, &self.found(), said),
            _ => None,
        }
    }
}

/// Answers which probes a search of so many candidates asks, where these are the answers, and what it finds.
pub fn answer_search(alloc: Global, word: &str, lines: &[&str], said: &mut Vec<u8>) -> Option<()> {
    let mut search = Bisect::new(word.parse().ok()?);
    make_all(alloc, &mut search, lines, said)
}

// How many probes a search asks where this candidate is the cause, 66 at most, and what it finds.
fn searched(candidates: u32, cause: u32) -> Option<(u32, Found)> {
    let mut search = Bisect::new(candidates);
    for count in 0..=66 {
        let Some(probe) = search.next() else {
            return Some((count, search.found()?));
        };
        let failed = match probe {
            Probe::Alone => false,
            Probe::Span { from, to } => from <= cause && cause < to,
        };
        search.answer(failed);
    }
    None
}

/// Answers how many probes a search of so many candidates asks where this one is the cause, and what it finds.
pub fn answer_cause(alloc: Global, words: &str, said: &mut Vec<u8>) -> Option<()> {
    let (candidates, cause) = first_word(words);
    let candidates = candidates.parse().ok()?;
    put_value(alloc, &searched(candidates, cause.parse().ok()?), said)
}

// Whether a search finds each candidate that is the cause, with so many probes at most.
fn finds_each(candidates: u32, most: u32) -> bool {
    for cause in 0..candidates {
        let Some((count, found)) = searched(candidates, cause) else {
            return false;
        };
        if count > most || found != Found::Cause(cause) {
            return false;
        }
    }
    true
}

/// Answers whether each of so many candidates is found where it is the cause, with so many probes at most.
pub fn answer_each_cause(alloc: Global, words: &str, said: &mut Vec<u8>) -> Option<()> {
    let (candidates, most) = first_word(words);
    let candidates = candidates.parse().ok()?;
    put_value(alloc, &finds_each(candidates, most.parse().ok()?), said)
}

// The probe of the test alone, or of candidates, as `1..3`.
fn probe_of(word: &str) -> Option<Probe> {
    if word == "alone" {
        return Some(Probe::Alone);
    }
    let (from, to) = word.split_once("..")?;
    let from = from.parse().ok()?;
    let to = to.parse().ok()?;
    Some(Probe::Span { from, to })
}

/// Answers the ids of the probe, where the first line has the candidates and the second the test.
pub fn answer_probe_ids(
    alloc: Global,
    word: &str,
    lines: &[&str],
    said: &mut Vec<u8>,
) -> Option<()> {
    let [candidates, test] = lines else {
        return None;
    };
    let candidates = ids_of(alloc, candidates, ' ')?;
    let test = text_of(alloc, test)?;
    let probe = probe_of(word)?;
    if let Probe::Span { from, to } = probe
        && (from >= to || to as usize > candidates.list().len())
    {
        return None;
    }
    let ids = probe_ids(alloc, &candidates, &probe, &test).ok()?;
    put_texts(ids.list(), said)
}
