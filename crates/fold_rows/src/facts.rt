//! What the rows of a run say together, and texts in their order.

use crate::events::{events_of, tags_of, text_of};
use crate::fields::first_word;
use crate::folds::rows_by;
use crate::results::{put_line, put_nanos, put_number, put_rows, put_texts};
use outcome_fold::{Counts, RowSums, Rows, Summary, TextSet};
use packet_codec::{Event, Sight, see_front};
use row_book::put_all;
use std::alloc::Global;
use sub_number::{IdList, Text, TimeMap};
use trial_events::spelled;

fn put_counts(counts: Counts, out: &mut Vec<u8>) -> Option<()> {
    put_all(&[b"total="], out)?;
    put_number(u128::from(counts.total), out)?;
    put_all(&[b" passed="], out)?;
    put_number(u128::from(counts.passed), out)?;
    put_all(&[b" failed="], out)?;
    put_number(u128::from(counts.failed), out)?;
    put_all(&[b" skipped="], out)?;
    put_number(u128::from(counts.skipped), out)?;
    put_all(&[b" nanos="], out)?;
    put_nanos(counts.nanos, out)?;
    put_line(b"", out)
}

fn put_time(id: &[u8], nanos: Option<u64>, out: &mut Vec<u8>) -> Option<()> {
    put_all(&[id, b" "], out)?;
    put_nanos(nanos.map(u128::from), out)?;
    put_line(b"", out)
}

fn put_text_line(texts: &[Text], out: &mut Vec<u8>) -> Option<()> {
    put_texts(texts, out)?;
    put_line(b"", out)
}

fn put_times_of(times: &TimeMap, ids: &IdList, out: &mut Vec<u8>) -> Option<()> {
    for id in ids.list() {
        put_time(id.bytes(), times.get(id), out)?;
    }
    Some(())
}

fn put_times(alloc: Global, rows: &Rows, out: &mut Vec<u8>) -> Option<()> {
    let times = rows.times(alloc).ok()?;
    let ids = times.ids(alloc).ok()?;
    put_times_of(&times, &ids, out)
}

// The counts without what these tags filter.
fn put_counted(alloc: Global, rows: &Rows, tags: &str, out: &mut Vec<u8>) -> Option<()> {
    let filter = tags_of(alloc, tags)?;
    put_counts(rows.counts(&filter), out)
}

fn put_fact(alloc: Global, rows: &Rows, fact: &str, out: &mut Vec<u8>) -> Option<()> {
    match fact {
        "failing" => put_text_line(rows.failing_ids(alloc).ok()?.list(), out),
        "passed" => put_text_line(rows.passed_ids(alloc).ok()?.list(), out),
        "tags" => put_text_line(rows.seen_tags(alloc).ok()?.list(), out),
        "times" => put_times(alloc, rows, out),
        _ => put_counted(alloc, rows, fact.strip_prefix("counts=")?, out),
    }
}

fn put_facts(alloc: Global, rows: &Rows, facts: &str, out: &mut Vec<u8>) -> Option<()> {
    for fact in facts.split(' ') {
        put_fact(alloc, rows, fact, out)?;
    }
    Some(())
}

/// Answers facts about the rows of a run of these events, in lines: the ids that are `failing` or `passed`, the `times`
/// of ids, the `tags` that are seen, and the counts without what tags filter, as `counts=a,b`.
pub fn answer_facts(alloc: Global, facts: &str, lines: &[&str], out: &mut Vec<u8>) -> Option<()> {
    let events = events_of(alloc, lines)?;
    let rows = rows_by(alloc, false, &events)?;
    put_facts(alloc, &rows, facts, out)
}

// ---- the same where the run is summed up as it is heard

fn hear(alloc: Global, summing: &mut RowSums, event: &Event) -> Option<()> {
    let bytes = spelled(alloc, event)?;
    match see_front(&bytes) {
        Sight::Packet(packet) => summing.hear(&packet).ok(),
        _ => None,
    }
}

fn hear_all(alloc: Global, summing: &mut RowSums, events: &[Event]) -> Option<()> {
    for event in events {
        hear(alloc, summing, event)?;
    }
    Some(())
}

fn summary_of(alloc: Global, filter: &str, events: &[Event]) -> Option<Summary> {
    let mut summing = RowSums::new(alloc, tags_of(alloc, filter)?);
    hear_all(alloc, &mut summing, events)?;
    summing.close().ok()
}

fn put_longest(alloc: Global, summary: &Summary, out: &mut Vec<u8>) -> Option<()> {
    let times = summary.times(alloc).ok()?;
    for timed in times.iter() {
        put_time(timed.id.bytes(), Some(timed.nanos), out)?;
    }
    Some(())
}

fn put_ids(alloc: Global, list: &str, texts: &mut TextSet) -> Option<()> {
    for id in list.split(',') {
        texts.put(text_of(alloc, id)?).ok()?;
    }
    Some(())
}

fn put_set(alloc: Global, texts: TextSet, out: &mut Vec<u8>) -> Option<()> {
    let ids = texts.into_ids(alloc).ok()?;
    put_text_line(ids.list(), out)
}

// The ids of the list, as the run changes them.
fn put_changed(alloc: Global, summary: &Summary, list: &str, out: &mut Vec<u8>) -> Option<()> {
    let mut failed = TextSet::new(alloc);
    put_ids(alloc, list, &mut failed)?;
    summary.change_failing(alloc, &mut failed).ok()?;
    put_set(alloc, failed, out)
}

fn put_sum(alloc: Global, summary: &Summary, fact: &str, out: &mut Vec<u8>) -> Option<()> {
    match fact {
        "rows" => put_rows(b"", summary.failing(), "route id nanos", out),
        "failing" => put_text_line(summary.failing_ids(alloc).ok()?.list(), out),
        "times" => put_longest(alloc, summary, out),
        "counts" => put_counts(summary.counts(), out),
        _ => put_changed(alloc, summary, fact.strip_prefix("failing=")?, out),
    }
}

fn put_sums(alloc: Global, summary: &Summary, facts: &str, out: &mut Vec<u8>) -> Option<()> {
    for fact in facts.split(' ') {
        put_sum(alloc, summary, fact, out)?;
    }
    Some(())
}

/// Answers facts about a run whose events are heard, of which tags filter the counts, as `filter=a,b`: the `rows` that fail,
/// the ids that are `failing`, the `times`, the `counts`, and what it makes of ids that failed before, as `failing=a,b`.
pub fn answer_sums(alloc: Global, words: &str, lines: &[&str], out: &mut Vec<u8>) -> Option<()> {
    let (filter, facts) = first_word(words);
    let events = events_of(alloc, lines)?;
    let summary = summary_of(alloc, filter.strip_prefix("filter=")?, &events)?;
    put_sums(alloc, &summary, facts, out)
}

// ---- texts in their order

fn do_step(alloc: Global, texts: &mut TextSet, step: &str, out: &mut Vec<u8>) -> Option<()> {
    let (verb, name) = first_word(step);
    let named = tags_of(alloc, name)?;
    match (verb, named.list()) {
        ("put", all) => texts.insert_all(all).ok(),
        ("remove", [text]) => {
            texts.remove(text);
            Some(())
        }
        ("has", [text]) => put_line(
            if texts.contains(text) {
                b"true"
            } else {
                b"false"
            },
            out,
        ),
        _ => None,
    }
}

fn do_steps(alloc: Global, texts: &mut TextSet, steps: &[&str], out: &mut Vec<u8>) -> Option<()> {
    for step in steps {
        do_step(alloc, texts, step, out)?;
    }
    Some(())
}

/// Answers what is in a set of texts at the end, and whether it has a text where that is asked.
pub fn answer_set(alloc: Global, steps: &[&str], out: &mut Vec<u8>) -> Option<()> {
    let mut texts = TextSet::new(alloc);
    do_steps(alloc, &mut texts, steps, out)?;
    put_set(alloc, texts, out)
}
