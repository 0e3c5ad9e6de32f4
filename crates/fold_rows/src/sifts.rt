//! Rows that rules keep, and events and packets that they let through.

ghost use Rattle.std.specs.Prelude.{◌≡◌};
ghost use Rattle.event_sift.specs.Sifted as events_sifted;
ghost use Rattle.event_sift.specs.Sifted.{rules_asked};
ghost use Rattle.event_sift.specs.PacketSifted as packets_sifted;

use crate::events::{event_of, events_of, tags_of, text_of};
use crate::fields::{are_known, field};
use crate::results::{put_line, put_name, row_of};
use event_sift::{ByRules, PacketSift, Part, Rules, Sift, filtered_events, keeps_row};
use itoa::Buffer;
use packet_codec::{Event, Sight, Status, Tags, see_front};
use partition_times::Filters;
use row_book::put_all;
use std::alloc::Global;
use sub_number::Text;
use trial_events::spelled;

// ---- rules

fn push_pattern(alloc: Global, pattern: Option<&str>, patterns: &mut Vec<Text>) -> Option<()> {
    match pattern {
        Some(pattern) => patterns.push(text_of(alloc, pattern)?).ok(),
        None => Some(()),
    }
}

fn filters_of(alloc: Global, pattern: Option<&str>) -> Option<Filters> {
    let mut patterns = Vec::new(alloc);
    push_pattern(alloc, pattern, &mut patterns)?;
    Filters::new(alloc, &patterns).ok()
}

// The rules by these patterns. Else they are as where nothing is asked for.
fn rules_by(alloc: Global, with_ids: Filters, without_ids: Filters) -> Rules {
    Rules {
        success: false,
        failure: true,
        skip: true,
        xfail: true,
        with_tags: Tags::new(alloc),
        without_tags: Tags::new(alloc),
        with_ids,
        without_ids,
    }
}

fn rules_by_ids(alloc: Global, words: &str) -> Option<Rules> {
    let with_ids = filters_of(alloc, field(words, "ids="))?;
    let without_ids = filters_of(alloc, field(words, "no_ids="))?;
    Some(rules_by(alloc, with_ids, without_ids))
}

// The rules that the words ask for: `success=true`, wanted tags and unwanted ones as in `tags=a,b` and `no_tags=c`, and a
// wanted pattern and an unwanted one, `ids=` and `no_ids=`.
fn rules_of(alloc: Global, words: &str) -> Option<Rules> {
    if !are_known(words, &["success=", "tags=", "no_tags=", "ids=", "no_ids="]) {
        return None;
    }
    let mut rules = rules_by_ids(alloc, words)?;
    rules.success = field(words, "success=") == Some("true");
    rules.with_tags = tags_of(alloc, field(words, "tags=").unwrap_or(""))?;
    rules.without_tags = tags_of(alloc, field(words, "no_tags=").unwrap_or(""))?;
    Some(rules)
}

// ---- rows

fn put_kept(alloc: Global, rules: &Rules, line: &str, out: &mut Vec<u8>) -> Option<()> {
    let row = row_of(alloc, line)?;
    let kept = keeps_row(alloc, rules, &row).ok()?;
    put_line(if kept { b"kept" } else { b"left out" }, out)
}

/// Answers of each row whether the rules keep it.
pub fn answer_keep(alloc: Global, words: &str, lines: &[&str], out: &mut Vec<u8>) -> Option<()> {
    let rules = rules_of(alloc, words)?;
    for line in lines {
        put_kept(alloc, &rules, line, out)?;
    }
    Some(())
}

// ---- events and packets

fn status_word(status: Status) -> &'static [u8] {
    match status {
        Status::Unset => b"unset",
        Status::Exists => b"exists",
        Status::InProgress => b"inprogress",
        Status::Success => b"success",
        Status::UxSuccess => b"uxsuccess",
        Status::Skip => b"skip",
        Status::Fail => b"fail",
        Status::XFail => b"xfail",
    }
}

fn put_event(front: &[u8], event: &Event, out: &mut Vec<u8>) -> Option<()> {
    put_all(&[front], out)?;
    put_name(&event.route, out)?;
    put_all(&[b" "], out)?;
    put_name(&event.id, out)?;
    put_all(&[b" ", status_word(event.status), b"\n"], out)
}

// The route, the id and the status of each event, behind what it is told with.
fn put_events(front: &[u8], events: &[Event], out: &mut Vec<u8>) -> Option<()> {
    for event in events {
        put_event(front, event, out)?;
    }
    Some(())
}

fn put_packet(alloc: Global, event: &Event, out: &mut Vec<u8>) -> Option<()> {
    let packet = spelled(alloc, event)?;
    out.extend_from_slice(&packet).ok()
}

fn packets_of(alloc: Global, events: &[Event]) -> Option<Vec<u8>> {
    let mut packets = Vec::new(alloc);
    for event in events {
        put_packet(alloc, event, &mut packets)?;
    }
    Some(packets)
}

fn hear_bytes(
    sift: &mut PacketSift<'_, ByRules<'_>>,
    bytes: &[u8],
    released: &mut Vec<u8>,
) -> Option<()>
    requires { rules_asked (packets_sifted.packet_predicate_of sift.old) ≡ packets_sifted.packet_rules_of sift.old }
    ensures { rules_asked (packets_sifted.packet_predicate_of sift.new) ≡ packets_sifted.packet_rules_of sift.new }
{
    match see_front(bytes) {
        Sight::Packet(packet) => sift.hear(&packet, released).ok(),
        _ => None,
    }
}

fn hear(
    alloc: Global,
    sift: &mut PacketSift<'_, ByRules<'_>>,
    event: &Event,
    released: &mut Vec<u8>,
) -> Option<()>
    requires { rules_asked (packets_sifted.packet_predicate_of sift.old) ≡ packets_sifted.packet_rules_of sift.old }
    ensures { rules_asked (packets_sifted.packet_predicate_of sift.new) ≡ packets_sifted.packet_rules_of sift.new }
{
    let bytes = spelled(alloc, event)?;
    hear_bytes(sift, &bytes, released)
}

fn hear_all(
    alloc: Global,
    sift: &mut PacketSift<'_, ByRules<'_>>,
    events: &[Event],
    released: &mut Vec<u8>,
) -> Option<()>
    requires { rules_asked (packets_sifted.packet_predicate_of sift.old) ≡ packets_sifted.packet_rules_of sift.old }
    ensures { rules_asked (packets_sifted.packet_predicate_of sift.new) ≡ packets_sifted.packet_rules_of sift.new }
{
    for event in events {
        hear(alloc, sift, event, released)?;
    }
    Some(())
}

fn hear_and_close(
    alloc: Global,
    mut sift: PacketSift<'_, ByRules<'_>>,
    events: &[Event],
    released: &mut Vec<u8>,
) -> Option<()>
    requires { rules_asked (packets_sifted.packet_predicate_of sift) ≡ packets_sifted.packet_rules_of sift }
{
    let heard = hear_all(alloc, &mut sift, events, released);
    let closed = sift.close(released).ok();
    heard.and(closed)
}

fn release(alloc: Global, rules: &Rules, events: &[Event], released: &mut Vec<u8>) -> Option<()> {
    let predicate = ByRules::new(alloc, rules).ok()?;
    let sift = PacketSift::new(alloc, rules, predicate);
    hear_and_close(alloc, sift, events, released)
}

fn packets_released(alloc: Global, rules: &Rules, lines: &[&str]) -> Option<Vec<u8>> {
    let events = events_of(alloc, lines)?;
    let mut released = Vec::new(alloc);
    release(alloc, rules, &events, &mut released)?;
    Some(released)
}

// Whether the packets of these events are released of those of the lines.
fn are_released(alloc: Global, rules: &Rules, lines: &[&str], events: &[Event]) -> Option<bool> {
    let released = packets_released(alloc, rules, lines)?;
    let packets = packets_of(alloc, events)?;
    Some(released.as_slice() == packets.as_slice())
}

/// Answers which events the rules let through of all these, and where other packets are let through of their packets.
pub fn answer_filtered(
    alloc: Global,
    words: &str,
    lines: &[&str],
    out: &mut Vec<u8>,
) -> Option<()> {
    let rules = rules_of(alloc, words)?;
    let events = filtered_events(alloc, &rules, events_of(alloc, lines)?).ok()?;
    put_events(b"", &events, out)?;
    if !are_released(alloc, &rules, lines, &events)? {
        return put_line(b"other packets", out);
    }
    Some(())
}

// ---- step by step

fn put_numbered(title: &[u8], number: usize, events: &[Event], out: &mut Vec<u8>) -> Option<()> {
    let mut digits = Buffer::new();
    let number = digits.format(number).as_bytes();
    for event in events {
        put_all(&[title, number], out)?;
        put_event(b": ", event, out)?;
    }
    Some(())
}

fn put_parts(parts: &[Part], out: &mut Vec<u8>) -> Option<()> {
    let mut number: usize = 0;
    for part in parts {
        number = number.saturating_add(1);
        put_numbered(b"part ", number, part.events(), out)?;
    }
    Some(())
}

fn add(
    sift: &mut Sift<'_, ByRules<'_>>,
    number: usize,
    event: Event,
    out: &mut Vec<u8>,
) -> Option<()>
    requires { rules_asked (events_sifted.predicate_of sift.old) ≡ events_sifted.rules_of sift.old }
    ensures { rules_asked (events_sifted.predicate_of sift.new) ≡ events_sifted.rules_of sift.new }
{
    match sift.add(event) {
        Ok(events) => put_numbered(b"", number, &events, out),
        Err(_) => None,
    }
}

fn add_all(
    alloc: Global,
    sift: &mut Sift<'_, ByRules<'_>>,
    lines: &[&str],
    out: &mut Vec<u8>,
) -> Option<()>
    requires { rules_asked (events_sifted.predicate_of sift.old) ≡ events_sifted.rules_of sift.old }
    ensures { rules_asked (events_sifted.predicate_of sift.new) ≡ events_sifted.rules_of sift.new }
{
    let mut number: usize = 0;
    for line in lines {
        number = number.saturating_add(1);
        add(sift, number, event_of(alloc, line)?, out)?;
    }
    Some(())
}

fn close(sift: Sift<'_, ByRules<'_>>, by_parts: bool, out: &mut Vec<u8>) -> Option<()>
    requires { rules_asked (events_sifted.predicate_of sift) ≡ events_sifted.rules_of sift }
{
    if by_parts {
        let parts = sift.close_parts().ok()?;
        put_parts(&parts, out)
    } else {
        let events = sift.close().ok()?;
        put_events(b"end: ", &events, out)
    }
}

/// Answers what a sift lets through: behind the number of each event, and of open tests at the end, whole or part by part.
pub fn answer_sift(
    alloc: Global,
    by_parts: bool,
    words: &str,
    lines: &[&str],
    out: &mut Vec<u8>,
) -> Option<()> {
    let rules = rules_of(alloc, words)?;
    let predicate = ByRules::new(alloc, &rules).ok()?;
    let mut sift = Sift::new(alloc, &rules, predicate);
    let added = add_all(alloc, &mut sift, lines, out);
    let closed = close(sift, by_parts, out);
    added.and(closed)
}
