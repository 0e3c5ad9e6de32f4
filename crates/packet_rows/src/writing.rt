//! Events that are written, and packets that are written from their parts.

ghost use Rattle.std.specs.Prelude.{◌<◌};

use crate::events::event_of;
use crate::fields::{first_word, lane_of};
use crate::told::{put_line, put_number};
use packet_codec::{
    Event, FilePart, Front, Packet, Sight, decode, encode, fits, look_at_front, reroute,
    routed_size, see_front, size,
};
use row_book::put_all;
use std::alloc::Global;
use sub_number::Bytes;

/// Answers the row, if its table is one of what is written.
pub fn answer(
    alloc: Global,
    table: &str,
    words: &str,
    given: &[u8],
    said: &mut Vec<u8>,
) -> Option<()> {
    match table {
        "encode" => answer_encode(alloc, words, given, said),
        "reroute" => answer_reroute(alloc, words, said),
        "decode_encode" => answer_again(alloc, given, said),
        _ => answer_respelled(table, words, given, said),
    }
}

// Bytes that are given stand behind those of the event's file.
fn add_given(given: &[u8], event: &mut Event) -> Option<()> {
    if given.is_empty() {
        return Some(());
    }
    let file = event.file.take()?;
    let mut bytes = file.bytes.into_vec();
    bytes.extend_from_slice(given).ok()?;
    event.file = Some(FilePart {
        name: file.name,
        bytes: Bytes::from_vec(bytes),
    });
    Some(())
}

fn answer_encode(alloc: Global, words: &str, given: &[u8], said: &mut Vec<u8>) -> Option<()> {
    let mut event = event_of(alloc, words)?;
    add_given(given, &mut event)?;
    put_written(&event, said)
}

// Its size, and its packet, where it has one.
fn put_written(event: &Event, said: &mut Vec<u8>) -> Option<()> {
    put_number(size(event), b" bytes: ", said)?;
    if !fits(event) {
        return put_line(b"too long", said);
    }
    encode(event, said).ok()?;
    put_line(b"", said)
}

// The size that is told before, and what is written then.
fn put_rerouted(alloc: Global, event: &mut Event, lane: u32, said: &mut Vec<u8>) -> Option<()>
    requires { lane < 64 }
{
    let told = routed_size(event, lane);
    put_number(told, b" bytes are told\n", said)?;
    if told > 4_194_303 {
        return Some(());
    }
    reroute(alloc, event, lane).ok()?;
    put_written(event, said)
}

fn answer_reroute(alloc: Global, words: &str, said: &mut Vec<u8>) -> Option<()> {
    let (lane, words) = first_word(words);
    let lane = lane_of(lane)?;
    let mut event = event_of(alloc, words)?;
    put_rerouted(alloc, &mut event, lane, said)
}

// The packet of the event that is read.
fn answer_again(alloc: Global, given: &[u8], said: &mut Vec<u8>) -> Option<()> {
    let Front::Packet(size) = look_at_front(given) else {
        return None;
    };
    let event = decode(alloc, &given[..size]).ok()?;
    encode(&event, said).ok()?;
    put_line(b"", said)
}

// The words are two tags, or one, or none.
fn put_with_tags(packet: &Packet<'_>, words: &str, said: &mut Vec<u8>) -> Option<bool> {
    match words.split_once(' ') {
        Some((one, other)) => packet
            .put_with_tags(&[one.as_bytes(), other.as_bytes()], said)
            .ok(),
        None if words.is_empty() => packet.put_with_tags(&[], said).ok(),
        None => packet.put_with_tags(&[words.as_bytes()], said).ok(),
    }
}

// Whether it fits. Else nothing is appended.
fn put_respelled(
    table: &str,
    words: &str,
    packet: &Packet<'_>,
    said: &mut Vec<u8>,
) -> Option<bool> {
    match table {
        "put_shortest" => {
            packet.put_shortest(said).ok()?;
            Some(true)
        }
        "put_under" => packet.put_under(lane_of(words)?, said).ok(),
        "put_with_tags" => put_with_tags(packet, words, said),
        _ => None,
    }
}

fn answer_respelled(table: &str, words: &str, given: &[u8], said: &mut Vec<u8>) -> Option<()> {
    let Sight::Packet(packet) = see_front(given) else {
        return None;
    };
    put_all(&[b"put: "], said)?;
    let fits = put_respelled(table, words, &packet, said)?;
    put_line(if fits { b"" } else { b"too long" }, said)
}
