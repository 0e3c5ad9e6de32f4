//! Packets that are read.

use crate::events::{put_event, put_field, put_stamp, put_tags, put_text, stamp_of, status_word};
use crate::told::{put_line, put_number, put_value};
use crate::writing;
use packet_codec::{
    Front, Packet, Sight, decode, front_packet, known_packet, look_at_front, see_front,
};
use row_book::put_all;
use std::alloc::Global;

/// Answers the row, if its table is one of packets.
pub fn answer(
    alloc: Global,
    table: &str,
    words: &str,
    given: &[u8],
    said: &mut Vec<u8>,
) -> Option<()> {
    match table {
        "look" => put_value(alloc, &look_at_front(given), said),
        "fronts" => answer_fronts(words.parse().ok()?, given, said),
        "decode" => answer_decode(alloc, given, said),
        "front_packet" => answer_front(alloc, given, said),
        "fields" => answer_fields(alloc, given, said),
        "tag_list" => answer_tag_list(alloc, given, said),
        "instant" => put_number(u128::from(stamp_of(words)?.instant()), b"\n", said),
        _ => writing::answer(alloc, table, words, given, said),
    }
}

// How many fronts of the bytes, from the one of so many bytes on, ask for more.
fn answer_fronts(shortest: usize, given: &[u8], said: &mut Vec<u8>) -> Option<()> {
    let mut count: u32 = 0;
    for size in shortest..given.len() {
        if look_at_front(&given[..size]) == Front::More {
            count = count.saturating_add(1);
        }
    }
    let all = given.len().checked_sub(shortest)?;
    put_number(u128::from(count), b" of ", said)?;
    put_number(all as u128, b" ask for more\n", said)
}

fn answer_decode(alloc: Global, given: &[u8], said: &mut Vec<u8>) -> Option<()> {
    let Front::Packet(size) = look_at_front(given) else {
        return None;
    };
    let event = decode(alloc, &given[..size]).ok()?;
    put_event(&event, said)?;
    put_line(b"", said)
}

// Its size, and its event.
fn answer_front(alloc: Global, given: &[u8], said: &mut Vec<u8>) -> Option<()> {
    let Front::Packet(_) = look_at_front(given) else {
        return None;
    };
    let packet = front_packet(given);
    put_number(packet.size() as u128, b" bytes: ", said)?;
    let event = packet.event(alloc).ok()?;
    put_event(&event, said)?;
    put_line(b"", said)
}

// The fields, each told on its own.
fn put_fields(alloc: Global, packet: &Packet<'_>, said: &mut Vec<u8>) -> Option<()> {
    put_all(&[status_word(packet.status())], said)?;
    put_text(b" id=", &packet.id(alloc).ok()?, said)?;
    put_text(b" route=", &packet.route(alloc).ok()?, said)?;
    put_stamp(packet.stamp(), said)?;
    put_tags(&packet.tags(alloc).ok()?, said)?;
    put_field(b" mime=", packet.mime(), said)?;
    put_field(b" file=", packet.file_name(), said)?;
    put_field(b":", packet.file_bytes(), said)?;
    put_line(b"", said)
}

fn answer_fields(alloc: Global, given: &[u8], said: &mut Vec<u8>) -> Option<()> {
    match look_at_front(given) {
        Front::Packet(size) => put_fields(alloc, &known_packet(&given[..size]), said),
        _ => None,
    }
}

fn put_list(tags: &[&[u8]], said: &mut Vec<u8>) -> Option<()> {
    put_all(&[b"tags"], said)?;
    for tag in tags {
        put_all(&[b" tag=", tag], said)?;
    }
    put_line(b"", said)
}

fn answer_tag_list(alloc: Global, given: &[u8], said: &mut Vec<u8>) -> Option<()> {
    let Sight::Packet(packet) = see_front(given) else {
        return None;
    };
    match packet.tag_list(alloc).ok()? {
        Some(tags) => put_list(&tags, said),
        None => put_line(b"none", said),
    }
}
