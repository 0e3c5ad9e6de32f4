//! What is recorded of streams, and of how a child ended.

ghost use Rattle.std.specs.Prelude.{◌<◌};

use crate::fields::{first_word, lane_of};
use crate::lanes::finish_of;
use crate::streams::{InPieces, Notes, Steps, answer_in_pieces, pieces, put_steps};
use crate::told::put_line;
use edge_io::Finish;
use row_book::put_all;
use std::alloc::Global;
use stream_reader::ROOM;
use sub_number::Bytes;
use worker_lane::{Ending, Scribe, recorded_of_pieces};

/// Answers the row, whose table is one of what is recorded.
pub fn answer(
    alloc: Global,
    table: &str,
    words: &str,
    given: &[u8],
    said: &mut Vec<u8>,
) -> Option<()> {
    let (word, words) = first_word(words);
    let lane = lane_of(word)?;
    match table {
        "scribe" => answer_scribe(alloc, lane, words, given, said),
        "ending" => answer_ending(alloc, lane, words, said),
        _ => {
            let as_notes = table == "recorded_notes";
            answer_in_pieces(alloc, &Recorded { lane, as_notes }, words, given, said)
        }
    }
}

// What is recorded under the lane: its packets, or the notes of these.
#[derive(Drop)]
struct Recorded {
    lane: u32,
    as_notes: bool,
}

impl InPieces for Recorded {
    fn put(&self, alloc: Global, stream: &[u8], size: usize, said: &mut Vec<u8>) -> Option<()> {
        if self.lane > 63 {
            return None;
        }
        let pieces = pieces(alloc, stream, size)?;
        let recorded = recorded_of_pieces(alloc, self.lane, &pieces).ok()?;
        if self.as_notes {
            let notes = Notes { as_sizes: false };
            notes.put(alloc, &recorded, 65_536, said)
        } else {
            put_line(&recorded, said)
        }
    }
}

fn put_packet(packet: Option<Bytes>, said: &mut Vec<u8>) -> Option<()> {
    match packet {
        Some(packet) => put_all(&[packet.bytes()], said),
        None => put_all(&[b"none"], said),
    }
}

impl Steps for Scribe {
    // `next` gives a packet, and `next_into` appends one.
    fn step(&mut self, name: &str, said: &mut Vec<u8>) -> Option<usize> {
        match name {
            "next" => put_packet(self.next().ok()?, said)?,
            "next_into" => {
                let some = self.next_into(said).ok()?;
                put_all(&[if some { b"" } else { b"none" }], said)?;
            }
            _ => return None,
        }
        put_all(&[b", "], said)?;
        Some(self.held())
    }
}

// The steps of a scribe to which the bytes are fed.
fn answer_scribe(
    alloc: Global,
    lane: u32,
    words: &str,
    given: &[u8],
    said: &mut Vec<u8>,
) -> Option<()>
    requires { lane < 64 }
{
    let mut scribe = Scribe::new(alloc, lane).ok()?;
    if given.len() > ROOM {
        return None;
    }
    scribe.feed(given);
    put_steps(&mut scribe, words, said)
}

// The packet that tells of the end.
fn answer_ending(alloc: Global, lane: u32, words: &str, said: &mut Vec<u8>) -> Option<()>
    requires { lane < 64 }
{
    let ending = match finish_of(words)? {
        Finish::Exit(status) => Ending::Exit(status),
        _ => Ending::Fault,
    };
    let scribe = Scribe::new(alloc, lane).ok()?;
    put_packet(scribe.ending(&ending).ok()?, said)?;
    put_line(b"", said)
}
