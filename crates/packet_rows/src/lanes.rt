//! What lanes give.

use crate::fields::{field, first_word, lane_of, text_of};
use crate::streams::{InPieces, answer_in_pieces};
use crate::told::{put_line, put_value};
use edge_io::{Child, Failed, Finish, PlanChild};
use row_book::put_all;
use std::alloc::Global;
use std::sync::atomic::{AtomicBool, Ordering};
use sub_number::{Bytes, Text};
use worker_lane::{Lane, Lot};

/// How a child ends, as in `exit:7`.
pub fn finish_of(word: &str) -> Option<Finish> {
    match word {
        "read_fault" => Some(Finish::ReadFault),
        "wait_fault" => Some(Finish::WaitFault),
        _ => Some(Finish::Exit(word.strip_prefix("exit:")?.parse().ok()?)),
    }
}

fn push_ids(alloc: Global, list: &str, ids: &mut Vec<Text>) -> Option<()> {
    if list.is_empty() {
        return Some(());
    }
    for id in list.split(',') {
        ids.push(text_of(alloc, id)?).ok()?;
    }
    Some(())
}

// A lane goes to another thread.
fn may_be_sent<T: Send>(_: &T) {}

// Appends a line of the packet, and of so many that stand behind it where no read is needed for them.
fn put_packets<C: Child>(
    lane: &mut Lane<C>,
    more: u32,
    packet: &[u8],
    said: &mut Vec<u8>,
) -> Option<()> {
    put_all(&[packet], said)?;
    for _ in 0..more {
        if !lane.more_into(said) {
            break;
        }
    }
    put_line(b"", said)
}

// Appends the lane's packets and its end, behind which nothing may come.
fn put_lots<C: Child>(
    alloc: Global,
    lane: &mut Lane<C>,
    more: u32,
    said: &mut Vec<u8>,
) -> Option<()> {
    for _ in 0..1000 {
        match lane.step()? {
            Lot::Packet(packet) => put_packets(lane, more, packet.bytes(), said)?,
            Lot::End(ending) => {
                put_value(alloc, &ending, said)?;
                return lane.step().is_none().then_some(());
            }
        }
    }
    None
}

// A lane over a child that gives the stream, whose job names these ids.
#[derive(Drop)]
struct Asked<'i> {
    number: u32,
    finish: Finish,
    ids: &'i [Text],
    // So many packets at most are taken with one of a step.
    more: u32,
}

impl<'i> InPieces for Asked<'i> {
    fn put(&self, alloc: Global, stream: &[u8], size: usize, said: &mut Vec<u8>) -> Option<()> {
        if self.number > 63 {
            return None;
        }
        let output = Bytes::new(alloc, stream).ok()?;
        let child = PlanChild::new(output, size.max(1), self.finish);
        let mut lane = Lane::new(alloc, self.number, child, self.ids).ok()?;
        may_be_sent(&lane);
        put_lots(alloc, &mut lane, self.more, said)
    }
}

/// Answers what a lane gives. So many packets at most are taken with one of a step.
pub fn answer_lane(
    alloc: Global,
    more: u32,
    words: &str,
    given: &[u8],
    said: &mut Vec<u8>,
) -> Option<()> {
    let (number, words) = first_word(words);
    let number = lane_of(number)?;
    let (finish, words) = first_word(words);
    let finish = finish_of(finish)?;
    let mut ids = Vec::new(alloc);
    push_ids(alloc, field(words, "ids=")?, &mut ids)?;
    let asked = Asked {
        number,
        finish,
        ids: &ids,
        more,
    };
    answer_in_pieces(alloc, &asked, words, given, said)
}

// ---- a child whose reads fail

// A child of which nothing is told, and whose reads fail. It notes whether it was stopped before it was waited for.
#[derive(Drop)]
struct Broken<'n> {
    faults: u64,
    stopped: bool,
    stopped_then: &'n AtomicBool,
}

impl<'n> Child for Broken<'n> {
    ghost use Rattle.std.specs.Prelude.{None};

    ghost seen = { λ s. record { told = None; faults = s.faults } };

    fn read(&mut self, _buf: &mut [u8]) -> Result<usize, Failed> {
        self.faults = self.faults.saturating_add(1);
        Err(Failed)
    }

    fn wait(&mut self) -> Result<i32, Failed> {
        self.stopped_then.store(self.stopped, Ordering::SeqCst);
        Ok(-15)
    }

    fn stop(&mut self) {
        self.stopped = true;
    }

    ghost are_bytes = { λ s. tt };

    ghost has_finish = { λ s. tt };
}

fn put_broken(alloc: Global, stopped_then: &AtomicBool, said: &mut Vec<u8>) -> Option<()> {
    let child = Broken {
        faults: 0,
        stopped: false,
        stopped_then,
    };
    let mut lane = Lane::new(alloc, 0, child, &[]).ok()?;
    put_lots(alloc, &mut lane, 0, said)
}

/// Answers what lane 0 gives over such a child, and whether it stops the child before it waits for it.
pub fn answer_broken(alloc: Global, said: &mut Vec<u8>) -> Option<()> {
    let stopped_then = AtomicBool::new(false);
    put_broken(alloc, &stopped_then, said)?;
    let stopped = stopped_then.load(Ordering::SeqCst);
    put_line(if stopped { b"stopped" } else { b"not stopped" }, said)
}
