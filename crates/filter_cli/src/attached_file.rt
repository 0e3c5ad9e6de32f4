//! The input as the file of a job.

ghost use Rattle.std.specs.Prelude.{◌≡◌, ◌∷◌, [], ◌++◌, ◌<◌, ◌≤◌, ℕ, List, length, OnOk, IfSome};
ghost use Rattle.filter_cli.specs.Pumping.{Pumps, in_no_packet, WritesFirst};
ghost use Rattle.packet_codec.specs.Canonical.{canonical, packets_of};
ghost use Rattle.sub_export.specs.Output.{last_event, piece_size, pieces_of};
ghost use Rattle.filter_cli.specs.Attached.{events_of_pieces, HasAttached, IsAttachedOutput, IsOutputSeen, WritesAlone};
ghost use Rattle.filter_cli.specs.Pipe.{Adds, pipe};

use crate::filter::{Filter, StreamEnd};
use crate::pump_loop::{PumpFault, pump};
use edge_io::{Sink, Source, write_whole};
use packet_codec::encode;
use std::alloc::Global;
use sub_export::OutputJob;
use sub_number::NoMemory;

const PIECE_SIZE: usize = 65_536;

/// Gives the events of a job, of which the input is the file: each piece of 65,536 bytes where it is full, and at the end
/// the rest and the last event.
#[derive(Drop)]
pub(crate) struct AttachFilter {
    job: OutputJob,
    held: Vec<u8>,
}

impl AttachFilter {
    /// Nothing was read yet.
    pub(crate) fn new(alloc: Global, job: OutputJob) -> Self
        ensures job { result.job ≡ job }
        ensures held { result.held.items ≡ [] }
    {
        AttachFilter {
            job,
            held: Vec::new(alloc),
        }
    }

    // Takes the next bytes, and gives the piece that is full with them.
    fn add(&mut self, piece: &[u8], text: &mut Vec<u8>) -> Result<(), NoMemory>
        requires held { length self.old.held.items < 65536 }
        requires piece { length piece.now ≤ 65536 }
        ensures held { OnOk result (length self.new.held.items < 65536) }
        ensures job { self.new.job ≡ self.old.job }
        ensures added { (fed shown : List ℕ) → HasAttached self.old.job self.old.held.items fed shown → OnOk result (Adds text.old.items text.new.items (λ more. HasAttached self.new.job self.new.held.items (fed ++ piece.now) (shown ++ more))) }
    {
        let room = PIECE_SIZE - self.held.len();
        if piece.len() < room {
            self.held.extend_from_slice(piece)?;
            return Ok(());
        }
        self.held.extend_from_slice(&piece[..room])?;
        put_piece(&self.job, &self.held, text)?;
        self.held.clear();
        self.held.extend_from_slice(&piece[room..])?;
        Ok(())
    }
}

// Appends the packet of a piece, where a file is attached.
fn put_piece(job: &OutputJob, piece: &[u8], text: &mut Vec<u8>) -> Result<(), NoMemory>
    requires short { length piece.now ≤ piece_size }
    ensures { OnOk result (text.new.items ≡ text.old.items ++ packets_of (events_of_pieces job.now (piece.now ∷ []))) }
{
    if !job.attaches() {
        return Ok(());
    }
    let event = job.piece(piece)?;
    encode(&event, text)?;
    Ok(())
}

// Appends the packet of the last piece, where there is one.
fn put_rest(job: &OutputJob, rest: &[u8], text: &mut Vec<u8>) -> Result<(), NoMemory>
    requires short { length rest.now < piece_size }
    ensures { OnOk result (text.new.items ≡ text.old.items ++ packets_of (events_of_pieces job.now (pieces_of rest.now))) }
{
    if rest.is_empty() {
        return Ok(());
    }
    put_piece(job, rest, text)?;
    Ok(())
}

// Appends the packet of the last event.
fn put_last(job: &OutputJob, text: &mut Vec<u8>) -> Result<(), NoMemory>
    ensures { OnOk result (text.new.items ≡ text.old.items ++ canonical (last_event job.now)) }
{
    let last = job.last()?;
    encode(&last, text)
}

impl Filter for AttachFilter {
    ghost use Rattle.filter_cli.specs.Pumping.{in_no_packet};
    ghost use Rattle.filter_cli.specs.Attached.{IsOutputSeen, IsAttachedOutput};
    ghost use Rattle.filter_cli.specs.AttachedLaws.{attached_seen, attached_front, attached_one};

    ghost seen = { λ f. IsOutputSeen f.job };

    ghost whole = { λ f. IsAttachedOutput f.job };

    ghost inside = { in_no_packet };

    ghost has = { λ f. HasAttached f.job f.held.items };

    ghost ready = { λ f. length f.held.items < 65536 };

    fn feed(&mut self, piece: &[u8], text: &mut Vec<u8>) -> Result<(), NoMemory> {
        self.add(piece, text)
    }

    fn close(self, text: &mut Vec<u8>) -> Result<StreamEnd, NoMemory> {
        put_rest(&self.job, &self.held, text)?;
        put_last(&self.job, text)?;
        Ok(StreamEnd {
            status: 0,
            inside: false,
        })
    }

    fn let_go(self) {}

    ghost is_seen = { λ f. attached_seen f.job f.held.items };

    ghost front = { λ f. attached_front f.job };

    ghost one = { λ f. attached_one f.job };
}

/// Gives the events of a job, of which the input is the file, to its end. The status is 0.
pub fn attach_stream<I: Source, O: Sink>(
    alloc: Global,
    job: OutputJob,
    input: &mut I,
    out: &mut O,
) -> Result<StreamEnd, PumpFault>
    ensures pumps { Pumps in_no_packet (IsOutputSeen job) (IsAttachedOutput job) (pipe (I.seen input.old) (O.seen out.old)) (pipe (I.seen input.new) (O.seen out.new)) result }
    // At every exit a first part of the input's text was written, and nothing else.
    ensures prefix { IfSome (I.seen input.old).told (WritesFirst (IsAttachedOutput job) (O.seen out.old).told (O.seen out.new).told) }
{
    pump(alloc, AttachFilter::new(alloc, job), input, out)
}

/// Gives the one event of a job that attaches nothing. No input is read. The status is 0.
pub fn give_event<O: Sink>(
    alloc: Global,
    job: &OutputJob,
    out: &mut O,
) -> Result<StreamEnd, PumpFault>
    ensures { WritesAlone (canonical (last_event job.now)) (O.seen out.old) (O.seen out.new) result }
{
    let mut text = Vec::new(alloc);
    put_last(job, &mut text)?;
    let Ok(()) = write_whole(out, &text) else {
        return Err(PumpFault::Output);
    };
    Ok(StreamEnd {
        status: 0,
        inside: false,
    })
}
