//! Records an input as it is read: each piece of it becomes packets, which are written behind the draft, and heard as
//! they are. A piece may decide very many, so they are written as soon as they have `PIECE` bytes: less than that and one
//! packet are held at most.

ghost use Rattle.std.specs.Prelude.{◌≡◌, ◌<◌, ◌≤◌, [], true, false, length, IfOk, IfErr, OnOk};
ghost use Rattle.edge_io.specs.Steps.{Goes, Grown, HasDraft};
ghost use Rattle.packet_codec.specs.Grammar.{AreBytes};
ghost use Rattle.packet_codec.specs.Packets.{ArePackets};
ghost use Rattle.run_shelf.specs.Drafts.{SameButDraft};
ghost use Rattle.stream_reader.specs.Room.{most_held};
ghost use Rattle.command_steps.specs.Outside.{fed};
ghost use Rattle.command_steps.specs.Hearing.{HearsMore, MayStop};
ghost use Rattle.command_steps.specs.Recording.{RecordsBytes, RecordsPieces, WritesPackets, IsOneMore, most_gathered, HasRecordCause, HasWriteCause, record_exit_status, record_text};
ghost use Rattle.command_steps.specs.Telling.{line_text};
ghost use Rattle.command_steps.specs.declared.input_recorder.RecordFault.TheVariants.{Shelf as ShelfFailed, Input, NoMemory};
ghost use Rattle.worker_lane.specs.Scribing.{Recording, GivesPacket, GivesPackets, HasNone, most_left};

use crate::refusal_line::{Line, Part};
use edge_io::{Failed, MOST_BYTES, PIECE, Shelf, Source};
use run_shelf::{ShelfCall, add_packet};
use std::alloc::Global;
use worker_lane::Scribe;
use worker_mux::Listener;

/// Why an input was not recorded whole.
#[derive(Clone, Copy, Debug, PartialEq, Eq)]
pub enum RecordFault<'a> {
    /// This call of the repository's folder failed.
    Shelf(ShelfCall),
    /// A read of the input failed.
    Input,
    /// The input has more than `MOST_BYTES`.
    TooLong,
    /// A read of a file failed.
    Site,
    /// There is no file of this name.
    NoFile(&'a str),
    /// The file of this name has more than `MOST_BYTES`.
    FileTooLong(&'a str),
    /// There is not enough memory.
    NoMemory,
}

impl<'a> RecordFault<'a> {
    /// The exit status.
    pub fn exit_status(self) -> u8
        ensures { result ≡ record_exit_status self.entry }
    {
        match self {
            RecordFault::Shelf(_) | RecordFault::Input | RecordFault::Site => 4,
            RecordFault::TooLong | RecordFault::NoFile(_) | RecordFault::FileTooLong(_) => 3,
            RecordFault::NoMemory => 5,
        }
    }

    /// The line that tells of it.
    pub fn line(self) -> Line<'a>
        ensures { line_text result ≡ record_text self.entry }
    {
        match self {
            RecordFault::Shelf(_) => Line::of("testr: fault of the repository folder\n"),
            RecordFault::Input => Line::of("testr: fault reading standard input\n"),
            RecordFault::TooLong => Line::of("testr: standard input is too long\n"),
            RecordFault::Site => Line::of("testr: fault reading a file\n"),
            RecordFault::NoFile(name) => Line {
                front: "testr: no file ",
                part: Part::Name(name),
                rest: "\n",
            },
            RecordFault::FileTooLong(name) => Line {
                front: "testr: ",
                part: Part::Name(name),
                rest: " is too long\n",
            },
            RecordFault::NoMemory => Line::of("testr: out of memory\n"),
        }
    }
}

impl<'a> From<ShelfCall> for RecordFault<'a> {
    ghost from_gives = { λ call fault. fault ≡ ShelfFailed call };

    fn from(call: ShelfCall) -> Self {
        RecordFault::Shelf(call)
    }
}

impl<'a> From<Failed> for RecordFault<'a> {
    ghost from_gives = { λ _ fault. fault ≡ Input };

    fn from(_: Failed) -> Self {
        RecordFault::Input
    }
}

impl<'a> From<sub_number::NoMemory> for RecordFault<'a> {
    ghost from_gives = { λ _ fault. fault ≡ NoMemory };

    fn from(_: sub_number::NoMemory) -> Self {
        RecordFault::NoMemory
    }
}

/// Records the input under lane 0, behind the draft that was begun, and lets what was written be heard. It is read in
/// pieces, to its end.
pub(crate) fn record_input<H: Shelf, I: Source, L: Listener>(
    alloc: Global,
    shelf: &mut H,
    input: &mut I,
    listener: &mut L,
) -> Result<(), RecordFault<'static>>
    requires draft { HasDraft (H.seen shelf.old).told }
    ensures recorded { OnOk result (RecordsBytes
        (fed (H.seen shelf.old) (I.seen input.old))
        (fed (H.seen shelf.new) (I.seen input.new))
        (HearsMore L.heard listener.old listener.new)) }
    ensures draft { OnOk result (HasDraft (H.seen shelf.new).told) }
    ensures rests { Goes (H.seen shelf.old).told (H.seen shelf.new).told SameButDraft }
    ensures refused { IfErr result (HasRecordCause
        (fed (H.seen shelf.old) (I.seen input.old))
        (fed (H.seen shelf.new) (I.seen input.new))) }
    ensures stops { MayStop L.heard L.keeps listener.old listener.new }
{
    let mut scribe = Scribe::new(alloc, 0)?;
    let mut packets = Vec::new(alloc);
    record_pieces(shelf, input, &mut scribe, listener, &mut packets)?;
    scribe.finish();
    write_packets(shelf, &mut scribe, listener, &mut packets)?;
    Ok(())
}

// Records the input piece by piece, up to its end, which the scribe is not told.
fn record_pieces<H: Shelf, I: Source, L: Listener>(
    shelf: &mut H,
    input: &mut I,
    scribe: &mut Scribe,
    listener: &mut L,
    packets: &mut Vec<u8>,
) -> Result<(), RecordFault<'static>>
    requires draft { HasDraft (H.seen shelf.old).told }
    requires going_on { scribe.old.held.ended ≡ false }
    requires held { length scribe.old.held.bytes ≤ most_held }
    requires recording { Recording [] scribe.old [] }
    requires empty { packets.old.items ≡ [] }
    ensures recorded { OnOk result (RecordsPieces
        (fed (H.seen shelf.old) (I.seen input.old))
        (fed (H.seen shelf.new) (I.seen input.new))
        scribe.new (HearsMore L.heard listener.old listener.new)) }
    ensures draft { OnOk result (HasDraft (H.seen shelf.new).told) }
    ensures lane { OnOk result (scribe.new.lane ≡ scribe.old.lane) }
    ensures going_on { OnOk result (scribe.new.held.ended ≡ false) }
    ensures empty { OnOk result (packets.new.items ≡ []) }
    ensures rests { Goes (H.seen shelf.old).told (H.seen shelf.new).told SameButDraft }
    ensures refused { IfErr result (HasRecordCause
        (fed (H.seen shelf.old) (I.seen input.old))
        (fed (H.seen shelf.new) (I.seen input.new))) }
    ensures stops { MayStop L.heard L.keeps listener.old listener.new }
{
    let mut piece = [0u8; PIECE];
    let mut total = 0;
    loop {
        let count = input.read(&mut piece)?;
        if count == 0 {
            return Ok(());
        }
        total += count;
        if total > MOST_BYTES {
            return Err(RecordFault::TooLong);
        }
        scribe.feed(&piece[..count]);
        write_packets(shelf, scribe, listener, packets)?;
    }
}

// Writes all packets that are decided by now behind the draft, and lets them be heard. None are gathered before, nor afterwards.
pub(crate) fn write_packets<'a, H: Shelf, L: Listener>(
    shelf: &mut H,
    scribe: &mut Scribe,
    listener: &mut L,
    packets: &mut Vec<u8>,
) -> Result<(), RecordFault<'a>>
    requires draft { HasDraft (H.seen shelf.old).told }
    requires empty { packets.old.items ≡ [] }
    ensures written { OnOk result (WritesPackets (H.seen shelf.old) (H.seen shelf.new) scribe.old scribe.new (HearsMore L.heard listener.old listener.new)) }
    ensures none { OnOk result (HasNone scribe.new) }
    ensures held { OnOk result (scribe.new.held.ended ≡ false → length scribe.new.held.bytes ≤ most_held) }
    ensures empty { OnOk result (packets.new.items ≡ []) }
    ensures draft { OnOk result (HasDraft (H.seen shelf.new).told) }
    ensures rests { Goes (H.seen shelf.old).told (H.seen shelf.new).told SameButDraft }
    ensures refused { IfErr result (HasWriteCause (H.seen shelf.old) (H.seen shelf.new)) }
    ensures stops { MayStop L.heard L.keeps listener.old listener.new }
{
    loop {
        let more = gather_packets(scribe, packets)?;
        write_gathered(shelf, listener, packets)?;
        if !more {
            return Ok(());
        }
    }
}

// Gathers packets until they have `PIECE` bytes or more, and answers true then; false where no more are decided by now.
fn gather_packets(scribe: &mut Scribe, packets: &mut Vec<u8>) -> Result<bool, sub_number::NoMemory>
    requires { packets.old.items ≡ [] }
    ensures given { GivesPackets scribe.old [] scribe.new packets.new.items }
    ensures packets { OnOk result (ArePackets packets.new.items) }
    ensures shorter { IfOk result (λ more. more ≡ true → most_left scribe.new < most_left scribe.old) }
    ensures one_more { IfOk result (λ more. more ≡ true → IsOneMore scribe.new packets.new.items) }
    ensures none { IfOk result (λ more. more ≡ false → HasNone scribe.new) }
    ensures held { IfOk result (λ more. more ≡ false → scribe.new.held.ended ≡ false → length scribe.new.held.bytes ≤ most_held) }
    ensures few { IfOk result (λ more. more ≡ false → length packets.new.items < most_gathered) }
{
    while scribe.next_into(packets)? {
        if packets.len() >= PIECE {
            return Ok(true);
        }
    }
    Ok(false)
}

// Writes the packets that were gathered behind the draft, and lets them be heard then. Where there are none the folder is not
// called, and nothing is heard.
fn write_gathered<'a, H: Shelf, L: Listener>(
    shelf: &mut H,
    listener: &mut L,
    packets: &mut Vec<u8>,
) -> Result<(), RecordFault<'a>>
    requires draft { HasDraft (H.seen shelf.old).told }
    requires packets { ArePackets packets.old.items }
    ensures idle { packets.old.items ≡ [] → H.clock shelf.new ≡ H.clock shelf.old }
    ensures are_bytes { AreBytes packets.old.items }
    ensures written { OnOk result (Goes (H.seen shelf.old).told (H.seen shelf.new).told (Grown packets.old.items)) }
    ensures heard { OnOk result (HearsMore L.heard listener.old listener.new packets.old.items) }
    ensures empty { OnOk result (packets.new.items ≡ []) }
    ensures draft { OnOk result (HasDraft (H.seen shelf.new).told) }
    ensures rests { Goes (H.seen shelf.old).told (H.seen shelf.new).told SameButDraft }
    ensures count { OnOk result ((H.seen shelf.new).faults ≡ (H.seen shelf.old).faults) }
    ensures refused { IfErr result (HasWriteCause (H.seen shelf.old) (H.seen shelf.new)) }
    ensures stops { MayStop L.heard L.keeps listener.old listener.new }
{
    if packets.is_empty() {
        return Ok(());
    }
    add_packet(shelf, packets)?;
    listener.hear(packets)?;
    packets.clear();
    Ok(())
}
