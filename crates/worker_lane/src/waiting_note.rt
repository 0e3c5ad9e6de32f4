//! What is still to be given of a note.

ghost use Rattle.std.specs.Prelude.{◌≡◌, ◌↔◌, IsTrue, ◌<◌, ◌≤◌, ◌+◌, [], ◌++◌, length, min, ℕ, true, false, IfOk, OnOk, OnErr};
ghost use Rattle.packet_codec.specs.declared.event.Event.{Event as AnEvent};
ghost use Rattle.packet_codec.specs.Canonical.{Fits};
ghost use Rattle.packet_codec.specs.Grammar.{AreBytes};
ghost use Rattle.packet_codec.specs.Halves.{has_halves};
ghost use Rattle.packet_codec.specs.Packet.{IsPacket, SpellsEvent};
ghost use Rattle.packet_codec.specs.Routing.{under};
ghost use Rattle.worker_lane.specs.Recorded.{longest_piece, recorded_event};
ghost use Rattle.worker_lane.specs.Waiting.{waiting_events, pieces_left, half_left, IsHalved, HasWaitingEvent, PutsOne};
ghost use Rattle.worker_lane.specs.declared.waiting_note.Waiting.TheVariants.{Nothing};

use crate::stdout::put_stdout;
use packet_codec::{Packet, known_packet};
use std::alloc::Global;
use sub_number::NoMemory;

// The most bytes of one piece of an event that does not fit.
const LONGEST_PIECE: usize = 65_536;

/// The shortest spelling of an event that does not fit under the lane.
#[derive(Drop)]
pub(crate) struct Spelling {
    pub(crate) bytes: Vec<u8>,
    /// So many of them were given.
    pub(crate) given: usize,
}

/// What is still to be given of a note.
#[derive(Drop)]
pub(crate) enum Waiting {
    Nothing,
    /// The further pieces.
    Pieces(Spelling),
    /// The second half of the event of this packet.
    SecondHalf(Vec<u8>),
}

pub(crate) fn is_nothing(waiting: &Waiting) -> bool
    ensures { IsTrue result ↔ (waiting.now ≡ Nothing) }
{
    matches!(waiting, Waiting::Nothing)
}

/// What was waiting is let go of.
#[inline(always)]
fn wait_for(waiting: &mut Waiting, next: Waiting)
    ensures { waiting.new ≡ next }
{
    *waiting = next;
}

/// Appends the packet of the next event, and answers true. False comes where nothing is waiting.
#[inline(never)]
pub(crate) fn put_first(
    lane: u32,
    waiting: &mut Waiting,
    out: &mut Vec<u8>,
) -> Result<bool, NoMemory>
    requires lane { lane < 64 }
    requires sound { HasWaitingEvent waiting.old }
    ensures sound { HasWaitingEvent waiting.new }
    ensures given { IfOk result (λ given. given ≡ true → PutsOne (waiting_events lane waiting.old) out.old.items (waiting_events lane waiting.new) out.new.items) }
    ensures none { IfOk result (λ given. given ≡ false → (waiting_events lane waiting.old ≡ []) × (waiting.new ≡ waiting.old) × (out.new.items ≡ out.old.items)) }
    ensures err { OnErr result ((waiting_events lane waiting.new ≡ waiting_events lane waiting.old) × (out.new.items ≡ out.old.items)) }
{
    match waiting {
        Waiting::Nothing => Ok(false),
        Waiting::Pieces(spelling) => {
            put_piece(lane, spelling, out)?;
            if spelling.given < spelling.bytes.len() {
                return Ok(true);
            }
            wait_for(waiting, Waiting::Nothing);
            Ok(true)
        }
        Waiting::SecondHalf(packet) => {
            put_second_half(lane, packet, out)?;
            wait_for(waiting, Waiting::Nothing);
            Ok(true)
        }
    }
}

// Appends the packet of the second half of the event of a packet.
fn put_second_half(lane: u32, packet: &[u8], out: &mut Vec<u8>) -> Result<(), NoMemory>
    requires lane { lane < 64 }
    requires halved { IsHalved packet.now }
    ensures ok { OnOk result (PutsOne (half_left lane packet.now) out.old.items [] out.new.items) }
    ensures err { OnErr result (out.new.items ≡ out.old.items) }
{
    known_packet(packet).put_second_half(lane, out)?;
    Ok(())
}

/// Appends the packet of the first event that is recorded of the packet, from where its parts stand. The others wait, if
/// there are any; nothing waited before.
#[inline(always)]
pub(crate) fn put_packet(
    alloc: Global,
    lane: u32,
    packet: &Packet<'_>,
    waiting: &mut Waiting,
    out: &mut Vec<u8>,
) -> Result<(), NoMemory>
    requires lane { lane < 64 }
    requires packet { IsPacket packet.now }
    requires bytes { AreBytes packet.now }
    requires sound { HasWaitingEvent waiting.old }
    requires none { waiting_events lane waiting.old ≡ [] }
    ensures sound { HasWaitingEvent waiting.new }
    ensures puts { (e : AnEvent) → SpellsEvent packet.now e → OnOk result (PutsOne (recorded_event lane e) out.old.items (waiting_events lane waiting.new) out.new.items) }
    ensures err { OnErr result ((waiting.new ≡ waiting.old) × (out.new.items ≡ out.old.items)) }
{
    if packet.put_under(lane, out)? {
        return Ok(());
    }
    put_too_long(alloc, lane, packet, waiting, out)
}

// Appends the first packet of what is recorded of a packet whose event does not fit under the lane. It is seldom so.
#[inline(never)]
fn put_too_long(
    alloc: Global,
    lane: u32,
    packet: &Packet<'_>,
    waiting: &mut Waiting,
    out: &mut Vec<u8>,
) -> Result<(), NoMemory>
    requires lane { lane < 64 }
    requires packet { IsPacket packet.now }
    requires bytes { AreBytes packet.now }
    requires too_long { (e : AnEvent) → SpellsEvent packet.now e → Fits (under lane e) → ⊥ }
    requires sound { HasWaitingEvent waiting.old }
    ensures sound { HasWaitingEvent waiting.new }
    ensures puts { (e : AnEvent) → SpellsEvent packet.now e → OnOk result (PutsOne (recorded_event lane e) out.old.items (waiting_events lane waiting.new) out.new.items) }
    ensures err { OnErr result ((waiting.new ≡ waiting.old) × (out.new.items ≡ out.old.items)) }
{
    if packet.has_halves() {
        put_in_halves(alloc, lane, packet, waiting, out)
    } else {
        put_in_pieces(alloc, lane, packet, waiting, out)
    }
}

// Appends the packet of the first half of its event, which does not fit under the lane and may be cut in two. Its
// shortest spelling is kept for the second half, which waits.
fn put_in_halves(
    alloc: Global,
    lane: u32,
    packet: &Packet<'_>,
    waiting: &mut Waiting,
    out: &mut Vec<u8>,
) -> Result<(), NoMemory>
    requires lane { lane < 64 }
    requires packet { IsPacket packet.now }
    requires bytes { AreBytes packet.now }
    requires too_long { (e : AnEvent) → SpellsEvent packet.now e → Fits (under lane e) → ⊥ }
    requires halves { (e : AnEvent) → SpellsEvent packet.now e → has_halves e ≡ true }
    requires sound { HasWaitingEvent waiting.old }
    ensures sound { HasWaitingEvent waiting.new }
    ensures puts { (e : AnEvent) → SpellsEvent packet.now e → OnOk result (PutsOne (recorded_event lane e) out.old.items (waiting_events lane waiting.new) out.new.items) }
    ensures err { OnErr result ((waiting.new ≡ waiting.old) × (out.new.items ≡ out.old.items)) }
{
    let mut bytes = Vec::new(alloc);
    packet.put_shortest(&mut bytes)?;
    packet.put_first_half(lane, out)?;
    wait_for(waiting, Waiting::SecondHalf(bytes));
    Ok(())
}

// Appends the packet of the first piece of the packet's own shortest spelling, where its event does not fit under the
// lane and may not be cut in two. The others wait, if there are any.
fn put_in_pieces(
    alloc: Global,
    lane: u32,
    packet: &Packet<'_>,
    waiting: &mut Waiting,
    out: &mut Vec<u8>,
) -> Result<(), NoMemory>
    requires lane { lane < 64 }
    requires packet { IsPacket packet.now }
    requires too_long { (e : AnEvent) → SpellsEvent packet.now e → Fits (under lane e) → ⊥ }
    requires halves { (e : AnEvent) → SpellsEvent packet.now e → has_halves e ≡ false }
    requires sound { HasWaitingEvent waiting.old }
    ensures sound { HasWaitingEvent waiting.new }
    ensures puts { (e : AnEvent) → SpellsEvent packet.now e → OnOk result (PutsOne (recorded_event lane e) out.old.items (waiting_events lane waiting.new) out.new.items) }
    ensures err { OnErr result ((waiting.new ≡ waiting.old) × (out.new.items ≡ out.old.items)) }
{
    let mut bytes = Vec::new(alloc);
    packet.put_shortest(&mut bytes)?;
    let mut spelling = Spelling { bytes, given: 0 };
    put_piece(lane, &mut spelling, out)?;
    wait_for(waiting, left_of(spelling));
    Ok(())
}

// The pieces that are still to be given, if any are.
fn left_of(spelling: Spelling) -> Waiting
    ensures sound { HasWaitingEvent result }
    ensures events { (lane : ℕ) → waiting_events lane result ≡ pieces_left lane spelling }
{
    if spelling.given < spelling.bytes.len() {
        Waiting::Pieces(spelling)
    } else {
        Waiting::Nothing
    }
}

// Appends the packet of the next piece.
fn put_piece(lane: u32, spelling: &mut Spelling, out: &mut Vec<u8>) -> Result<(), NoMemory>
    requires lane { lane < 64 }
    requires some { spelling.old.given < length spelling.old.bytes.items }
    ensures ok { OnOk result (spelling.new ≡ record { bytes = spelling.old.bytes; given = min (spelling.old.given + longest_piece) (length spelling.old.bytes.items) }) }
    ensures puts { OnOk result (PutsOne (pieces_left lane spelling.old) out.old.items (pieces_left lane spelling.new) out.new.items) }
    ensures err { OnErr result ((spelling.new ≡ spelling.old) × (out.new.items ≡ out.old.items)) }
{
    let size = (spelling.bytes.len() - spelling.given).min(LONGEST_PIECE);
    let end = spelling.given + size;
    put_stdout(lane, &spelling.bytes[spelling.given..end], out)?;
    spelling.given = end;
    Ok(())
}
