//! The foreign bytes at the front of what is held.

ghost use Rattle.std.specs.Prelude.{◌≡◌, ◌≢◌, ◌<◌, ◌≤◌, ℕ, length, drop, get_or};
ghost use Rattle.packet_codec.specs.Packet.{signature};
ghost use Rattle.stream_reader.specs.Notes.{longest_foreign};
ghost use Rattle.stream_reader.specs.Run.{AreForeign, FrontIs, IsRun};

use crate::buffer::Buffer;
use memchr::memchr;
use packet_codec::{Front, SIGNATURE, are_bytes};

// The most bytes of one foreign note.
const LONGEST_FOREIGN: usize = 65_536;

/// Foreign bytes at the front, of which one note can be made, and what stands behind them.
#[derive(Clone, Copy)]
pub(crate) struct Run {
    /// How many there are.
    pub(crate) count: usize,
    /// A packet, or bytes that may become one. `No` where the run is full, or goes up to the end of the stream.
    pub(crate) front: Front,
}

/// The first place from `from` on at which a packet may begin, or `room` where that comes first.
fn next_signature(bytes: &[u8], from: usize, room: usize) -> usize
    requires from { from ≤ room }
    requires room { room ≤ length bytes.now }
    ensures low { from ≤ result }
    ensures high { result ≤ room }
    ensures passed { (i : ℕ) → from ≤ i → i < result → get_or bytes.now i 0 ≢ signature }
{
    match memchr(SIGNATURE, &bytes[from..room]) {
        Some(place) => from + place,
        None => room,
    }
}

/// What stands at a place among the bytes held. At the end of a stream nothing may become a packet.
fn front_at(buffer: &mut Buffer, place: usize, ended: bool) -> Front
    requires { place ≤ length buffer.old }
    ensures same { buffer.new ≡ buffer.old }
    ensures front { FrontIs ended (drop place buffer.old) result }
{
    are_bytes(&buffer.held()[place..]);
    match buffer.look_at(place) {
        Front::More if ended => Front::No,
        front => front,
    }
}

/// The foreign bytes at the front, where it is known of the first `known` bytes that they are foreign. Those are not
/// looked at again.
pub(crate) fn foreign_run(buffer: &mut Buffer, known: usize, ended: bool) -> Run
    requires in_range { known ≤ length buffer.old }
    requires short { known ≤ longest_foreign }
    requires are_foreign { AreForeign ended buffer.old known }
    ensures same { buffer.new ≡ buffer.old }
    ensures known { known ≤ result.count }
    ensures run { IsRun ended buffer.old result.count result.front }
{
    are_bytes(buffer.held());
    let room = buffer.len().min(LONGEST_FOREIGN);
    let mut count = next_signature(buffer.held(), known, room);
    while count < room {
        match front_at(buffer, count, ended) {
            Front::No => count = next_signature(buffer.held(), count + 1, room),
            front => return Run { count, front },
        }
    }
    let front = if ended || count == LONGEST_FOREIGN {
        Front::No
    } else {
        Front::More
    };
    Run { count, front }
}
