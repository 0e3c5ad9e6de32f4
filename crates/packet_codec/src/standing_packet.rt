//! The packet that is known to stand at the front of some bytes.

ghost use Rattle.std.specs.Prelude.{◌≡◌, ◌≤◌, ◌<◌, List, ℕ, length};
ghost use Rattle.packet_codec.specs.Grammar.{SpellsFront};
ghost use Rattle.packet_codec.specs.Packet.{SpellsEvent};
ghost use Rattle.packet_codec.specs.declared.event.Event.{Event};

use crate::header::header_at;
use crate::packet::{Packet, known_packet};

/// The packet that the bytes begin with. That one stands there is known: neither its texts nor its checksum are tested
/// again. It takes no memory.
#[inline(always)]
pub fn front_packet(bytes: &[u8]) -> Packet<'_>
    requires { (event : Event) × (behind : List ℕ) × SpellsFront SpellsEvent bytes.now event behind }
    ensures only { (event : Event) (behind : List ℕ) → (found : SpellsFront SpellsEvent bytes.now event behind) → result ≡ found.front }
    ensures size { (0 < length result) × (length result ≤ length bytes.now) }
{
    let header = header_at(bytes).unwrap();
    known_packet(&bytes[..header.size])
}
