//! The law of the shortest spelling.

ghost use Rattle.std.specs.Prelude.{◌≡◌, List, ℕ, length};
ghost use Rattle.packet_codec.specs.declared.event.Event.{Event};
ghost use Rattle.packet_codec.specs.Grammar.{AreBytes};
ghost use Rattle.packet_codec.specs.Packet.{SpellsEvent};
ghost use Rattle.packet_codec.specs.Canonical.{IsEvent, Fits, IsShortestSpelling, canonical, canonical_size};

/// Which events have a packet, and what the shortest one is.
pub fn canonical_is_shortest()
    // What `encode` appends spells the event, and no other spelling of it is shorter.
    ensures shortest { (e : Event) → IsEvent e → Fits e → IsShortestSpelling (canonical e) e }
    // An event that some bytes spell fits.
    ensures only { (bytes : List ℕ) (e : Event) → SpellsEvent bytes e → Fits e }
    // What `size` tells is the length of the shortest spelling.
    ensures size { (e : Event) → Fits e → length (canonical e) ≡ canonical_size e }
    // A packet of that length is the shortest spelling, whatever widths its numbers might have.
    ensures alone { (bytes : List ℕ) (e : Event) → AreBytes bytes → SpellsEvent bytes e → length bytes ≡ canonical_size e → bytes ≡ canonical e }
{}
