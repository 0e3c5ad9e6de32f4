//! Laws of packets.

ghost use Rattle.std.specs.Prelude.{◌≡◌, ◌++◌, List, ℕ};
ghost use Rattle.packet_codec.specs.Grammar.{AreBytes};
ghost use Rattle.packet_codec.specs.Packet.{SpellsEvent};
ghost use Rattle.packet_codec.specs.Header.{LooksLike};
ghost use Rattle.packet_codec.specs.declared.event.Event.{Event};
ghost use Rattle.packet_codec.specs.declared.front.Front.{Front};

/// Bytes are a packet of one event at most, and no packet is the front of another one.
pub fn packets_are_one_event()
    ensures one_event { (bytes : List ℕ) (d e : Event) → AreBytes bytes → SpellsEvent bytes d → SpellsEvent bytes e → d ≡ e }
    ensures no_front { (a b x y : List ℕ) (d e : Event) → AreBytes a → AreBytes b → SpellsEvent a d → SpellsEvent b e → a ++ x ≡ b ++ y → a ≡ b }
{}

/// The answers of `look_at_front` exclude each other: of any bytes one is true at most. That one is, its contract tells.
pub fn fronts_are_one()
    ensures { (bytes : List ℕ) (one other : Front) → AreBytes bytes → LooksLike bytes one → LooksLike bytes other → one ≡ other }
{}

/// What holds of the bytes of each slice, since their type tells it: each of them is below 256.
#[inline(always)]
pub fn are_bytes(bytes: &[u8])
    ensures { AreBytes bytes.now }
{}
