//! Laws of streams that end inside a packet.

ghost use Rattle.std.specs.Prelude.{◌≡◌, ◌<◌, ◌≤◌, ◌↔◌, ℕ, List, ◌++◌, length, All, true, false};
ghost use Rattle.std.specs.List.{flat_map};
ghost use Rattle.std.specs.Str.{IsUtf8};
ghost use Rattle.packet_codec.specs.declared.event.Event.{Event};
ghost use Rattle.packet_codec.specs.Grammar.{AreBytes};
ghost use Rattle.packet_codec.specs.Canonical.{IsEvent, Fits, canonical};
ghost use Rattle.packet_codec.specs.Packet.{IsPacket};
ghost use Rattle.stream_end.specs.Inside.{ends_inside, BeginsNoneIn, EndsInside, HoldsBack};

/// Laws of streams that end inside a packet.
pub fn streams_that_end_inside()
    // The test tells it of all streams.
    ensures told { (bytes : List ℕ) → AreBytes bytes → (ends_inside bytes ≡ true) ↔ EndsInside bytes }
    // More bytes are asked for then, at a place that has two or more.
    ensures left { (bytes : List ℕ) → AreBytes bytes → EndsInside bytes → HoldsBack bytes }
    // Where bytes are cut off a packet and two or more are left of it, the stream ends inside it.
    ensures cut_off { (events : List Event) (front rest : List ℕ) → All IsEvent events → All Fits events → AreBytes (front ++ rest) → IsPacket (front ++ rest) → 2 ≤ length front → 0 < length rest → EndsInside (flat_map canonical events ++ front) }
    // Whole packets end inside none.
    ensures whole { (events : List Event) → AreBytes (flat_map canonical events) → All IsEvent events → All Fits events → ends_inside (flat_map canonical events) ≡ false }
    // A text of whole characters and whole packets behind it end inside none, where no packet begins within the text.
    ensures text { (text : List ℕ) (events : List Event) → AreBytes (text ++ flat_map canonical events) → All IsEvent events → All Fits events → IsUtf8 text → BeginsNoneIn (length text) (text ++ flat_map canonical events) → ends_inside (text ++ flat_map canonical events) ≡ false }
{}
