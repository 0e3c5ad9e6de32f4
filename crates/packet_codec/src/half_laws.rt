//! The law of an event in two halves.

ghost use Rattle.std.specs.Prelude.{◌≡◌, ◌<◌, ℕ, true};
ghost use Rattle.packet_codec.specs.declared.event.Event.{Event};
ghost use Rattle.packet_codec.specs.Canonical.{Fits};
ghost use Rattle.packet_codec.specs.Halves.{has_halves, first_half, second_half};
ghost use Rattle.packet_codec.specs.Routing.{under};

/// Under each lane both halves of an event fit that fits as it is. A route grows by at most 3 bytes there and its length
/// by at most one, and each half leaves out at least 4.
pub fn halves_fit()
    ensures first { (lane : ℕ) (e : Event) → lane < 64 → Fits e → has_halves e ≡ true → Fits (under lane (first_half e)) }
    ensures second { (lane : ℕ) (e : Event) → lane < 64 → Fits e → has_halves e ≡ true → Fits (under lane (second_half e)) }
{}
