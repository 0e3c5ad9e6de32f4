//! The law of rows where an event stands in two halves.

ghost use Rattle.std.specs.Prelude.{List, ◌∷◌, ◌++◌};
ghost use Rattle.packet_codec.specs.Halves.{first_half, second_half};
ghost use Rattle.packet_codec.specs.declared.event.Event.{Event as AnEvent};
ghost use Rattle.outcome_fold.specs.Routes.{SaySame};

/// An event whose two halves stand in its place says the same: its test's parts, their texts and tags and times are those
/// that they were. So it is wherever the event stands, and whatever it says.
pub fn halves_say_the_same()
    ensures { (front behind : List AnEvent) (e : AnEvent) → SaySame (front ++ first_half e ∷ second_half e ∷ behind) (front ++ e ∷ behind) }
{}
