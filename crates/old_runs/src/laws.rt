//! What holds of all files.

ghost use Rattle.std.specs.Prelude.{◌≡◌, [], ℕ, List};
ghost use Rattle.packet_codec.specs.Grammar.{AreBytes};
ghost use Rattle.packet_codec.specs.declared.event.Event.{Event};
ghost use Rattle.old_runs.specs.Files.{IsOldFile};

/// Each file tells one list of events, and one without bytes tells none.
pub fn old_files()
    ensures some { (bytes : List ℕ) → (events : List Event) × IsOldFile bytes events }
    ensures one { (bytes : List ℕ) (events others : List Event) → AreBytes bytes → IsOldFile bytes events → IsOldFile bytes others → events ≡ others }
    ensures nothing { IsOldFile [] [] }
{}
