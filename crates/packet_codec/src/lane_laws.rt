//! Laws of events under lanes.

ghost use Rattle.std.specs.Prelude.{◌≡◌, ◌≢◌, ◌<◌, ◌≤◌, ℕ, Some, List, ◌∷◌, ◌++◌, length, map, true};
ghost use Rattle.std.specs.List.{All};
ghost use Rattle.packet_codec.specs.declared.event.Event.{Event};
ghost use Rattle.packet_codec.specs.Canonical.{IsEvent, Fits};
ghost use Rattle.packet_codec.specs.Routing.{under};
ghost use Rattle.packet_codec.specs.Lanes.{is_of_lane, AreOfLane, IsMerge, IsMergeOfTold, joined, list_of};

/// An event is of one lane at most, and under a lane it is of that one. So lists of events, each of its own lane, are
/// merged where they stand one after another.
pub fn lanes_are_apart()
    ensures under { (lane : ℕ) (e : Event) → lane < 64 → is_of_lane lane (under lane e) ≡ true }
    ensures one_lane { (m n : ℕ) (e : Event) → m < 64 → n < 64 → is_of_lane m e ≡ true → is_of_lane n e ≡ true → m ≡ n }
    // The lists of a merge are each of its own lane.
    ensures lists { (events : List Event) (lists : List (List Event)) → IsMerge events lists → (lane : ℕ) → lane < length lists → AreOfLane lane (list_of lists lane) }
    ensures joined { (lists : List (List Event)) → length lists ≤ 64 → ((lane : ℕ) → lane < length lists → AreOfLane lane (list_of lists lane)) → IsMerge (joined lists) lists }
    // Neighbours of two lanes may stand the other way round.
    ensures turned { (front behind : List Event) (d e : Event) (m n : ℕ) (lists : List (List Event)) → length lists ≤ 64 → m < 64 → n < 64 → m ≢ n → is_of_lane m d ≡ true → is_of_lane n e ≡ true → IsMerge (front ++ d ∷ e ∷ behind) lists → IsMerge (front ++ e ∷ d ∷ behind) lists }
    // Where all lists are told.
    ensures told { (events : List Event) (lists : List (List Event)) → IsMergeOfTold events (map Some lists) → IsMerge events lists }
    // Where each event of each list has a packet, so has each event of a merge.
    ensures packets { (events : List Event) (lists : List (List Event)) → IsMerge events lists → ((lane : ℕ) → lane < length lists → All IsEvent (list_of lists lane) × All Fits (list_of lists lane)) → All IsEvent events × All Fits events }
{}
