//! Laws of what is recorded of several streams.

ghost use Rattle.std.specs.Prelude.{◌<◌, ◌≤◌, ℕ, List, length};
ghost use Rattle.std.specs.List.{All, flat_map};
ghost use Rattle.packet_codec.specs.declared.event.Event.{Event};
ghost use Rattle.packet_codec.specs.Grammar.{AreBytes};
ghost use Rattle.packet_codec.specs.Canonical.{canonical};
ghost use Rattle.packet_codec.specs.Lanes.{AreOfLane, IsMerge, joined};
ghost use Rattle.stream_reader.specs.Notes.{HasEvents};
ghost use Rattle.worker_lane.specs.Recorded.{HasRecorded};
ghost use Rattle.worker_lane.specs.RecordedLanes.{AreRecorded};

/// Laws of what is recorded of streams, each under a lane of its own.
pub fn recorded_lanes()
    // All that is recorded under a lane is of that lane.
    ensures of_lane { (lane : ℕ) (bytes : List ℕ) (events : List Event) → lane < 64 → HasRecorded lane bytes events → AreOfLane lane events }
    // Read one after another, the streams give a merge.
    ensures joined { (streams : List (List ℕ)) (lists : List (List Event)) → length lists ≤ 64 → AreRecorded streams lists → IsMerge (joined lists) lists }
    // The packets of any merge, as a stream, are its events.
    ensures read_again { (streams : List (List ℕ)) (lists : List (List Event)) (events : List Event) → length lists ≤ 64 → All AreBytes streams → AreRecorded streams lists → IsMerge events lists → HasEvents (flat_map canonical events) events }
{}
