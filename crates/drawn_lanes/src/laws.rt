//! Laws of the events of all lanes.

ghost use Rattle.std.specs.Prelude.{◌<◌, ◌≤◌, ℕ, All};
ghost use Rattle.drawn_lanes.specs.Outputs.{lane_events, HasLanePacket};

/// Whatever is drawn, each event of a lane has a packet, and so it has under the lane. There are at most 64 lanes and
/// 1,000,000 tests.
pub fn drawn_events_have_packets()
    ensures { (lane tests state : ℕ) → lane < 64 → tests ≤ 1_000_000 → All (HasLanePacket lane) (lane_events lane tests state) }
{}
