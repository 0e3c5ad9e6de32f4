//! The time that words tell.

ghost use Rattle.std.specs.Prelude.{◌≡◌, option_map};
ghost use Rattle.instants.specs.Dates.{meant};
ghost use Rattle.sub_export.specs.Output as spec;

use instants::{Instant, instant_of};
use packet_codec::Stamp;

const MOST_NANOS: u32 = 1_073_741_823;

// The stamp of the instant.
fn stamp_at(instant: Instant) -> Stamp
    ensures { result ≡ spec.moment_stamp (meant instant) }
{
    Stamp {
        seconds: instant.seconds,
        nanos: instant.nanos.min(MOST_NANOS),
    }
}

/// The stamp of the time that the word tells. None comes exactly where it tells none.
#[tactic(auto, unfolding(crate::specs::Output::stamp_told))]
pub(crate) fn stamp_of(time: &str) -> Option<Stamp>
    ensures { result ≡ spec.stamp_told time.now }
{
    match instant_of(time.as_bytes()) {
        Some(instant) => Some(stamp_at(instant)),
        None => None,
    }
}
