//! The event that is recorded of a test that was lost.

ghost use Rattle.std.specs.Prelude.{◌≡◌, ◌<◌, ◌≤◌, length, IfOk};
ghost use Rattle.packet_codec.specs.Canonical.{IsEvent, Fits};
ghost use Rattle.packet_codec.specs.Routing.{under};
ghost use Rattle.worker_lane.specs.Lost.{longest_id, lost_event as event_of};

use packet_codec::{Event, Status, reroute};
use std::alloc::Global;
use sub_number::{NoMemory, Text};

/// The event of a test of this id that did not come to its end, under the lane.
pub(crate) fn lost_event(alloc: Global, lane: u32, id: Text) -> Result<Event, NoMemory>
    requires lane { lane < 64 }
    requires short { length id ≤ longest_id }
    ensures event { IfOk result (λ event. event ≡ under lane (event_of id)) }
    ensures is_event { IfOk result (λ event. IsEvent event) }
    ensures fits { IfOk result (λ event. Fits event) }
{
    let _bytes = id.bytes();
    let mut event = Event {
        stamp: None,
        id: Some(id),
        tags: None,
        runnable: true,
        status: Status::InProgress,
        mime: None,
        file: None,
        eof: false,
        route: None,
    };
    reroute(alloc, &mut event, lane)?;
    Ok(event)
}
