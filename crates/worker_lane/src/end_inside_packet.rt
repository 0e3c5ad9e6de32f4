//! The event that tells that a stream ends inside a packet.

ghost use Rattle.std.specs.Prelude.{◌≡◌, ◌<◌, IfOk};
ghost use Rattle.packet_codec.specs.Canonical.{Fits};
ghost use Rattle.worker_lane.specs.Inside.{inside_under, inside_event as event_of};

use packet_codec::{Event, FilePart, Status, reroute};
use std::alloc::Global;
use sub_number::{Bytes, NoMemory, Text};

/// The event that tells of it, under the lane.
pub(crate) fn inside_event(alloc: Global, lane: u32) -> Result<Event, NoMemory>
    requires { lane < 64 }
    ensures event { IfOk result (λ event. event ≡ inside_under lane) }
    ensures fits { IfOk result (λ event. Fits event) }
{
    let mut event = plain_event(alloc)?;
    reroute(alloc, &mut event, lane)?;
    Ok(event)
}

fn plain_event(alloc: Global) -> Result<Event, NoMemory>
    ensures { IfOk result (λ event. event ≡ event_of) }
{
    let id = Text::from_tested(alloc, b"subunit.parser")?;
    let mime = Text::from_tested(alloc, b"text/plain;charset=utf8")?;
    let name = Text::from_tested(alloc, b"traceback")?;
    let bytes = Bytes::new(alloc, b"the output ends inside a packet\n")?;
    Ok(Event {
        stamp: None,
        id: Some(id),
        tags: None,
        runnable: true,
        status: Status::Fail,
        mime: Some(mime),
        file: Some(FilePart { name, bytes }),
        eof: false,
        route: None,
    })
}
