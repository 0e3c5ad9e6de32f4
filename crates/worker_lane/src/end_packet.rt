//! The packet that is recorded of the end of a lane.

ghost use Rattle.std.specs.Prelude.{◌≡◌, ◌<◌, ◌≤◌, ◌↔◌, ℕ, pos, None, length, map, IfOk, IfSome};
ghost use Rattle.std.specs.Option.{option_to_list};
ghost use Rattle.packet_codec.specs.Canonical.{IsEvent, Fits};
ghost use Rattle.worker_lane.specs.declared.lot.Ending.TheVariants.{Exit, NoMemory as without_memory};
ghost use Rattle.worker_lane.specs.Endings.{returncode_text as text_of, returncode_event as event_of, returncode_under, ending_events, longest_text};

use crate::lot::Ending;
use itoa::Buffer;
use packet_codec::{Event, FilePart, Status, are_bytes, reroute};
use std::alloc::Global;
use sub_number::{Bytes, NoMemory, Text};

/// The text that tells of an ending, which is not `NoMemory`. None where the child ended with 0.
pub(crate) fn ending_text(alloc: Global, ending: &Ending) -> Result<Option<Bytes>, NoMemory>
    requires { ending.now ≡ without_memory → ⊥ }
    ensures events { IfOk result (λ answer. (lane : ℕ) → ending_events lane ending.now ≡ map (returncode_under lane) (option_to_list answer)) }
    ensures short { IfOk result (λ answer. IfSome answer (λ text. length text ≤ longest_text)) }
    ensures none { IfOk result (λ answer. (answer ≡ None) ↔ (ending.now ≡ Exit (pos 0))) }
{
    match ending {
        Ending::Exit(0) => Ok(None),
        Ending::Exit(status) => Ok(Some(returncode_text(alloc, *status)?)),
        Ending::Fault => Ok(Some(Bytes::new(alloc, b"read fault")?)),
        Ending::NoMemory => Ok(None),
    }
}

// The text of a child that ended with this status.
fn returncode_text(alloc: Global, status: i32) -> Result<Bytes, NoMemory>
    ensures text { IfOk result (λ text. text ≡ text_of status) }
    ensures short { IfOk result (λ text. length text ≤ longest_text) }
{
    let mut buffer = Buffer::new();
    let mut text = Vec::from_slice(alloc, b"returncode ")?;
    text.extend_from_slice(buffer.format(status).as_bytes())?;
    Ok(Bytes::from_vec(text))
}

/// The event that tells of the end with this text, under the lane.
pub(crate) fn returncode_event(alloc: Global, lane: u32, text: Bytes) -> Result<Event, NoMemory>
    requires lane { lane < 64 }
    requires short { length text ≤ longest_text }
    ensures event { IfOk result (λ event. event ≡ returncode_under lane text) }
    ensures is_event { IfOk result (λ event. IsEvent event) }
    ensures fits { IfOk result (λ event. Fits event) }
{
    are_bytes(text.bytes());
    let mut event = plain_event(alloc, text)?;
    reroute(alloc, &mut event, lane)?;
    Ok(event)
}

fn plain_event(alloc: Global, text: Bytes) -> Result<Event, NoMemory>
    ensures { IfOk result (λ event. event ≡ event_of text) }
{
    let id = Text::from_tested(alloc, b"process-returncode")?;
    let mime = Text::from_tested(alloc, b"text/plain;charset=utf8")?;
    let name = Text::from_tested(alloc, b"traceback")?;
    Ok(Event {
        stamp: None,
        id: Some(id),
        tags: None,
        runnable: true,
        status: Status::Fail,
        mime: Some(mime),
        file: Some(FilePart { name, bytes: text }),
        eof: false,
        route: None,
    })
}
