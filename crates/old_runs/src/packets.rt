//! Events as packets.

ghost use Rattle.std.specs.Prelude.{◌≡◌, ◌++◌, All, OnOk};
ghost use Rattle.std.specs.List.{flat_map, list_any};
ghost use Rattle.packet_codec.specs.Canonical.{canonical, Fits, IsEvent};
ghost use Rattle.old_runs.specs.Files as spec;

use packet_codec::{Event, encode, size};
use sub_number::NoMemory;

/// Appends the packet of the event.
pub(crate) fn put_event(event: &Event, packets: &mut Vec<u8>) -> Result<(), NoMemory>
    requires { Fits event.now }
    ensures packets { OnOk result (packets.new.items ≡ packets.old.items ++ canonical event.now) }
    ensures event { IsEvent event.now }
{
    // Whoever asks for the size learns that the event's parts are what their types keep.
    let _size = size(event);
    encode(event, packets)
}

/// Appends the packets of the events.
pub(crate) fn put_events(events: &[Event], packets: &mut Vec<u8>) -> Result<(), NoMemory>
    requires { All Fits events.now }
    ensures packets { OnOk result (packets.new.items ≡ packets.old.items ++ flat_map canonical events.now) }
    ensures events { OnOk result (All IsEvent events.now) }
{
    for event in events {
        put_event(event, packets)?;
    }
    Ok(())
}

/// Whether one of the events is one of a test.
pub(crate) fn any_has_id(events: &[Event]) -> bool
    ensures { result ≡ list_any spec.has_id events.now }
{
    events.iter().any(|event| event.id.is_some())
}

/// Whether one of the events is none of a test.
pub(crate) fn any_lacks_id(events: &[Event]) -> bool
    ensures { result ≡ list_any spec.lacks_id events.now }
{
    events.iter().any(|event| event.id.is_none())
}
