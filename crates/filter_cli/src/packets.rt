// Events as packets.
ghost use Rattle.std.specs.Prelude.{◌≡◌, ◌++◌, ◌≤◌, length, All, OnOk};
ghost use Rattle.packet_codec.specs.Canonical.{canonical, Fits, packets_of};
ghost use Rattle.stream_reader.specs.Notes.{stdout_event as event_of_output};
ghost use Rattle.tap_bridge.specs.Events.{longest_tap_line};

use packet_codec::{Event, encode};
use stream_reader::stdout_event;
use sub_number::{Bytes, NoMemory};

/// Appends the packets of the events.
pub(crate) fn put_events(events: &[Event], text: &mut Vec<u8>) -> Result<(), NoMemory>
    requires { All Fits events.now }
    ensures { OnOk result (text.new.items ≡ text.old.items ++ packets_of events.now) }
{
    for event in events {
        encode(event, text)?;
    }
    Ok(())
}

/// Appends the packet of the bytes as a piece of the file `stdout`.
pub(crate) fn put_output(bytes: &[u8], text: &mut Vec<u8>) -> Result<(), NoMemory>
    requires { length bytes.now ≤ longest_tap_line }
    ensures { OnOk result (text.new.items ≡ text.old.items ++ canonical (event_of_output bytes.now)) }
{
    let alloc = *text.allocator();
    let event = stdout_event(alloc, Bytes::new(alloc, bytes)?)?;
    encode(&event, text)?;
    Ok(())
}
