//! Output of no test: the bytes between the packets of a stream, and the files of events without an id.

ghost use Rattle.std.specs.Prelude.{◌≡◌, ◌++◌, IfOk, OnOk};
ghost use Rattle.packet_codec.specs.Packet.{SpellsEvent};
ghost use Rattle.packet_codec.specs.Shapes.{bytes_of};
ghost use Rattle.packet_codec.specs.declared.event.Event.{Event};
ghost use Rattle.filter_cli.specs.Events as events;

use packet_codec::Packet;
use std::alloc::Global;
use sub_number::NoMemory;

/// The bytes of the file of the packet's event, where it has one and no id. They are lent where they stand.
fn loose_in<'a>(alloc: Global, packet: &'a Packet<'_>) -> Result<Option<&'a [u8]>, NoMemory>
    ensures { (event : Event) → SpellsEvent packet.now event → IfOk result (λ found. bytes_of found ≡ events.loose_in event) }
{
    let Some(bytes) = packet.file_bytes() else {
        return Ok(None);
    };
    let id = packet.id(alloc)?;
    if id.is_some() {
        return Ok(None);
    }
    Ok(Some(bytes))
}

/// Whether the packet's event is such output, and this is hidden.
pub(crate) fn is_hidden_output(
    alloc: Global,
    hidden: bool,
    packet: &Packet<'_>,
) -> Result<bool, NoMemory>
    ensures { (event : Event) → SpellsEvent packet.now event → IfOk result (λ answer. answer ≡ events.is_hidden_output hidden event) }
{
    if !hidden {
        return Ok(false);
    }
    let file = loose_in(alloc, packet)?;
    Ok(file.is_some())
}

/// Appends foreign bytes, unless they are hidden.
pub(crate) fn put_foreign(hidden: bool, bytes: &[u8], text: &mut Vec<u8>) -> Result<(), NoMemory>
    ensures { OnOk result (text.new.items ≡ text.old.items ++ events.passed_on hidden bytes.now) }
{
    if !hidden {
        text.extend_from_slice(bytes)?;
    }
    Ok(())
}

/// Appends the file of the packet's event, where it has one and no id, unless it is hidden.
pub(crate) fn put_loose(
    hidden: bool,
    packet: &Packet<'_>,
    text: &mut Vec<u8>,
) -> Result<(), NoMemory>
    ensures { (event : Event) → SpellsEvent packet.now event → OnOk result (text.new.items ≡ text.old.items ++ events.passed_on hidden (events.loose_bytes event)) }
{
    if hidden {
        return Ok(());
    }
    let alloc = *text.allocator();
    if let Some(bytes) = loose_in(alloc, packet)? {
        text.extend_from_slice(bytes)?;
    }
    Ok(())
}
