//! Which test an event speaks of.

ghost use Rattle.std.specs.Prelude.{◌≡◌, IfOk};
ghost use Rattle.outcome_fold.specs.Parts.{test_of};
ghost use Rattle.packet_codec.specs.Packet.{SpellsEvent};
ghost use Rattle.packet_codec.specs.declared.event.Event.{Event as AnEvent};

use packet_codec::{Event, Packet};
use std::alloc::Global;
use sub_number::{NoMemory, Text};

/// A test: its route and its id. In order, no route comes first, then the routes by their bytes, and in a route the ids
/// by their bytes.
#[derive(PartialEq, Eq, PartialOrd, Ord, Drop)]
pub struct TestKey {
    /// Where its events come from.
    pub route: Option<Text>,
    /// Its id.
    pub id: Text,
}

/// The test that the event speaks of. `None` comes exactly where it has no id.
pub fn key_of(event: &Event) -> Result<Option<TestKey>, NoMemory>
    ensures { IfOk result (λ key. key ≡ test_of event.now) }
{
    let id = match &event.id {
        Some(id) => id.copy()?,
        None => return Ok(None),
    };
    let route = copy_route(&event.route)?;
    Ok(Some(TestKey { route, id }))
}

/// The test that the packet's event speaks of. `None` comes exactly where it has no id.
#[inline(always)]
pub fn key_in(alloc: Global, packet: &Packet<'_>) -> Result<Option<TestKey>, NoMemory>
    ensures { (e : AnEvent) → SpellsEvent packet.now e → IfOk result (λ key. key ≡ test_of e) }
{
    let Some(id) = packet.id(alloc)? else {
        return Ok(None);
    };
    let route = packet.route(alloc)?;
    Ok(Some(TestKey { route, id }))
}

/// Another route of the same bytes.
pub fn copy_route(route: &Option<Text>) -> Result<Option<Text>, NoMemory>
    ensures { IfOk result (λ copy. copy ≡ route.now) }
{
    match route {
        Some(route) => Ok(Some(route.copy()?)),
        None => Ok(None),
    }
}
