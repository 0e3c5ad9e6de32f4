//! The events of a part of a test.

ghost use Rattle.std.specs.Prelude.{◌≡◌, [], ◌∷◌, ◌++◌, IfOk, OnOk};

use packet_codec::Event;
use std::alloc::Global;
use std::marker::Model;
use sub_number::NoMemory;

/// Events of one test, in order. Contracts see them as a list.
#[derive(Drop)]
pub struct Part {
    events: Vec<Event>,
}

impl Model for Part {
    ghost use Rattle.std.specs.Prelude.{List};
    ghost use Rattle.packet_codec.specs.declared.event.Event.{Event as AnEvent};

    ghost Value = { List AnEvent };

    ghost view = { λ p. p.events.items };
}

impl Part {
    /// No event. It takes no memory.
    pub fn new(alloc: Global) -> Self
        ensures { result ≡ [] }
    {
        Part {
            events: Vec::new(alloc),
        }
    }

    /// This event alone, with room for one more, since most tests have two.
    ///
    /// With `NoMemory` the event is lost.
    pub fn begun(alloc: Global, event: Event) -> Result<Self, NoMemory>
        ensures { IfOk result (λ part. part ≡ event ∷ []) }
    {
        let mut events = Vec::with_capacity(alloc, 2)?;
        events.push(event)?;
        Ok(Part { events })
    }

    /// These events.
    pub fn of(events: Vec<Event>) -> Self
        ensures { result ≡ events.items }
    {
        Part { events }
    }

    /// Takes one event more.
    ///
    /// With `NoMemory` the event is lost.
    pub fn push(&mut self, event: Event) -> Result<(), NoMemory>
        ensures { OnOk result (self.new ≡ self.old ++ event ∷ []) }
    {
        self.events.push(event)?;
        Ok(())
    }

    /// The events, in order.
    pub fn events(&self) -> &[Event]
        ensures { result.now ≡ self.now }
    {
        &self.events
    }

    /// The events, moved out.
    pub fn into_events(self) -> Vec<Event>
        ensures { result.items ≡ self }
    {
        self.events
    }
}
