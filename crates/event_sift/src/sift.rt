//! Events that are held until their test completes.

ghost use Rattle.std.specs.Prelude.{◌≡◌, List, [], ◌∷◌, ◌++◌, IfOk, OnOk};
ghost use Rattle.packet_codec.specs.declared.event.Event.{Event as AnEvent};
ghost use Rattle.event_sift.specs.Keeping.{keeps};
ghost use Rattle.std.specs.FinMap as map;
ghost use Rattle.outcome_fold.specs.Parts as parts;
ghost use Rattle.outcome_fold.specs.Rows.{part_with, row_of};
ghost use Rattle.event_sift.specs.Released.{completed_part_row, if_kept, parts_at_end, released, released_at_end};
ghost use Rattle.event_sift.specs.Sifted.{HasSifted, Holds, parts_in, predicate_of, rules_of};

use crate::open_events::Held;
use crate::part::Part;
use crate::part_row::{part_row, start_of};
use crate::predicate::Predicate;
use crate::rules::Rules;
use outcome_fold::{Ended, Row, TestKey, elapsed, ended_by, instant_of, key_of};
use packet_codec::Event;
use std::alloc::Global;
use sub_number::NoMemory;

/// The tests that are open, with their events, and a predicate that says which tests are kept. The predicate goes by the
/// rules.
///
/// An event is held from the first one of its test until one completes it, and is moved on as it is. After want of
/// memory a sift is given up.
///
/// A sift is not dropped, since what drops a predicate beside other things can't be stated. It ends by `close` or by
/// `let_go`.
pub struct Sift<'a, P: Predicate + Drop> {
    alloc: Global,
    rules: &'a Rules,
    predicate: P,
    held: Held,
}

impl<'a, P: Predicate + Drop> Sift<'a, P> {
    /// A sift that has taken no event. The predicate goes by the same rules, which it may borrow. It takes no memory yet.
    pub fn new(alloc: Global, rules: &'a Rules, predicate: P) -> Self
        requires faithful { P.rules predicate ≡ rules.now }
        ensures rules { rules_of result ≡ rules.now }
        ensures predicate { predicate_of result ≡ predicate }
        ensures taken { HasSifted result [] }
    {
        Sift {
            alloc,
            rules,
            predicate,
            held: Held::new(alloc),
        }
    }

    // Whether the row's test is kept, by the predicate.
    fn is_kept(&mut self, row: &Row) -> Result<bool, NoMemory>
        requires faithful { P.rules (predicate_of self.old) ≡ rules_of self.old }
        ensures kept { IfOk result (λ kept. kept ≡ keeps (rules_of self.old) row.now) }
        ensures held { self.new.held ≡ self.old.held }
        ensures rules { rules_of self.new ≡ rules_of self.old }
        ensures predicate { P.rules (predicate_of self.new) ≡ P.rules (predicate_of self.old) }
    {
        self.predicate.is_kept(&row.id, row.ended, &row.tags)
    }

    // The events of the part of the test that ended so at this instant, where its row is kept, else none.
    fn if_kept(
        &mut self,
        key: TestKey,
        ended: Ended,
        end: Option<u64>,
        part: Part,
    ) -> Result<Vec<Event>, NoMemory>
        requires faithful { P.rules (predicate_of self.old) ≡ rules_of self.old }
        ensures kept { IfOk result (λ events. events.items ≡ if_kept (keeps (rules_of self.old)) (row_of key ended (parts.elapsed (parts.start_of part) end) part) part) }
        ensures held { self.new.held ≡ self.old.held }
        ensures rules { rules_of self.new ≡ rules_of self.old }
        ensures predicate { P.rules (predicate_of self.new) ≡ P.rules (predicate_of self.old) }
    {
        let nanos = elapsed(start_of(part.events()), end);
        let row = part_row(self.alloc, key, ended, nanos, part.events())?;
        if self.is_kept(&row)? {
            Ok(part.into_events())
        } else {
            Ok(Vec::new(self.alloc))
        }
    }

    // Takes the event, which completes its test.
    fn complete(&mut self, key: TestKey, ended: Ended, event: Event) -> Result<Vec<Event>, NoMemory>
        requires faithful { P.rules (predicate_of self.old) ≡ rules_of self.old }
        ensures released { (seen : List AnEvent) → HasSifted self.old seen → IfOk result (λ events. events.items ≡ if_kept (keeps (rules_of self.old)) (completed_part_row key ended seen event) (part_with key seen event)) }
        ensures taken { OnOk result (parts_in self.new.held ≡ map.remove (parts_in self.old.held) key) }
        ensures rules { rules_of self.new ≡ rules_of self.old }
        ensures predicate { P.rules (predicate_of self.new) ≡ P.rules (predicate_of self.old) }
    {
        let end = instant_of(&event);
        let part = self.held.finish(&key, event)?;
        self.if_kept(key, ended, end, part)
    }

    /// Takes the event, and gives the events that are released now. An event without an id is released at once. Where
    /// the event completes its test and this is kept, all events of the test are, in order. Else none is.
    ///
    /// After `NoMemory` the sift is given up: its rules are as before, its predicate goes by them, and of the events
    /// that it held nothing is known.
    pub fn add(&mut self, event: Event) -> Result<Vec<Event>, NoMemory>
        requires faithful { P.rules (predicate_of self.old) ≡ rules_of self.old }
        ensures released { (seen : List AnEvent) → HasSifted self.old seen → IfOk result (λ events. events.items ≡ released (keeps (rules_of self.old)) seen event) }
        ensures taken { (seen : List AnEvent) → HasSifted self.old seen → OnOk result (HasSifted self.new (seen ++ event ∷ [])) }
        ensures rules { rules_of self.new ≡ rules_of self.old }
        ensures predicate { P.rules (predicate_of self.new) ≡ P.rules (predicate_of self.old) }
    {
        let Some(key) = key_of(&event)? else {
            return only(self.alloc, event);
        };
        match ended_by(event.status) {
            Some(ended) => self.complete(key, ended, event),
            None => {
                self.held.go_on(key, event)?;
                Ok(Vec::new(self.alloc))
            }
        }
    }

    // The events of the open tests that are kept.
    fn release(&mut self, held: Held) -> Result<Vec<Event>, NoMemory>
        requires faithful { P.rules (predicate_of self.old) ≡ rules_of self.old }
        ensures { (seen : List AnEvent) → Holds held seen → IfOk result (λ events. events.items ≡ released_at_end (keeps (rules_of self.old)) seen) }
    {
        let mut events = Vec::new(self.alloc);
        for (key, part) in held.into_parts() {
            let mut kept = self.if_kept(key, Ended::Open, None, part)?;
            events.append(&mut kept)?;
        }
        Ok(events)
    }

    // The parts of the open tests, without an event where they are not kept.
    fn release_parts(&mut self, held: Held) -> Result<Vec<Part>, NoMemory>
        requires faithful { P.rules (predicate_of self.old) ≡ rules_of self.old }
        ensures { (seen : List AnEvent) → Holds held seen → IfOk result (λ parts. parts.items ≡ parts_at_end (keeps (rules_of self.old)) seen) }
    {
        let mut parts = Vec::new(self.alloc);
        for (key, part) in held.into_parts() {
            let kept = self.if_kept(key, Ended::Open, None, part)?;
            parts.push(Part::of(kept))?;
        }
        Ok(parts)
    }

    /// Ends the sift as `close` does, and gives the events of each open test apart, by route, no route first, and then
    /// by id. They are all events of its last part where it is kept, and else none.
    ///
    /// After `NoMemory` the sift is given up too.
    pub fn close_parts(self) -> Result<Vec<Part>, NoMemory>
        requires faithful { P.rules (predicate_of self) ≡ rules_of self }
        ensures { (seen : List AnEvent) → HasSifted self.entry seen → IfOk result (λ parts. parts.items ≡ parts_at_end (keeps (rules_of self.entry)) seen) }
    {
        let Sift {
            alloc,
            rules,
            predicate,
            held,
        } = self;
        // The held events are moved out, so that the rest can be given up whatever comes of them.
        let mut rest = Sift {
            alloc,
            rules,
            predicate,
            held: Held::new(alloc),
        };
        let parts = rest.release_parts(held);
        rest.let_go();
        parts
    }

    /// Ends the sift, and gives the events of the open tests that are kept, by route, no route first, and then by id.
    ///
    /// After `NoMemory` the sift is given up too.
    pub fn close(self) -> Result<Vec<Event>, NoMemory>
        requires faithful { P.rules (predicate_of self) ≡ rules_of self }
        ensures { (seen : List AnEvent) → HasSifted self.entry seen → IfOk result (λ events. events.items ≡ released_at_end (keeps (rules_of self.entry)) seen) }
    {
        let Sift {
            alloc,
            rules,
            predicate,
            held,
        } = self;
        // The held events are moved out, so that the rest can be given up whatever comes of them.
        let mut rest = Sift {
            alloc,
            rules,
            predicate,
            held: Held::new(alloc),
        };
        let events = rest.release(held);
        rest.let_go();
        events
    }

    /// Gives the sift up, with the events that it holds.
    pub fn let_go(self) {
        let Sift {
            alloc: _alloc,
            rules: _rules,
            predicate: _predicate,
            held: _held,
        } = self;
    }
}

// A list of this event alone.
fn only(alloc: Global, event: Event) -> Result<Vec<Event>, NoMemory>
    ensures { IfOk result (λ events. events.items ≡ event ∷ []) }
{
    let mut events = Vec::with_capacity(alloc, 1)?;
    events.push(event)?;
    Ok(events)
}
