//! What is released of a whole list of events.

ghost use Rattle.std.specs.Prelude.{◌≡◌, List, ◌∷◌, ◌++◌, [], IfOk, OnOk};
ghost use Rattle.packet_codec.specs.declared.event.Event.{Event as AnEvent};
ghost use Rattle.event_sift.specs.Keeping.{keeps};
ghost use Rattle.event_sift.specs.Released.{filtered, released_by};
ghost use Rattle.event_sift.specs.Sifted.{HasSifted, predicate_of, rules_of};

use crate::predicate::Predicate;
use crate::rules::{ByRules, Rules};
use crate::sift::Sift;
use packet_codec::Event;
use std::alloc::Global;
use sub_number::NoMemory;

// Takes the event, and puts what is released now behind what was released before.
fn take<P: Predicate + Drop>(
    sift: &mut Sift<'_, P>,
    event: Event,
    released: &mut Vec<Event>,
) -> Result<(), NoMemory>
    requires faithful { P.rules (predicate_of sift.old) ≡ rules_of sift.old }
    ensures released { (seen : List AnEvent) → HasSifted sift.old seen → released.old.items ≡ released_by (keeps (rules_of sift.old)) seen → OnOk result (released.new.items ≡ released_by (keeps (rules_of sift.old)) (seen ++ event ∷ [])) }
    ensures taken { (seen : List AnEvent) → HasSifted sift.old seen → OnOk result (HasSifted sift.new (seen ++ event ∷ [])) }
    ensures rules { rules_of sift.new ≡ rules_of sift.old }
    ensures predicate { P.rules (predicate_of sift.new) ≡ P.rules (predicate_of sift.old) }
{
    let mut events = sift.add(event)?;
    released.append(&mut events)?;
    Ok(())
}

// Takes the events one after another. Nothing was released before.
fn take_all<P: Predicate + Drop>(
    sift: &mut Sift<'_, P>,
    events: Vec<Event>,
    released: &mut Vec<Event>,
) -> Result<(), NoMemory>
    requires faithful { P.rules (predicate_of sift.old) ≡ rules_of sift.old }
    requires new { HasSifted sift.old [] }
    requires none { released.old.items ≡ [] }
    ensures released { OnOk result (released.new.items ≡ released_by (keeps (rules_of sift.old)) events.items) }
    ensures taken { OnOk result (HasSifted sift.new events.items) }
    ensures rules { rules_of sift.new ≡ rules_of sift.old }
    ensures predicate { P.rules (predicate_of sift.new) ≡ P.rules (predicate_of sift.old) }
{
    for event in events {
        take(sift, event, released)?;
    }
    Ok(())
}

/// What a sift of these rules releases of the events, in order: while they come, and then at the end.
pub fn filtered_events(
    alloc: Global,
    rules: &Rules,
    events: Vec<Event>,
) -> Result<Vec<Event>, NoMemory>
    ensures { IfOk result (λ released. released.items ≡ filtered (keeps rules.now) events.items) }
{
    let mut sift = Sift::new(alloc, rules, ByRules::new(alloc, rules)?);
    let mut released = Vec::new(alloc);
    if take_all(&mut sift, events, &mut released).is_err() {
        sift.let_go();
        return Err(NoMemory);
    }
    let mut last = sift.close()?;
    released.append(&mut last)?;
    Ok(released)
}
