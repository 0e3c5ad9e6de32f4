//! What the events of a listing tell.

ghost use Rattle.std.specs.Prelude.{◌≡◌, ◌∷◌, ◌++◌, [], ℕ, List, IfOk, OnOk};
ghost use Rattle.std.specs.List.{IsDistinct};
ghost use Rattle.std.specs.Str.{bytes_eq};
ghost use Rattle.packet_codec.specs.Grammar.{AreBytes};
ghost use Rattle.packet_codec.specs.declared.event.Event.{Event as AnEvent};
ghost use Rattle.stream_reader.specs.Notes.{event_of};
ghost use Rattle.suite_plan.specs.Listed.{HasListed, HasListedAll};
ghost use Rattle.suite_plan.specs.Listing.{Lists, id_where};
ghost use Rattle.suite_plan.specs.Saying.{TellsListing};

use crate::file_texts::FileTexts;
use crate::first_ids::FirstIds;
use packet_codec::{Event, Status};
use std::alloc::Global;
use stream_reader::Note;
use sub_number::{Bytes, IdList, NoMemory, Text};

/// The ids of the tests that exist, and what the files say.
#[derive(Drop)]
pub(crate) struct Listed {
    pub(crate) ids: FirstIds,
    pub(crate) said: FileTexts,
}

impl Listed {
    /// No event has come. It takes no memory yet.
    pub(crate) fn new(alloc: Global) -> Self
        ensures { HasListed result [] }
    {
        Listed {
            ids: FirstIds::new(alloc),
            said: FileTexts::new(alloc),
        }
    }

    /// One note more.
    ///
    /// After `NoMemory` nothing is known of what came before.
    pub(crate) fn hear(&mut self, note: Note) -> Result<(), NoMemory>
        ensures { (events : List AnEvent) → HasListed self.old events → OnOk result (HasListed self.new (events ++ event_of note ∷ [])) }
    {
        match note {
            Note::Event(event) => self.hear_event(event),
            Note::Foreign(bytes) => self.said.add_foreign(bytes.bytes()),
        }
    }

    /// The ids that exist, each once.
    pub(crate) fn into_ids(self) -> IdList
        ensures lists { (bytes : List ℕ) → HasListedAll bytes self → Lists result bytes }
        ensures distinct { (bytes : List ℕ) → HasListedAll bytes self → IsDistinct bytes_eq result }
    {
        self.ids.into_ids()
    }

    /// What is told of the files.
    pub(crate) fn into_told(self, alloc: Global) -> Result<Bytes, NoMemory>
        ensures { (bytes : List ℕ) → AreBytes bytes → HasListedAll bytes self → IfOk result (λ told. TellsListing told bytes) }
    {
        self.said.into_told(alloc)
    }

    // One event more.
    fn hear_event(&mut self, event: Event) -> Result<(), NoMemory>
        ensures { (events : List AnEvent) → HasListed self.old events → OnOk result (HasListed self.new (events ++ event ∷ [])) }
    {
        let Event {
            id,
            status,
            file,
            ..
        } = event;
        self.said.add(file)?;
        match existing(status, id) {
            Some(id) => self.ids.add(id),
            None => Ok(()),
        }
    }
}

// The id of a test that exists.
fn existing(status: Status, id: Option<Text>) -> Option<Text>
    ensures { result ≡ id_where status id }
{
    match status {
        Status::Exists => id,
        _ => None,
    }
}
