//! The ids of the tests that began to run on a lane, as notes tell of them.

ghost use Rattle.std.specs.Prelude.{◌≡◌, ◌≤◌, ◌∷◌, ◌++◌, [], false, length, List, OnOk};
ghost use Rattle.packet_codec.specs.Lanes.{is_in_lane};
ghost use Rattle.packet_codec.specs.declared.event.Event.{Event as AnEvent};
ghost use Rattle.stream_reader.specs.declared.note.Note.{Note as ANote};
ghost use Rattle.stream_reader.specs.Notes.{event_of, events_of};
ghost use Rattle.stream_reader.specs.Room.{most_held};
ghost use Rattle.stream_reader.specs.Stream.{IsSpent};
ghost use Rattle.suite_causes.specs.Ran.{GathersRanIds, all_ran, ran_on};
ghost use Rattle.suite_causes.specs.Suspects.{ran_where, unless_returncode};

use crate::suspects::{is_lane, is_returncode, lane_name};
use packet_codec::{Event, Status};
use stream_reader::{Note, Reader};
use sub_number::{IdList, NoMemory, Text};

/// Gathers the ids of all notes that can be told of the bytes held, in order.
///
/// After `NoMemory` nothing is known of the ids.
pub(crate) fn gather_notes(lane: u32, reader: &mut Reader, ids: &mut IdList) -> Result<(), NoMemory>
    ensures gathered { (notes : List ANote) → ids.old ≡ all_ran lane (events_of notes) → OnOk result (GathersRanIds lane notes reader.old reader.new ids.new) }
    ensures held { OnOk result (reader.new.ended ≡ false → length reader.new.bytes ≤ most_held) }
    ensures spent { OnOk result (IsSpent reader.new.ended reader.new.bytes) }
    ensures ended { reader.new.ended ≡ reader.old.ended }
{
    while let Some(note) = reader.next()? {
        gather_note(lane, note, ids)?;
    }
    Ok(())
}

// Gathers the id of one note, where it tells of a test that began to run on the lane.
fn gather_note(lane: u32, note: Note, ids: &mut IdList) -> Result<(), NoMemory>
    ensures { (events : List AnEvent) → ids.old ≡ all_ran lane events → OnOk result (ids.new ≡ all_ran lane (events ++ event_of note ∷ [])) }
{
    match ran_on(lane, note) {
        Some(id) => {
            ids.push(id)?;
            Ok(())
        }
        None => Ok(()),
    }
}

// The id of a test that began to run on the lane, where the note tells of one.
fn ran_on(lane: u32, note: Note) -> Option<Text>
    ensures { result ≡ ran_on lane (event_of note) }
{
    let Note::Event(event) = note else {
        return None;
    };
    let Event {
        id,
        status,
        route,
        ..
    } = event;
    if is_in_lane(lane, &route) {
        ran_where(status, id)
    } else {
        None
    }
}

// Whether the route names the lane.
fn is_in_lane(lane: u32, route: &Option<Text>) -> bool
    ensures { result ≡ is_in_lane lane route.now }
{
    match route {
        Some(route) => is_lane(lane, lane_name(route.bytes())),
        None => false,
    }
}

// The id of a test that began to run, where an event of this status and this id tells of one.
fn ran_where(status: Status, id: Option<Text>) -> Option<Text>
    ensures { result ≡ ran_where status id }
{
    match status {
        Status::Exists => None,
        _ => unless_returncode(id),
    }
}

// The id, but for the one under which the end of a worker is told.
fn unless_returncode(id: Option<Text>) -> Option<Text>
    ensures { result ≡ unless_returncode id }
{
    let id = id?;
    if is_returncode(&id) {
        return None;
    }
    Some(id)
}
