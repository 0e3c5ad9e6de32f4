//! The two halves of a packet's event, each written from where its parts stand: no event is made of them.

ghost use Rattle.std.specs.Prelude.{◌≡◌, ◌<◌, ◌++◌, true, Option, List, ℕ, option_map, IsTrue, ◌↔◌, OnOk, OnErr};
ghost use Rattle.packet_codec.specs.Canonical.{canonical, Fits};
ghost use Rattle.packet_codec.specs.Flags.{second_flags};
ghost use Rattle.packet_codec.specs.Halves.{has_halves, first_half, second_half, half_of, other_half_of, is_long_file};
ghost use Rattle.packet_codec.specs.Packet.{SpellsEvent};
ghost use Rattle.packet_codec.specs.Respelled.{AreOf};
ghost use Rattle.packet_codec.specs.Routing.{under};
ghost use Rattle.packet_codec.specs.Shapes.{ShowsParts, contents_of, file_of, file_from};
ghost use Rattle.packet_codec.specs.declared.event.Event.{Event};

use crate::event_change::Change;
use crate::header::Header;
use crate::packet::Packet;
use crate::parts::{FileBytes, Parts};
use crate::respelled_bytes::put_changed;
use crate::respelled_size::fields_size;
use crate::sizes::whole_size;
use sub_number::NoMemory;

// A file of fewer bytes is not cut in two.
const LEAST_HALVED: usize = 8;

// `NoMemory` comes only for want of memory, and `out` then has what it had. Each half fits under each lane.
impl<'a> Packet<'a> {
    /// Whether its event may be cut in two: it has a file of at least 8 bytes.
    pub fn has_halves(&self) -> bool
        ensures { (e : Event) → SpellsEvent self.now e → result ≡ has_halves e }
    {
        is_long(self.parts.file)
    }

    /// Appends the shortest spelling of the first half of its event under the route of a lane.
    pub fn put_first_half(&self, lane: u32, out: &mut Vec<u8>) -> Result<(), NoMemory>
        requires lane { lane < 64 }
        requires halves { (e : Event) → SpellsEvent self.now e → has_halves e ≡ true }
        ensures ok { (e : Event) → SpellsEvent self.now e → OnOk result (out.new.items ≡ out.old.items ++ canonical (under lane (first_half e))) }
        ensures err { OnErr result (out.new.items ≡ out.old.items) }
    {
        let parts = Parts {
            tags: None,
            file: front_of(self.parts.file),
            ..self.parts
        };
        put_parts_under(first_header(self.header), &parts, lane, out)
    }

    /// Appends the shortest spelling of the second half of its event under the route of a lane.
    pub fn put_second_half(&self, lane: u32, out: &mut Vec<u8>) -> Result<(), NoMemory>
        requires lane { lane < 64 }
        requires halves { (e : Event) → SpellsEvent self.now e → has_halves e ≡ true }
        ensures ok { (e : Event) → SpellsEvent self.now e → OnOk result (out.new.items ≡ out.old.items ++ canonical (under lane (second_half e))) }
        ensures err { OnErr result (out.new.items ≡ out.old.items) }
    {
        let parts = Parts {
            file: behind_of(self.parts.file),
            ..self.parts
        };
        put_parts_under(self.header, &parts, lane, out)
    }
}

// Whether the file may be cut in two.
fn is_long(file: Option<FileBytes<'_>>) -> bool
    ensures { result ≡ is_long_file (option_map file_from (file_of file.entry)) }
{
    match file {
        None => false,
        Some(file) => file.bytes.len() >= LEAST_HALVED,
    }
}

// The file with the first half of its bytes.
fn front_of(file: Option<FileBytes<'_>>) -> Option<FileBytes<'_>>
    ensures { file_of result ≡ option_map (λ part. (part.0, half_of part.1)) (file_of file.entry) }
{
    match file {
        None => None,
        Some(FileBytes { name, bytes }) => Some(FileBytes {
            name,
            bytes: &bytes[..bytes.len() / 2],
        }),
    }
}

// The file with its other bytes.
fn behind_of(file: Option<FileBytes<'_>>) -> Option<FileBytes<'_>>
    ensures { file_of result ≡ option_map (λ part. (part.0, other_half_of part.1)) (file_of file.entry) }
{
    match file {
        None => None,
        Some(FileBytes { name, bytes }) => Some(FileBytes {
            name,
            bytes: &bytes[bytes.len() / 2..],
        }),
    }
}

// The header of the first half: of the second flag byte the bits of the file and of its type stay.
fn first_header(header: Header) -> Header
    ensures first { result.first ≡ header.first }
    ensures second { (e : Event) → header.second ≡ second_flags e → result.second ≡ second_flags (first_half e) }
{
    Header {
        second: header.second / 32 % 4 * 32,
        ..header
    }
}

// Appends the shortest spelling of the event that has these flags and these parts, under the route of a lane. It fits.
fn put_parts_under(
    header: Header,
    parts: &Parts<'_>,
    lane: u32,
    out: &mut Vec<u8>,
) -> Result<(), NoMemory>
    requires lane { lane < 64 }
    requires fits { (e : Event) × AreOf header parts.now e × Fits (under lane e) }
    ensures ok { (e : Event) → AreOf header parts.now e → OnOk result (out.new.items ≡ out.old.items ++ canonical (under lane e)) }
    ensures err { OnErr result (out.new.items ≡ out.old.items) }
{
    let change = Change::Lane(lane);
    let size = whole_size(fields_size(parts, change));
    put_changed(header, size as u32, parts, change, out)
}
