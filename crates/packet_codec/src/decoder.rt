//! The event that a packet spells.

ghost use Rattle.std.specs.Prelude.{◌≡◌, ◌%◌, Option, List, ℕ, option_map, All, IfSome, IfOk};
ghost use Rattle.sub_number.specs.Texts.{IsShortText};
ghost use Rattle.packet_codec.specs.Canonical.{Fits};
ghost use Rattle.packet_codec.specs.Packet.{SpellsEvent, IsPacket};
ghost use Rattle.packet_codec.specs.Shapes.{Contents, ShowsRuns, ShowsTags, ShowsParts, AreShortTexts, bytes_of, file_of, file_from, status_from, event_from};
ghost use Rattle.packet_codec.specs.declared.event.Event.{Event};

use crate::event::{Event, FilePart};
use crate::packet::{Packet, known_packet};
use crate::parts::{FileBytes, Parts, RunList, run_at};
use crate::status::Status;
use crate::tags::Tags;
use std::alloc::Global;
use sub_number::{Bytes, NoMemory, Text};

pub(crate) fn optional_text(alloc: Global, run: Option<&[u8]>) -> Result<Option<Text>, NoMemory>
    requires { IfSome (bytes_of run) IsShortText }
    ensures { IfOk result (λ text. text ≡ bytes_of run.entry) }
{
    match run {
        None => Ok(None),
        Some(bytes) => Ok(Some(Text::from_tested(alloc, bytes)?)),
    }
}

fn tags_of(alloc: Global, count: u32, bytes: &[u8]) -> Result<Tags, NoMemory>
    requires { (runs : List (List ℕ)) × ShowsRuns count bytes.now runs × All IsShortText runs }
    ensures { (runs : List (List ℕ)) → ShowsRuns count bytes.now runs → IfOk result (λ tags. tags ≡ runs) }
{
    let mut tags = Tags::new(alloc);
    let mut rest = bytes;
    for _ in 0..count {
        let (run, after) = run_at(rest).unwrap();
        tags.push(Text::from_tested(alloc, run)?)?;
        rest = after;
    }
    Ok(tags)
}

pub(crate) fn optional_tags(
    alloc: Global,
    tags: Option<RunList<'_>>,
) -> Result<Option<Tags>, NoMemory>
    requires { (runs : Option (List (List ℕ))) × ShowsTags tags runs × IfSome runs (All IsShortText) }
    ensures { (runs : Option (List (List ℕ))) → ShowsTags tags.entry runs → IfOk result (λ tags. tags ≡ runs) }
{
    match tags {
        None => Ok(None),
        Some(list) => Ok(Some(tags_of(alloc, list.count, list.bytes)?)),
    }
}

fn optional_file(alloc: Global, file: Option<FileBytes<'_>>) -> Result<Option<FilePart>, NoMemory>
    requires { IfSome (file_of file) (λ part. IsShortText part.0) }
    ensures { IfOk result (λ part. part ≡ option_map file_from (file_of file.entry)) }
{
    let Some(FileBytes { name, bytes }) = file else {
        return Ok(None);
    };
    let name = Text::from_tested(alloc, name)?;
    let bytes = Bytes::new(alloc, bytes)?;
    Ok(Some(FilePart { name, bytes }))
}

/// The status of the lowest three bits.
pub(crate) fn status_of(second: u8) -> Status
    ensures { result ≡ status_from (second % 8) }
{
    match second % 8 {
        0 => Status::Unset,
        1 => Status::Exists,
        2 => Status::InProgress,
        3 => Status::Success,
        4 => Status::UxSuccess,
        5 => Status::Skip,
        6 => Status::Fail,
        _ => Status::XFail,
    }
}

/// The event with these flag bytes and fields, each field copied once. The texts among them were tested.
#[inline(always)]
pub(crate) fn event_of(
    alloc: Global,
    first: u8,
    second: u8,
    parts: &Parts<'_>,
) -> Result<Event, NoMemory>
    requires { (contents : Contents) × ShowsParts parts.now contents × AreShortTexts contents }
    ensures { (contents : Contents) → ShowsParts parts.now contents → IfOk result (λ event. event ≡ event_from first second contents) }
{
    Ok(Event {
        stamp: parts.stamp,
        id: optional_text(alloc, parts.id)?,
        tags: optional_tags(alloc, parts.tags)?,
        runnable: first % 2 == 1,
        status: status_of(second),
        mime: optional_text(alloc, parts.mime)?,
        file: optional_file(alloc, parts.file)?,
        eof: second / 16 % 2 == 1,
        route: optional_text(alloc, parts.route)?,
    })
}

impl<'a> Packet<'a> {
    /// The event that the packet spells. Each part is copied once, from where it was found, and its tags are walked
    /// again. No text is tested again. The error comes for want of memory. The event fits, since its shortest spelling
    /// is no longer than the packet.
    #[inline(always)]
    pub fn event(&self, alloc: Global) -> Result<Event, NoMemory>
        ensures spelled { IfOk result (SpellsEvent self.now) }
        ensures only { (e : Event) → SpellsEvent self.now e → IfOk result (λ event. event ≡ e) }
        ensures fits { IfOk result Fits }
    {
        event_of(alloc, self.header.first, self.header.second, &self.parts)
    }
}

/// The event that a packet spells: all of the bytes are one packet. Each part is copied once. The error comes for want
/// of memory. The event fits, since its shortest spelling is no longer than the one that was read.
pub fn decode(alloc: Global, bytes: &[u8]) -> Result<Event, NoMemory>
    requires { IsPacket bytes.now }
    ensures spelled { IfOk result (SpellsEvent bytes.now) }
    ensures only { (e : Event) → SpellsEvent bytes.now e → IfOk result (λ event. event ≡ e) }
    ensures fits { IfOk result Fits }
{
    known_packet(bytes).event(alloc)
}
