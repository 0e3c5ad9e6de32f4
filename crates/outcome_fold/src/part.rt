//! What the events of a part of a test say together.

ghost use Rattle.outcome_fold.specs.Parts as parts;
ghost use Rattle.std.specs.Prelude.{◌≡◌, IsTrue, IfOk, OnOk, OnErr, not, nat_eq, [], ◌++◌, take};
ghost use Rattle.outcome_fold.specs.Parts.{text_by, text_limit, reason_by, reason_limit, first_text_line};
ghost use Rattle.std.specs.List.{prefix_len};
ghost use Rattle.std.specs.Option.{option_map, unwrap_or};
ghost use Rattle.outcome_fold.specs.Files.{name_in};
ghost use Rattle.outcome_fold.specs.Started.{IsSaidBy, after, after_said, fresh_said};
ghost use Rattle.packet_codec.specs.Packet.{SpellsEvent};
ghost use Rattle.packet_codec.specs.Shapes.{bytes_of};
ghost use Rattle.packet_codec.specs.declared.event.Event.{Event as AnEvent};

use crate::files::BoxedFiles;
use crate::row::Ended;
use crate::test_key::TestKey;
use crate::text_set::copies_of;
use packet_codec::{Event, Packet, Stamp, Tags};
use std::alloc::Global;
use std::marker::Model;
use sub_number::{Bytes, NoMemory};

/// The bytes of a row's text that are kept.
const TEXT_LIMIT: usize = 65_536;

/// The bytes that are kept of why a test was skipped.
const REASON_LIMIT: usize = 1_024;

/// The first bytes of some files, joined. Contracts see them as a list of bytes.
#[derive(Drop)]
pub struct KeptText {
    bytes: Vec<u8>,
}

impl Model for KeptText {
    ghost use Rattle.std.specs.Prelude.{List, ℕ};

    ghost Value = { List ℕ };

    ghost view = { λ t. t.bytes.items };
}

impl KeptText {
    /// No bytes. It takes no memory.
    pub fn new(alloc: Global) -> Self
        ensures { result ≡ [] }
    {
        KeptText {
            bytes: Vec::new(alloc),
        }
    }

    /// Appends the piece, of which no more is copied than is kept.
    pub fn append(&mut self, piece: &[u8]) -> Result<(), NoMemory>
        ensures ok { OnOk result (self.new ≡ take text_limit (self.old ++ piece.now)) }
        ensures err { OnErr result (self.new ≡ self.old) }
    {
        self.append_within(TEXT_LIMIT, piece)
    }

    // The same, where so many bytes are kept.
    #[inline(always)]
    fn append_within(&mut self, limit: usize, piece: &[u8]) -> Result<(), NoMemory>
        ensures ok { OnOk result (self.new ≡ take limit (self.old ++ piece.now)) }
        ensures err { OnErr result (self.new ≡ self.old) }
    {
        let room = limit.saturating_sub(self.bytes.len());
        self.bytes
            .extend_from_slice(&piece[..room.min(piece.len())])?;
        self.bytes.truncate(limit);
        Ok(())
    }

    /// Appends the piece of a reason, of which no more is copied than is kept.
    pub fn append_reason(&mut self, piece: &[u8]) -> Result<(), NoMemory>
        ensures ok { OnOk result (self.new ≡ take reason_limit (self.old ++ piece.now)) }
        ensures err { OnErr result (self.new ≡ self.old) }
    {
        self.append_within(REASON_LIMIT, piece)
    }

    // Whether a piece of a reason adds nothing to this one.
    #[inline(always)]
    fn stays_with(&self, piece: &[u8]) -> bool
        ensures { IsTrue result → take reason_limit (self.now ++ piece.now) ≡ self.now }
    {
        let size = self.bytes.len();
        if piece.len() == 0 {
            size <= REASON_LIMIT
        } else {
            size == REASON_LIMIT
        }
    }

    // This reason with a piece more, as a copy.
    #[inline(never)]
    fn with_reason(&self, alloc: Global, piece: &[u8]) -> Result<Self, NoMemory>
        ensures { IfOk result (λ reason. reason ≡ take reason_limit (self.now ++ piece.now)) }
    {
        let mut reason = KeptText::new(alloc);
        reason.append_reason(self.bytes.as_slice())?;
        reason.append_reason(piece)?;
        Ok(reason)
    }

    /// The bytes of the first line, without its newline, moved out.
    pub fn into_first_line(mut self) -> Bytes
        ensures { result ≡ first_text_line self }
    {
        let size = line_size(&self.bytes);
        self.bytes.truncate(size);
        Bytes::from_vec(self.bytes)
    }

    // All of them, in order.
    #[inline(always)]
    pub(crate) fn bytes(&self) -> &[u8]
        ensures { result.now ≡ self.now }
    {
        self.bytes.as_slice()
    }

    // The same, moved out.
    pub(crate) fn into_vec(self) -> Vec<u8>
        ensures { result.items ≡ self }
    {
        self.bytes
    }

    // The same bytes once more.
    pub(crate) fn copy(&self, alloc: Global) -> Result<Self, NoMemory>
        ensures { IfOk result (λ copy. copy ≡ self.now) }
    {
        Ok(KeptText {
            bytes: Vec::from_slice(alloc, self.bytes())?,
        })
    }
}

// How many bytes stand before the first newline, or in all.
fn line_size(bytes: &[u8]) -> usize
    ensures { result ≡ prefix_len (λ byte. not (nat_eq byte 10)) bytes.now }
{
    for end in 0..bytes.len() {
        if bytes[end] == b'\n' {
            return end;
        }
    }
    bytes.len()
}

/// What the events of a part say so far.
#[derive(Drop)]
pub struct Started {
    /// The instant of the first event, in nanoseconds since 1970 in UTC, where it has one.
    pub start: Option<u64>,
    /// The tags of the last event that has tags, as it has them.
    pub tags: Tags,
    /// The files of text, as far as they are kept.
    pub files: BoxedFiles,
    /// The first bytes of the files named `reason`, joined.
    pub reason: KeptText,
}

/// A part of a test that has ended, or is open at the end, and what its events say.
#[derive(Drop)]
pub struct EndedPart {
    /// The test.
    pub key: TestKey,
    /// How it ended.
    pub ended: Ended,
    /// What the part's events say together.
    pub started: Started,
    /// The instant of the completing event, in nanoseconds since 1970 in UTC, where there is one and it has one.
    pub end: Option<u64>,
}

/// The instant of an event, in nanoseconds since 1970 in UTC, where it has a stamp.
pub fn instant_of(event: &Event) -> Option<u64>
    ensures { result ≡ option_map parts.instant event.now.stamp }
{
    instant_at(event.stamp)
}

/// The instant of the packet's event, in nanoseconds since 1970 in UTC, where it has a stamp.
#[inline(always)]
pub fn instant_in(packet: &Packet<'_>) -> Option<u64>
    ensures { (e : AnEvent) → SpellsEvent packet.now e → result ≡ option_map parts.instant e.stamp }
{
    instant_at(packet.stamp())
}

// The instant of a time, where there is one.
#[inline(always)]
fn instant_at(stamp: Option<Stamp>) -> Option<u64>
    ensures { result ≡ option_map parts.instant stamp }
{
    match stamp {
        Some(stamp) => Some(stamp.instant()),
        None => None,
    }
}

/// What lies between two instants, in nanoseconds. `None` comes exactly where one of them is missing, or the second one
/// is the earlier.
pub fn elapsed(start: Option<u64>, end: Option<u64>) -> Option<u64>
    ensures { result ≡ parts.elapsed start end }
{
    match (start, end) {
        (Some(start), Some(end)) if start <= end => Some(end - start),
        _ => None,
    }
}

/// The bytes of the event's file, where it has a MIME type that begins with `text/`, else none.
pub fn text_in(event: &Event) -> &[u8]
    ensures { result.now ≡ parts.text_in event.now.mime event.now.file }
{
    match (&event.mime, &event.file) {
        (Some(mime), Some(file)) if mime.bytes().starts_with(b"text/") => file.bytes.bytes(),
        _ => &[],
    }
}

// The bytes of a file, where there are some, and a MIME type that begins with `text/`, else none.
#[inline(always)]
fn text_at<'a>(mime: Option<&[u8]>, file: Option<&'a [u8]>) -> &'a [u8]
    ensures { result.now ≡ text_by (bytes_of mime.entry) (bytes_of file.entry) }
{
    match (mime, file) {
        (Some(mime), Some(bytes)) if mime.starts_with(b"text/") => bytes,
        _ => &[],
    }
}

/// The bytes of the file of the packet's event, where it has a MIME type that begins with `text/`, else none. They are
/// not copied.
#[inline(always)]
pub fn text_heard<'p>(packet: &'p Packet<'_>) -> &'p [u8]
    ensures { (e : AnEvent) → SpellsEvent packet.now e → result.now ≡ parts.text_in e.mime e.file }
{
    text_at(packet.mime(), packet.file_bytes())
}

/// The name of the event's file, where it has one.
pub fn file_name_in(event: &Event) -> &[u8]
    ensures { result.now ≡ name_in event.now.file }
{
    match &event.file {
        Some(file) => file.name.bytes(),
        None => &[],
    }
}

// The name of the file of the packet's event, where it has one. It is not copied.
#[inline(always)]
pub(crate) fn file_name_heard<'p>(packet: &'p Packet<'_>) -> &'p [u8]
    ensures { (e : AnEvent) → SpellsEvent packet.now e → result.now ≡ name_in e.file }
{
    match packet.file_name() {
        Some(name) => name,
        None => &[],
    }
}

/// The bytes of the event's file, where its name is `reason`, else none.
pub fn reason_in(event: &Event) -> &[u8]
    ensures { result.now ≡ parts.reason_in event.now.file }
{
    match &event.file {
        Some(file) if file.name.bytes() == b"reason".as_slice() => file.bytes.bytes(),
        _ => &[],
    }
}

// The bytes of a file, where there are some, and its name is `reason`, else none.
#[inline(always)]
fn reason_at<'a>(name: Option<&[u8]>, file: Option<&'a [u8]>) -> &'a [u8]
    ensures { result.now ≡ reason_by (bytes_of name.entry) (bytes_of file.entry) }
{
    match (name, file) {
        (Some(name), Some(bytes)) if name == b"reason".as_slice() => bytes,
        _ => &[],
    }
}

/// The bytes of the file of the packet's event, where its name is `reason`, else none. They are not copied.
#[inline(always)]
pub fn reason_heard<'p>(packet: &'p Packet<'_>) -> &'p [u8]
    ensures { (e : AnEvent) → SpellsEvent packet.now e → result.now ≡ parts.reason_in e.file }
{
    reason_at(packet.file_name(), packet.file_bytes())
}

/// What one event says of its test.
#[derive(Drop)]
pub(crate) struct Said<'a> {
    /// When it happened, in nanoseconds since 1970 in UTC, where it has a stamp.
    pub(crate) instant: Option<u64>,
    /// Its tags, where it has tags.
    pub(crate) tags: Option<Tags>,
    /// The name of its file, where it has one.
    pub(crate) name: &'a [u8],
    /// The bytes of its file of text.
    pub(crate) text: &'a [u8],
    /// The bytes of its file named `reason`.
    pub(crate) reason: &'a [u8],
}

/// What the event says. Its tags are copied.
pub(crate) fn said_by(alloc: Global, event: &Event) -> Result<Said<'_>, NoMemory>
    ensures { IfOk result (λ said. IsSaidBy said event.now) }
{
    Ok(Said {
        instant: instant_of(event),
        tags: new_tags(alloc, &event.tags)?,
        name: file_name_in(event),
        text: text_in(event),
        reason: reason_in(event),
    })
}

/// What the packet's event says. Its tags are copied, and its text stays where it stands.
#[inline(always)]
pub(crate) fn said_in<'p>(alloc: Global, packet: &'p Packet<'_>) -> Result<Said<'p>, NoMemory>
    ensures { (e : AnEvent) → SpellsEvent packet.now e → IfOk result (λ said. IsSaidBy said e) }
{
    Ok(Said {
        instant: instant_in(packet),
        tags: packet.tags(alloc)?,
        name: file_name_heard(packet),
        text: text_heard(packet),
        reason: reason_heard(packet),
    })
}

// Copies of the tags of an event, where it has tags.
fn new_tags(alloc: Global, tags: &Option<Tags>) -> Result<Option<Tags>, NoMemory>
    ensures { IfOk result (λ copies. copies ≡ tags.now) }
{
    match tags {
        Some(tags) => Ok(Some(copies_of(alloc, tags.list())?)),
        None => Ok(None),
    }
}

// The tags of the packet's event, where it has some and they are not these.
#[inline(always)]
fn other_tags(alloc: Global, kept: &Tags, packet: &Packet<'_>) -> Result<Option<Tags>, NoMemory>
    ensures { (e : AnEvent) → SpellsEvent packet.now e → IfOk result (λ tags. unwrap_or tags kept.now ≡ unwrap_or e.tags kept.now) }
{
    if packet.has_tags(kept) {
        return Ok(None);
    }
    packet.tags(alloc)
}

// The reason with the piece, where that is another one.
#[inline(always)]
fn other_reason(alloc: Global, kept: &KeptText, piece: &[u8]) -> Result<Option<KeptText>, NoMemory>
    ensures { IfOk result (λ reason. unwrap_or reason kept.now ≡ take reason_limit (kept.now ++ piece.now)) }
{
    if kept.stays_with(piece) {
        return Ok(None);
    }
    Ok(Some(kept.with_reason(alloc, piece)?))
}

// What needs memory, and may want it, is made first, so that nothing has changed where it is wanting.
impl Started {
    /// Takes what the packet's event says, one more of the part. Tags that are the same as before are not copied.
    pub(crate) fn hear(&mut self, alloc: Global, packet: &Packet<'_>) -> Result<(), NoMemory>
        ensures ok { (e : AnEvent) → SpellsEvent packet.now e → OnOk result (self.new ≡ after self.old e) }
        ensures err { OnErr result (self.new ≡ self.old) }
    {
        let tags = other_tags(alloc, &self.tags, packet)?;
        let reason = other_reason(alloc, &self.reason, reason_heard(packet))?;
        self.files
            .append(alloc, file_name_heard(packet), text_heard(packet))?;
        if let Some(tags) = tags {
            self.tags = tags;
        }
        if let Some(reason) = reason {
            self.reason = reason;
        }
        Ok(())
    }
}

impl Started {
    /// What a part says whose first event says this.
    pub(crate) fn begun(alloc: Global, mut said: Said<'_>) -> Result<Self, NoMemory>
        ensures { IfOk result (λ started. started ≡ after_said (fresh_said said.entry) said.entry) }
    {
        let mut started = Started {
            start: said.instant,
            tags: Tags::new(alloc),
            files: BoxedFiles::new(),
            reason: KeptText::new(alloc),
        };
        started.take(alloc, &mut said)?;
        Ok(started)
    }

    /// Takes what one event more says.
    pub(crate) fn take(&mut self, alloc: Global, said: &mut Said<'_>) -> Result<(), NoMemory>
        ensures ok { OnOk result (self.new ≡ after_said self.old said.old) }
        ensures err { OnErr result ((self.new ≡ self.old) × (said.new ≡ said.old)) }
    {
        let reason = other_reason(alloc, &self.reason, said.reason)?;
        self.files.append(alloc, said.name, said.text)?;
        if let Some(tags) = said.tags.take() {
            self.tags = tags;
        }
        if let Some(reason) = reason {
            self.reason = reason;
        }
        Ok(())
    }
}
