//! The fields of a packet, each on its own, for those who need no whole event.

ghost use Rattle.std.specs.Prelude.{◌≡◌, ◌↔◌, Option, Some, List, ℕ, option_map, All, IsTrue, IfSome, IfOk};
ghost use Rattle.sub_number.specs.Texts.{IsShortText};
ghost use Rattle.packet_codec.specs.Packet.{SpellsEvent};
ghost use Rattle.packet_codec.specs.Shapes.{ShowsRuns, ShowsTags, bytes_of, file_of};
ghost use Rattle.packet_codec.specs.declared.event.Event.{Event};

use crate::decoder::{optional_tags, optional_text, status_of};
use crate::packet::Packet;
use crate::parts::{FileBytes, RunList, run_at};
use crate::stamp::Stamp;
use crate::status::Status;
use crate::tags::Tags;
use std::alloc::Global;
use std::str;
use sub_number::{NoMemory, Text};

/// The bytes of a file, where there is one.
#[inline(always)]
fn bytes_in(file: Option<FileBytes<'_>>) -> Option<&[u8]>
    ensures { bytes_of result ≡ option_map (λ file. file.1) (file_of file.entry) }
{
    match file {
        None => None,
        Some(file) => Some(file.bytes),
    }
}

/// The name of a file, where there is one.
#[inline(always)]
fn name_in(file: Option<FileBytes<'_>>) -> Option<&[u8]>
    ensures { bytes_of result ≡ option_map (λ file. file.0) (file_of file.entry) }
{
    match file {
        None => None,
        Some(file) => Some(file.name),
    }
}

// Each says what the packet's event has there. What is copied is copied once. The error comes for want of memory.
impl<'a> Packet<'a> {
    /// The id of its event.
    #[inline(always)]
    pub fn id(&self, alloc: Global) -> Result<Option<Text>, NoMemory>
        ensures { (e : Event) → SpellsEvent self.now e → IfOk result (λ id. id ≡ e.id) }
    {
        optional_text(alloc, self.parts.id)
    }

    /// The route of its event.
    #[inline(always)]
    pub fn route(&self, alloc: Global) -> Result<Option<Text>, NoMemory>
        ensures { (e : Event) → SpellsEvent self.now e → IfOk result (λ route. route ≡ e.route) }
    {
        optional_text(alloc, self.parts.route)
    }

    /// The tags of its event.
    #[inline(always)]
    pub fn tags(&self, alloc: Global) -> Result<Option<Tags>, NoMemory>
        ensures { (e : Event) → SpellsEvent self.now e → IfOk result (λ tags. tags ≡ e.tags) }
    {
        optional_tags(alloc, self.parts.tags)
    }

    /// The time of its event.
    #[inline(always)]
    pub fn stamp(&self) -> Option<Stamp>
        ensures { (e : Event) → SpellsEvent self.now e → result ≡ e.stamp }
    {
        self.parts.stamp
    }

    /// The status of its event.
    #[inline(always)]
    pub fn status(&self) -> Status
        ensures { (e : Event) → SpellsEvent self.now e → result ≡ e.status }
    {
        status_of(self.header.second)
    }

    /// The MIME type of its event, where it stands.
    #[inline(always)]
    pub fn mime(&self) -> Option<&[u8]>
        ensures { (e : Event) → SpellsEvent self.now e → bytes_of result ≡ e.mime }
    {
        self.parts.mime
    }

    /// The name of the file of which its event has a piece, where it stands.
    #[inline(always)]
    pub fn file_name(&self) -> Option<&[u8]>
        ensures { (e : Event) → SpellsEvent self.now e → bytes_of result ≡ option_map (λ file. file.name) e.file }
    {
        name_in(self.parts.file)
    }

    /// The bytes of the piece of a file that its event has, where they stand.
    #[inline(always)]
    pub fn file_bytes(&self) -> Option<&[u8]>
        ensures { (e : Event) → SpellsEvent self.now e → bytes_of result ≡ option_map (λ file. file.bytes) e.file }
    {
        bytes_in(self.parts.file)
    }
}

// Whether a text that was tested is this one. Texts are compared eight bytes at a time, and lists of bytes are not.
#[inline(always)]
fn is_same(bytes: &[u8], text: &Text) -> bool
    requires { IsShortText bytes.now }
    ensures { IsTrue result ↔ bytes.now ≡ text.now }
{
    unsafe { str::from_utf8_unchecked(bytes) == str::from_utf8_unchecked(text.bytes()) }
}

// Whether a run, a text that was tested, is there and is this one.
#[inline(always)]
fn is_same_run(run: Option<&[u8]>, text: &Text) -> bool
    requires { IfSome (bytes_of run) IsShortText }
    ensures { IsTrue result ↔ bytes_of run.entry ≡ Some text.now }
{
    match run {
        None => false,
        Some(bytes) => is_same(bytes, text),
    }
}

// The same of a text that may be none: then the run is not there.
#[inline(always)]
fn is_same_option(run: Option<&[u8]>, text: &Option<Text>) -> bool
    requires { IfSome (bytes_of run) IsShortText }
    ensures { IsTrue result ↔ bytes_of run.entry ≡ text.now }
{
    match (run, text) {
        (None, None) => true,
        (Some(bytes), Some(text)) => is_same(bytes, text),
        _ => false,
    }
}

// Whether so many texts that were tested are these.
fn are_same(count: u32, bytes: &[u8], texts: &[Text]) -> bool
    requires { (runs : List (List ℕ)) × ShowsRuns count bytes.now runs × All IsShortText runs }
    ensures { (runs : List (List ℕ)) → ShowsRuns count bytes.now runs → IsTrue result ↔ runs ≡ texts.now }
{
    if texts.len() != count as usize {
        return false;
    }
    let mut rest = bytes;
    for text in texts {
        let (run, after) = run_at(rest).unwrap();
        if !is_same(run, text) {
            return false;
        }
        rest = after;
    }
    true
}

// Whether tags that were tested are these.
#[inline(always)]
fn are_same_tags(tags: Option<RunList<'_>>, texts: &[Text]) -> bool
    requires { (runs : Option (List (List ℕ))) × ShowsTags tags runs × IfSome runs (All IsShortText) }
    ensures { (runs : Option (List (List ℕ))) → ShowsTags tags.entry runs → IsTrue result ↔ runs ≡ Some texts.now }
{
    match tags {
        None => false,
        Some(list) => are_same(list.count, list.bytes, texts),
    }
}

// Whether its event has just this. Nothing is copied.
impl<'a> Packet<'a> {
    /// Whether its event has this route, or none where this is none.
    #[inline(always)]
    pub fn has_route(&self, route: &Option<Text>) -> bool
        ensures { (e : Event) → SpellsEvent self.now e → IsTrue result ↔ e.route ≡ route.now }
    {
        is_same_option(self.parts.route, route)
    }

    /// Whether its event has these tags, in this order.
    #[inline(always)]
    pub fn has_tags(&self, tags: &Tags) -> bool
        ensures { (e : Event) → SpellsEvent self.now e → IsTrue result ↔ e.tags ≡ Some tags.now }
    {
        are_same_tags(self.parts.tags, tags.list())
    }

    /// Whether its event has this id.
    #[inline(always)]
    pub fn has_id(&self, id: &Text) -> bool
        ensures { (e : Event) → SpellsEvent self.now e → IsTrue result ↔ e.id ≡ Some id.now }
    {
        is_same_run(self.parts.id, id)
    }
}
