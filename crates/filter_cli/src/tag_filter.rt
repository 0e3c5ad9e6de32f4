//! The events of a stream with other tags.

ghost use Rattle.std.specs.Prelude.{◌≡◌, ◌++◌, None, IfSome, OnOk};
ghost use Rattle.packet_codec.specs.Canonical.{canonical, Fits};
ghost use Rattle.packet_codec.specs.Packet.{SpellsEvent};
ghost use Rattle.packet_codec.specs.Retagging.{if_any, lent_bytes, with_tags};
ghost use Rattle.packet_codec.specs.declared.event.Event.{Event as AnEvent};
ghost use Rattle.event_sift.specs.Tagging.{plain_tags, tagged, tags_with, where_fits};
ghost use Rattle.filter_cli.specs.Pipe.{pipe};
ghost use Rattle.filter_cli.specs.Plan.{IsSeen, IsFiltered};
ghost use Rattle.stream_end.specs.Inside.{ends_inside};
ghost use Rattle.filter_cli.specs.Pumping.{Pumps, WritesFirst};
ghost use Rattle.filter_cli.specs.Tagging.{tags_plan};

use crate::filter::StreamEnd;
use crate::note_pump::pump_notes;
use crate::notes::NoteFilter;
use crate::pump_loop::PumpFault;
use edge_io::{Sink, Source};
use event_sift::Tagger;
use packet_codec::{Event, Packet, Tags, encode, fits};
use std::alloc::Global;
use stream_reader::stdout_event;
use sub_number::{Bytes, NoMemory};

/// Gives each event of a stream its tags and added ones without removed ones. Foreign bytes are events here, pieces of
/// the file `stdout`.
#[derive(Drop)]
pub(crate) struct TagFilter<'t> {
    alloc: Global,
    tagger: &'t Tagger,
    // The tags that an event gets which has none, for packets and for foreign bytes.
    lent: Vec<&'t [u8]>,
    plain: Option<Tags>,
}

impl<'t> TagFilter<'t> {
    ghost use Rattle.std.specs.Prelude.{IfOk};

    /// Nothing was taken yet.
    pub(crate) fn new(alloc: Global, tagger: &'t Tagger) -> Result<Self, NoMemory>
        ensures tagger { IfOk result (λ tagging. tagging.tagger.now ≡ tagger.now) }
        ensures lent { IfOk result (λ tagging. lent_bytes tagging.lent.items ≡ tags_with tagging.tagger.now.add tagging.tagger.now.remove None) }
        ensures plain { IfOk result (λ tagging. tagging.plain ≡ plain_tags tagging.tagger.now) }
    {
        let lent = tagger.tags_for(Vec::new(alloc))?;
        let plain = tagger.plain_tags()?;
        Ok(TagFilter {
            alloc,
            tagger,
            lent,
            plain,
        })
    }
}

impl<'t> NoteFilter for TagFilter<'t> {
    ghost plan = { λ f. tags_plan f.tagger.now };

    // Nothing is kept of what was taken.
    ghost has = { λ f notes. (lent_bytes f.lent.items ≡ tags_with f.tagger.now.add f.tagger.now.remove None) × (f.plain ≡ plain_tags f.tagger.now) };

    fn take(&mut self, packet: &Packet<'_>, text: &mut Vec<u8>) -> Result<(), NoMemory> {
        put_tagged(self.alloc, self.tagger, &self.lent, packet, text)
    }

    fn take_foreign(&mut self, bytes: &[u8], text: &mut Vec<u8>) -> Result<(), NoMemory> {
        let event = stdout_event(self.alloc, Bytes::new(self.alloc, bytes)?)?;
        put_plain(&mut self.plain, event, text)
    }

    fn close(self, _text: &mut Vec<u8>) -> Result<u8, NoMemory> {
        Ok(0)
    }

    fn let_go(self) {}
}

// Appends the packet's event with its tags, where these are the tags of one that has none.
fn put_tagged<'x>(
    alloc: Global,
    tagger: &'x Tagger,
    plain: &[&[u8]],
    packet: &Packet<'x>,
    text: &mut Vec<u8>,
) -> Result<(), NoMemory>
    ensures { (event : AnEvent) → SpellsEvent packet.now event → lent_bytes plain.now ≡ tags_with tagger.now.add tagger.now.remove None → OnOk result (text.new.items ≡ text.old.items ++ canonical (tagged tagger.now event)) }
{
    let found = packet.tag_list(alloc)?;
    match found {
        None => put_with(packet, plain, text),
        Some(own) => {
            let tags = tagger.tags_for(own)?;
            put_with(packet, &tags, text)
        }
    }
}

// Appends the packet's event with these tags, and without any where there are none. Where it has no room for them it goes
// as it is.
fn put_with(packet: &Packet<'_>, tags: &[&[u8]], text: &mut Vec<u8>) -> Result<(), NoMemory>
    ensures { (event : AnEvent) → SpellsEvent packet.now event → OnOk result (text.new.items ≡ text.old.items ++ canonical (where_fits (with_tags event (if_any (lent_bytes tags.now))) event)) }
{
    let put = packet.put_with_tags(tags, text)?;
    if put {
        return Ok(());
    }
    packet.put_shortest(text)
}

// Appends the packet of an event without tags, with these where it has room for them. They are lent, and not copied.
fn put_plain(tags: &mut Option<Tags>, mut event: Event, text: &mut Vec<u8>) -> Result<(), NoMemory>
    requires fits { Fits event }
    requires plain { event.tags ≡ None }
    ensures text { OnOk result (text.new.items ≡ text.old.items ++ canonical (where_fits (with_tags event tags.old) event)) }
    ensures tags { OnOk result (tags.new ≡ tags.old) }
{
    event.tags = tags.take();
    if fits(&event) {
        encode(&event, text)?;
        *tags = event.tags.take();
        return Ok(());
    }
    *tags = event.tags.take();
    encode(&event, text)?;
    Ok(())
}

/// Gives the events of the input other tags, to its end, and writes each as its shortest packet where it comes. Foreign
/// bytes are written as events, pieces of the file `stdout`. The status is 0.
///
/// Each `PumpFault` comes as `pump_notes` says, and at each a first part of the text was written, and nothing else.
pub fn tag_stream<I: Source, O: Sink>(
    alloc: Global,
    tagger: Tagger,
    input: &mut I,
    out: &mut O,
) -> Result<StreamEnd, PumpFault>
    ensures pumps { Pumps ends_inside (IsSeen (tags_plan tagger)) (IsFiltered (tags_plan tagger)) (pipe (I.seen input.old) (O.seen out.old)) (pipe (I.seen input.new) (O.seen out.new)) result }
    ensures prefix { IfSome (I.seen input.old).told (WritesFirst (IsFiltered (tags_plan tagger)) (O.seen out.old).told (O.seen out.new).told) }
{
    let tagging = TagFilter::new(alloc, &tagger)?;
    pump_notes(alloc, tagging, input, out)
}
