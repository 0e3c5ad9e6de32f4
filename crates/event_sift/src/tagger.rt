//! The tags of an event.

ghost use Rattle.std.specs.Prelude.{◌≡◌, ◌++◌, [], Some, IfOk, OnOk, OnErr};
ghost use Rattle.std.specs.Option.{unwrap_or};
ghost use Rattle.packet_codec.specs.Retagging.{if_any, lent_bytes};
ghost use Rattle.outcome_fold.specs.Order.{in_byte_order};
ghost use Rattle.event_sift.specs.Tagging.{plain_tags, tags_with, tagged};

use crate::lent_tags::{put_in_order, put_texts, take_out};
use outcome_fold::TextSet;
use packet_codec::{Event, Tags, fits};
use std::alloc::Global;
use std::mem;
use sub_number::NoMemory;

/// Tags that are added to events, and tags that are removed from them. A tag that is both is removed.
#[derive(Drop)]
pub struct Tagger {
    alloc: Global,
    add: Tags,
    remove: Tags,
}

impl Tagger {
    /// A tagger that adds the first tags and removes the others. They may stand in any order, and more than once.
    pub fn new(alloc: Global, add: Tags, remove: Tags) -> Self
        ensures add { result.add ≡ add }
        ensures remove { result.remove ≡ remove }
    {
        Tagger { alloc, add, remove }
    }

    // The event's own tags, where it has any, and the added ones.
    fn gathered(&self, own: &Option<Tags>) -> Result<TextSet, NoMemory>
        ensures { IfOk result (λ texts. texts ≡ in_byte_order (unwrap_or own.now [] ++ self.now.add)) }
    {
        let mut texts = set_of(self.alloc, own)?;
        texts.insert_all(self.add.list())?;
        Ok(texts)
    }

    // The tags that an event gets which has these.
    fn tags(&self, own: &Option<Tags>) -> Result<Option<Tags>, NoMemory>
        ensures { IfOk result (λ tags. tags ≡ if_any (tags_with self.now.add self.now.remove own.now)) }
    {
        let mut texts = self.gathered(own)?;
        texts.remove_all(self.remove.list());
        Ok(if_any(texts.into_tags(self.alloc)?))
    }

    /// The tags that an event gets which has none, where it has room for them.
    pub fn plain_tags(&self) -> Result<Option<Tags>, NoMemory>
        ensures { IfOk result (λ tags. tags ≡ plain_tags self.now) }
    {
        self.tags(&None)
    }

    /// The tags that an event gets which has these: the tags and the added ones without the removed ones, in the order of
    /// their bytes, each once. All are lent, and none is copied.
    pub fn tags_for<'t>(&'t self, own: Vec<&'t [u8]>) -> Result<Vec<&'t [u8]>, NoMemory>
        ensures { IfOk result (λ tags. lent_bytes tags.items ≡ tags_with self.now.add self.now.remove (Some (lent_bytes own.entry.items))) }
    {
        let mut tags = own;
        put_in_order(&mut tags);
        put_texts(&mut tags, self.add.list())?;
        take_out(&mut tags, self.remove.list());
        Ok(tags)
    }

    /// Gives the event its tags and the added ones without the removed ones, in the order of their bytes, each once, and
    /// no tags where none are left. An event that would no longer fit into a packet stays as it was.
    pub fn apply(&self, event: &mut Event) -> Result<(), NoMemory>
        ensures ok { OnOk result (event.new ≡ tagged self.now event.old) }
        ensures err { OnErr result (event.new ≡ event.old) }
    {
        let tags = self.tags(&event.tags)?;
        let before = mem::replace(&mut event.tags, tags);
        if !fits(event) {
            event.tags = before;
        }
        Ok(())
    }
}

// The set of the tags, which is empty where there are none.
fn set_of(alloc: Global, tags: &Option<Tags>) -> Result<TextSet, NoMemory>
    ensures { IfOk result (λ texts. texts ≡ in_byte_order (unwrap_or tags.now [])) }
{
    let mut texts = TextSet::new(alloc);
    if let Some(tags) = tags {
        texts.insert_all(tags.list())?;
    }
    Ok(texts)
}

// No tags, where there are none.
fn if_any(tags: Tags) -> Option<Tags>
    ensures { result ≡ if_any tags }
{
    if tags.list().is_empty() {
        None
    } else {
        Some(tags)
    }
}
