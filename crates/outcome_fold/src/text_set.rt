//! Texts in the order of their bytes, each once.

ghost use Rattle.std.specs.Prelude.{◌≡◌, [], ◌∷◌, ◌++◌, IfOk, OnOk, OnErr};
ghost use Rattle.outcome_fold.specs.Order.{among, without, in_byte_order, text_cmp};
ghost use Rattle.std.specs.Bool.{OnTrue};
ghost use Rattle.std.specs.List.Sorted.{IsStrictlySortedBy};

use packet_codec::Tags;
use std::alloc::Global;
use std::collections::BTreeSet;
use std::marker::Model;
use sub_number::{IdList, NoMemory, Text};

/// A set of texts, as ids of tests or tags. Contracts see it as the list of its texts in the order of their bytes.
#[derive(Drop)]
pub struct TextSet {
    texts: BTreeSet<Text>,
}

impl Model for TextSet {
    ghost use Rattle.std.specs.Prelude.{List, ℕ};
    ghost use Rattle.std.specs.List.Sorted.{IsStrictlySortedBy};
    ghost use Rattle.outcome_fold.specs.Order.{text_cmp};

    ghost Value = { List (List ℕ) };

    ghost view = { λ s. s.texts.keys };

    ghost invariant = { λ s. IsStrictlySortedBy text_cmp s.texts.keys };
}

impl TextSet {
    /// A set of no texts. It takes no memory yet.
    pub fn new(alloc: Global) -> Self
        ensures { result ≡ [] }
    {
        TextSet {
            texts: BTreeSet::new(alloc),
        }
    }

    /// Whether the text is in the set.
    pub fn contains(&self, text: &Text) -> bool
        ensures { result ≡ among self.now text.now }
    {
        self.texts.contains(text)
    }

    /// Adds a copy of the text, where it is not in the set yet. Where it is, nothing is copied.
    pub fn insert(&mut self, text: &Text) -> Result<(), NoMemory>
        ensures ok { OnOk result (self.new ≡ in_byte_order (text.now ∷ self.old)) }
        ensures err { OnErr result (self.new ≡ self.old) }
    {
        if self.contains(text) {
            return Ok(());
        }
        self.texts.insert(text.copy()?)?;
        Ok(())
    }

    /// Adds the text, which is moved, where it is not in the set yet.
    pub fn put(&mut self, text: Text) -> Result<(), NoMemory>
        ensures ok { OnOk result (self.new ≡ in_byte_order (text ∷ self.old)) }
        ensures err { OnErr result (self.new ≡ self.old) }
    {
        self.texts.insert(text)?;
        Ok(())
    }

    /// Takes the text out, where it is in the set.
    pub fn remove(&mut self, text: &Text)
        ensures { self.new ≡ without self.old (text.now ∷ []) }
    {
        self.texts.remove(text);
    }
}

impl TextSet {
    // What holds of each set: its texts are in order.
    fn are_in_order(&self)
        ensures { self.now ≡ in_byte_order self.now }
    {
        let _texts = &self.texts;
    }

    /// Adds a copy of each of the texts that is not in the set yet.
    ///
    /// After `NoMemory` nothing is known of the set.
    pub fn insert_all(&mut self, texts: &[Text]) -> Result<(), NoMemory>
        ensures { OnOk result (self.new ≡ in_byte_order (self.old ++ texts.now)) }
    {
        self.are_in_order();
        for text in texts {
            self.insert(text)?;
        }
        Ok(())
    }

    /// Adds each of the ids, which are moved, that is not in the set yet.
    ///
    /// After `NoMemory` nothing is known of the set.
    pub fn put_all(&mut self, ids: IdList) -> Result<(), NoMemory>
        ensures { OnOk result (self.new ≡ in_byte_order (self.old ++ ids)) }
    {
        self.are_in_order();
        for id in ids.into_list() {
            self.put(id)?;
        }
        Ok(())
    }

    /// Takes each of the texts out.
    pub fn remove_all(&mut self, texts: &[Text])
        ensures { self.new ≡ without self.old texts.now }
    {
        for text in texts {
            self.remove(text);
        }
    }

    /// Takes each of the other set's texts out.
    pub(crate) fn remove_set(&mut self, texts: &TextSet)
        ensures { self.new ≡ without self.old texts.now }
    {
        for text in &texts.texts {
            self.remove(text);
        }
    }

    /// The texts in the order of their bytes, as tags. They are moved.
    pub fn into_tags(self, alloc: Global) -> Result<Tags, NoMemory>
        ensures { IfOk result (λ tags. tags ≡ self) }
    {
        let mut tags = Tags::new(alloc);
        for text in self.texts {
            tags.push(text)?;
        }
        Ok(tags)
    }

    /// The texts in the order of their bytes, as ids. They are moved.
    pub fn into_ids(self, alloc: Global) -> Result<IdList, NoMemory>
        ensures { IfOk result (λ ids. ids ≡ self) }
    {
        let mut ids = IdList::new(alloc);
        for text in self.texts {
            ids.push(text)?;
        }
        Ok(ids)
    }
}

/// The tags in the order of their bytes, each once. Each is copied once.
pub fn sorted_tags(alloc: Global, tags: &[Text]) -> Result<Tags, NoMemory>
    ensures { IfOk result (λ sorted. sorted ≡ in_byte_order tags.now) }
{
    Ok(in_order(copies_of(alloc, tags)?))
}

/// The tags in the order of their bytes, each once. None is copied, and no memory is taken.
pub fn in_order(tags: Tags) -> Tags
    ensures { result ≡ in_byte_order tags }
{
    if are_in_order(tags.list()) {
        return tags;
    }
    let mut list = tags.into_list();
    list.sort_unstable();
    list.dedup();
    Tags::from_list(list)
}

// Whether each tag is greater than the one before it.
fn are_in_order(tags: &[Text]) -> bool
    ensures { OnTrue result (IsStrictlySortedBy text_cmp tags.now) }
{
    tags.is_sorted_by(|a, b| a < b)
}

/// Copies of the tags, in their order.
pub fn copies_of(alloc: Global, tags: &[Text]) -> Result<Tags, NoMemory>
    ensures { IfOk result (λ copies. copies ≡ tags.now) }
{
    let mut copies = Tags::new(alloc);
    for tag in tags {
        copies.push(tag.copy()?)?;
    }
    Ok(copies)
}
