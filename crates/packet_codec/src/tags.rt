//! The tags of an event.

ghost use Rattle.std.specs.Prelude.{◌≡◌, [], ◌∷◌, ◌++◌, IfErr, OnOk, OnErr};

use std::alloc::Global;
use std::marker::Model;
use sub_number::Text;

/// A list of tags, in the order in which they were read or added. A tag may stand in it more than once.
#[derive(Drop)]
pub struct Tags {
    tags: Vec<Text>,
}

impl Model for Tags {
    ghost use Rattle.std.specs.Prelude.{List, ℕ};

    ghost Value = { List (List ℕ) };

    ghost view = { λ t. t.tags.items };
}

impl Tags {
    /// No tag.
    pub fn new(alloc: Global) -> Self
        ensures { result ≡ [] }
    {
        Tags {
            tags: Vec::new(alloc),
        }
    }

    /// Adds the tag at the end. It is handed back only for want of memory, and the list is then as before.
    pub fn push(&mut self, tag: Text) -> Result<(), Text>
        ensures ok { OnOk result (self.new ≡ self.old ++ tag ∷ []) }
        ensures err { OnErr result (self.new ≡ self.old) }
        ensures returned { IfErr result (λ back. back ≡ tag) }
    {
        self.tags.push(tag).map_err(|failed| failed.value)
    }

    /// The tags of this list, in its order.
    pub fn from_list(tags: Vec<Text>) -> Self
        ensures { result ≡ tags.items }
    {
        Tags { tags }
    }

    /// The tags, in their order, moved out.
    pub fn into_list(self) -> Vec<Text>
        ensures { result.items ≡ self }
    {
        self.tags
    }

    /// The tags, in their order.
    pub fn list(&self) -> &[Text]
        ensures { result.now ≡ self.now }
    {
        &self.tags
    }
}
