//! Lists of ids of tests.

ghost use Rattle.std.specs.Prelude.{◌≡◌, [], ◌∷◌, ◌++◌, IfErr, OnOk, OnErr};

use crate::text::Text;
use std::alloc::Global;
use std::marker::Model;

/// A list of ids of tests, in the order in which they came. The same id may come again.
/// Contracts see it as the list of their bytes.
#[derive(Drop)]
pub struct IdList {
    ids: Vec<Text>,
}

impl Model for IdList {
    ghost use Rattle.std.specs.Prelude.{List, ℕ};

    ghost Value = { List (List ℕ) };

    ghost view = { λ l. l.ids.items };
}

impl IdList {
    /// A list of no ids. It takes no memory yet.
    pub fn new(alloc: Global) -> Self
        ensures { result ≡ [] }
    {
        IdList {
            ids: Vec::new(alloc),
        }
    }

    /// Adds the id at the end.
    ///
    /// The error is the id itself, handed back for want of memory alone, with the list as before.
    pub fn push(&mut self, id: Text) -> Result<(), Text>
        ensures ok { OnOk result (self.new ≡ self.old ++ id ∷ []) }
        ensures err { OnErr result (self.new ≡ self.old) }
        ensures returned { IfErr result (λ back. back ≡ id) }
    {
        self.ids.push(id).map_err(|failed| failed.value)
    }

    /// The ids, the oldest first.
    pub fn list(&self) -> &[Text]
        ensures { result.now ≡ self.now }
    {
        &self.ids
    }

    /// The ids, the oldest first, moved out.
    pub fn into_list(self) -> Vec<Text>
        ensures { result.items ≡ self }
    {
        self.ids
    }
}
