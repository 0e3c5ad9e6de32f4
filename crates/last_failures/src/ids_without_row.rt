//! The ids that have no row yet.

ghost use Rattle.std.specs.Prelude.{◌≡◌, ◌∷◌, [], ℕ, List, false, IsTrue, IfOk, OnOk};
ghost use Rattle.outcome_fold.specs.Order.{among, in_byte_order, without};

use std::alloc::Global;
use std::collections::BTreeSet;
use std::marker::Model;
use sub_number::{IdList, NoMemory, Text};

/// A set of ids. Contracts see it as the list of them in the order of their bytes.
#[derive(Drop)]
pub struct IdsWithoutRow {
    ids: BTreeSet<Text>,
}

impl Model for IdsWithoutRow {
    ghost use Rattle.std.specs.Prelude.{List, ℕ};
    ghost use Rattle.std.specs.List.Sorted.{IsStrictlySortedBy};
    ghost use Rattle.outcome_fold.specs.Order.{text_cmp};

    ghost Value = { List (List ℕ) };

    ghost view = { λ s. s.ids.keys };

    ghost invariant = { λ s. IsStrictlySortedBy text_cmp s.ids.keys };
}

impl IdsWithoutRow {
    /// None. It takes no memory.
    pub fn none(alloc: Global) -> Self
        ensures { result ≡ [] }
    {
        IdsWithoutRow {
            ids: BTreeSet::new(alloc),
        }
    }

    /// These ids. Each is copied once.
    pub fn of(alloc: Global, ids: &IdList) -> Result<Self, NoMemory>
        ensures { IfOk result (λ missing. missing ≡ in_byte_order ids.now) }
    {
        let mut missing = IdsWithoutRow::none(alloc);
        for id in ids.list() {
            missing.put(id.copy()?)?;
        }
        Ok(missing)
    }

    // Adds the id.
    fn put(&mut self, id: Text) -> Result<(), NoMemory>
        ensures { OnOk result (self.new ≡ in_byte_order (id ∷ self.old)) }
    {
        self.ids.insert(id)?;
        Ok(())
    }

    /// Whether the id is among them.
    pub fn has(&self, id: &Text) -> bool
        ensures { result ≡ among self.now id.now }
    {
        self.ids.contains(id)
    }

    /// Takes the id out.
    pub fn take_out(&mut self, id: &Text)
        ensures { self.new ≡ without self.old (id.now ∷ []) }
    {
        self.ids.remove(id);
    }

    /// Whether there is none.
    pub fn is_empty(&self) -> bool
        ensures { IsTrue result → (id : List ℕ) → among self.now id ≡ false }
    {
        self.ids.is_empty()
    }
}
