//! The first of repeated ids.

ghost use Rattle.std.specs.Prelude.{◌≡◌, IfOk};
ghost use Rattle.std.specs.List.{IsDistinct};
ghost use Rattle.std.specs.Str.{bytes_eq};
ghost use Rattle.suite_plan.specs.FirstIds.{HasFirsts};
ghost use Rattle.suite_plan.specs.Firsts.{firsts};

use outcome_fold::TextSet;
use std::alloc::Global;
use sub_number::{IdList, NoMemory, Text};

/// Ids that are gathered one after another, of repeats the first.
#[derive(Drop)]
pub(crate) struct FirstIds {
    ids: IdList,
    // Those that came.
    seen: TextSet,
}

impl FirstIds {
    ghost use Rattle.std.specs.Prelude.{[], ◌∷◌, ◌++◌, ℕ, List, OnOk};

    /// No ids came. It takes no memory yet.
    pub(crate) fn new(alloc: Global) -> Self
        ensures { HasFirsts result [] }
    {
        FirstIds {
            ids: IdList::new(alloc),
            seen: TextSet::new(alloc),
        }
    }

    /// One id more.
    ///
    /// After `NoMemory` nothing is known of the ids.
    pub(crate) fn add(&mut self, id: Text) -> Result<(), NoMemory>
        ensures { (ids : List (List ℕ)) → HasFirsts self.old ids → OnOk result (HasFirsts self.new (ids ++ id ∷ [])) }
    {
        if self.seen.contains(&id) {
            return Ok(());
        }
        self.seen.insert(&id)?;
        self.ids.push(id)?;
        Ok(())
    }

    /// The first of each id, moved out.
    pub(crate) fn into_ids(self) -> IdList
        ensures firsts { (ids : List (List ℕ)) → HasFirsts self ids → result ≡ firsts ids }
        ensures distinct { (ids : List (List ℕ)) → HasFirsts self ids → IsDistinct bytes_eq result }
    {
        self.ids
    }
}

/// The ids in their order, of repeats the first. So each stands once. They are moved.
pub fn first_of_each(alloc: Global, ids: IdList) -> Result<IdList, NoMemory>
    ensures firsts { IfOk result (λ list. list ≡ firsts ids) }
    ensures distinct { IfOk result (λ list. IsDistinct bytes_eq list) }
{
    Ok(gather(alloc, ids.into_list())?.into_ids())
}

// All of the ids, one after another.
fn gather(alloc: Global, ids: Vec<Text>) -> Result<FirstIds, NoMemory>
    ensures { IfOk result (λ found. HasFirsts found ids.items) }
{
    let mut found = FirstIds::new(alloc);
    for id in ids {
        found.add(id)?;
    }
    Ok(found)
}
