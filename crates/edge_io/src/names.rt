// The names of a folder's files.
ghost use Rattle.std.specs.Prelude.{◌≡◌, IfOk, Err};
ghost use Rattle.edge_io.specs.Kept.{lookup};
ghost use Rattle.edge_io.specs.Names.{AreNamesOf, HasNamesOf, ListsInOrder};
ghost use Rattle.edge_io.specs.declared.names.NamesFault.TheVariants.{Failed, NoMemory};

use crate::published_files::File;
use std::alloc::{AllocFailed, Global};
use std::collections::BTreeSet;
use sub_number::{Text, TextFault};

/// Why a list of names was not given.
#[derive(Clone, Copy, Debug, PartialEq, Eq)]
pub enum NamesFault {
    /// The call failed, and its count of faults rose.
    Failed,
    /// There is not enough memory for the list.
    NoMemory,
}

impl From<crate::Failed> for NamesFault {
    ghost from_gives = { λ _ fault. fault ≡ Failed };

    fn from(_: crate::Failed) -> Self {
        NamesFault::Failed
    }
}

impl<T: Drop> From<AllocFailed<T>> for NamesFault {
    ghost from_gives = { λ _ fault. fault ≡ NoMemory };

    fn from(_: AllocFailed<T>) -> Self {
        NamesFault::NoMemory
    }
}

/// The names of these files that are texts, each once, in the order of their bytes.
pub fn names_of(alloc: Global, files: &[File]) -> Result<Vec<Text>, NamesFault>
    ensures names { IfOk result (λ names. AreNamesOf (lookup files.now) names.items) }
    ensures fault { result ≡ Err NamesFault.Failed → ⊥ }
{
    let found = found_names(alloc, files)?;
    in_order(alloc, found)
}

// The names of these files that are texts.
fn found_names(alloc: Global, files: &[File]) -> Result<BTreeSet<Text>, NamesFault>
    ensures names { IfOk result (HasNamesOf (lookup files.now)) }
    ensures fault { result ≡ Err NamesFault.Failed → ⊥ }
{
    let mut found = BTreeSet::new(alloc);
    for file in files {
        match Text::new(alloc, file.name.as_bytes()) {
            Ok(name) => {
                found.insert(name)?;
            }
            Err(TextFault::NotText) => {}
            Err(TextFault::NoMemory) => return Err(NamesFault::NoMemory),
        }
    }
    Ok(found)
}

// The names of a set, in order.
fn in_order(alloc: Global, found: BTreeSet<Text>) -> Result<Vec<Text>, NamesFault>
    ensures names { IfOk result (λ names. ListsInOrder found names.items) }
    ensures fault { result ≡ Err NamesFault.Failed → ⊥ }
{
    let mut names = Vec::new(alloc);
    for name in found {
        names.push(name)?;
    }
    Ok(names)
}
