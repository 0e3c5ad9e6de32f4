//! What is known of a folder that was looked at.

ghost use Rattle.std.specs.Prelude.{◌≡◌, ◌≤◌, ◌<◌, ◌++◌, ◌∷◌, [], length, IfOk, OnOk, Some};
ghost use Rattle.std.specs.Prelude.{slice_get};

use std::alloc::{AllocError, Global};
use sub_number::NoMemory;

/// How many runs a repository has room for.
pub const MOST_RUNS: u32 = 1_000_000;

/// The runs of a repository, as a look at its folder found them: how many there are, and whether each is partial.
#[derive(Drop)]
pub struct Found {
    kinds: Vec<bool>,
    ghost few: { length kinds.items ≤ 1000000 },
}

impl Found {
    ghost use Rattle.run_shelf.specs.Holds.{kinds_of, HasRoom};

    /// How many runs there are.
    pub fn runs(&self) -> u32
        ensures { result ≡ length (kinds_of self.now) }
    {
        self.kinds.len() as u32
    }

    /// Whether the run of this number, which there must be, is partial.
    pub fn partial(&self, number: u32) -> bool
        requires { number < length (kinds_of self.now) }
        ensures { slice_get (kinds_of self.now) number ≡ Some result }
    {
        self.kinds[number as usize]
    }

    /// The same runs, for a second look at them.
    pub fn copy(&self, alloc: Global) -> Result<Found, NoMemory>
        ensures { IfOk result (λ found. kinds_of found ≡ kinds_of self.now) }
    {
        let kinds = Vec::from_slice(alloc, &self.kinds)?;
        Ok(Found { kinds })
    }

    // These runs, with room for one more.
    pub(crate) fn of(kinds: Vec<bool>) -> Result<Found, AllocError>
        requires { length kinds.items ≤ 1000000 }
        ensures same { IfOk result (λ found. kinds_of found ≡ kinds.items) }
        ensures room { IfOk result HasRoom }
    {
        let mut kinds = kinds;
        kinds.reserve(1)?;
        Ok(Found { kinds })
    }

    // One run more.
    pub(crate) fn add(&mut self, partial: bool)
        requires few { length (kinds_of self.old) < 1000000 }
        requires room { HasRoom self.old }
        ensures { kinds_of self.new ≡ kinds_of self.old ++ partial ∷ [] }
    {
        self.kinds.push(partial).unwrap();
    }

    /// Takes the memory for one run more. Without it all is as before.
    pub fn make_room(&mut self) -> Result<(), NoMemory>
        ensures room { OnOk result (HasRoom self.new) }
        ensures same { kinds_of self.new ≡ kinds_of self.old }
    {
        self.kinds.reserve(1)?;
        Ok(())
    }
}
