//! A run that is read in pieces for the tests that began to run on one lane.

ghost use Rattle.std.specs.Prelude.{◌≡◌, false};

use crate::lane_ids::gather_notes;
use std::alloc::Global;
use stream_reader::Reader;
use sub_number::{IdList, NoMemory};
use suite_plan::first_of_each;

/// A run of which the ids of the tests are gathered that began to run on one lane, while it is read piece by piece.
#[derive(Drop)]
pub(crate) struct RanReader {
    reader: Reader,
    lane: u32,
    ids: IdList,
    ghost open: { reader.ended ≡ false },
}

impl RanReader {
    ghost use Rattle.std.specs.Prelude.{◌≤◌, ◌++◌, [], ℕ, List, length, IfOk, OnOk};
    ghost use Rattle.suite_causes.specs.Ran.{AreRan, HasRanIds, HasRoomForRanIds};

    /// A run of which nothing was read.
    pub(crate) fn new(alloc: Global, lane: u32) -> Result<Self, NoMemory>
        ensures has { IfOk result (λ ran. HasRanIds lane ran []) }
        ensures room { IfOk result HasRoomForRanIds }
    {
        let reader = Reader::new(alloc)?;
        Ok(RanReader {
            reader,
            lane,
            ids: IdList::new(alloc),
        })
    }

    /// Takes the next bytes of the run.
    ///
    /// After `NoMemory` nothing is known of the ids.
    pub(crate) fn feed(&mut self, piece: &[u8]) -> Result<(), NoMemory>
        requires room { HasRoomForRanIds self.old }
        requires short { length piece.now ≤ 65536 }
        ensures has { (lane : ℕ) (bytes : List ℕ) → HasRanIds lane self.old bytes → OnOk result (HasRanIds lane self.new (bytes ++ piece.now)) }
        ensures room { OnOk result (HasRoomForRanIds self.new) }
    {
        self.reader.feed(piece);
        gather_notes(self.lane, &mut self.reader, &mut self.ids)
    }

    /// Ends the run, and gives the ids, each once, in the order in which they began to run.
    pub(crate) fn close(self, alloc: Global) -> Result<IdList, NoMemory>
        ensures { (lane : ℕ) (bytes : List ℕ) → HasRanIds lane self bytes → IfOk result (AreRan lane bytes) }
    {
        let RanReader {
            mut reader,
            lane,
            mut ids,
        } = self;
        reader.finish();
        gather_notes(lane, &mut reader, &mut ids)?;
        first_of_each(alloc, ids)
    }
}
