//! A run that is read in pieces for its rows and the packets of the parts of some tests.

ghost use Rattle.std.specs.Prelude.{◌≡◌, false};

use crate::gathered_parts::{GatheredParts, gather_notes};
use crate::ids_without_row::IdsWithoutRow;
use crate::parts::FailedParts;
use outcome_fold::Rows;
use std::alloc::Global;
use stream_reader::Reader;
use sub_number::NoMemory;

/// The rows of a run, and of some tests the packets of the last part that failed.
#[derive(Drop)]
pub struct RunFailures {
    /// The rows.
    pub rows: Rows,
    /// The packets.
    pub parts: FailedParts,
}

/// A run that is read piece by piece. The same ids are wanted all the time.
#[derive(Drop)]
pub struct RunParts {
    reader: Reader,
    gathered: GatheredParts,
    ghost open: { reader.ended ≡ false },
}

impl RunParts {
    ghost use Rattle.std.specs.Prelude.{◌≤◌, ◌++◌, [], ℕ, List, length, IfOk, OnOk};
    ghost use Rattle.last_failures.specs.Gathering.{HasPartsOfBytes, HasRoomForParts, IsGatheredOf};

    /// A run of which nothing was read.
    pub fn new(alloc: Global) -> Result<Self, NoMemory>
        ensures has { IfOk result (λ run. (wanted : List (List ℕ)) → HasPartsOfBytes wanted run []) }
        ensures room { IfOk result HasRoomForParts }
    {
        let reader = Reader::new(alloc)?;
        Ok(RunParts {
            reader,
            gathered: GatheredParts::new(alloc),
        })
    }

    /// Takes the next bytes of the run.
    ///
    /// After `NoMemory` nothing is known of what was gathered.
    pub fn feed(
        &mut self,
        alloc: Global,
        wanted: &IdsWithoutRow,
        piece: &[u8],
    ) -> Result<(), NoMemory>
        requires room { HasRoomForParts self.old }
        requires short { length piece.now ≤ 65536 }
        ensures has { (bytes : List ℕ) → HasPartsOfBytes wanted.now self.old bytes → OnOk result (HasPartsOfBytes wanted.now self.new (bytes ++ piece.now)) }
        ensures room { OnOk result (HasRoomForParts self.new) }
    {
        self.reader.feed(piece);
        gather_notes(alloc, wanted, &mut self.reader, &mut self.gathered)
    }

    /// Ends the run, and gives what was gathered.
    pub fn close(self, alloc: Global, wanted: &IdsWithoutRow) -> Result<RunFailures, NoMemory>
        ensures { (bytes : List ℕ) → HasPartsOfBytes wanted.now self bytes → IfOk result (λ run. IsGatheredOf wanted.now run bytes) }
    {
        let RunParts {
            mut reader,
            mut gathered,
        } = self;
        reader.finish();
        gather_notes(alloc, wanted, &mut reader, &mut gathered)?;
        let GatheredParts { outcomes, parts } = gathered;
        let rows = outcomes.close()?;
        Ok(RunFailures { rows, parts })
    }
}
