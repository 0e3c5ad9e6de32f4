//! The rows of one run.

ghost use Rattle.std.specs.Prelude.{◌≡◌, false};

use crate::note_fold::fold_notes;
use outcome_fold::{Outcomes, Rows};
use std::alloc::Global;
use stream_reader::Reader;
use sub_number::NoMemory;

// So many bytes are fed before notes are folded.
const PART: usize = 65_536;

/// A run that is read in pieces. Its rows are those of all its bytes, however they were cut.
#[derive(Drop)]
pub struct RunReader {
    alloc: Global,
    reader: Reader,
    outcomes: Outcomes,
    ghost open: { reader.ended ≡ false },
}

impl RunReader {
    ghost use Rattle.std.specs.Prelude.{◌≤◌, ◌++◌, [], ℕ, List, length, IfOk, OnOk};
    ghost use Rattle.stream_reader.specs.Room.{most_held};
    ghost use Rattle.run_ledger.specs.Reading.{HasReadBytes, AreRowsOf};

    /// A run of which nothing was read.
    pub fn new(alloc: Global) -> Result<Self, NoMemory>
        ensures { IfOk result (λ run. HasReadBytes run []) }
    {
        let reader = Reader::new(alloc)?;
        Ok(RunReader {
            alloc,
            reader,
            outcomes: Outcomes::new(alloc),
        })
    }

    /// Takes the next bytes of the run.
    ///
    /// After `NoMemory` nothing is known of the rows.
    pub fn feed(&mut self, piece: &[u8]) -> Result<(), NoMemory>
        ensures { (bytes : List ℕ) → HasReadBytes self.old bytes → OnOk result (HasReadBytes self.new (bytes ++ piece.now)) }
    {
        self.settle()?;
        let mut left = piece;
        while !left.is_empty() {
            let (part, behind) = left.split_at(left.len().min(PART));
            self.feed_part(part)?;
            left = behind;
        }
        Ok(())
    }

    // Folds what the bytes so far decide: an earlier call may have stopped for want of memory. So there is room.
    fn settle(&mut self) -> Result<(), NoMemory>
        ensures read { (bytes : List ℕ) → HasReadBytes self.old bytes → OnOk result (HasReadBytes self.new bytes) }
        ensures held { OnOk result (length self.new.reader.bytes ≤ most_held) }
    {
        fold_notes(self.alloc, &mut self.reader, &mut self.outcomes)
    }

    // Takes the next bytes, for which there is room.
    fn feed_part(&mut self, part: &[u8]) -> Result<(), NoMemory>
        requires held { length self.old.reader.bytes ≤ most_held }
        requires short { length part.now ≤ 65536 }
        ensures read { (bytes : List ℕ) → HasReadBytes self.old bytes → OnOk result (HasReadBytes self.new (bytes ++ part.now)) }
        ensures held { OnOk result (length self.new.reader.bytes ≤ most_held) }
    {
        self.reader.feed(part);
        fold_notes(self.alloc, &mut self.reader, &mut self.outcomes)
    }

    /// Ends the run, and gives its rows.
    pub fn close(self) -> Result<Rows, NoMemory>
        ensures { (bytes : List ℕ) → HasReadBytes self bytes → IfOk result (AreRowsOf bytes) }
    {
        let RunReader {
            alloc,
            mut reader,
            mut outcomes,
        } = self;
        reader.finish();
        fold_notes(alloc, &mut reader, &mut outcomes)?;
        outcomes.close()
    }
}
