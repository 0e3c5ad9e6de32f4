//! What an output lists, while it is read piece by piece.

ghost use Rattle.std.specs.Prelude.{◌≡◌, false};

use crate::listed::Listed;
use crate::notes::gather_notes;
use crate::output::Taker;
use std::alloc::Global;
use stream_reader::Reader;
use sub_number::NoMemory;

/// What an output lists, while it is read piece by piece.
#[derive(Drop)]
pub(crate) struct ListingReader {
    reader: Reader,
    listed: Listed,
    ghost open: { reader.ended ≡ false },
}

impl ListingReader {
    ghost use Rattle.std.specs.Prelude.{ℕ, List, [], IfOk};
    ghost use Rattle.suite_plan.specs.Gathering.{HasGatheredListing, HasRoomForPiece};
    ghost use Rattle.suite_plan.specs.Listed.{HasListedAll};

    /// Nothing was read yet.
    pub(crate) fn new(alloc: Global) -> Result<Self, NoMemory>
        ensures has { IfOk result (λ gathered. HasGatheredListing gathered []) }
        ensures room { IfOk result HasRoomForPiece }
    {
        let reader = Reader::new(alloc)?;
        Ok(ListingReader {
            reader,
            listed: Listed::new(alloc),
        })
    }

    /// The output has ended: gives what it lists.
    pub(crate) fn close(self) -> Result<Listed, NoMemory>
        ensures { (bytes : List ℕ) → HasGatheredListing self bytes → IfOk result (HasListedAll bytes) }
    {
        let ListingReader {
            mut reader,
            mut listed,
        } = self;
        reader.finish();
        gather_notes(&mut reader, &mut listed)?;
        Ok(listed)
    }
}

impl Taker for ListingReader {
    ghost use Rattle.std.specs.Prelude.{true};
    ghost use Rattle.suite_plan.specs.Gathering.{HasGatheredListing, HasRoomForPiece};

    ghost has = { HasGatheredListing };

    ghost lacks = { true };

    ghost ready = { HasRoomForPiece };

    fn take(&mut self, piece: &[u8]) -> Result<(), NoMemory> {
        self.reader.feed(piece);
        gather_notes(&mut self.reader, &mut self.listed)?;
        Ok(())
    }
}
