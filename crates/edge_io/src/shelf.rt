// A folder as the program sees it: what reads give, and what a stop may leave.
ghost use Rattle.std.specs.Prelude.{IfSome, ℕ, ◌<◌, length, IfOk, OnOk, OnErr};
ghost use Rattle.std.specs.Io.{ReadsAtMost};
ghost use Rattle.edge_io.specs.Causes.{HasCause};
ghost use Rattle.edge_io.specs.Disk.{Folder, IsImage};
ghost use Rattle.edge_io.specs.Names.{ListsNames, HasNamesCause};
ghost use Rattle.edge_io.specs.Seen.{Seen};
ghost use Rattle.edge_io.specs.Steps.{Goes, Stays, Ticks, HasDraft, DraftFits, HasFile, CanPublishIfTold, FindsLength, ReadsPart, Opened, Dropped, Grown, GrownInPart, Synced, Placed, PlacedOrNot, Settled};

use crate::{Failed, NamesFault};
use std::alloc::Global;
use sub_number::Text;

/// A folder of named files, as docs/DISK.md describes it. A file is written as a draft, of which there is at most one,
/// brought to the disk by `sync_draft`, given its name by `publish`, and kept over any stop after `sync_folder`. Each call
/// that answers `Failed` raises the count of faults, which never falls.
pub trait Shelf {
    /// What the folder holds and has held, where it is told, and how often a call has failed.
    ghost seen: { Self → Seen Folder };

    /// How many calls there were.
    ghost clock: { Self → ℕ };

    /// The published names that are texts, each once, in the order of their bytes. Nothing changes. `NamesFault::NoMemory`
    /// comes only for want of memory, and is no failure of the folder.
    fn names(&mut self, alloc: Global) -> Result<Vec<Text>, NamesFault>
        ensures found { IfOk result (λ names. ListsNames (seen self.old).told names.items) }
        ensures same { Goes (seen self.old).told (seen self.new).told Stays }
        ensures time { Ticks (clock self.old) (clock self.new) }
        ensures cause { HasNamesCause (seen self.old).faults (seen self.new).faults result };

    /// How many bytes the published file of this name has; none exactly where there is no such file. Nothing changes.
    fn length(&mut self, name: &str) -> Result<Option<u64>, Failed>
        ensures found { IfOk result (FindsLength (seen self.old).told name.now) }
        ensures same { Goes (seen self.old).told (seen self.new).told Stays }
        ensures time { Ticks (clock self.old) (clock self.new) }
        ensures cause { HasCause (seen self.old).faults (seen self.new).faults result };

    /// Moves bytes of the published file of this name, which there must be, into the front of `buf`, which must not be
    /// empty. They are those from the byte number `place` on, as many as are there and fit, and so none at or past the
    /// end. It answers how many. Nothing else changes.
    fn read_at(&mut self, name: &str, place: u64, buf: &mut [u8]) -> Result<usize, Failed>
        requires published { HasFile (seen self.old).told name.now }
        requires room { 0 < length buf.old }
        ensures bound { ReadsAtMost result buf.new }
        ensures part { IfOk result (ReadsPart (seen self.old).told name.now place buf.new) }
        ensures same { Goes (seen self.old).told (seen self.new).told Stays }
        ensures time { Ticks (clock self.old) (clock self.new) }
        ensures cause { HasCause (seen self.old).faults (seen self.new).faults result };

    /// Begins an empty draft, in place of any other. After `Failed` there is no draft.
    fn start_draft(&mut self) -> Result<(), Failed>
        ensures ok { OnOk result (Goes (seen self.old).told (seen self.new).told Opened) }
        ensures err { OnErr result (Goes (seen self.old).told (seen self.new).told Dropped) }
        ensures time { Ticks (clock self.old) (clock self.new) }
        ensures cause { HasCause (seen self.old).faults (seen self.new).faults result };

    /// Adds the piece at the end of the draft, which there must be. A file has fewer than 2^63 bytes, so it fails where the
    /// draft would have as many. After `Failed` the draft has grown by some of the piece's first bytes, or by none.
    fn append(&mut self, piece: &[u8]) -> Result<(), Failed>
        requires { HasDraft (seen self.old).told }
        ensures ok { OnOk result (Goes (seen self.old).told (seen self.new).told (Grown piece.now)) }
        ensures small { OnOk result (DraftFits (seen self.new).told) }
        ensures err { OnErr result (Goes (seen self.old).told (seen self.new).told (GrownInPart piece.now)) }
        ensures time { Ticks (clock self.old) (clock self.new) }
        ensures cause { HasCause (seen self.old).faults (seen self.new).faults result };

    /// Brings all of the draft, which there must be, to the disk. After `Failed` there is no draft.
    fn sync_draft(&mut self) -> Result<(), Failed>
        requires { HasDraft (seen self.old).told }
        ensures ok { OnOk result (Goes (seen self.old).told (seen self.new).told Synced) }
        ensures err { OnErr result (Goes (seen self.old).told (seen self.new).told Dropped) }
        ensures time { Ticks (clock self.old) (clock self.new) }
        ensures cause { HasCause (seen self.old).faults (seen self.new).faults result };

    /// Makes the draft, which there must be, the file of this name, in place of any other. Nothing may be pending. The
    /// name is then pending: until the folder is synced a stop may leave it out, and where the draft was not wholly synced
    /// a stop may also leave any bytes under it. After `Failed` there is no draft, and the file is published and pending
    /// or all is as before.
    fn publish(&mut self, name: &str) -> Result<(), Failed>
        requires { CanPublishIfTold (seen self.old).told }
        ensures ok { OnOk result (Goes (seen self.old).told (seen self.new).told (Placed name.now)) }
        ensures err { OnErr result (Goes (seen self.old).told (seen self.new).told (PlacedOrNot name.now)) }
        ensures time { Ticks (clock self.old) (clock self.new) }
        ensures cause { HasCause (seen self.old).faults (seen self.new).faults result };

    /// Brings what is published to the disk, so that any later stop leaves it. Nothing is pending then. After `Failed`
    /// nothing has changed.
    fn sync_folder(&mut self) -> Result<(), Failed>
        ensures ok { OnOk result (Goes (seen self.old).told (seen self.new).told Settled) }
        ensures err { OnErr result (Goes (seen self.old).told (seen self.new).told Stays) }
        ensures time { Ticks (clock self.old) (clock self.new) }
        ensures cause { HasCause (seen self.old).faults (seen self.new).faults result };

    /// What is published is one of the images that a stop now may leave.
    ghost published_counts: { (shelf : Self) → IfSome (seen shelf).told (λ folder. IsImage folder.disk folder.disk.published) };
}
