// Files by name.
ghost use Rattle.std.specs.Prelude.{◌≡◌, List, ℕ};
ghost use Rattle.edge_io.specs.Causes.{HasCause};
ghost use Rattle.edge_io.specs.Disk.{Files};
ghost use Rattle.edge_io.specs.Seen.{Seen};
ghost use Rattle.edge_io.specs.Sites.{FindsFile, FindsAtMost};

use crate::Failed;

/// What a read of a file by its name found.
#[derive(Clone, Copy, Debug, PartialEq, Eq)]
pub enum Found {
    /// There is no file of that name.
    Absent,
    /// So many bytes of it.
    Read(usize),
}

/// Files by name, which are read and never changed. Each call that answers `Failed` raises the count of faults, which
/// never falls.
pub trait Site {
    /// What the file of each name holds, and which names have none, where this is told, and how often a read has failed.
    ghost seen: { Self → Seen Files };

    /// The absolute path of the folder that names are read from, without a slash at its end; empty where it is not known.
    ghost folder: { Self → List ℕ };

    /// The absolute path of the folder that names are read from; empty where it is not known. It is the same at each call.
    fn folder(&self) -> &str
        ensures path { result.now ≡ folder self.now };

    /// Moves bytes of the file of this name, from the byte number `place` on, into the front of `buf`, and answers how
    /// many; `Absent` exactly where there is no such file. None come only at the end of the file or past it, or where `buf`
    /// is empty. No file changes, after `Failed` either.
    fn read_at(&mut self, name: &str, place: u64, buf: &mut [u8]) -> Result<Found, Failed>
        ensures bound { FindsAtMost result buf.new }
        ensures found { FindsFile (seen self.old).told name.now place buf.new result }
        ensures same { (seen self.new).told ≡ (seen self.old).told }
        ensures stays { folder self.new ≡ folder self.old }
        ensures cause { HasCause (seen self.old).faults (seen self.new).faults result };
}
