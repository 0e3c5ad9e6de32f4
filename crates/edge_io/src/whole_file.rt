// Reads whole files that must not be too long.
ghost use Rattle.std.specs.Prelude.{◌≡◌, ◌≤◌, length, IfOk, IfSome};
ghost use Rattle.std.specs.Option.{option_map};
ghost use Rattle.edge_io.specs.Files.{IsFileOf, IsTooLong, CountsFailed};
ghost use Rattle.edge_io.specs.declared.whole_file.ReadFault.TheVariants.{Failed as ReadFailed, NoMemory};

use crate::{Failed, Found, PIECE, Site};
use std::alloc::{AllocError, Global};

/// Why a file was not read whole.
#[derive(Clone, Copy, Debug, PartialEq, Eq)]
pub enum ReadFault {
    /// A read failed.
    Failed,
    /// The file has more bytes than it may have.
    TooLong,
    /// There is not enough memory.
    NoMemory,
}

impl From<Failed> for ReadFault {
    ghost from_gives = { λ _ fault. fault ≡ ReadFailed };

    fn from(_: Failed) -> Self {
        ReadFault::Failed
    }
}

impl From<AllocError> for ReadFault {
    ghost from_gives = { λ _ fault. fault ≡ NoMemory };

    fn from(_: AllocError) -> Self {
        ReadFault::NoMemory
    }
}

/// Reads the whole file of this name, of at most `most` bytes; none where there is no such file. `TooLong` comes exactly
/// where it has more, unless a read failed or memory was wanting before that was seen, and `Failed` only where a read
/// failed, which counts. No file changes, and the folder of the site stays.
pub fn read_file<F: Site>(
    alloc: Global,
    site: &mut F,
    name: &str,
    most: usize,
) -> Result<Option<Vec<u8>>, ReadFault>
    ensures file { IfOk result (λ file. IsFileOf (F.seen site.old).told name.now (option_map (λ bytes. bytes.items) file)) }
    ensures fits { IfOk result (λ file. IfSome file (λ bytes. length bytes.items ≤ most)) }
    ensures too_long { IsTooLong (F.seen site.old).told name.now most result }
    ensures same { (F.seen site.new).told ≡ (F.seen site.old).told }
    ensures count { CountsFailed (F.seen site.old).faults (F.seen site.new).faults result }
    ensures path { F.folder site.new ≡ F.folder site.old }
{
    let mut bytes = Vec::new(alloc);
    let mut piece = [0u8; PIECE];
    loop {
        let place = bytes.len();
        let Found::Read(count) = site.read_at(name, place as u64, &mut piece)? else {
            return Ok(None);
        };
        if count == 0 {
            return Ok(Some(bytes));
        }
        if count > most - place {
            return Err(ReadFault::TooLong);
        }
        bytes.extend_from_slice(&piece[..count])?;
    }
}
