//! How a file is read: in pieces, until a read gives fewer bytes than were asked for.

ghost use Rattle.std.specs.Prelude.{◌≡◌, vec_len, IfOk, IfErr};
ghost use Rattle.old_upgrade.specs.declared.faults.UpgradeFault.TheVariants.{NoMemory};

use crate::UpgradeFault;
use std::alloc::Global;

/// How many bytes are read at once.
pub(crate) const PIECE: u64 = 65_536;

/// A file has fewer than 2^63 bytes, so fewer pieces than these.
pub(crate) const MOST_PIECES: u64 = 1 << 47;

/// Room for one piece.
pub(crate) fn piece_buffer(alloc: Global) -> Result<Vec<u8>, UpgradeFault>
    ensures room { IfOk result (λ buf. vec_len buf ≡ 65536) }
    ensures refused { IfErr result (λ fault. fault ≡ NoMemory) }
{
    Ok(vec![in alloc; 0u8; PIECE as usize]?)
}
