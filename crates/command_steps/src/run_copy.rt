//! Copies a run from the folder to the output, piece by piece, so that none is held.

ghost use Rattle.std.specs.Prelude.{◌<◌, ◌-◌, length};
ghost use Rattle.run_shelf.specs.Holds.{kinds_of, FitsWhereTold};
ghost use Rattle.command_steps.specs.Copying.{CopiesRun, CopiesPiece};
ghost use Rattle.command_steps.specs.Outside.{shown};

use crate::question_answers::TellFault;
use crate::run_report::{PrintFault, print_text};
use edge_io::{PIECE, Shelf, Sink};
use run_shelf::{Found, read_run};

/// Why a run was not copied whole.
#[derive(Clone, Copy, Debug, PartialEq, Eq)]
pub enum CopyFault {
    /// It was not read.
    Read(TellFault),
    /// It was not written.
    Write(PrintFault),
}

// A file has fewer than 2^63 bytes, so fewer pieces than these.
const MOST_PIECES: u64 = 1 << 47;

/// Copies the bytes of the last run, which there must be, to the output: in pieces of `PIECE` bytes, each written as it is
/// read, until a read gives fewer. Nothing changes in the folder, and no memory is taken.
///
/// The first call that fails decides, of the folder or of the output; what was written by then stays. `TellFault::NoMemory`
/// comes of a run without an end alone, in a folder that tells nothing.
pub fn copy_last<H: Shelf, O: Sink>(
    shelf: &mut H,
    found: &Found,
    out: &mut O,
) -> Result<(), CopyFault>
    requires some { 0 < length (kinds_of found.now) }
    requires fits { FitsWhereTold (kinds_of found.now) (H.seen shelf.old).told }
    ensures { CopiesRun (length (kinds_of found.now) - 1)
        (shown (H.seen shelf.old) (O.seen out.old))
        (shown (H.seen shelf.new) (O.seen out.new))
        result }
{
    let number = found.runs() - 1;
    let mut buf = [0u8; PIECE];
    for piece in 0..MOST_PIECES {
        let count = copy_piece(shelf, found, number, piece * PIECE as u64, &mut buf, out)?;
        if count < PIECE {
            return Ok(());
        }
    }
    // No folder has such a run.
    Err(CopyFault::Read(TellFault::NoMemory))
}

// Copies the bytes of the run from this place on, as many as the buffer holds, and answers how many there were.
fn copy_piece<H: Shelf, O: Sink>(
    shelf: &mut H,
    found: &Found,
    number: u32,
    place: u64,
    buf: &mut [u8],
    out: &mut O,
) -> Result<usize, CopyFault>
    requires known { number < length (kinds_of found.now) }
    requires fits { FitsWhereTold (kinds_of found.now) (H.seen shelf.old).told }
    ensures { CopiesPiece number place (length buf.old)
        (shown (H.seen shelf.old) (O.seen out.old))
        (shown (H.seen shelf.new) (O.seen out.new))
        result }
{
    let Ok(count) = read_run(shelf, found, number, place, buf) else {
        return Err(CopyFault::Read(TellFault::Shelf));
    };
    match print_text(out, &buf[..count]) {
        Ok(()) => Ok(count),
        Err(fault) => Err(CopyFault::Write(fault)),
    }
}
