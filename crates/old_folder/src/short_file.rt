//! A short file, read at once.

ghost use Rattle.std.specs.Prelude.{◌≡◌, ◌≤◌, length, IfSome, IfOk, IfErr};
ghost use Rattle.edge_io.specs.Causes.{HasCause};
ghost use Rattle.edge_io.specs.Steps.{Goes, Stays};
ghost use Rattle.run_shelf.specs.Outcomes.{TicksUpTo};
ghost use Rattle.run_shelf.specs.Sides.{IsReading};
ghost use Rattle.old_folder.specs.Looking.{IsShortRead, bytes_read};

use edge_io::Shelf;
use run_shelf::ShelfCall;

/// How many bytes a short file has at most.
pub(crate) const MOST_SHORT: usize = 64;

/// What was found of a short file.
#[derive(Clone, Copy)]
pub(crate) enum Short {
    /// It is not there.
    Absent,
    /// It has more bytes than a short file has.
    Long,
    /// It has so many bytes, which are at the front of the buffer.
    Whole(usize),
}

/// The bytes of the file of this name, where it is short. It makes at most two calls of the folder, in which nothing changes.
/// The error is the call that failed.
pub(crate) fn read_short<H: Shelf>(
    shelf: &mut H,
    name: &str,
    buf: &mut [u8],
) -> Result<Short, ShelfCall>
    requires room { length buf.old ≡ 64 }
    ensures found { IfOk result (λ short. IfSome (H.seen shelf.old).told (λ s. IsShortRead (s.disk.published name.now) buf.new short)) }
    ensures bound { IfOk result (λ short. bytes_read short ≤ length buf.new) }
    ensures failed { IfErr result IsReading }
    ensures same { Goes (H.seen shelf.old).told (H.seen shelf.new).told Stays }
    ensures time { TicksUpTo 2 (H.clock shelf.old) (H.clock shelf.new) }
    ensures cause { HasCause (H.seen shelf.old).faults (H.seen shelf.new).faults result }
{
    let Ok(length) = shelf.length(name) else {
        return Err(ShelfCall::Length);
    };
    let Some(size) = length else {
        return Ok(Short::Absent);
    };
    if size > MOST_SHORT as u64 {
        return Ok(Short::Long);
    }
    let Ok(count) = shelf.read_at(name, 0, buf) else {
        return Err(ShelfCall::ReadAt);
    };
    Ok(Short::Whole(count))
}
