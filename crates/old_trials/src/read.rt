//! Files that are read in pieces of one size.

ghost use Rattle.std.specs.Prelude.{IfSome};
ghost use Rattle.old_runs.specs.Fed.{IsFed, HasHeardSome};

use old_runs::{OldFailing, OldFile};
use std::alloc::Global;
use sub_number::IdList;

// Feeds the bytes.
fn feed_all(file: &mut OldFile, bytes: &[u8], size: usize, packets: &mut Vec<u8>) -> Option<()>
    requires { IsFed file.old }
    ensures { IfSome result (λ done. IsFed file.new) }
{
    for piece in bytes.chunks(size.max(1)) {
        file.feed(piece, packets).ok()?;
    }
    Some(())
}

fn hear_all(failing: &mut OldFailing, bytes: &[u8], size: usize) -> Option<()>
    requires { HasHeardSome failing.old }
    ensures { IfSome result (λ done. HasHeardSome failing.new) }
{
    for piece in bytes.chunks(size.max(1)) {
        failing.feed(piece).ok()?;
    }
    Some(())
}

/// Appends the packets that the file gives, and answers whether it is damaged.
pub(crate) fn packets_of(
    alloc: Global,
    bytes: &[u8],
    size: usize,
    packets: &mut Vec<u8>,
) -> Option<bool> {
    let mut file = OldFile::new(alloc);
    feed_all(&mut file, bytes, size, packets)?;
    file.close(packets).ok()
}

/// The ids that fail in the file; none where it is damaged.
pub(crate) fn failing_of(alloc: Global, bytes: &[u8], size: usize) -> Option<Option<IdList>> {
    let mut failing = OldFailing::new(alloc);
    hear_all(&mut failing, bytes, size)?;
    failing.close().ok()
}
