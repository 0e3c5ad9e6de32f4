//! All packets that are recorded of a stream.

ghost use Rattle.std.specs.Prelude.{◌≡◌, ◌<◌, ◌≤◌, ◌++◌, ℕ, List, false, length, IfOk, OnOk};
ghost use Rattle.std.specs.List.{flat_map};
ghost use Rattle.worker_lane.specs.Recorded.{IsRecorded};
ghost use Rattle.worker_lane.specs.Scribing.{GivesPackets, HasNone, Recording};
ghost use Rattle.stream_reader.specs.Room.{most_held};

use crate::scribe::Scribe;
use std::alloc::Global;
use sub_number::{Bytes, NoMemory};

// So many bytes are fed before packets are taken.
const PART: usize = 65_536;

/// Appends all packets that are recorded of the bytes fed and were not given yet, in order: before the end, those that
/// these bytes decide; behind the end, all.
///
/// With `NoMemory` some of the packets may have been given, and `out` has them.
pub fn take_packets(scribe: &mut Scribe, out: &mut Vec<u8>) -> Result<(), NoMemory>
    ensures given { GivesPackets scribe.old out.old.items scribe.new out.new.items }
    ensures none { OnOk result (HasNone scribe.new) }
    ensures held { OnOk result (scribe.new.held.ended ≡ false → length scribe.new.held.bytes ≤ most_held) }
{
    while scribe.next_into(out)? {}
    Ok(())
}

/// Appends the packets that the next piece decides. It is fed a part at a time, so that there is room for each.
fn record_piece(scribe: &mut Scribe, out: &mut Vec<u8>, piece: &[u8]) -> Result<(), NoMemory>
    requires going_on { scribe.old.held.ended ≡ false }
    requires held { length scribe.old.held.bytes ≤ most_held }
    ensures lane { scribe.new.lane ≡ scribe.old.lane }
    ensures going_on { OnOk result (scribe.new.held.ended ≡ false) }
    ensures held { OnOk result (length scribe.new.held.bytes ≤ most_held) }
    ensures recording { OnOk result ((fed : List ℕ) → Recording fed scribe.old out.old.items → Recording (fed ++ piece.now) scribe.new out.new.items) }
{
    let mut left = piece;
    while !left.is_empty() {
        let (part, behind) = left.split_at(left.len().min(PART));
        scribe.feed(part);
        take_packets(scribe, out)?;
        left = behind;
    }
    Ok(())
}

/// The packets that are recorded under the lane of a stream that comes in these pieces. They are those of the joined
/// pieces, however these were cut. The lane is below 64.
pub fn recorded_of_pieces(alloc: Global, lane: u32, pieces: &[Bytes]) -> Result<Vec<u8>, NoMemory>
    requires { lane < 64 }
    ensures { IfOk result (λ written. IsRecorded lane (flat_map (λ piece. piece) pieces.now) written.items) }
{
    let mut out = Vec::new(alloc);
    let mut scribe = Scribe::new(alloc, lane)?;
    for piece in pieces {
        record_piece(&mut scribe, &mut out, piece.bytes())?;
    }
    scribe.finish();
    take_packets(&mut scribe, &mut out)?;
    Ok(out)
}
