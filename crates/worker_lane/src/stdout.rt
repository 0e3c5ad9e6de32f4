//! Bytes as a packet: a piece of the file `stdout`, under a lane. No event is made of them.

ghost use Rattle.std.specs.Prelude.{◌≡◌, ◌<◌, ◌≤◌, ◌++◌, length, OnOk, OnErr};
ghost use Rattle.packet_codec.specs.Canonical.{canonical};
ghost use Rattle.worker_lane.specs.Recorded.{longest_piece, stdout_under, HasPacket};

use packet_codec::{are_bytes, put_piece_under};
use sub_number::NoMemory;

/// Appends the packet of the bytes as a piece of the file `stdout`, under the lane.
#[inline(never)]
pub(crate) fn put_stdout(lane: u32, bytes: &[u8], out: &mut Vec<u8>) -> Result<(), NoMemory>
    requires lane { lane < 64 }
    requires short { length bytes.now ≤ longest_piece }
    ensures ok { OnOk result (out.new.items ≡ out.old.items ++ canonical (stdout_under lane bytes.now)) }
    ensures has_packet { HasPacket (stdout_under lane bytes.now) }
    ensures err { OnErr result (out.new.items ≡ out.old.items) }
{
    are_bytes(bytes);
    put_piece_under(lane, b"stdout", bytes, out)
}
