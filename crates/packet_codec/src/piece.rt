//! Bytes as a packet: a piece of a file, under a lane. No event is made of them.

ghost use Rattle.std.specs.Prelude.{◌≡◌, ◌<◌, ◌++◌, List, ℕ, OnOk, OnErr};
ghost use Rattle.packet_codec.specs.Canonical.{canonical, Fits};
ghost use Rattle.packet_codec.specs.Flags.{first_flags, second_flags};
ghost use Rattle.packet_codec.specs.Pieces.{event_of_piece};
ghost use Rattle.packet_codec.specs.Routing.{under};
ghost use Rattle.packet_codec.specs.Shapes.{ShowsParts, contents_of};

use crate::event_change::Change;
use crate::header::Header;
use crate::parts::{FileBytes, Parts};
use crate::respelled_bytes::put_changed;
use crate::respelled_size::fields_size;
use crate::sizes::whole_size;
use sub_number::NoMemory;

/// Appends the shortest spelling of the event that has this piece of a file of this name and nothing else, under the
/// route of a lane. It fits.
pub fn put_piece_under(
    lane: u32,
    name: &[u8],
    bytes: &[u8],
    out: &mut Vec<u8>,
) -> Result<(), NoMemory>
    requires lane { lane < 64 }
    requires fits { Fits (under lane (event_of_piece name.now bytes.now)) }
    ensures ok { OnOk result (out.new.items ≡ out.old.items ++ canonical (under lane (event_of_piece name.now bytes.now))) }
    ensures err { OnErr result (out.new.items ≡ out.old.items) }
{
    let parts = piece_parts(name, bytes);
    let change = Change::Lane(lane);
    let size = whole_size(fields_size(&parts, change));
    put_changed(piece_header(), size as u32, &parts, change, out)
}

// The flag bytes of a runnable event that has a file. Nothing else of a header matters where a packet is written.
#[inline(always)]
fn piece_header() -> Header
    ensures { (name bytes : List ℕ) → (result.first ≡ first_flags (event_of_piece name bytes)) × (result.second ≡ second_flags (event_of_piece name bytes)) }
{
    Header {
        first: 0x21,
        second: 0x40,
        size: 0,
        start: 0,
    }
}

#[inline(always)]
fn piece_parts<'a>(name: &'a [u8], bytes: &'a [u8]) -> Parts<'a>
    ensures { ShowsParts result (contents_of (event_of_piece name.now bytes.now)) }
{
    Parts {
        stamp: None,
        id: None,
        tags: None,
        mime: None,
        file: Some(FileBytes { name, bytes }),
        route: None,
    }
}
