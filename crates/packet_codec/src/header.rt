//! The front of a packet, up to its fields.

ghost use Rattle.std.specs.Prelude.{◌≡◌, IfSome, IfNone};
ghost use Rattle.packet_codec.specs.Grammar.{NotFound};
ghost use Rattle.packet_codec.specs.Shapes.{HeaderShape, HeaderStands};

use sub_number::{Width, read_number};

/// The byte that each packet begins with.
pub const SIGNATURE: u8 = 0xb3;

/// The bytes of a checksum.
pub const CHECKSUM: usize = 4;

/// The greatest size of a packet in bytes: three bytes spell its length, and have room for no more.
pub const LARGEST_PACKET: usize = 4_194_303;

/// What the front of a packet tells.
#[derive(Clone, Copy)]
pub struct Header {
    /// The first flag byte.
    pub first: u8,
    /// The second flag byte.
    pub second: u8,
    /// The size of the whole packet in bytes.
    pub size: usize,
    /// Where the fields begin.
    pub start: usize,
}

/// The header that the bytes begin with.
pub fn header_at(bytes: &[u8]) -> Option<Header>
    ensures found { IfSome result (λ header. HeaderStands bytes.now header) }
    ensures none { IfNone result (NotFound HeaderShape bytes.now) }
{
    let [SIGNATURE, first, second, number @ ..] = bytes else {
        return None;
    };
    if first / 16 != 2 || second / 8 % 2 != 0 {
        return None;
    }
    let (size, width) = read_number(number, Width::Three)?;
    let size = size as usize;
    let start = 3 + width;
    if size < start + CHECKSUM {
        return None;
    }
    Some(Header {
        first: *first,
        second: *second,
        size,
        start,
    })
}
