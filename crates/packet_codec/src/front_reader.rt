//! What the front of some bytes is.

ghost use Rattle.std.specs.Prelude.{◌≡◌, ◌↔◌, ◌≤◌, ◌-◌, length, take, IsTrue};
ghost use Rattle.sub_number.specs.Checksum.{crc32};
ghost use Rattle.packet_codec.specs.Shapes.{HeaderStands};
ghost use Rattle.packet_codec.specs.Heading.{IsHeading};
ghost use Rattle.packet_codec.specs.Header.{IsFrontOfHeader, LooksLike};
ghost use Rattle.packet_codec.specs.Sight.{IsSightOf};

use crate::front::Front;
use crate::header::{Header, SIGNATURE, header_at};
use crate::packet::{Packet, packet_by, packet_of};

/// What stands at the front of some bytes, with the packet itself.
#[derive(Drop)]
pub enum Sight<'a> {
    /// A packet.
    Packet(Packet<'a>),
    /// More bytes are asked for: the front of a header stands there, or a header whose packet would be longer than the
    /// bytes at hand. Whether a packet can still come of it is not told.
    More,
    /// No packet, whatever follows.
    No,
}

/// Whether the bytes are the front of a header, which more bytes are to end.
#[inline]
fn is_front_of_header(bytes: &[u8]) -> bool
    ensures { IsTrue result ↔ IsFrontOfHeader bytes.now }
{
    let Some(signature) = bytes.first() else {
        return true;
    };
    if *signature != SIGNATURE {
        return false;
    }
    let Some(first) = bytes.get(1) else {
        return true;
    };
    if first / 16 != 2 {
        return false;
    }
    let Some(second) = bytes.get(2) else {
        return true;
    };
    if second / 8 % 2 != 0 {
        return false;
    }
    let Some(size) = bytes.get(3) else {
        return true;
    };
    let extra = usize::from(size / 64);
    extra <= 2 && bytes.len() <= 3 + extra
}

/// What the header at the front of some bytes tells of them.
#[derive(Clone, Copy)]
pub enum Heading {
    /// A header, with as many bytes as it tells of.
    Whole(Header),
    /// More bytes are asked for: the front of a header stands there, or a header whose packet would be longer than the
    /// bytes at hand.
    More,
    /// No header, whatever follows.
    No,
}

/// What the header at the front of the bytes tells. It looks at six bytes at most.
#[inline(always)]
pub fn head_of(bytes: &[u8]) -> Heading
    ensures { IsHeading bytes.now result }
{
    let Some(header) = header_at(bytes) else {
        return if is_front_of_header(bytes) {
            Heading::More
        } else {
            Heading::No
        };
    };
    if header.size > bytes.len() {
        return Heading::More;
    }
    Heading::Whole(header)
}

/// What stands at the front of the bytes, which have this header and are no shorter than it tells, where the checksum
/// that a packet there would end with is known. The checksum is tested first, then the lengths of the fields, and the
/// texts last. It takes no memory.
#[inline(always)]
pub fn see_front_by(header: Header, bytes: &[u8], sum: u32) -> Sight<'_>
    requires stands { HeaderStands bytes.now header }
    requires size { header.size ≤ length bytes.now }
    requires sum { sum ≡ crc32 (take (header.size - 4) bytes.now) }
    ensures { IsSightOf bytes.now result }
{
    match packet_by(header, &bytes[..header.size], sum) {
        Some(packet) => Sight::Packet(packet),
        None => Sight::No,
    }
}

/// What `see_front_by` sees, without the packet itself: its size alone. It takes no memory.
pub fn look_at_front_by(header: Header, bytes: &[u8], sum: u32) -> Front
    requires stands { HeaderStands bytes.now header }
    requires size { header.size ≤ length bytes.now }
    requires sum { sum ≡ crc32 (take (header.size - 4) bytes.now) }
    ensures { LooksLike bytes.now result }
{
    match see_front_by(header, bytes, sum) {
        Sight::Packet(packet) => Front::Packet(packet.size()),
        Sight::More => Front::More,
        Sight::No => Front::No,
    }
}

// What stands at the front of the bytes, which have this header and are no shorter than it tells.
#[inline(always)]
fn see_whole(header: Header, bytes: &[u8]) -> Sight<'_>
    requires stands { HeaderStands bytes.now header }
    requires size { header.size ≤ length bytes.now }
    ensures { IsSightOf bytes.now result }
{
    match packet_of(header, &bytes[..header.size]) {
        Some(packet) => Sight::Packet(packet),
        None => Sight::No,
    }
}

/// Whether the bytes begin with a packet, ask for more bytes, or begin with none, whatever follows. It takes no memory,
/// and the packet's event can be made without its checksum and its texts being tested again.
///
/// The header is tested first, then the lengths of the fields, then the texts, and the checksum last.
#[inline(always)]
pub fn see_front(bytes: &[u8]) -> Sight<'_>
    ensures { IsSightOf bytes.now result }
{
    match head_of(bytes) {
        Heading::Whole(header) => see_whole(header, bytes),
        Heading::More => Sight::More,
        Heading::No => Sight::No,
    }
}

/// What `see_front` sees, without the packet itself: its size alone. It takes no memory.
pub fn look_at_front(bytes: &[u8]) -> Front
    ensures { LooksLike bytes.now result }
{
    match see_front(bytes) {
        Sight::Packet(packet) => Front::Packet(packet.size()),
        Sight::More => Front::More,
        Sight::No => Front::No,
    }
}
