//! Packets, and whether some bytes are one.

ghost use Rattle.std.specs.Prelude.{◌≡◌, ◌↔◌, ◌≤◌, ◌-◌, Option, List, ℕ, length, take, drop, All, IsTrue, IfSome, IfNone};
ghost use Rattle.std.specs.Int.{w32, to_be_bytes};
ghost use Rattle.sub_number.specs.Checksum.{crc32};
ghost use Rattle.sub_number.specs.Texts.{IsText};
ghost use Rattle.packet_codec.specs.Packet.{IsPacket};
ghost use Rattle.packet_codec.specs.Shapes.{HeaderStands, FieldShapes, fields_at, Contents, ShowsRuns, ShowsTags, ShowsParts, AreTexts, bytes_of, file_of};

use crate::header::{CHECKSUM, Header, header_at};
use crate::parts::{FileBytes, Parts, RunList, parts_of, run_at};
use std::marker::Model;
use sub_number::{crc_of, is_text};

/// A packet where it stands among other bytes, of which all is tested. Contracts see its bytes.
#[derive(Drop)]
pub struct Packet<'a> {
    pub(crate) bytes: &'a [u8],
    pub(crate) header: Header,
    pub(crate) parts: Parts<'a>,
}

impl<'a> Model for Packet<'a> {
    ghost use Rattle.std.specs.Prelude.{List, ℕ};
    ghost use Rattle.packet_codec.specs.Told.{IsTold};

    ghost Value = { List ℕ };

    ghost view = { λ p. p.bytes.now };

    ghost invariant = { λ p. IsTold p.bytes.now p.header p.parts };
}

impl<'a> Packet<'a> {
    /// Its size in bytes.
    pub fn size(&self) -> usize
        ensures size { result ≡ length self.now }
        ensures packet { IsPacket self.now }
    {
        self.bytes.len()
    }
}

/// Whether a run is a text, where it is there.
#[inline(always)]
fn may_be_text(run: Option<&[u8]>) -> bool
    ensures { IsTrue result ↔ IfSome (bytes_of run.entry) IsText }
{
    match run {
        None => true,
        Some(bytes) => is_text(bytes),
    }
}

/// Whether each of so many runs is a text.
fn are_texts(count: u32, bytes: &[u8]) -> bool
    ensures { (runs : List (List ℕ)) → ShowsRuns count bytes.now runs → IsTrue result ↔ All IsText runs }
{
    let mut rest = bytes;
    for _ in 0..count {
        let Some((run, after)) = run_at(rest) else {
            return false;
        };
        if !is_text(run) {
            return false;
        }
        rest = after;
    }
    true
}

/// Whether each tag is a text, where there are tags.
#[inline(always)]
fn may_be_tags(tags: Option<RunList<'_>>) -> bool
    ensures { (runs : Option (List (List ℕ))) → ShowsTags tags.entry runs → IsTrue result ↔ IfSome runs (All IsText) }
{
    match tags {
        None => true,
        Some(list) => are_texts(list.count, list.bytes),
    }
}

/// Whether a file's name is a text, where there is a file.
#[inline(always)]
fn may_be_file(file: Option<FileBytes<'_>>) -> bool
    ensures { IsTrue result ↔ IfSome (file_of file.entry) (λ part. IsText part.0) }
{
    match file {
        None => true,
        Some(part) => is_text(part.name),
    }
}

/// Whether the texts among the fields are texts.
#[inline(always)]
fn have_texts(parts: &Parts<'_>) -> bool
    ensures { (contents : Contents) → ShowsParts parts.now contents → IsTrue result ↔ AreTexts contents }
{
    may_be_text(parts.id)
        && may_be_tags(parts.tags)
        && may_be_text(parts.mime)
        && may_be_file(parts.file)
        && may_be_text(parts.route)
}

/// The fields of the bytes, which have this header and its size.
#[inline(always)]
pub fn packet_parts(header: Header, bytes: &[u8]) -> Option<Parts<'_>>
    requires stands { HeaderStands bytes.now header }
    requires size { length bytes.now ≡ header.size }
    ensures found { IfSome result (λ parts. (contents : Contents) × FieldShapes header.first header.second (fields_at header bytes.now) contents × ShowsParts parts contents) }
    ensures none { IfNone result ((contents : Contents) → FieldShapes header.first header.second (fields_at header bytes.now) contents → ⊥) }
{
    let body = &bytes[..bytes.len() - CHECKSUM];
    parts_of(header.first, header.second, &body[header.start..])
}

/// Whether the bytes, which have this header, its size and these fields, are a packet. The texts are tested first, and
/// the checksum last.
#[inline(always)]
fn is_packet(header: Header, bytes: &[u8], parts: &Parts<'_>) -> bool
    requires stands { HeaderStands bytes.now header }
    requires size { length bytes.now ≡ header.size }
    requires shown { (contents : Contents) × FieldShapes header.first header.second (fields_at header bytes.now) contents × ShowsParts parts.now contents }
    ensures { IsTrue result ↔ IsPacket bytes.now }
{
    let (body, checksum) = bytes.split_at(bytes.len() - CHECKSUM);
    have_texts(parts) && checksum == crc_of(body).to_be_bytes().as_slice()
}

/// The packet that the bytes are, which have this header and its size. The lengths are tested first, then the texts,
/// and the checksum last.
#[inline(always)]
pub fn packet_of(header: Header, bytes: &[u8]) -> Option<Packet<'_>>
    requires stands { HeaderStands bytes.now header }
    requires size { length bytes.now ≡ header.size }
    ensures found { IfSome result (λ packet. (packet ≡ bytes.now) × IsPacket bytes.now) }
    ensures none { IfNone result (IsPacket bytes.now → ⊥) }
{
    let parts = packet_parts(header, bytes)?;
    if !is_packet(header, bytes, &parts) {
        return None;
    }
    Some(Packet {
        bytes,
        header,
        parts,
    })
}

/// Whether the bytes end with this checksum.
#[inline(always)]
fn ends_with(bytes: &[u8], sum: u32) -> bool
    requires { 4 ≤ length bytes.now }
    ensures { IsTrue result ↔ drop (length bytes.now - 4) bytes.now ≡ to_be_bytes w32 sum }
{
    let (_, checksum) = bytes.split_at(bytes.len() - CHECKSUM);
    checksum == sum.to_be_bytes().as_slice()
}

/// The same as `is_packet`, where the checksum of the bytes in front of the last four is known.
#[inline(always)]
fn is_packet_by(header: Header, bytes: &[u8], parts: &Parts<'_>, sum: u32) -> bool
    requires stands { HeaderStands bytes.now header }
    requires size { length bytes.now ≡ header.size }
    requires shown { (contents : Contents) × FieldShapes header.first header.second (fields_at header bytes.now) contents × ShowsParts parts.now contents }
    requires sum { sum ≡ crc32 (take (length bytes.now - 4) bytes.now) }
    ensures { IsTrue result ↔ IsPacket bytes.now }
{
    have_texts(parts) && ends_with(bytes, sum)
}

/// The packet that the bytes are, which have this header and its size, where the checksum of those in front of their
/// last four is known. The checksum is tested first, then the lengths, and the texts last.
#[inline(always)]
pub fn packet_by(header: Header, bytes: &[u8], sum: u32) -> Option<Packet<'_>>
    requires stands { HeaderStands bytes.now header }
    requires size { length bytes.now ≡ header.size }
    requires sum { sum ≡ crc32 (take (length bytes.now - 4) bytes.now) }
    ensures found { IfSome result (λ packet. (packet ≡ bytes.now) × IsPacket bytes.now) }
    ensures none { IfNone result (IsPacket bytes.now → ⊥) }
{
    if !ends_with(bytes, sum) {
        return None;
    }
    let parts = packet_parts(header, bytes)?;
    if !is_packet_by(header, bytes, &parts, sum) {
        return None;
    }
    Some(Packet {
        bytes,
        header,
        parts,
    })
}

/// The packet that the bytes are, which are known to be one: nothing is tested again.
#[inline(always)]
pub fn known_packet(bytes: &[u8]) -> Packet<'_>
    requires { IsPacket bytes.now }
    ensures { result ≡ bytes.now }
{
    let header = header_at(bytes).unwrap();
    let parts = packet_parts(header, bytes).unwrap();
    Packet {
        bytes,
        header,
        parts,
    }
}
