//! Events as bytes, each number in its shortest spelling.

ghost use Rattle.std.specs.Prelude.{◌≡◌, ◌<◌, ◌≤◌, ◌^◌, ◌++◌, ◌∷◌, [], length, take, OnOk, OnErr};
ghost use Rattle.std.specs.List.{flat_map};
ghost use Rattle.sub_number.specs.Numbers.{shortest_number};
ghost use Rattle.packet_codec.specs.Flags.{flag, first_flags, second_flags};
ghost use Rattle.packet_codec.specs.Packet.{signature};
ghost use Rattle.packet_codec.specs.Canonical.{canonical_optional, canonical_text, canonical_stamp, canonical_tags, canonical_file, canonical_fields, canonical_body, canonical, canonical_size, Fits};

use crate::event::{Event, FilePart};
use crate::header::SIGNATURE;
use crate::sizes::size;
use crate::stamp::Stamp;
use crate::tags::Tags;
use sub_number::{NoMemory, Text, crc_of, write_number};

/// Appends the shortest spelling of the event (the Subunit README, "Packet format"), with zlib's CRC-32 at its end.
///
/// Its size is that of `size`, and `fits` tells whether there is one.
pub fn encode(event: &Event, out: &mut Vec<u8>) -> Result<(), NoMemory>
    requires { Fits event.now }
    ensures ok { OnOk result (out.new.items ≡ out.old.items ++ canonical event.now) }
    ensures err { OnErr result (out.new.items ≡ out.old.items) }
{
    let start = out.len();
    let done = put_packet(event, out);
    if done.is_err() {
        out.truncate(start);
    }
    done
}

// What stands in `out` stays, also where there is not enough memory. So of each function below.
fn put_packet(event: &Event, out: &mut Vec<u8>) -> Result<(), NoMemory>
    requires { Fits event.now }
    ensures ok { OnOk result (out.new.items ≡ out.old.items ++ canonical event.now) }
    ensures kept { take (length out.old.items) out.new.items ≡ out.old.items }
{
    let start = out.len();
    let size = size(event) as u32;
    out.reserve(size as usize)?;
    put_body(event, size, out)?;
    let checksum = crc_of(&out[start..]);
    out.extend_from_slice(&checksum.to_be_bytes())?;
    Ok(())
}

// All but the checksum.
#[tactic(auto, unfolding(crate::specs::Canonical::canonical_body))]
fn put_body(event: &Event, size: u32, out: &mut Vec<u8>) -> Result<(), NoMemory>
    requires fits { Fits event.now }
    requires size { size ≡ canonical_size event.now }
    ensures ok { OnOk result (out.new.items ≡ out.old.items ++ canonical_body event.now) }
    ensures kept { take (length out.old.items) out.new.items ≡ out.old.items }
{
    put_head(first_byte(event), second_byte(event), size, out)?;
    put_fields(event, out)
}

// The signature, the flags and the size of the packet.
#[tactic(auto, using(crate::proofs::WritingLemmas::kept_behind))]
pub(crate) fn put_head(first: u8, second: u8, size: u32, out: &mut Vec<u8>) -> Result<(), NoMemory>
    requires { size < 2 ^ 30 }
    ensures ok { OnOk result (out.new.items ≡ out.old.items ++ signature ∷ first ∷ second ∷ shortest_number size) }
    ensures kept { take (length out.old.items) out.new.items ≡ out.old.items }
{
    out.extend_from_slice(&[SIGNATURE, first, second])?;
    write_number(out, size)
}

// Version 2, and which fields there are.
fn first_byte(event: &Event) -> u8
    ensures { result ≡ first_flags event.now }
{
    0x20 + bit(event.id.is_some(), 8)
        + bit(event.route.is_some(), 4)
        + bit(event.stamp.is_some(), 2)
        + bit(event.runnable, 1)
}

// Which other fields there are, and the status.
fn second_byte(event: &Event) -> u8
    ensures { result ≡ second_flags event.now }
{
    bit(event.tags.is_some(), 128)
        + bit(event.file.is_some(), 64)
        + bit(event.mime.is_some(), 32)
        + bit(event.eof, 16)
        + event.status.number()
}

pub(crate) fn bit(set: bool, weight: u8) -> u8
    ensures { result ≡ flag set weight }
{
    if set { weight } else { 0 }
}

#[tactic(auto, unfolding(crate::specs::Canonical::canonical_fields))]
fn put_fields(event: &Event, out: &mut Vec<u8>) -> Result<(), NoMemory>
    requires { Fits event.now }
    ensures ok { OnOk result (out.new.items ≡ out.old.items ++ canonical_fields event.now) }
    ensures kept { take (length out.old.items) out.new.items ≡ out.old.items }
{
    put_stamp(&event.stamp, out)?;
    put_optional_text(&event.id, out)?;
    put_tags(&event.tags, out)?;
    put_optional_text(&event.mime, out)?;
    put_file(&event.file, out)?;
    put_optional_text(&event.route, out)
}

pub(crate) fn put_stamp(stamp: &Option<Stamp>, out: &mut Vec<u8>) -> Result<(), NoMemory>
    ensures ok { OnOk result (out.new.items ≡ out.old.items ++ canonical_optional canonical_stamp stamp.now) }
    ensures kept { take (length out.old.items) out.new.items ≡ out.old.items }
{
    let Some(stamp) = stamp else {
        return Ok(());
    };
    out.extend_from_slice(&stamp.seconds.to_be_bytes())?;
    write_number(out, stamp.nanos)
}

fn put_optional_text(text: &Option<Text>, out: &mut Vec<u8>) -> Result<(), NoMemory>
    ensures ok { OnOk result (out.new.items ≡ out.old.items ++ canonical_optional canonical_text text.now) }
    ensures kept { take (length out.old.items) out.new.items ≡ out.old.items }
{
    match text {
        Some(text) => put_text(text, out),
        None => Ok(()),
    }
}

fn put_text(text: &Text, out: &mut Vec<u8>) -> Result<(), NoMemory>
    ensures ok { OnOk result (out.new.items ≡ out.old.items ++ canonical_text text.now) }
    ensures kept { take (length out.old.items) out.new.items ≡ out.old.items }
{
    put_bytes(text.bytes(), out)
}

// Their count, and the bytes.
pub(crate) fn put_bytes(bytes: &[u8], out: &mut Vec<u8>) -> Result<(), NoMemory>
    requires { length bytes.now < 2 ^ 30 }
    ensures ok { OnOk result (out.new.items ≡ out.old.items ++ canonical_text bytes.now) }
    ensures kept { take (length out.old.items) out.new.items ≡ out.old.items }
{
    write_number(out, bytes.len() as u32)?;
    out.extend_from_slice(bytes)?;
    Ok(())
}

#[tactic(auto, using(crate::proofs::WritingLemmas::kept_behind, crate::proofs::WritingLemmas::tags_count))]
fn put_tags(tags: &Option<Tags>, out: &mut Vec<u8>) -> Result<(), NoMemory>
    requires { length (canonical_optional canonical_tags tags.now) < 2 ^ 30 }
    ensures ok { OnOk result (out.new.items ≡ out.old.items ++ canonical_optional canonical_tags tags.now) }
    ensures kept { take (length out.old.items) out.new.items ≡ out.old.items }
{
    let Some(tags) = tags else {
        return Ok(());
    };
    let list = tags.list();
    write_number(out, list.len() as u32)?;
    put_texts(list, out)
}

#[tactic(auto, using(crate::proofs::WritingLemmas::kept_behind))]
fn put_texts(texts: &[Text], out: &mut Vec<u8>) -> Result<(), NoMemory>
    ensures ok { OnOk result (out.new.items ≡ out.old.items ++ flat_map canonical_text texts.now) }
    ensures kept { take (length out.old.items) out.new.items ≡ out.old.items }
{
    for text in texts {
        put_text(text, out)?;
    }
    Ok(())
}

fn put_file(file: &Option<FilePart>, out: &mut Vec<u8>) -> Result<(), NoMemory>
    requires { length (canonical_optional canonical_file file.now) < 2 ^ 30 }
    ensures ok { OnOk result (out.new.items ≡ out.old.items ++ canonical_optional canonical_file file.now) }
    ensures kept { take (length out.old.items) out.new.items ≡ out.old.items }
{
    let Some(file) = file else {
        return Ok(());
    };
    put_text(&file.name, out)?;
    put_bytes(file.bytes.bytes(), out)
}
