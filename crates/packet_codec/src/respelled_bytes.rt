//! The event of a packet, written again from where its parts stand.

ghost use Rattle.std.specs.Prelude.{◌≡◌, ◌<◌, ◌^◌, ◌++◌, ◌∷◌, Option, List, ℕ, All, length, option_map, take, OnOk, OnErr};
ghost use Rattle.std.specs.List.{flat_map};
ghost use Rattle.packet_codec.specs.declared.event.Event.{Event};
ghost use Rattle.packet_codec.specs.Canonical.{canonical, canonical_body, canonical_fields, canonical_file, canonical_optional, canonical_size, canonical_tags, canonical_text, Fits};
ghost use Rattle.packet_codec.specs.Flags.{first_flags, second_flags};
ghost use Rattle.packet_codec.specs.Packet.{signature};
ghost use Rattle.packet_codec.specs.Routing.{route_under};
ghost use Rattle.packet_codec.specs.Shapes.{ShowsRuns, ShowsTags, ShowsParts, bytes_of, contents_of, file_of, file_from};
ghost use Rattle.packet_codec.specs.Retagging.{if_any, lent_bytes};
ghost use Rattle.packet_codec.specs.Respelled.{AreOf, IsChange, changed, route_after, tags_after};

use crate::encoder::{bit, put_bytes, put_head, put_stamp};
use crate::event_change::Change;
use crate::header::Header;
use crate::lane_route::put_route;
use crate::parts::{FileBytes, Parts, RunList, run_at};
use crate::sizes::route_length;
use sub_number::{NoMemory, crc_of, write_number};

// What stands in `out` stays, also where there is not enough memory. So of each function here but the last, which takes
// back what was appended.

// A run, where there is one.
#[inline(always)]
fn put_run(run: Option<&[u8]>, out: &mut Vec<u8>) -> Result<(), NoMemory>
    requires { length (canonical_optional canonical_text (bytes_of run)) < 2 ^ 30 }
    ensures ok { OnOk result (out.new.items ≡ out.old.items ++ canonical_optional canonical_text (bytes_of run.entry)) }
    ensures kept { take (length out.old.items) out.new.items ≡ out.old.items }
{
    match run {
        None => Ok(()),
        Some(bytes) => put_bytes(bytes, out),
    }
}

#[inline(always)]
fn put_file(file: Option<FileBytes<'_>>, out: &mut Vec<u8>) -> Result<(), NoMemory>
    requires { length (canonical_optional canonical_file (option_map file_from (file_of file))) < 2 ^ 30 }
    ensures ok { OnOk result (out.new.items ≡ out.old.items ++ canonical_optional canonical_file (option_map file_from (file_of file.entry))) }
    ensures kept { take (length out.old.items) out.new.items ≡ out.old.items }
{
    match file {
        None => Ok(()),
        Some(file) => put_named(file, out),
    }
}

#[tactic(auto, using(crate::proofs::WritingLemmas::kept_twice))]
fn put_named(file: FileBytes<'_>, out: &mut Vec<u8>) -> Result<(), NoMemory>
    requires { length (canonical_file (file_from (file.name.now, file.bytes.now))) < 2 ^ 30 }
    ensures ok { OnOk result (out.new.items ≡ out.old.items ++ canonical_file (file_from (file.entry.name.now, file.entry.bytes.now))) }
    ensures kept { take (length out.old.items) out.new.items ≡ out.old.items }
{
    put_bytes(file.name, out)?;
    put_bytes(file.bytes, out)
}

// So many runs, one after another.
fn put_runs(count: u32, bytes: &[u8], out: &mut Vec<u8>) -> Result<(), NoMemory>
    requires { (runs : List (List ℕ)) × ShowsRuns count bytes.now runs }
    ensures ok { (runs : List (List ℕ)) → ShowsRuns count bytes.now runs → OnOk result (out.new.items ≡ out.old.items ++ flat_map canonical_text runs) }
    ensures kept { take (length out.old.items) out.new.items ≡ out.old.items }
{
    let mut rest = bytes;
    for _ in 0..count {
        let (run, after) = run_at(rest).unwrap();
        put_bytes(run, out)?;
        rest = after;
    }
    Ok(())
}

#[tactic(auto, using(crate::proofs::WritingLemmas::kept_behind))]
fn put_list(list: RunList<'_>, out: &mut Vec<u8>) -> Result<(), NoMemory>
    requires { (runs : List (List ℕ)) × ShowsRuns list.count list.bytes.now runs × length (canonical_tags runs) < 2 ^ 30 }
    ensures ok { (runs : List (List ℕ)) → ShowsRuns list.entry.count list.entry.bytes.now runs → OnOk result (out.new.items ≡ out.old.items ++ canonical_tags runs) }
    ensures kept { take (length out.old.items) out.new.items ≡ out.old.items }
{
    write_number(out, list.count)?;
    put_runs(list.count, list.bytes, out)
}

#[inline(always)]
fn put_own_tags(tags: Option<RunList<'_>>, out: &mut Vec<u8>) -> Result<(), NoMemory>
    requires { (own : Option (List (List ℕ))) × ShowsTags tags own × length (canonical_optional canonical_tags own) < 2 ^ 30 }
    ensures ok { (own : Option (List (List ℕ))) → ShowsTags tags.entry own → OnOk result (out.new.items ≡ out.old.items ++ canonical_optional canonical_tags own) }
    ensures kept { take (length out.old.items) out.new.items ≡ out.old.items }
{
    match tags {
        None => Ok(()),
        Some(list) => put_list(list, out),
    }
}

// The slices, one after another.
#[tactic(auto, using(crate::proofs::WritingLemmas::kept_behind))]
fn put_slices(slices: &[&[u8]], out: &mut Vec<u8>) -> Result<(), NoMemory>
    requires { All (λ text. length text < 2 ^ 30) (lent_bytes slices.now) }
    ensures ok { OnOk result (out.new.items ≡ out.old.items ++ flat_map canonical_text (lent_bytes slices.now)) }
    ensures kept { take (length out.old.items) out.new.items ≡ out.old.items }
{
    for slice in slices {
        put_bytes(slice, out)?;
    }
    Ok(())
}

#[tactic(auto, using(crate::proofs::WritingLemmas::kept_behind))]
#[inline(never)]
fn put_given_tags(tags: &[&[u8]], out: &mut Vec<u8>) -> Result<(), NoMemory>
    requires { length (canonical_optional canonical_tags (if_any (lent_bytes tags.now))) < 2 ^ 30 }
    ensures ok { OnOk result (out.new.items ≡ out.old.items ++ canonical_optional canonical_tags (if_any (lent_bytes tags.now))) }
    ensures kept { take (length out.old.items) out.new.items ≡ out.old.items }
{
    if tags.is_empty() {
        return Ok(());
    }
    write_number(out, tags.len() as u32)?;
    put_slices(tags, out)
}

#[inline(always)]
fn put_tags(
    tags: Option<RunList<'_>>,
    change: Change<'_>,
    out: &mut Vec<u8>,
) -> Result<(), NoMemory>
    requires { (own : Option (List (List ℕ))) × ShowsTags tags own × length (canonical_optional canonical_tags (tags_after change own)) < 2 ^ 30 }
    ensures ok { (own : Option (List (List ℕ))) → ShowsTags tags.entry own → OnOk result (out.new.items ≡ out.old.items ++ canonical_optional canonical_tags (tags_after change.entry own)) }
    ensures kept { take (length out.old.items) out.new.items ≡ out.old.items }
{
    match change {
        Change::Tags(given) => put_given_tags(given, out),
        Change::Nothing | Change::Lane(_) => put_own_tags(tags, out),
    }
}

// The route under the lane, behind its length.
#[tactic(auto, using(crate::proofs::WritingLemmas::kept_behind))]
fn put_long_route(route: Option<&[u8]>, lane: u32, out: &mut Vec<u8>) -> Result<(), NoMemory>
    requires lane { lane < 64 }
    requires short { length (canonical_text (route_under lane (bytes_of route))) < 2 ^ 30 }
    ensures ok { OnOk result (out.new.items ≡ out.old.items ++ canonical_text (route_under lane (bytes_of route.entry))) }
    ensures kept { take (length out.old.items) out.new.items ≡ out.old.items }
{
    write_number(out, route_length(route, lane) as u32)?;
    put_route(route, lane, out)
}

#[inline(always)]
fn put_changed_route(
    route: Option<&[u8]>,
    change: Change<'_>,
    out: &mut Vec<u8>,
) -> Result<(), NoMemory>
    requires change { IsChange change }
    requires short { length (canonical_optional canonical_text (route_after change (bytes_of route))) < 2 ^ 30 }
    ensures ok { OnOk result (out.new.items ≡ out.old.items ++ canonical_optional canonical_text (route_after change.entry (bytes_of route.entry))) }
    ensures kept { take (length out.old.items) out.new.items ≡ out.old.items }
{
    match change {
        Change::Lane(lane) => put_long_route(route, lane, out),
        Change::Nothing | Change::Tags(_) => put_run(route, out),
    }
}

// Their order is that of a packet.
#[inline(always)]
fn put_fields(parts: &Parts<'_>, change: Change<'_>, out: &mut Vec<u8>) -> Result<(), NoMemory>
    requires change { IsChange change }
    requires shown { (e : Event) × ShowsParts parts.now (contents_of e) × Fits (changed change e) }
    ensures ok { (e : Event) → ShowsParts parts.now (contents_of e) → OnOk result (out.new.items ≡ out.old.items ++ canonical_fields (changed change.entry e)) }
    ensures kept { take (length out.old.items) out.new.items ≡ out.old.items }
{
    put_stamp(&parts.stamp, out)?;
    put_run(parts.id, out)?;
    put_tags(parts.tags, change, out)?;
    put_run(parts.mime, out)?;
    put_file(parts.file, out)?;
    put_changed_route(parts.route, change, out)?;
    Ok(())
}

// The first flag byte says that there is a route where the event goes under a lane.
#[inline(always)]
fn first_byte(first: u8, change: Change<'_>) -> u8
    requires { (e : Event) × first ≡ first_flags e }
    ensures { (e : Event) → first ≡ first_flags e → result ≡ first_flags (changed change.entry e) }
{
    match change {
        Change::Lane(_) => first % 4 + 4 + first / 8 * 8,
        Change::Nothing | Change::Tags(_) => first,
    }
}

// The second one says whether there are tags.
#[inline(always)]
fn second_byte(second: u8, change: Change<'_>) -> u8
    ensures { (e : Event) → second ≡ second_flags e → result ≡ second_flags (changed change.entry e) }
{
    match change {
        Change::Tags(tags) => second % 128 + bit(!tags.is_empty(), 128),
        Change::Nothing | Change::Lane(_) => second,
    }
}

// All but the checksum.
#[inline(always)]
fn put_body(
    header: Header,
    size: u32,
    parts: &Parts<'_>,
    change: Change<'_>,
    out: &mut Vec<u8>,
) -> Result<(), NoMemory>
    requires change { IsChange change }
    requires fits { (e : Event) × AreOf header parts.now e × Fits (changed change e) }
    requires size { (e : Event) → AreOf header parts.now e → size ≡ canonical_size (changed change e) }
    ensures ok { (e : Event) → AreOf header parts.now e → OnOk result (out.new.items ≡ out.old.items ++ canonical_body (changed change.entry e)) }
    ensures kept { take (length out.old.items) out.new.items ≡ out.old.items }
{
    let first = first_byte(header.first, change);
    let second = second_byte(header.second, change);
    put_head(first, second, size, out)?;
    put_fields(parts, change, out)?;
    Ok(())
}

// The whole packet.
#[inline(always)]
fn put_packet(
    header: Header,
    size: u32,
    parts: &Parts<'_>,
    change: Change<'_>,
    out: &mut Vec<u8>,
) -> Result<(), NoMemory>
    requires change { IsChange change }
    requires fits { (e : Event) × AreOf header parts.now e × Fits (changed change e) }
    requires size { (e : Event) → AreOf header parts.now e → size ≡ canonical_size (changed change e) }
    ensures ok { (e : Event) → AreOf header parts.now e → OnOk result (out.new.items ≡ out.old.items ++ canonical (changed change.entry e)) }
    ensures kept { take (length out.old.items) out.new.items ≡ out.old.items }
{
    let start = out.len();
    out.reserve(size as usize)?;
    put_body(header, size, parts, change, out)?;
    let checksum = crc_of(&out[start..]);
    out.extend_from_slice(&checksum.to_be_bytes())?;
    Ok(())
}

/// Appends the shortest spelling of the event with the change, which has this size.
#[inline(always)]
pub fn put_changed(
    header: Header,
    size: u32,
    parts: &Parts<'_>,
    change: Change<'_>,
    out: &mut Vec<u8>,
) -> Result<(), NoMemory>
    requires change { IsChange change }
    requires fits { (e : Event) × AreOf header parts.now e × Fits (changed change e) }
    requires size { (e : Event) → AreOf header parts.now e → size ≡ canonical_size (changed change e) }
    ensures ok { (e : Event) → AreOf header parts.now e → OnOk result (out.new.items ≡ out.old.items ++ canonical (changed change.entry e)) }
    ensures err { OnErr result (out.new.items ≡ out.old.items) }
{
    let start = out.len();
    let done = put_packet(header, size, parts, change, out);
    if done.is_err() {
        out.truncate(start);
    }
    done
}
