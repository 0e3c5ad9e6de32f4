//! How many bytes the event of a packet takes that is written again.

ghost use Rattle.std.specs.Prelude.{◌≡◌, ◌+◌, ◌*◌, ◌<◌, ◌≤◌, ◌^◌, Option, List, ℕ, length, option_map};
ghost use Rattle.std.specs.List.{flat_map};
ghost use Rattle.packet_codec.specs.declared.event.Event.{Event};
ghost use Rattle.packet_codec.specs.Canonical.{canonical_optional, canonical_text, canonical_tags, canonical_file, canonical_fields};
ghost use Rattle.packet_codec.specs.Shapes.{ShowsRuns, ShowsTags, ShowsParts, bytes_of, contents_of, file_of, file_from};
ghost use Rattle.packet_codec.specs.Retagging.{if_any, lent_bytes};
ghost use Rattle.packet_codec.specs.Respelled.{IsChange, changed, route_after, tags_after};

use crate::event_change::Change;
use crate::parts::{FileBytes, Parts, RunList, run_at};
use crate::sizes::{bytes_size, count_size, route_size, stamp_size};

// The field of a run, where there is one.
#[inline(always)]
fn run_size(run: Option<&[u8]>) -> u128
    ensures size { result ≡ length (canonical_optional canonical_text (bytes_of run.entry)) }
    ensures small { result < 2 ^ 65 }
{
    match run {
        None => 0,
        Some(bytes) => bytes_size(bytes),
    }
}

#[inline(always)]
fn file_size(file: Option<FileBytes<'_>>) -> u128
    ensures size { result ≡ length (canonical_optional canonical_file (option_map file_from (file_of file.entry))) }
    ensures small { result < 2 ^ 66 }
{
    match file {
        None => 0,
        Some(file) => bytes_size(file.name) + bytes_size(file.bytes),
    }
}

// So many runs, one after another.
fn runs_size(count: u32, bytes: &[u8]) -> u128
    requires { (runs : List (List ℕ)) × ShowsRuns count bytes.now runs }
    ensures size { (runs : List (List ℕ)) → ShowsRuns count bytes.now runs → result ≡ length (flat_map canonical_text runs) }
    ensures small { result ≤ count * 2 ^ 65 }
{
    let mut sum = 0u128;
    let mut rest = bytes;
    for _ in 0..count {
        let (run, after) = run_at(rest).unwrap();
        sum += bytes_size(run);
        rest = after;
    }
    sum
}

#[inline(always)]
fn own_tags_size(tags: Option<RunList<'_>>) -> u128
    requires { (own : Option (List (List ℕ))) × ShowsTags tags own }
    ensures size { (own : Option (List (List ℕ))) → ShowsTags tags.entry own → result ≡ length (canonical_optional canonical_tags own) }
    ensures small { result < 2 ^ 98 }
{
    match tags {
        None => 0,
        Some(list) => count_size(list.count as usize) + runs_size(list.count, list.bytes),
    }
}

// The slices, one after another.
fn slices_size(slices: &[&[u8]]) -> u128
    ensures size { result ≡ length (flat_map canonical_text (lent_bytes slices.now)) }
    ensures small { result ≤ length slices.now * (2 ^ 63 + 4) }
{
    let mut sum = 0u128;
    for slice in slices {
        sum += bytes_size(slice);
    }
    sum
}

#[inline(never)]
fn given_tags_size(tags: &[&[u8]]) -> u128
    ensures size { result ≡ length (canonical_optional canonical_tags (if_any (lent_bytes tags.now))) }
    ensures small { result < 2 ^ 126 }
{
    if tags.is_empty() {
        return 0;
    }
    count_size(tags.len()) + slices_size(tags)
}

#[inline(always)]
fn tags_size(tags: Option<RunList<'_>>, change: Change<'_>) -> u128
    requires { (own : Option (List (List ℕ))) × ShowsTags tags own }
    ensures size { (own : Option (List (List ℕ))) → ShowsTags tags.entry own → result ≡ length (canonical_optional canonical_tags (tags_after change.entry own)) }
    ensures small { result < 2 ^ 126 }
{
    match change {
        Change::Tags(tags) => given_tags_size(tags),
        Change::Nothing | Change::Lane(_) => own_tags_size(tags),
    }
}

#[inline(always)]
fn changed_route_size(route: Option<&[u8]>, change: Change<'_>) -> u128
    requires { IsChange change }
    ensures size { result ≡ length (canonical_optional canonical_text (route_after change.entry (bytes_of route.entry))) }
    ensures small { result < 2 ^ 66 }
{
    match change {
        Change::Lane(lane) => route_size(route, lane),
        Change::Nothing | Change::Tags(_) => run_size(route),
    }
}

/// The fields of the event with the change.
#[inline(always)]
pub fn fields_size(parts: &Parts<'_>, change: Change<'_>) -> u128
    requires change { IsChange change }
    requires shown { (e : Event) × ShowsParts parts.now (contents_of e) }
    ensures size { (e : Event) → ShowsParts parts.now (contents_of e) → result ≡ length (canonical_fields (changed change.entry e)) }
    ensures small { result < 2 ^ 127 }
{
    stamp_size(&parts.stamp)
        + run_size(parts.id)
        + tags_size(parts.tags, change)
        + run_size(parts.mime)
        + file_size(parts.file)
        + changed_route_size(parts.route, change)
}
