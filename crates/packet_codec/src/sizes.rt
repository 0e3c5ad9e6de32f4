//! How many bytes the shortest spelling of an event takes.

ghost use Rattle.std.specs.Prelude.{◌≡◌, ◌↔◌, ◌+◌, ◌*◌, ◌<◌, ◌≤◌, ◌^◌, length, All, IfSome, IsTrue};
ghost use Rattle.std.specs.List.{flat_map};
ghost use Rattle.std.specs.Fmt.{decimal};
ghost use Rattle.sub_number.specs.Numbers.{shortest_number};
ghost use Rattle.sub_number.specs.Texts.{IsShortText};
ghost use Rattle.packet_codec.specs.Routing.{under, route_under};
ghost use Rattle.packet_codec.specs.Canonical.{canonical_optional, canonical_text, canonical_stamp, canonical_tags, canonical_file, canonical_fields, canonical_size, packet_size, largest_packet, Fits, IsEvent};
ghost use Rattle.packet_codec.specs.Shapes.{bytes_of};

use crate::event::{Event, FilePart};
use crate::header::LARGEST_PACKET;
use crate::stamp::Stamp;
use crate::tags::Tags;
use sub_number::{Text, number_size};

/// The size in bytes of the shortest spelling of the event (the Subunit README, "Packet format"): the length takes one
/// to three bytes, the fewest that have room for the whole size.
///
/// It is told for each event, also for one that is too large for a packet: the length then counts as three bytes, and a
/// count of 2^30 or more as four.
///
/// Whoever asks learns too that the event's parts are what their types keep.
pub fn size(event: &Event) -> u128
    ensures size { result ≡ canonical_size event.now }
    ensures event { IsEvent event.now }
{
    whole_size(front_size(event) + optional_text_size(&event.route))
}

/// Whether the event has a spelling, which is where its size is at most 4,194,303 bytes. What `size` tells of its parts
/// is told here too.
pub fn fits(event: &Event) -> bool
    ensures fits { IsTrue result ↔ Fits event.now }
    ensures event { IsEvent event.now }
{
    size(event) <= LARGEST_PACKET as u128
}

/// The size in bytes that the event would have under the route of a lane, by `reroute`. Where that is no more than a
/// packet may have, 4,194,303 bytes, the new route is a text.
pub fn routed_size(event: &Event, lane: u32) -> u128
    requires { lane < 64 }
    ensures size { result ≡ canonical_size (under lane event.now) }
    ensures text { result ≤ largest_packet → IsShortText (route_under lane event.now.route) }
    ensures event { IsEvent event.now }
{
    whole_size(front_size(event) + text_route_size(&event.route, lane))
}

// The size of a packet whose fields have so many bytes.
pub(crate) fn whole_size(fields: u128) -> u128
    requires { fields < 2 ^ 127 }
    ensures { result ≡ packet_size fields }
{
    if fields + 8 < 1 << 6 {
        fields + 8
    } else if fields + 9 < 1 << 14 {
        fields + 9
    } else {
        fields + 10
    }
}

// All fields but the route.
#[tactic(auto, unfolding(crate::specs::Canonical::canonical_fields))]
fn front_size(event: &Event) -> u128
    ensures size { result + length (canonical_optional canonical_text event.now.route) ≡ length (canonical_fields event.now) }
    ensures small { result < 2 ^ 97 }
    ensures event { IfSome event.now.route IsShortText → IsEvent event.now }
{
    stamp_size(&event.stamp)
        + optional_text_size(&event.id)
        + tags_size(&event.tags)
        + optional_text_size(&event.mime)
        + file_size(&event.file)
}

// A count of 2^30 or more has no spelling, and is reckoned as four bytes.
pub(crate) fn count_size(count: usize) -> u128
    ensures size { result ≡ length (shortest_number count) }
    ensures small { result ≤ 4 }
{
    if count < 1 << 30 {
        number_size(count as u32) as u128
    } else {
        4
    }
}

fn text_size(text: &Text) -> u128
    ensures size { result ≡ length (canonical_text text.now) }
    ensures small { result < 2 ^ 31 }
    ensures text { IsShortText text.now }
{
    bytes_size(text.bytes())
}

// Their count, and the bytes.
pub(crate) fn bytes_size(bytes: &[u8]) -> u128
    ensures size { result ≡ length (canonical_text bytes.now) }
    ensures small { result ≤ length bytes.now + 4 }
    ensures bytes { All (λ byte. byte < 256) bytes.now }
{
    count_size(bytes.len()) + bytes.len() as u128
}

fn optional_text_size(text: &Option<Text>) -> u128
    ensures size { result ≡ length (canonical_optional canonical_text text.now) }
    ensures small { result < 2 ^ 31 }
    ensures text { IfSome text.now IsShortText }
{
    match text {
        Some(text) => text_size(text),
        None => 0,
    }
}

pub(crate) fn stamp_size(stamp: &Option<Stamp>) -> u128
    ensures size { result ≡ length (canonical_optional canonical_stamp stamp.now) }
    ensures small { result ≤ 8 }
    ensures seconds { IfSome stamp.now (λ stamp. stamp.seconds < 2 ^ 32) }
{
    match stamp {
        Some(stamp) => {
            // Read, so that their range is known.
            let _seconds = stamp.seconds;
            4 + number_size(stamp.nanos) as u128
        }
        None => 0,
    }
}

fn tags_size(tags: &Option<Tags>) -> u128
    ensures size { result ≡ length (canonical_optional canonical_tags tags.now) }
    ensures small { result < 2 ^ 96 }
    ensures texts { IfSome tags.now (All IsShortText) }
{
    match tags {
        Some(tags) => {
            let list = tags.list();
            count_size(list.len()) + texts_size(list)
        }
        None => 0,
    }
}

fn texts_size(texts: &[Text]) -> u128
    ensures size { result ≡ length (flat_map canonical_text texts.now) }
    ensures small { result ≤ length texts.now * 2 ^ 31 }
    ensures texts { All IsShortText texts.now }
{
    let mut sum = 0u128;
    for text in texts {
        sum += text_size(text);
    }
    sum
}

fn file_size(file: &Option<FilePart>) -> u128
    ensures size { result ≡ length (canonical_optional canonical_file file.now) }
    ensures small { result < 2 ^ 65 }
    ensures parts { IfSome file.now (λ file. IsShortText file.name × All (λ byte. byte < 256) file.bytes) }
{
    match file {
        Some(file) => text_size(&file.name) + bytes_size(file.bytes.bytes()),
        None => 0,
    }
}

// The field of the route that the event would have under the lane.
fn text_route_size(route: &Option<Text>, lane: u32) -> u128
    requires { lane < 64 }
    ensures size { result ≡ length (canonical_text (route_under lane route.now)) }
    ensures small { result < 2 ^ 66 }
    ensures text { IfSome route.now IsShortText }
{
    match route {
        Some(route) => route_size(Some(route.bytes()), lane),
        None => route_size(None, lane),
    }
}

// The same of a route where it stands.
pub(crate) fn route_size(route: Option<&[u8]>, lane: u32) -> u128
    requires { lane < 64 }
    ensures size { result ≡ length (canonical_text (route_under lane (bytes_of route.entry))) }
    ensures small { result < 2 ^ 66 }
{
    let count = route_length(route, lane);
    count_size(count) + count as u128
}

// How many bytes a route has under the lane.
pub(crate) fn route_length(route: Option<&[u8]>, lane: u32) -> usize
    requires { lane < 64 }
    ensures { result ≡ length (route_under lane (bytes_of route.entry)) }
{
    let digits = lane_digits(lane);
    match route {
        Some(route) => digits + 1 + route.len(),
        None => digits,
    }
}

// How many digits the lane's number has.
#[tactic(auto, using(crate::proofs::RoutingLemmas::length_decimal_one, crate::proofs::RoutingLemmas::length_decimal_two))]
fn lane_digits(lane: u32) -> usize
    requires { lane < 64 }
    ensures size { result ≡ length (decimal lane) }
    ensures small { result ≤ 2 }
{
    if lane < 10 { 1 } else { 2 }
}
