//! Filters that write events, over streams in memory.

use crate::sources::source;
use edge_io::{ListSink, ListSource};
use event_sift::{Rules, Tagger};
use filter_cli::{PumpFault, StreamEnd, filter_stream, tag_stream};
use packet_codec::Tags;
use partition_times::Filters;
use std::alloc::Global;
use trial_events::tags_of;

// `foo` failed.
const FAILED: &[u8] = b"\xb3\x29\x06\x0c\x03\x66\x6f\x6f\x15\x50\x6f\xa3";

// `o` and `b` begin, a line of a log, `s` passed, an event without an id, `e` failed as was expected, `b` failed.
const MIXED: &[u8] =
    b"\xb3\x29\x02\x0a\x01\x6f\x82\xc5\x8d\xd8\xb3\x29\x02\x0a\x01\x62\xfc\x74\xf1\x65\x78\x0a\xb3\x29\x03\x0a\x01\x73\x2e\x78\xb6\xf2\xb3\x21\x80\x0b\x01\x01\x6b\xe4\x5f\x88\xe5\xb3\x29\x07\x0a\x01\x65\x55\xce\x94\xf4\xb3\x29\x06\x0a\x01\x62\x73\x16\x66\x32";

// The line, the event without an id, `e`, both events of `b`, and at the end `o`.
const KEPT: &[u8] =
    b"\x78\x0a\xb3\x21\x80\x0b\x01\x01\x6b\xe4\x5f\x88\xe5\xb3\x29\x07\x0a\x01\x65\x55\xce\x94\xf4\xb3\x29\x02\x0a\x01\x62\xfc\x74\xf1\x65\xb3\x29\x06\x0a\x01\x62\x73\x16\x66\x32\xb3\x29\x02\x0a\x01\x6f\x82\xc5\x8d\xd8";

// The same without the line.
const KEPT_ALONE: &[u8] =
    b"\xb3\x21\x80\x0b\x01\x01\x6b\xe4\x5f\x88\xe5\xb3\x29\x07\x0a\x01\x65\x55\xce\x94\xf4\xb3\x29\x02\x0a\x01\x62\xfc\x74\xf1\x65\xb3\x29\x06\x0a\x01\x62\x73\x16\x66\x32\xb3\x29\x02\x0a\x01\x6f\x82\xc5\x8d\xd8";

// A line of a log, and `t1` with the tags `b`, `a` and `b`.
const WITH_TAGS: &[u8] =
    b"\x78\x0a\xb3\x29\x83\x12\x02\x74\x31\x03\x01\x62\x01\x61\x01\x62\xe2\xc2\x7d\x18";

// The line as an event, and `t1` with the tags `a` and `b`.
const SORTED: &[u8] =
    b"\xb3\x21\x40\x12\x06\x73\x74\x64\x6f\x75\x74\x02\x78\x0a\x96\xc7\xfc\x7e\xb3\x29\x83\x10\x02\x74\x31\x02\x01\x61\x01\x62\x80\x6c\x8f\x30";

// The line as an event with the tag `c`, and `t1` with the tags `b` and `c`.
const RETAGGED: &[u8] =
    b"\xb3\x21\xc0\x15\x01\x01\x63\x06\x73\x74\x64\x6f\x75\x74\x02\x78\x0a\xf2\x9d\xcf\x10\xb3\x29\x83\x10\x02\x74\x31\x02\x01\x62\x01\x63\xf5\x2d\x01\xff";

// The whole stream was read, and ends inside no packet.
const WHOLE: StreamEnd = StreamEnd {
    status: 0,
    inside: false,
};

// What is kept where these tags are asked for, and nothing else is.
fn rules(alloc: Global, with_tags: &[u8]) -> Option<Rules> {
    let with_tags = tags_of(alloc, with_tags)?;
    let with_ids = Filters::new(alloc, &[]).ok()?;
    let without_ids = Filters::new(alloc, &[]).ok()?;
    Some(Rules {
        success: false,
        failure: true,
        skip: true,
        xfail: true,
        with_tags,
        without_tags: Tags::new(alloc),
        with_ids,
        without_ids,
    })
}

// What came of the stream, where this was written.
fn came(
    status: Result<StreamEnd, PumpFault>,
    out: &ListSink,
    wanted: &[u8],
) -> Option<Result<StreamEnd, PumpFault>> {
    if out.taken() == wanted {
        Some(status)
    } else {
        None
    }
}

fn filtered(
    alloc: Global,
    rules: &Rules,
    hidden: bool,
    input: &mut ListSource,
    wanted: &[u8],
) -> Option<Result<StreamEnd, PumpFault>> {
    let mut out = ListSink::new(alloc, Vec::new(alloc));
    let status = filter_stream(alloc, rules, hidden, input, &mut out);
    came(status, &out, wanted)
}

// The tags that are asked for, whether foreign bytes are hidden, the stream, the reads that fail, what is written, and what
// comes of it.
type Kept = (
    &'static [u8],
    bool,
    &'static [u8],
    &'static [u64],
    &'static [u8],
    Result<StreamEnd, PumpFault>,
);

fn is_kept_from(alloc: Global, input: &mut ListSource, row: &Kept) -> Option<bool> {
    let rules = rules(alloc, row.0)?;
    Some(filtered(alloc, &rules, row.1, input, row.4) == Some(row.5))
}

fn is_kept(alloc: Global, row: &Kept) -> Option<bool> {
    let mut input = source(alloc, row.2, row.3)?;
    is_kept_from(alloc, &mut input, row)
}

const STREAMS: [Kept; 5] = [
    // A test without a wanted tag is not let through.
    (b"a", false, FAILED, &[], b"", Ok(WHOLE)),
    (b"", false, FAILED, &[], FAILED, Ok(WHOLE)),
    // The events of kept tests stand where the test completes.
    (b"", false, MIXED, &[], KEPT, Ok(WHOLE)),
    (b"", true, MIXED, &[], KEPT_ALONE, Ok(WHOLE)),
    // The fourth read fails: so `s` was read to its end, and the line is written before the next read.
    (b"", false, MIXED, &[3], b"x\n", Err(PumpFault::Input)),
];

#[test]
fn the_rules_say_what_is_kept_and_it_stands_where_the_test_completes(rt: HostRuntime) {
    for row in &STREAMS {
        assert!(rt; is_kept(rt.alloc(), row) == Some(true));
    }
}

fn tagger_of(alloc: Global, add: &[u8], remove: &[u8]) -> Option<Tagger> {
    let add = tags_of(alloc, add)?;
    let remove = tags_of(alloc, remove)?;
    Some(Tagger::new(alloc, add, remove))
}

// The tags that are added and removed, and what is written.
type Retagged = (&'static [u8], &'static [u8], &'static [u8]);

fn is_retagged_from(alloc: Global, input: &mut ListSource, row: &Retagged) -> Option<bool> {
    let tagger = tagger_of(alloc, row.0, row.1)?;
    let mut out = ListSink::new(alloc, Vec::new(alloc));
    let status = tag_stream(alloc, tagger, input, &mut out);
    Some(came(status, &out, row.2) == Some(Ok(WHOLE)))
}

fn is_retagged(alloc: Global, row: &Retagged) -> Option<bool> {
    let mut input = source(alloc, WITH_TAGS, &[])?;
    is_retagged_from(alloc, &mut input, row)
}

const TAGS: [Retagged; 2] = [(b"", b"", SORTED), (b"ca", b"a", RETAGGED)];

#[test]
fn foreign_bytes_become_events_and_tags_are_sorted(rt: HostRuntime) {
    for row in &TAGS {
        assert!(rt; is_retagged(rt.alloc(), row) == Some(true));
    }
}
