//! Events give lines.

use packet_codec::{Event, FilePart, Stamp, Status, Tags};
use std::alloc::Global;
use sub_number::{Bytes, Text};
use v1_bridge::V1Writer;

// An event of the test a: its status, the seconds of its stamp, its tag and the bytes of its file.
type Row = (Status, Option<u32>, Option<&'static [u8]>, &'static [u8]);

fn tag_list(alloc: Global, tag: &[u8]) -> Option<Tags> {
    let tag = Text::new(alloc, tag).ok()?;
    let mut tags = Tags::new(alloc);
    tags.push(tag).ok()?;
    Some(tags)
}

fn file(alloc: Global, name: &[u8], bytes: &[u8]) -> Option<FilePart> {
    let name = Text::new(alloc, name).ok()?;
    let bytes = Bytes::new(alloc, bytes).ok()?;
    Some(FilePart { name, bytes })
}

fn stamp(seconds: u32) -> Stamp {
    Stamp {
        seconds,
        nanos: 500_000_000,
    }
}

// An event of the test. Without memory for its texts it has none, and then another text is written.
fn bare(alloc: Global, id: &[u8], status: Status, seconds: Option<u32>) -> Event {
    Event {
        stamp: seconds.map(stamp),
        id: Text::new(alloc, id).ok(),
        tags: None,
        runnable: true,
        status,
        mime: Text::new(alloc, b"text/plain").ok(),
        file: None,
        eof: false,
        route: None,
    }
}

fn event(alloc: Global, id: &[u8], row: &Row) -> Event {
    let mut event = bare(alloc, id, row.0, row.1);
    if let Some(tag) = row.2 {
        event.tags = tag_list(alloc, tag);
    }
    if !row.3.is_empty() {
        event.file = file(alloc, b"log", row.3);
    }
    event
}

fn write(
    alloc: Global,
    writer: &mut V1Writer,
    id: &[u8],
    row: &Row,
    out: &mut Vec<u8>,
) -> Option<()> {
    let event = event(alloc, id, row);
    writer.add(&event, out).ok()
}

fn write_all(
    alloc: Global,
    writer: &mut V1Writer,
    id: &[u8],
    rows: &[Row],
    out: &mut Vec<u8>,
) -> Option<()> {
    for row in rows {
        write(alloc, writer, id, row, out)?;
    }
    Some(())
}

fn write_all_behind(
    alloc: Global,
    writer: &mut V1Writer,
    told: &Told,
    out: &mut Vec<u8>,
) -> Option<()> {
    writer.foreign(told.0, out).ok()?;
    write_all(alloc, writer, told.1, told.2, out)
}

fn write_stream(alloc: Global, told: &Told, out: &mut Vec<u8>) -> Option<()> {
    let mut writer = V1Writer::new(alloc);
    write_all_behind(alloc, &mut writer, told, out)?;
    writer.close(out).ok()
}

// The foreign bytes in front, the id, its events, and the text.
type Told = (&'static [u8], &'static [u8], &'static [Row], &'static [u8]);

fn writes(alloc: Global, told: &Told) -> bool {
    let mut out = Vec::new(alloc);
    write_stream(alloc, told, &mut out).is_some() && out.as_slice() == told.3
}

const TEXTS: [Told; 8] = [
    (
        b"",
        b"foo",
        &[
            (Status::InProgress, Some(100), None, b""),
            (Status::Success, Some(101), Some(b"x"), b""),
        ],
        b"time: 1970-01-01 00:01:40.500000Z\ntest: foo\ntags: x\ntime: 1970-01-01 00:01:41.500000Z\nsuccess: foo\n",
    ),
    (
        b"z",
        b"a",
        &[(Status::InProgress, None, None, b"")],
        b"z\ntest: a\nerror: a [\nnot completed\n]\n",
    ),
    (
        b"z\n",
        b"a\tb",
        &[(Status::Skip, Some(1), None, b"")],
        b"z\ntime: 1970-01-01 00:00:01.500000Z\ntest: a?b\ntime: 1970-01-01 00:00:01.500000Z\nskip: a?b\n",
    ),
    (
        b"",
        b"",
        &[
            (Status::Exists, None, None, b""),
            (Status::XFail, None, Some(b"-x"), b""),
        ],
        b"test: ?\nxfail: ?\n",
    ),
    (
        b"",
        b"a",
        &[(Status::Fail, None, None, b"]\n] x\n y")],
        b"test: a\nfailure: a [\n ]\n ] x\n y\n]\n",
    ),
    (
        b"",
        b"a",
        &[
            (Status::Unset, None, None, b"half"),
            (Status::UxSuccess, None, None, b" more\n"),
        ],
        b"test: a\nuxsuccess: a [\nhalf more\n]\n",
    ),
    (
        b"",
        b"a",
        &[(Status::Unset, None, Some(b"a b"), b"said")],
        b"test: a\nerror: a [\nsaid\nnot completed\n]\n",
    ),
    (
        b"",
        b"a",
        &[(Status::Success, None, None, b"\n")],
        b"test: a\nsuccess: a [\n\n]\n",
    ),
];

#[test]
fn events_give_lines(rt: HostRuntime) {
    for (place, told) in TEXTS.iter().enumerate() {
        assert!(rt; writes(rt.alloc(), told), "row {place}");
    }
}

// An event of the test a: its status, and the name and the bytes of its file.
type Named = (Status, &'static [u8], &'static [u8]);

// The events of a test with two files, and the text.
const FILES: [(&[Named], &[u8]); 3] = [
    (
        &[
            (Status::InProgress, b"log", b"a"),
            (Status::Unset, b"traceback", b"t"),
        ],
        b"test: a\nerror: a [\nlog: {{{\na\n}}}\nt\nnot completed\n]\n",
    ),
    (
        &[(Status::Unset, b"x", b"a"), (Status::Success, b"y", b"b")],
        b"test: a\nsuccess: a [\nx: {{{\na\n}}}\ny: {{{\nb\n}}}\n]\n",
    ),
    (
        &[
            (Status::Unset, b"log", b"]"),
            (Status::Fail, b"traceback", b"]"),
        ],
        b"test: a\nfailure: a [\nlog: {{{\n ]\n}}}\n ]\n]\n",
    ),
];

fn with_file(alloc: Global, named: &Named) -> Event {
    let mut event = bare(alloc, b"a", named.0, None);
    event.file = file(alloc, named.1, named.2);
    event
}

fn write_named(
    alloc: Global,
    writer: &mut V1Writer,
    named: &Named,
    out: &mut Vec<u8>,
) -> Option<()> {
    let event = with_file(alloc, named);
    writer.add(&event, out).ok()
}

fn write_each_named(
    alloc: Global,
    writer: &mut V1Writer,
    events: &[Named],
    out: &mut Vec<u8>,
) -> Option<()> {
    for named in events {
        write_named(alloc, writer, named, out)?;
    }
    Some(())
}

fn write_files(alloc: Global, events: &[Named], out: &mut Vec<u8>) -> Option<()> {
    let mut writer = V1Writer::new(alloc);
    write_each_named(alloc, &mut writer, events, out)?;
    writer.close(out).ok()
}

fn writes_files(alloc: Global, events: &[Named], wanted: &[u8]) -> bool {
    let mut out = Vec::new(alloc);
    write_files(alloc, events, &mut out).is_some() && out.as_slice() == wanted
}

#[test]
fn several_files_stand_under_their_names(rt: HostRuntime) {
    for (place, (events, wanted)) in FILES.iter().enumerate() {
        assert!(rt; writes_files(rt.alloc(), events, wanted), "row {place}");
    }
}

fn routed(alloc: Global, route: &[u8], id: &[u8]) -> Event {
    let mut event = bare(alloc, id, Status::InProgress, None);
    event.route = Text::new(alloc, route).ok();
    event.tags = tag_list(alloc, route);
    event
}

fn write_routed(
    alloc: Global,
    writer: &mut V1Writer,
    route: &[u8],
    id: &[u8],
    out: &mut Vec<u8>,
) -> Option<()> {
    let event = routed(alloc, route, id);
    writer.add(&event, out).ok()
}

// The events of two routes and of two ids, of which none ends.
const OPEN: [(&[u8], &[u8]); 3] = [(b"1", b"a"), (b"0", b"b"), (b"0", b"a")];

fn write_each_routed(alloc: Global, writer: &mut V1Writer, out: &mut Vec<u8>) -> Option<()> {
    for (route, id) in &OPEN {
        write_routed(alloc, writer, route, id, out)?;
    }
    Some(())
}

fn write_open(alloc: Global, out: &mut Vec<u8>) -> Option<()> {
    let mut writer = V1Writer::new(alloc);
    write_each_routed(alloc, &mut writer, out)?;
    writer.close(out).ok()
}

fn writes_open(alloc: Global, wanted: &[u8]) -> bool {
    let mut out = Vec::new(alloc);
    write_open(alloc, &mut out).is_some() && out.as_slice() == wanted
}

#[test]
fn open_tests_are_written_by_route_and_id(rt: HostRuntime) {
    let wanted =
        b"test: a\ntags: 0\nerror: a [\nnot completed\n]\ntest: b\ntags: 0\nerror: b [\nnot completed\n]\ntest: a\ntags: 1\nerror: a [\nnot completed\n]\n";
    assert!(rt; writes_open(rt.alloc(), wanted));
}

fn of_no_test(alloc: Global, bytes: &[u8]) -> Event {
    let mut event = bare(alloc, b"", Status::Unset, None);
    event.id = None;
    event.file = file(alloc, b"log", bytes);
    event
}

fn write_of_no_test(
    alloc: Global,
    writer: &mut V1Writer,
    bytes: &[u8],
    out: &mut Vec<u8>,
) -> Option<()> {
    let event = of_no_test(alloc, bytes);
    writer.add(&event, out).ok()
}

const PASSED: Row = (Status::Success, None, None, b"");

// An event without an id, whose file is these bytes, and a test behind it.
fn write_file(alloc: Global, bytes: &[u8], out: &mut Vec<u8>) -> Option<()> {
    let mut writer = V1Writer::new(alloc);
    write_of_no_test(alloc, &mut writer, bytes, out)?;
    write(alloc, &mut writer, b"a", &PASSED, out)
}

fn writes_file(alloc: Global, bytes: &[u8], wanted: &[u8]) -> bool {
    let mut out = Vec::new(alloc);
    write_file(alloc, bytes, &mut out).is_some() && out.as_slice() == wanted
}

#[test]
fn the_file_of_no_test_is_written_where_it_comes(rt: HostRuntime) {
    let wanted = b"said\ntest: a\nsuccess: a\n";
    assert!(rt; writes_file(rt.alloc(), b"said", wanted));
}
