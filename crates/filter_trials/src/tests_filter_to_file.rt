//! Tests of filters whose output becomes a file, as command lines.

use crate::calls::owned;
use crate::sources::source;
use edge_io::{Found, ListSink, MapSite, Site};
use filter_to_file::filters_to_file;
use new_files::MemNewFiles;
use std::alloc::Global;

// `c` failed.
const FAILED: &[u8] = b"\xb3\x29\x06\x0a\x01c\x04\x11\x56\xa4";

const FAULT: &[u8] = b"subunit-ls: fault writing output\n";

// Words, the calls of the files that fail, the writes that fail, what the file holds where it is there, what is said, and the
// status.
type Row = (
    &'static [&'static str],
    &'static [u64],
    &'static [u64],
    Option<&'static [u8]>,
    &'static [u8],
    u8,
);

const ROWS: [Row; 6] = [
    (&["subunit-ls"], &[], &[], Some(b"c\n"), b"", 1),
    (&["subunit-tags"], &[], &[], Some(FAILED), b"", 0),
    (
        &["subunit-ls", "-x"],
        &[],
        &[],
        None,
        b"subunit-ls: wrong usage\n",
        2,
    ),
    (&["subunit-ls"], &[0], &[], None, FAULT, 4),
    (&["subunit-ls"], &[1], &[], None, FAULT, 4),
    (&["subunit-ls"], &[], &[0], None, FAULT, 4),
];

// Whether the file holds this, or is not there.
fn holds<S: Site>(site: &mut S, wanted: Option<&[u8]>) -> bool {
    let mut buf = [0u8; 64];
    match (site.read_at("out", 0, &mut buf), wanted) {
        (Ok(Found::Read(count)), Some(wanted)) => &buf[..count] == wanted,
        (Ok(Found::Absent), None) => true,
        _ => false,
    }
}

// Whether the words give what the row says, over the stream.
fn does(alloc: Global, stream: &[u8], row: &Row) -> Option<bool> {
    let words = owned(alloc, row.0)?;
    let mut input = source(alloc, stream, &[])?;
    let mut files = MemNewFiles::new(alloc, row.1.to_vec(alloc).ok()?, row.2.to_vec(alloc).ok()?);
    let mut site = MapSite::new(alloc, Vec::new(alloc));
    let mut err = ListSink::new(alloc, Vec::new(alloc));
    let status = filters_to_file(
        alloc, &words, "out", &mut site, &mut input, &mut files, &mut err,
    );
    let mut made = files.into_site();
    Some(status == row.5 && err.taken() == row.4 && holds(&mut made, row.3))
}

#[test]
fn a_file_has_its_name_where_the_output_is_whole(rt: HostRuntime) {
    for row in &ROWS {
        assert_eq!(rt; does(rt.alloc(), FAILED, row), Some(true));
    }
}

// The line of an input that ends inside a packet does not keep the file from its name.
const INSIDE: Row = (
    &["subunit-ls"],
    &[],
    &[],
    Some(b"\xb3\x29"),
    b"subunit-ls: the input ends inside a packet\n",
    0,
);

#[test]
fn an_input_that_ends_inside_a_packet_is_told_of(rt: HostRuntime) {
    assert_eq!(rt; does(rt.alloc(), b"\xb3\x29", &INSIDE), Some(true));
}
