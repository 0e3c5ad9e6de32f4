//! Which tests fail in a file, and which files are damaged.

use crate::read::failing_of;
use std::alloc::Global;
use sub_number::IdList;

// A file, and the ids that fail in it, each with a newline. None: it is damaged.
type Told = (&'static [u8], Option<&'static [u8]>);

fn lines_of(alloc: Global, ids: &IdList) -> Option<Vec<u8>> {
    let mut text = Vec::new(alloc);
    for id in ids.list() {
        text.extend_from_slice(id.bytes()).ok()?;
        text.push(b'\n').ok()?;
    }
    Some(text)
}

fn is_told(alloc: Global, row: &Told, ids: &Option<IdList>) -> Option<bool> {
    match ids {
        Some(ids) => {
            let text = lines_of(alloc, ids)?;
            Some(row.1 == Some(text.as_slice()))
        }
        None => Some(row.1.is_none()),
    }
}

// Whether the row holds where the file is read in pieces of so many bytes.
fn holds(alloc: Global, row: &Told, size: usize) -> Option<bool> {
    let ids = failing_of(alloc, row.0, size)?;
    is_told(alloc, row, &ids)
}

// The number of the first row that does not hold.
fn first_wrong(alloc: Global, rows: &[Told], size: usize) -> Option<usize> {
    let mut number = 0usize;
    for row in rows {
        if holds(alloc, row, size) != Some(true) {
            return Some(number);
        }
        number = number.saturating_add(1);
    }
    None
}

const LINES: [Told; 13] = [
    (b"", Some(b"")),
    (b"\n", None),
    (b"hello\n", None),
    (b"time: 1970-01-01 00:01:40Z\ntags: worker-0\n", None),
    (b"failure: a\n", None),
    (b"test: a\nsuccess: a\n", Some(b"")),
    (b"test: b\nfailure: b\ntest: a\nerror: a\n", Some(b"a\nb\n")),
    (b"test: a", Some(b"a\n")),
    (b"test: a\nfailure: a [\nline\n]\n", Some(b"a\n")),
    (b"test: a\nsuccess: a [\nline\n", Some(b"a\n")),
    (b"test: a\nsuccess: a [ multipart\nx\n", None),
    (b"test: a\nfailure: b [ multipart\nsuccess: a\n", Some(b"")),
    (b"test: a [ multipart\nsuccess: a [ multipart\n", Some(b"")),
];

const PARTS: [Told; 13] = [
    (b"test: a\nfailure: a [ multipart\n", None),
    (b"test: a\nfailure: a [ multipart", None),
    (b"test: a\nfailure: a [ multipart\n]\n", Some(b"a\n")),
    (b"test: a\nfailure: a [ multipart\n]", Some(b"a\n")),
    (
        b"test: a\nfailure: a [ multipart\nContent-Type: text/plain\ntraceback\n4\r\nx\n]\n0\r\n]\ntest: b\nfailure: b\n",
        Some(b"a\nb\n"),
    ),
    (
        b"test: a\nfailure: a [ multipart\nContent-Type: text/plain\ntraceback\n4\r\nx\n]\n",
        None,
    ),
    (
        b"test: a\nfailure: a [ multipart\nContent-Type: text/plain\ntraceback\n4\r\nx\n",
        None,
    ),
    (
        b"test: a\nfailure: a [ multipart\nContent-Type: text/plain\n",
        None,
    ),
    (
        b"test: a\nfailure: a [ multipart\nContent-Type: text/plain\ntraceback\n4\r\nx\n]\n0\r\n",
        None,
    ),
    (
        b"test: a\nfailure: a [ multipart\nContent-Type: text/plain\ntraceback\n3\r\nx\n]\n0\r\n]\n",
        None,
    ),
    (
        b"test: a\nfailure: a [ multipart\nline\n]\ntest: b\nsuccess: b\n",
        None,
    ),
    (
        b"test: a\nfailure: a [\nContent-Type: text/plain\n]\n",
        Some(b"a\n"),
    ),
    (
        b"test: a\nsuccess: a\nfailure: a [ multipart\nline\n]\n",
        Some(b""),
    ),
];

#[test]
fn lines_tell_which_tests_fail(rt: HostRuntime) {
    assert_eq!(rt; first_wrong(rt.alloc(), &LINES, 65_536), None);
    assert_eq!(rt; first_wrong(rt.alloc(), &LINES, 1), None);
}

#[test]
fn parts_are_closed_or_the_file_is_damaged(rt: HostRuntime) {
    assert_eq!(rt; first_wrong(rt.alloc(), &PARTS, 65_536), None);
    assert_eq!(rt; first_wrong(rt.alloc(), &PARTS, 5), None);
}
