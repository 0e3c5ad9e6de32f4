//! Lines give events.

use crate::heard::events_of;
use crate::shown::show_all;
use std::alloc::Global;

fn show_stream(alloc: Global, stream: &[u8], text: &mut Vec<u8>) -> Option<()> {
    let events = events_of(alloc, stream)?;
    show_all(&events, text)
}

fn gives(alloc: Global, row: &Told) -> bool {
    let mut text = Vec::new(alloc);
    show_stream(alloc, row.0, &mut text).is_some() && text.as_slice() == row.1
}

// A stream, and its events.
type Told = (&'static [u8], &'static [u8]);

const LINES: [Told; 15] = [
    (
        b"time: 1970-01-01 00:01:40Z\ntest: foo\ntags: x\ntime: 1970-01-01 00:01:41.5Z\nsuccess: foo\n",
        b"inprogress foo @1970-01-01 00:01:40.000000\nsuccess foo #x @1970-01-01 00:01:41.500000\n",
    ),
    (
        b"test: a\nfailure: a [\n ] x\ny\n]\nfailure: b\n",
        b"inprogress a\nfail a <traceback:] x\ny\n\nunset <stdout:failure: b\n\n",
    ),
    (
        b"test: a\ntime: 1970-02-30 00:00:00Z\ntime: 1970-01-01 00:00:60Z\n",
        b"inprogress a\nunset <stdout:time: 1970-02-30 00:00:00Z\n\nunset <stdout:time: 1970-01-01 00:00:60Z\n\n",
    ),
    (
        b"tags: b a\ntest: t\ntags: -a c -\nskip: t [\r\nwhy\r\n]\r\ntest: u\nuxsuccess: u",
        b"inprogress t\nskip t #- #b #c <reason:why\n\ninprogress u\nuxsuccess u #a #b\n",
    ),
    (
        b"testing: a\ntest: b\nxfail: a [\nleft",
        b"inprogress a\nunset <stdout:test: b\n\nunset a <traceback:left\n\n",
    ),
    (
        b"time: 2106-02-07 06:28:16Z\ntime: 1969-12-31 23:59:59Z\ntime: 2000-02-29 00:00:00.1234567890Z",
        b"unset <stdout:time: 2106-02-07 06:28:16Z\n\nunset <stdout:time: 1969-12-31 23:59:59Z\n\nunset <stdout:time: 2000-02-29 00:00:00.1234567890Z\n\n",
    ),
    (
        b"progress: 3\nprogress: +3\nprogress: push\nprogress: pop\nprogress: 1234567890\nprogress: ++1\n",
        b"unset <stdout:progress: 1234567890\n\nunset <stdout:progress: ++1\n\n",
    ),
    (
        b"test: a\nprogress: -1\nerror: a [\nprogress: pop\n]\n",
        b"inprogress a\nfail a <traceback:progress: pop\n\n",
    ),
    (
        b"tags: -x x\ntags: \ntags:\ntest: a\nsuccessful: a\n",
        b"unset <stdout:tags:\n\ninprogress a\nsuccess a #x\n",
    ),
    (
        b"test: a\nfailure: a [ multipart\ntime: 1970-02-30 00:00:00Z",
        b"inprogress a\nunset <stdout:time: 1970-02-30 00:00:00Z\n\n",
    ),
    (
        b"tags: x\ntest: a\ntags: y -x\nsuccess: a\ntest: b\nsuccess: b\n",
        b"inprogress a\nsuccess a #y\ninprogress b\nsuccess b #x\n",
    ),
    (
        b"test: a [\nfailure: a [\ntest: b\nfailure: a [ multipart\nsuccess: b",
        b"inprogress a [\nfail a [\ninprogress b\nunset <stdout:failure: a [ multipart\n\nsuccess b\n",
    ),
    (
        b"time: 2106-02-07 06:28:15.123456789Z\ntest: a\nsuccess: a\ntest: b\ntime: 2000-02-29 00:00:00Z\nskip: b\n",
        b"inprogress a @2106-02-07 06:28:15.123456\nsuccess a @2106-02-07 06:28:15.123456\ninprogress b @2106-02-07 06:28:15.123456\nskip b @2000-02-29 00:00:00.000000\n",
    ),
    (
        b"time: 2100-02-29 00:00:00Z\ntime: 1970-01-01 00:00:00.Z\ntime: 1970-01-01T00:00:00Z\ntime: 197O-01-01 00:00:00Z\n",
        b"unset <stdout:time: 2100-02-29 00:00:00Z\n\nunset <stdout:time: 1970-01-01 00:00:00.Z\n\nunset <stdout:time: 1970-01-01T00:00:00Z\n\nunset <stdout:time: 197O-01-01 00:00:00Z\n\n",
    ),
    (
        b"test: \ntest: \xff\nsuccess: \ntest\nTest: a\n",
        b"unset <stdout:test: \n\nunset <stdout:test: \xff\n\nunset <stdout:success: \n\nunset <stdout:test\n\nunset <stdout:Test: a\n\n",
    ),
];

const PARTS: [Told; 12] = [
    (
        b"test: a\nsuccessful: a [ multipart\n]\ntest: b\n",
        b"inprogress a\nsuccess a\ninprogress b\n",
    ),
    (
        b"test: a\nsuccessful: a [ multipart\nContent-Type: text/plain\nlog\n5\r\n] x\ny0\r\n]\n",
        b"inprogress a\nunset a %text/plain <log:] x\ny\nsuccess a\n",
    ),
    (
        b"test: a\nfailure: a [ multipart\nContent-Type: text/x-traceback;charset=utf8,language=python\ntraceback\n2\r\nt\n1\r\nu0\r\nContent-Type: a/b\n\n3\r\n]\r\n0\r\n]\r\n",
        b"inprogress a\nunset a %text/x-traceback;charset=utf8,language=python <traceback:t\nu\nunset a %a/b <:]\r\n\nfail a\n",
    ),
    (
        b"test: a\nfailure: a [ multipart\nContent-Type: x\nf\n2\r\nab2 x\n]\n",
        b"inprogress a\nunset a %x <f:ab\nunset <stdout:2 x\n\nfail a\n",
    ),
    (
        b"test: a\nfailure: a [ multipart\nContent-Type: x\nf\n\nContent-Type: \n]\n",
        b"inprogress a\nunset <stdout:\n\nunset <stdout:Content-Type: \n\nfail a\n",
    ),
    (
        b"test: a\nfailure: a [ multipart\nContent-Type: x\nf\n9\r\nabc\n",
        b"inprogress a\nunset a %x <f:abc\n\n",
    ),
    (
        b"test: a\nfailure: a [ multipart\nContent-Type: x\nf\n9\r\nabc",
        b"inprogress a\nunset a %x <f:abc\n",
    ),
    (
        b"test: a\nfailure: a [ multipart\nContent-Type: x\nf\nA\n0123456789a\n0123456789FFFFFFFF\nb",
        b"inprogress a\nunset a %x <f:01234567890123456789b\n",
    ),
    (
        b"test: a\nfailure: a [ multipart\nContent-Type: x\nf\n000000001\n]\n",
        b"inprogress a\nunset <stdout:000000001\n\nfail a\n",
    ),
    (
        b"test: a\nfailure: a [ multipart\nContent-Type: x\nf\n00\n]\n",
        b"inprogress a\nfail a\n",
    ),
    (
        b"test: a\nskip: a [ multipart\nContent-Type: x\n\xff\n1\nz0\n ]\n]\n",
        b"inprogress a\nunset a %x <reason:z\nunset <stdout: ]\n\nskip a\n",
    ),
    (
        b"test: a\nfailure: a [ multipart\nContent-Type: x\nf\n1\nz0",
        b"inprogress a\nunset a %x <f:z\n",
    ),
];

#[test]
fn lines_give_events(rt: HostRuntime) {
    for (place, row) in LINES.iter().enumerate() {
        assert!(rt; gives(rt.alloc(), row), "row {place}");
    }
}

#[test]
fn parts_give_events(rt: HostRuntime) {
    for (place, row) in PARTS.iter().enumerate() {
        assert!(rt; gives(rt.alloc(), row), "row {place}");
    }
}
