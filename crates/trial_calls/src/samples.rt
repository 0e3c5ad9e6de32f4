//! Streams, runs, reports and lines that the tests of several commands share.

use std::alloc::Global;
use std::test::Fail;

/// Nothing.
pub const NOTHING: &[u8] = b"";

/// `foo` passed, as it comes.
pub const FOO: &[u8] = b"\xb3\x29\x03\x0c\x03foo\x45\x9d\xfe\x10";

/// `foo` passed, as it is kept under lane 0.
pub const FOO_KEPT: &[u8] = b"\xb3\x2d\x03\x0e\x03foo\x01\x30\xa4\xaf\xdb\xe0";

/// `foo` failed, as it comes.
pub const FAIL: &[u8] = b"\xb3\x29\x06\x0c\x03foo\x15\x50\x6f\xa3";

/// `foo` failed, as it is kept under lane 0.
pub const FAIL_KEPT: &[u8] = b"\xb3\x2d\x06\x0e\x03foo\x01\x30\xec\x4f\xd5\x84";

/// The report of one test that passed in run 0.
pub const PASSED_AS_0: &[u8] = b"Ran 1 tests\nPASSED (id=0)\n";

/// The report of one test that passed in run 1.
pub const PASSED_AS_1: &[u8] = b"Ran 1 tests\nPASSED (id=1)\n";

/// The line of a folder that failed.
pub const SHELF_FAULT: &[u8] = b"testr: fault of the repository folder\n";

/// The line of words that are no command.
pub const WRONG_USAGE: &[u8] = b"testr: wrong usage\n";

/// A packet of the largest size: what stands before a byte that comes again and again, that byte, and the checksum.
pub fn largest_packet(alloc: Global, front: &[u8], byte: u8, sum: &[u8]) -> Result<Vec<u8>, Fail> {
    let mut packet = Vec::new(alloc);
    packet.extend_from_slice(front)?;
    packet.resize(4_194_299, byte)?;
    packet.extend_from_slice(sum)?;
    Ok(packet)
}

/// `foo` passed, with a file `log` of 4,194,282 zeros, in a packet of the largest size. The checksum is the one that zlib
/// gives for it.
pub fn long_log(alloc: Global) -> Result<Vec<u8>, Fail> {
    let front = b"\xb3\x29\x43\xbf\xff\xff\x03foo\x03log\xbf\xff\xea";
    largest_packet(alloc, front, 0, b"\xe4\xf4\x45\xc1")
}
