//! The two names of a test.

ghost use Rattle.std.specs.Prelude.{◌≡◌, ◌<◌, length};
ghost use Rattle.junit_xml.specs.Documents as spec;

use memchr::{memchr2, memrchr};

// What stands in front of parameters.
fn front_of(id: &[u8]) -> &[u8]
    ensures { result.now ≡ spec.front_of id.now }
{
    match memchr2(b'(', b'[', id) {
        Some(place) => &id[..place],
        None => id,
    }
}

// How many bytes the class has.
fn class_size(id: &[u8]) -> usize
    ensures size { result ≡ spec.class_size id.now }
    ensures within { 0 < result → result < length id.now }
{
    match memrchr(b'.', front_of(id)) {
        Some(place) => place,
        None => 0,
    }
}

/// The class and the name of the test of this id.
pub(crate) fn names_of(id: &[u8]) -> (&[u8], &[u8])
    ensures class { result.0.now ≡ spec.class_of id.now }
    ensures name { result.1.now ≡ spec.case_name id.now }
{
    let size = class_size(id);
    if size == 0 {
        (b"".as_slice(), id)
    } else {
        (&id[..size], &id[size + 1..])
    }
}
