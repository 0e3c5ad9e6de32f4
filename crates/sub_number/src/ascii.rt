//! Whether bytes are ASCII without NUL, as most texts are.

ghost use Rattle.std.specs.Prelude.{◌+◌, ◌<◌, ◌≤◌, length, All, IsTrue};
ghost use Rattle.sub_number.specs.Texts.{IsPlain, ArePlain};

use std::simd::prelude::*;

// N bytes in one step. Less one, a byte of them is below 127.
#[inline(always)]
fn lanes_are_plain<const N: usize>(bytes: &[u8], start: usize) -> bool
    requires some { 0 < N }
    requires few { N ≤ 64 }
    requires room { start + N ≤ length bytes.now }
    ensures { IsTrue result → ArePlain bytes.now start (start + N) }
{
    let lowered = Simd::<u8, N>::from_slice(&bytes[start..]) - Simd::splat(1);
    !lowered.simd_ge(Simd::splat(127)).any()
}

// The last step goes over some bytes again.
#[inline(always)]
fn are_plain_by_sixteen(bytes: &[u8]) -> bool
    requires { 16 ≤ length bytes.now }
    ensures { IsTrue result → ArePlain bytes.now 0 (length bytes.now) }
{
    let last = bytes.len() - 16;
    let mut start = 0;
    while start < last {
        if !lanes_are_plain::<16>(bytes, start) {
            return false;
        }
        start += 16;
    }
    lanes_are_plain::<16>(bytes, last)
}

// One after the other.
#[inline(always)]
fn are_plain_by_one(bytes: &[u8]) -> bool
    ensures { IsTrue result → ArePlain bytes.now 0 (length bytes.now) }
{
    for byte in bytes {
        if *byte == 0 || *byte >= 128 {
            return false;
        }
    }
    true
}

/// Whether the bytes are ASCII without NUL: by steps of as many bytes as there are at least, of which two may go over the
/// same bytes.
#[inline(always)]
pub fn are_plain(bytes: &[u8]) -> bool
    ensures { IsTrue result → All IsPlain bytes.now }
{
    let len = bytes.len();
    if len >= 16 {
        are_plain_by_sixteen(bytes)
    } else if len >= 8 {
        lanes_are_plain::<8>(bytes, 0) & lanes_are_plain::<8>(bytes, len - 8)
    } else if len >= 4 {
        lanes_are_plain::<4>(bytes, 0) & lanes_are_plain::<4>(bytes, len - 4)
    } else {
        are_plain_by_one(bytes)
    }
}
