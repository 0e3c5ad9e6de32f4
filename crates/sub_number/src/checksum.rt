//! zlib's CRC-32: a register of 32 bits, into which each byte goes by eight shifts.

ghost use Rattle.std.specs.Prelude.{◌≡◌, ◌<◌, ◌≤◌, ◌+◌, ◌++◌, [], List, ℕ, length, fold};
ghost use Rattle.sub_number.specs.Checksum.{shifted_times, crc_step, crc32, crc_register, inverted};

use crate::tables::SHIFTED;
use std::marker::Model;

// The byte after `8 * (table + 1)` shifts.
#[inline(always)]
fn shifted_byte(table: usize, byte: u32) -> u32
    requires few { table < 16 }
    requires small { byte < 256 }
    ensures { result ≡ shifted_times (table + 1) byte }
{
    SHIFTED[table][byte as usize]
}

// A byte at a time.
fn after_each(mut register: u32, bytes: &[u8]) -> u32
    ensures { result ≡ fold crc_step register bytes.now }
{
    for byte in bytes {
        let low = (register ^ u32::from(*byte)) % 256;
        register = shifted_byte(0, low) ^ (register >> 8);
    }
    register
}

// Four bytes, and then `8 * table` shifts: each byte is shifted alone, as far as those behind it shift it.
#[inline(always)]
fn after_four(table: usize, register: u32, bytes: &[u8]) -> u32
    requires few { table ≤ 12 }
    requires four { length bytes.now ≡ 4 }
    ensures { result ≡ shifted_times table (fold crc_step register bytes.now) }
{
    shifted_byte(table, ((register >> 24) ^ u32::from(bytes[3])) % 256)
        ^ shifted_byte(table + 1, ((register >> 16) ^ u32::from(bytes[2])) % 256)
        ^ shifted_byte(table + 2, ((register >> 8) ^ u32::from(bytes[1])) % 256)
        ^ shifted_byte(table + 3, (register ^ u32::from(bytes[0])) % 256)
}

// Eight bytes, and then `8 * table` shifts. The front goes through the back by shifts alone. What waits for the register
// stands last, so that the rest is done beside the turn before.
#[inline(always)]
fn after_eight(table: usize, register: u32, bytes: &[u8]) -> u32
    requires few { table ≤ 8 }
    requires eight { length bytes.now ≡ 8 }
    ensures { result ≡ shifted_times table (fold crc_step register bytes.now) }
{
    let (front, back) = bytes.split_at(4);
    after_four(table, 0, back) ^ after_four(table + 4, register, front)
}

// Sixteen bytes, by halves as well.
#[inline(always)]
fn after_sixteen(register: u32, bytes: &[u8]) -> u32
    requires sixteen { length bytes.now ≡ 16 }
    ensures { result ≡ fold crc_step register bytes.now }
{
    let (front, back) = bytes.split_at(8);
    after_eight(0, 0, back) ^ after_eight(8, register, front)
}

/// The register behind the bytes, where it was this one before them.
pub fn register_after(mut register: u32, bytes: &[u8]) -> u32
    ensures { result ≡ fold crc_step register bytes.now }
{
    let mut left = bytes;
    while let Some((sixteen, behind)) = left.split_first_chunk::<16>() {
        register = after_sixteen(register, sixteen);
        left = behind;
    }
    if let Some((eight, behind)) = left.split_first_chunk::<8>() {
        register = after_eight(0, register, eight);
        left = behind;
    }
    if let Some((four, behind)) = left.split_first_chunk::<4>() {
        register = after_four(0, register, four);
        left = behind;
    }
    after_each(register, left)
}

/// The checksum of the bytes, by zlib's CRC-32.
pub fn crc_of(bytes: &[u8]) -> u32
    ensures { result ≡ crc32 bytes.now }
{
    !register_after(u32::MAX, bytes)
}

/// A checksum, by zlib's CRC-32, of bytes that come in pieces. Contracts see it as the register behind the bytes that
/// were added.
#[derive(Clone, Copy, Debug)]
pub struct Crc {
    register: u32,
}

impl Model for Crc {
    ghost Value = { ℕ };

    ghost view = { λ c. c.register };

    ghost inverse = { λ n. record { register = n } };
}

impl Crc {
    /// The checksum of no bytes yet.
    pub fn new() -> Self
        ensures { result ≡ crc_register [] }
    {
        Crc { register: u32::MAX }
    }

    /// Adds the bytes behind those that were added before.
    pub fn add(&mut self, bytes: &[u8])
        ensures { (added : List ℕ) → self.old ≡ crc_register added → self.new ≡ crc_register (added ++ bytes.now) }
    {
        self.register = register_after(self.register, bytes);
    }

    /// The checksum of all the bytes that were added, in order. More may be added after it.
    pub fn value(&self) -> u32
        ensures { (added : List ℕ) → self.now ≡ crc_register added → result ≡ crc32 added }
    {
        !self.register
    }
}
