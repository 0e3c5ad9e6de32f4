//! The registers along bytes that come in pieces, kept every so many bytes.

ghost use Rattle.std.specs.Prelude.{◌≡◌, ◌<◌, ◌≤◌, ◌+◌, ◌*◌, ◌%◌, ◌++◌, [], List, ℕ, length, take, drop, slice_range, IfOk};
ghost use Rattle.sub_number.specs.Checksum.{crc32, crc_register};
ghost use Rattle.crc_parts.specs.Prefixes.{stride, prefix_room, AreAlong, HasPrefixes};

use crate::part::part_crc;
use std::alloc::Global;
use std::marker::Model;
use sub_number::{NoMemory, crc_of, register_after};

// So many bytes stand from one mark to the next.
const STRIDE: usize = 64;

// The most bytes that there is room for.
const ROOM: usize = 5_373_952;

// The marks of so many bytes.
const MARKS: usize = 83_969;

// A part of at most so many bytes is gone through.
const SHORT: usize = 512;

/// The registers along bytes that come in pieces, so that the checksum of any part of them is told in a few steps.
/// The bytes themselves are kept by the caller. There is room for 5,373,952 bytes.
#[derive(Drop)]
pub struct Prefixes {
    // The register at every 64th place, and zeros behind them.
    marks: Vec<u32>,
    count: usize,
    last: u32,
}

impl Model for Prefixes {
    ghost use Rattle.std.specs.Prelude.{◌≡◌, ◌≤◌, length};
    ghost use Rattle.crc_parts.specs.Prefixes.{prefix_room, KeptRegisters};

    ghost Value = { KeptRegisters };

    ghost view = { λ p. record { count = p.count; last = p.last; marks = p.marks.items } };

    ghost invariant = { λ p. (length p.marks.items ≡ 83969) × (p.count ≤ prefix_room) };
}

impl Prefixes {
    /// Of no bytes yet.
    pub fn new(alloc: Global) -> Result<Self, NoMemory>
        ensures { IfOk result (λ prefixes. HasPrefixes prefixes []) }
    {
        let mut marks = vec![in alloc; 0u32; MARKS]?;
        marks[0] = u32::MAX;
        Ok(Prefixes {
            marks,
            count: 0,
            last: u32::MAX,
        })
    }

    /// How many bytes there are.
    pub fn count(&self) -> usize
        ensures { result ≡ self.now.count }
    {
        self.count
    }

    /// The next bytes.
    pub fn feed(&mut self, piece: &[u8])
        requires { self.old.count + length piece.now ≤ prefix_room }
        ensures { (bytes : List ℕ) → HasPrefixes self.old bytes → HasPrefixes self.new (bytes ++ piece.now) }
    {
        let mut left = piece;
        while !left.is_empty() {
            let size = left.len().min(STRIDE - self.count % STRIDE);
            let (next, behind) = left.split_at(size);
            self.feed_part(next);
            left = behind;
        }
    }

    // The next bytes, up to the next mark at most.
    fn feed_part(&mut self, part: &[u8])
        requires in_room { self.old.count + length part.now ≤ prefix_room }
        requires short { self.old.count % stride + length part.now ≤ stride }
        ensures along { (before bytes : List ℕ) → AreAlong self.old before bytes → AreAlong self.new before (bytes ++ part.now) }
        ensures count { self.new.count ≡ self.old.count + length part.now }
    {
        self.last = register_after(self.last, part);
        self.count += part.len();
        if self.count % STRIDE == 0 {
            self.marks[self.count / STRIDE] = self.last;
        }
    }

    /// Lets the first bytes go, 64 for each block. Where there are no more bytes than that, none are left.
    pub fn let_go(&mut self, blocks: usize)
        ensures { (bytes : List ℕ) → HasPrefixes self.old bytes → HasPrefixes self.new (drop (stride * blocks) bytes) }
    {
        if self.count / STRIDE < blocks {
            self.restart();
        } else {
            self.drop_blocks(blocks);
        }
    }

    // Lets all bytes go.
    fn restart(&mut self)
        ensures { HasPrefixes self.new [] }
    {
        self.marks[0] = u32::MAX;
        self.count = 0;
        self.last = u32::MAX;
    }

    // Lets the bytes of so many blocks go, which are there.
    fn drop_blocks(&mut self, blocks: usize)
        requires { stride * blocks ≤ self.old.count }
        ensures { (bytes : List ℕ) → HasPrefixes self.old bytes → HasPrefixes self.new (drop (stride * blocks) bytes) }
    {
        let used = self.count / STRIDE + 1;
        self.marks.copy_within(blocks..used, 0);
        self.count -= STRIDE * blocks;
    }

    // The register at a place among the bytes.
    fn register_at(&self, bytes: &[u8], place: usize) -> u32
        requires in_range { place ≤ length bytes.now }
        requires along { HasPrefixes self.now bytes.now }
        ensures { (before : List ℕ) → AreAlong self.now before bytes.now → result ≡ crc_register (before ++ take place bytes.now) }
    {
        let mark = place / STRIDE;
        register_after(self.marks[mark], &bytes[mark * STRIDE..place])
    }

    /// The checksum of a part of the bytes, by zlib's CRC-32. Of a long part few bytes are gone through.
    pub fn crc_between(&self, bytes: &[u8], from: usize, to: usize) -> u32
        requires order { from ≤ to }
        requires in_range { to ≤ length bytes.now }
        requires along { HasPrefixes self.now bytes.now }
        ensures { result ≡ crc32 (slice_range bytes.now from to) }
    {
        if to - from <= SHORT {
            return crc_of(&bytes[from..to]);
        }
        let front = self.register_at(bytes, from);
        let whole = self.register_at(bytes, to);
        part_crc(front, whole, to - from)
    }
}
