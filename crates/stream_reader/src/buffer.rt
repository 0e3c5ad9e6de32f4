//! The bytes held, in room that is taken once.

ghost use Rattle.std.specs.Prelude.{◌≡◌, ◌≤◌, ◌+◌, ◌-◌, ◌++◌, [], length, take, drop, slice_range, IfOk};
ghost use Rattle.sub_number.specs.Checksum.{crc32};
ghost use Rattle.packet_codec.specs.Header.{LooksLike};
ghost use Rattle.packet_codec.specs.Shapes.{HeaderStands};
ghost use Rattle.stream_reader.specs.Room.{reader_room};

use crc_parts::Prefixes;
use packet_codec::{Front, Header, Heading, head_of, look_at_front_by};
use std::alloc::Global;
use std::marker::Model;
use sub_number::{NoMemory, crc_of};

/// The most bytes that a reader holds.
pub const ROOM: usize = 4_325_376;

/// The most bytes that a reader holds where no further note is told before the end: 65,535 foreign bytes, and then all
/// but one of the bytes of the longest packet.
pub const MOST_HELD: usize = 4_259_837;

// The bytes are moved to the front a block at a time, so that registers stay where they are among them.
const BLOCK: usize = 64;

// Memory for so many bytes is taken: for those held, for less than a block in front of them, and for a mebibyte more.
// So bytes that stay are moved only once as many were let go of, or a mebibyte.
const CAPACITY: usize = 5_373_952;

// The bytes of a checksum.
const CHECKSUM: usize = 4;

// The checksum of at most so many bytes is reckoned from the bytes themselves.
const SHORT: usize = 512;

/// Bytes that are appended at the end and let go of at the front. Contracts see the bytes held.
///
/// Memory that was not written yet costs nothing. So what is held comes back to the front as often as at most half of
/// what was written is held: a stream of short packets stays within a few pages.
///
/// The registers of their checksum are kept along them, from the first long candidate for a packet on. So of candidates
/// that nest in one another each costs a few steps, whatever length it claims.
#[derive(Drop)]
pub(crate) struct Buffer {
    bytes: Vec<u8>,
    // So many bytes at the front were let go of.
    given: usize,
    // The registers along the first of the bytes.
    prefixes: Prefixes,
}

impl Model for Buffer {
    ghost use Rattle.std.specs.Prelude.{List, ℕ, ◌≤◌, ◌+◌, length, take, drop};
    ghost use Rattle.std.specs.Vec.{vec_capacity};
    ghost use Rattle.crc_parts.specs.Prefixes.{HasPrefixes};

    ghost Value = { List ℕ };

    ghost view = { λ b. drop b.given b.bytes.items };

    ghost invariant = { λ b. (b.given ≤ length b.bytes.items) × (5373952 ≤ vec_capacity b.bytes) × (length b.bytes.items ≤ 5373952) × (b.prefixes.count ≤ length b.bytes.items) × HasPrefixes b.prefixes (take b.prefixes.count b.bytes.items) × (length b.bytes.items ≤ b.given + 4325376) };
}

impl Buffer {
    /// No bytes, and room for all that will ever be held.
    pub(crate) fn new(alloc: Global) -> Result<Self, NoMemory>
        ensures { IfOk result (λ buffer. buffer ≡ []) }
    {
        let bytes = Vec::with_capacity(alloc, CAPACITY)?;
        let prefixes = Prefixes::new(alloc)?;
        Ok(Buffer {
            bytes,
            given: 0,
            prefixes,
        })
    }

    /// How many bytes are held.
    pub(crate) fn len(&self) -> usize
        ensures len { result ≡ length self.now }
        ensures in_room { result ≤ reader_room }
    {
        self.bytes.len() - self.given
    }

    /// The bytes held.
    pub(crate) fn held(&self) -> &[u8]
        ensures { result.now ≡ self.now }
    {
        &self.bytes[self.given..]
    }

    /// More bytes, behind those held.
    pub(crate) fn append(&mut self, piece: &[u8])
        requires { length self.old + length piece.now ≤ reader_room }
        ensures { self.new ≡ self.old ++ piece.now }
    {
        if self.given < self.len() && self.bytes.len() + piece.len() <= CAPACITY {
            self.bytes.extend_from_slice(piece).unwrap();
        } else {
            let blocks = self.given / BLOCK;
            let gone = BLOCK * blocks;
            self.bytes.copy_within(gone.., 0);
            self.bytes.truncate(self.bytes.len() - gone);
            self.prefixes.let_go(blocks);
            self.given -= gone;
            self.bytes.extend_from_slice(piece).unwrap();
        }
    }

    /// Lets go of so many bytes.
    pub(crate) fn let_pass(&mut self, size: usize)
        requires { size ≤ length self.old }
        ensures { self.new ≡ drop size self.old }
    {
        self.given += size;
    }

    /// What stands at a place among the bytes held.
    pub(crate) fn look_at(&mut self, place: usize) -> Front
        requires { place ≤ length self.old }
        ensures same { self.new ≡ self.old }
        ensures looks { LooksLike (drop place self.old) result }
    {
        match head_of(&self.held()[place..]) {
            Heading::Whole(header) => {
                let sum = self.sum_at(place, place + (header.size - CHECKSUM));
                look_at_front_by(header, &self.held()[place..], sum)
            }
            Heading::More => Front::More,
            Heading::No => Front::No,
        }
    }

    /// The checksum that a packet with this header at the front would end with. As many bytes are held as it tells of.
    pub(crate) fn front_sum(&mut self, header: Header) -> u32
        requires stands { HeaderStands self.old header }
        requires size { header.size ≤ length self.old }
        ensures same { self.new ≡ self.old }
        ensures sum { result ≡ crc32 (take (header.size - 4) self.old) }
    {
        self.sum_at(0, header.size - CHECKSUM)
    }

    // The checksum of a part of the bytes held.
    fn sum_at(&mut self, from: usize, to: usize) -> u32
        requires order { from ≤ to }
        requires in_range { to ≤ length self.old }
        ensures same { self.new ≡ self.old }
        ensures sum { result ≡ crc32 (slice_range self.old from to) }
    {
        if to - from <= SHORT {
            return crc_of(&self.held()[from..to]);
        }
        let along = self.prefixes.count();
        self.prefixes.feed(&self.bytes[along..]);
        self.prefixes
            .crc_between(&self.bytes, self.given + from, self.given + to)
    }
}
