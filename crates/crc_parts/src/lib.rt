//! Checksums of parts of a stream, each told from a few registers that were kept, without another walk over the part.
//!
//! This room knows zlib's CRC-32 of bytes that stand among others, and nothing of packets. The register goes through
//! bytes linearly: so the checksum of a part follows from the registers before it and behind it, and from its length.
//!
//! For want of memory a public call answers `NoMemory`, which comes for nothing else; what it was lent is then as
//! before, where it does not say otherwise.
//!
//! - `prefixes`: the registers along bytes that come in pieces, one every 64 bytes
//! - `part`: the checksum of a part from two registers, by products of polynomials
//! - `powers`: the table for these products
//! - `laws`: that the register is linear
//!
//! Its tests stand in a room above it, `packet_rows`.
#![tactic(auto)]

mod laws;
mod part;
mod powers;
mod prefixes;

pub use laws::registers_are_linear;
pub use part::part_crc;
pub use prefixes::Prefixes;
