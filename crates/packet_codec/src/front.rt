//! What the front of some bytes is.

/// What a reader of a stream has in front of it.
#[derive(Clone, Copy, Debug, PartialEq, Eq)]
pub enum Front {
    /// A packet of this many bytes.
    Packet(usize),
    /// More bytes are asked for: the front of a header stands there, or a header whose packet would be longer than the
    /// bytes at hand. Whether a packet can still come of it is not told.
    More,
    /// No packet, whatever follows.
    No,
}
