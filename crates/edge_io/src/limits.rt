// How much is read of an input, at once and in all.

/// How many bytes an input may have at most: 2^60.
pub const MOST_BYTES: usize = 1 << 60;

/// How many bytes a read asks for.
pub const PIECE: usize = 65_536;
