// Files that are read whole.

/// The most bytes of a configuration, a list of ids and the processor table.
pub const MOST_TEXT: usize = 16_777_216;
