//! Patterns by which tests are wanted, or not.

use partition_times::Filters;

/// Patterns of two kinds.
#[derive(Drop)]
pub struct Picks {
    /// Ids in which one of these is found are wanted, and all where there is none of these.
    pub including: Filters,
    /// Of those, ids in which one of these is found are not wanted.
    pub excluding: Filters,
}

/// Further patterns of both kinds, of each the list that was named, where one was.
#[derive(Drop)]
pub struct FurtherPicks {
    /// Those that stand behind the including ones.
    pub including: Option<Filters>,
    /// Those that stand behind the excluding ones.
    pub excluding: Option<Filters>,
}
