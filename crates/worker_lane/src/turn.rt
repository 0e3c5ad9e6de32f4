//! What one turn of a lane comes to.

use crate::lot::Lot;

/// What one turn of a lane comes to.
#[derive(Drop)]
pub enum Turn {
    /// This lot was given.
    Given(Lot),
    /// The child was read once, and no lot was given.
    Read,
    /// The end was given before.
    Past,
}
