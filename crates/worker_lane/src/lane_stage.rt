//! How far a lane has come.

use crate::lot::Ending;

/// How far a lane has come.
#[derive(Clone, Copy)]
pub(crate) enum Stage {
    /// Its child is read.
    Reading,
    /// The output has ended, and what is recorded of it is still to be given.
    Closing(Ending),
    /// Only the end is left.
    Last(Ending),
    /// The end was given.
    Over,
}
