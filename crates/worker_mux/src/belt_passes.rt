//! Who puts lots on the belt, and who takes them.

use crate::knowledge::{Knowledge, Parcel};
use crossbeam_queue::Pass;

/// The right to put lots of one lane. Contracts see its number, and the list of lots that it has put, which only steps of
/// the belt's queue change.
#[derive(Drop)]
pub struct LanePass {
    pub(crate) number: u32,
    pub(crate) pass: Pass<Parcel, Knowledge>,
}

/// The right to take lots. Contracts see what it has taken, each lot with its lane, and the table of settled lanes with
/// their lists, which only steps of the belt's queue change.
#[derive(Drop)]
pub struct Taker {
    pub(crate) pass: Pass<Parcel, Knowledge>,
}
