//! What clauses see of the belt and of its passes.

use std::collections::LinkedList;
use worker_lane::Lot;

/// A lot, and the lane whose pass put it.
#[derive(Drop)]
pub struct Parcel {
    pub lane: u32,
    pub lot: Lot,
}

/// A lane whose pass is spent, and all that it has put. No value of it is made.
#[derive(Drop)]
pub struct Settled {
    pub lane: u32,
    pub list: LinkedList<Lot>,
}

/// What a pass of the belt's queue knows. No value of it is made.
#[derive(Drop)]
pub enum Knowledge {
    /// Nothing any more.
    Spent,
    /// A lane, and the lots that were put of it.
    Lane(u32, LinkedList<Lot>),
    /// How many lanes there are, what was taken, and which lanes are settled, the last one first.
    Taker(u32, LinkedList<Parcel>, LinkedList<Settled>),
}
