//! What a worker's lane gives, one after another.

use sub_number::Bytes;

/// How a worker ended.
#[derive(Clone, Copy, Debug, PartialEq, Eq)]
pub enum Ending {
    /// It ended by itself, with this status.
    Exit(i32),
    /// A read of its output failed, or the wait for its end.
    Fault,
    /// There was no memory to record its output. It was stopped.
    NoMemory,
}

/// What a lane gives: recorded packets, and then how the worker ended.
#[derive(Drop)]
pub enum Lot {
    /// Recorded packets of this lane.
    Packet(Bytes),
    /// Nothing comes after it.
    End(Ending),
}
