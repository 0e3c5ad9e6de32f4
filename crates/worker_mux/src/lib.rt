//! The belt: a bounded queue of lots between the threads that read workers and the one that records.
//!
//! This room knows threads, that each lane stays whole, and that a lot is whole packets; it knows nothing of what is in a
//! packet. Of each lane one thread puts lots by that lane's pass. One thread takes them by the taker. In any schedule, at
//! each step, the lots that were taken of a lane and then those on the belt, from front to back, are the lots that its pass
//! has put.
//!
//! For want of memory a public call answers `NoMemory`, which comes for nothing else; what it was lent is then as
//! before, where it does not say otherwise. What it did outside by then stands.
//!
//! - `belt`: the queue, and its calls
//! - `belt_passes`: who puts and who takes
//! - `knowledge`: what clauses see of both; no value of it is made
//! - `rule`: the steps of the belt, which keep its rule
//! - `laws`: what the rule says of each step, and what is recorded of children that tell their output
//! - `run`: all lanes, each read on a thread of its own, and recorded by the one that called
//! - `listener`: who hears what is added, and what that keeps at each exit
//! - `work`: the work of a lane; `caller`, `run_appender`: the part of the one that records; `lane_threads`: a thread for each lane
//! - `belt_wait`: waiting for a move of the belt
#![tactic(auto)]

mod belt;
mod belt_passes;
mod belt_wait;
mod caller;
mod knowledge;
mod lane_threads;
mod laws;
mod listener;
mod rule;
mod run;
mod run_appender;
mod work;

pub use belt::Belt;
pub use belt_passes::{LanePass, Taker};
pub use knowledge::{Knowledge, Parcel, Settled};
pub use laws::{lanes_stay_whole, outputs_are_merged};
pub use listener::Listener;
pub use run::{run_lanes, run_lanes_heard};
