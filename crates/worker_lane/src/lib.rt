//! What a stream becomes when it is recorded under a lane.
//!
//! This room knows what one worker's output becomes, and nothing of other workers. The rule stands in docs/FORMATS.md,
//! "What is recorded of a stream".
//!
//! For want of memory a public call answers `NoMemory`, which comes for nothing else; what it was lent is then as
//! before, where it does not say otherwise.
//!
//! - `scribe`: the bytes fed, and the packets that are recorded of them
//! - `waiting_note`: what is still to be given of a note
//! - `stdout`: bytes as a packet
//! - `whole_stream`: all packets of a stream
//! - `laws`: what holds of all that is recorded
//! - `lane_laws`: what holds of several streams that are recorded, each under its lane
//! - `lane`, `turn`: one worker process, read under its number, and what one turn of it comes to
//! - `lane_state`, `lane_stage`, `child_end`: what is kept of a lane beside its child, how far it has come, and the child's end
//! - `unheard_ids`: the ids of a lane's job of which nothing was heard yet
//! - `end_inside_packet`: the event that tells that a stream ends inside a packet
//! - `lot`, `end_packet`, `lost_test`: what a lane gives, the packet that tells of its end, and the event of a test that was lost
#![tactic(auto)]

mod child_end;
mod end_inside_packet;
mod end_packet;
mod lane;
mod lane_laws;
mod lane_stage;
mod lane_state;
mod laws;
mod lost_test;
mod lot;
mod scribe;
mod stdout;
mod turn;
mod unheard_ids;
mod waiting_note;
mod whole_stream;

pub use lane::Lane;
pub use lane_laws::recorded_lanes;
pub use laws::{lots_in_turn, recorded_streams, recording_in_turn, tests_that_are_lost};
pub use lot::{Ending, Lot};
pub use scribe::Scribe;
pub use turn::Turn;
pub use unheard_ids::LONGEST_ID;
pub use whole_stream::{recorded_of_pieces, take_packets};
