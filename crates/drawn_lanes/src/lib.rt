//! What workers print whose tests are drawn from a seed.
//!
//! This room knows made-up tests and the packets that tell of them; it knows nothing of how workers are read. The rule
//! stands in docs/FORMATS.md, "Generated outputs".
//!
//! For want of memory a public call answers `NoMemory`, which comes for nothing else; what it was lent is then as
//! before, where it does not say otherwise.
//!
//! - `draws`: numbers drawn from a seed
//! - `packets`: the packets of a test for which a number was drawn
//! - `lanes`: what each lane's worker prints
//! - `laws`: what holds of the events of all lanes
#![tactic(auto)]

mod draws;
mod lanes;
mod laws;
mod packets;

pub use draws::Draws;
pub use lanes::drawn_plans;
pub use laws::drawn_events_have_packets;
