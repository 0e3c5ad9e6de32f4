//! Which events of a stream a filter lets through, and what tags it gives them.
//!
//! The rules stand in docs/FORMATS.md under "subunit-filter" and "subunit-tags". `specs/` states them of tests, of single
//! events, and of whole lists of events. What speaks of a test is held from the first event of the test until one completes
//! it, as events or as the bytes of their packets.
//!
//! For want of memory a public call answers `NoMemory`, which comes for nothing else; what it was lent is then as
//! before, where it does not say otherwise.
//!
//! - `rules`, `predicate`: which tests are kept, and what says so of one after another
//! - `part`, `open_events`: the events of the open tests
//! - `part_row`: the row of some events of a test
//! - `sift`: what is released as events come, and at the end
//! - `held_packets`: the packets of the open tests
//! - `packet_sift`: what is released as packets come, and at the end
//! - `filtered_list`: what is released of a whole list of events
//! - `tagger`: the tags of an event; `lent_tags`: lists of tags that are lent
#![tactic(auto)]

mod filtered_list;
mod held_packets;
mod lent_tags;
mod open_events;
mod packet_sift;
mod part;
mod part_row;
mod predicate;
mod rules;
mod sift;
mod tagger;

pub use filtered_list::filtered_events;
pub use packet_sift::PacketSift;
pub use part::Part;
pub use predicate::Predicate;
pub use rules::{ByRules, Rules, keeps_row};
pub use sift::Sift;
pub use tagger::Tagger;
