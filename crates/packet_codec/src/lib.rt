//! Packets of Subunit version 2, as its README spells them: one event as plain values, and the bytes that spell it.
//!
//! This room knows one packet, both ways, and nothing of streams or files. A spelling may use any width of number; the
//! shortest one is the canonical one, which is what is written.
//!
//! For want of memory a public call answers `NoMemory`, which comes for nothing else; what it was lent is then as
//! before, where it does not say otherwise.
//!
//! - `event`, `stamp`, `status`, `tags`: an event and its parts
//! - `front_reader`, `front`: whether some bytes begin with a packet, and what their front is
//! - `packet`: a packet of which all is tested; it stands on `header` and `parts`, which read from the front
//! - `decoder`: the event of a packet
//! - `fields`: the fields of a packet, each on its own
//! - `standing_packet`: the event of a packet that is known to stand at the front of some bytes
//! - `sizes`, `encoder`: the shortest spelling and its size
//! - `lane_route`: an event under a lane's route
//! - `piece`: a piece of a file as a packet under a lane's route
//! - `respelled_packet`: a packet written from its parts, as it is or with a `event_change`; it stands on `respelled_size` and
//!   `respelled_bytes`
//! - `halves`: the two halves of a packet's event, each written under a lane's route
//! - `laws`, `canonical_law`: what holds of all spellings
//! - `lane_laws`, `half_laws`: what holds of all events under lanes, and of their halves
#![tactic(auto)]

mod canonical_law;
mod decoder;
mod encoder;
mod event;
mod event_change;
mod fields;
mod front;
mod front_reader;
mod half_laws;
mod halves;
mod header;
mod lane_laws;
mod lane_route;
mod laws;
mod packet;
mod parts;
mod piece;
mod respelled_bytes;
mod respelled_packet;
mod respelled_size;
mod sizes;
mod stamp;
mod standing_packet;
mod status;
mod tags;

pub use canonical_law::canonical_is_shortest;
pub use decoder::decode;
pub use encoder::encode;
pub use event::{Event, FilePart};
pub use front::Front;
pub use front_reader::{
    Heading, Sight, head_of, look_at_front, look_at_front_by, see_front, see_front_by,
};
pub use half_laws::halves_fit;
pub use header::{Header, SIGNATURE};
pub use lane_laws::lanes_are_apart;
pub use lane_route::reroute;
pub use laws::{are_bytes, fronts_are_one, packets_are_one_event};
pub use packet::{Packet, known_packet};
pub use piece::put_piece_under;
pub use sizes::{fits, routed_size, size};
pub use stamp::Stamp;
pub use standing_packet::front_packet;
pub use status::Status;
pub use tags::Tags;
