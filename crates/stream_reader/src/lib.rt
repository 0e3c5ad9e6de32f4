//! A stream cut into notes, in whatever pieces it comes.
//!
//! This room knows where packets stand in a stream, and nothing of where the stream comes from. What is no packet is
//! kept as foreign bytes. The rule stands in docs/FORMATS.md, "Streams".
//!
//! For want of memory a public call answers `NoMemory`, which comes for nothing else; what it was lent is then as
//! before, where it does not say otherwise.
//!
//! - `note`: an event, or foreign bytes
//! - `reader`: the bytes fed, and the notes that they decide; it stands on `buffer`, the bytes held
//! - `first_note`: what the first note is made of, before it is let go of
//! - `foreign_bytes`: the foreign bytes at the front of what is held
//! - `whole_stream`: the notes of a whole stream
//! - `laws`: what holds of the notes of all streams
#![tactic(auto)]

mod buffer;
mod first_note;
mod foreign_bytes;
mod laws;
mod note;
mod reader;
mod whole_stream;

pub use buffer::{MOST_HELD, ROOM};
pub use first_note::{First, Seen};
pub use laws::{notes_in_turn, notes_of_streams};
pub use note::{Note, stdout_event};
pub use reader::Reader;
pub use whole_stream::notes_of_pieces;
