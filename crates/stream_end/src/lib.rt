//! Whether a stream ends inside a packet.
//!
//! This room knows what the last bytes of a stream may be, and nothing of what is made of that. The rule stands in
//! docs/FORMATS.md, "A stream that ends inside a packet". It takes no memory.
//!
//! - `character`: the character that foreign bytes leave open, which a reader's user keeps along the notes
//! - `inside`: the test, over the bytes of a whole stream or over those that a reader still holds at its end
//! - `laws`: what holds of all streams
#![tactic(auto)]

mod character;
mod inside;
mod laws;

pub use character::OpenCharacter;
pub use inside::ends_inside;
pub use laws::streams_that_end_inside;
