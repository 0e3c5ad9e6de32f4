//! Instants: dates and times of day in UTC, as text, both ways.
//!
//! - `instant`: the instant that a text tells.
//! - `instant_text`: the text of an instant.
//! - `digits`: numbers in digits.
//!
//! The calendar is the library's (`jiff`): it says which days a month has, and which day lies how many days behind 1970.
#![tactic(auto)]

mod digits;
mod instant;
mod instant_text;

pub use instant::{Instant, instant_of};
pub use instant_text::put_instant;
