//! The lines of the tests of a run, as they complete, and the totals behind them.
//!
//! What is printed is defined in docs/COMMANDS.md under "Live lines" and "subunit-trace". Nothing here knows where the
//! lines go, or where the rows come from.
//!
//! For want of memory a public call answers `NoMemory`; a count that has no room for a row more is told so, too.
//!
//! - `live`: the lines of one row, of each kind
//! - `totals`: how many tests ended in each way, and how many tests each lane had
//! - `writer`: the lines of rows one after another
//! - `laws`: what is printed of events grows with them
#![tactic(auto)]

mod laws;
mod live;
mod totals;
mod writer;

pub use laws::live_text_grows;
pub use live::{Live, live_line};
pub use totals::Totals;
pub use writer::LiveWriter;
