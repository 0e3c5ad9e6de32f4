//! One file of a folder of the original tool: the events that it tells, and whether it is damaged.
//!
//! The rules stand in docs/FORMATS.md, "Folders of another program". This room knows bytes, and nothing of folders. A file
//! is read piece by piece, and each event is handed on as its packet in shortest spelling, without a lane.
//!
//! - `file`: a file of either kind
//! - `failing_tests`: the tests that fail in a file
//! - `lines`, `heard_lines`, `line_place`: lines of version 1, what they give, and where they stand
//! - `stream`: a stream of packets
//! - `packets`: events as packets
//! - `laws`: what holds of all files
#![tactic(auto)]

mod failing_tests;
mod file;
mod heard_lines;
mod laws;
mod line_place;
mod lines;
mod packets;
mod stream;

pub use failing_tests::OldFailing;
pub use file::OldFile;
pub use laws::old_files;
