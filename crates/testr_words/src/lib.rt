//! Which words are a command.
//!
//! The words behind `testr` or `stestr` are read into a `Command`, by docs/COMMANDS.md, "Words". This room knows the name, the options
//! and the names of each command, and what it asks for as a whole; it knows nothing of folders, files or programs, and
//! does nothing.
//!
//! For want of memory a public call answers `NoMemory`, which comes for nothing else.
//!
//! - `command`: what words may ask for
//! - `words`: the options and names of each verb
//! - `letters`: options of one letter
//! - `live_kind`: which lines are wanted of the tests of a run, while it goes on
//! - `values`: options with a value
//! - `project`: what is said of the project, and the words behind `--`
//! - `selftest_words`: the numbers of `selftest`
//! - `format`: for whom a report is printed
//! - `shard`: which shard of the tests is wanted
//!
//! Of a command its specs say the task: what is asked, as one sum.
#![tactic(auto)]

mod command;
mod format;
mod letters;
mod live_kind;
mod project;
mod selftest_words;
mod shard;
mod values;
mod words;

pub use command::{Command, Face, ProjectWords, Question, Verb};
pub use format::FormatKind;
pub use live_kind::LiveKind;
pub use selftest_words::{SelfTestWords, drawing_of};
pub use shard::{MOST_SHARDS, Shard};
pub use values::MOST_WORKERS;
pub use words::{MOST_FILES, face_named, read_command, read_command_as};
