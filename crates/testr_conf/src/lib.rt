//! The `.testr.conf` or `.stestr.conf` of a project, and the jobs that it asks for.
//!
//! For want of memory a public call answers `NoMemory`, which comes for nothing else; what it was lent is then as
//! before, where it does not say otherwise.
//!
//! - `conf`: the configuration, read from a text, and its jobs, on instances where there are some.
//! - `fault`: why no configuration was read, and why no job was made.
//! - `stestr`: what a `.stestr.conf` says.
//! - `line`: one line of the text.
//! - `line_reader`: the lines one after another.
//! - `name`, `found_values`: the keys that are used, and the values found for them.
//! - `value`: the values that the keys of stestr may have.
//! - `variable`: the variables of the settings, and what stands in their place.
//! - `job`: the parts of a job.
//! - `white_space`: white space, and the words between it.
//! - `ids`: lists of ids and of patterns in a file.
//!
//! What `specs/` says is the plain meaning: a configuration is a function of its text, and each job one of the settings.
#![tactic(auto)]

mod conf;
mod fault;
mod found_values;
mod ids;
mod job;
mod line;
mod line_reader;
mod name;
mod stestr;
mod value;
mod variable;
mod white_space;

pub use conf::Conf;
pub use fault::{ConfFault, JobFault, Key};
pub use ids::{IdsFault, line_of_pattern, read_ids, read_patterns};
pub use job::id_lines;
pub use stestr::StestrValues;
pub use value::is_path;
pub use white_space::{read_words, trim};
