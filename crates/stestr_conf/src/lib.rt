//! A configuration of stestr: what the table of a `pyproject.toml` says, and the settings that its values stand for.
//!
//! For want of memory a public call answers `NoMemory`, which comes for nothing else but a command of 2^30 bytes and more.
//!
//! - `settled_values`: the command that stestr would start, and its settings.
//! - `table`: the table `tool.stestr`.
//!
//! What a `.stestr.conf` says is read by `testr_conf`, which knows lines.
#![tactic(auto)]

mod settled_values;
mod table;

pub use settled_values::{SettleFault, settings_of_values};
pub use table::{TableFault, TableKey, read_table};
