//! The words of a command line behind the command's name, cut into options, their values and names.
//!
//! This room knows how options are written, and nothing of what a command does with them. The rules stand in
//! docs/COMMANDS.md, "Words".
//!
//! For want of memory a public call answers `NoMemory`, which comes for nothing else; what it was lent is then as
//! before, where it does not say otherwise.
//!
//! - `table`: which options a command has
//! - `item`: what words are
//! - `item_reader`: reads the words
//! - `flags`: whether an option stands among the words
//! - `text`: words as texts
#![tactic(auto)]

mod flags;
mod item;
mod item_reader;
mod table;
mod text;

pub use flags::has_flag;
pub use item::Item;
pub use item_reader::read_items;
pub use table::{Kind, OptionTable};
pub use text::text_of;
