//! Books of rows: what a table is given, and what it must answer, one below the other. No program of the product uses it.
//!
//!     # A line like this one is a remark.
//!     rows route id ended
//!     > 0 f fail
//!     = 0 f fail
//!
//! A row begins with a line of its table's name and of words. Below stand the lines that it is given, and below these the
//! lines that it must answer. Remarks and empty lines stand between rows. Any other line begins a row, so none is passed over.
//!
//! - `book`: the rows of a book, each asked and compared
//! - `spelled_bytes`: bytes that cannot stand as they are, and bytes that are repeated
#![tactic(auto)]

mod book;
mod spelled_bytes;

pub use book::{Row, Tables, put_all, read_book};
pub use spelled_bytes::bytes_of;
