//! One event of a stream.

use crate::stamp::Stamp;
use crate::status::Status;
use crate::tags::Tags;
use sub_number::{Bytes, Text};

/// A piece of a file that belongs to a test.
#[derive(Drop)]
pub struct FilePart {
    /// The file's name, which may be empty.
    pub name: Text,
    /// The bytes of this piece, which may be none.
    pub bytes: Bytes,
}

/// What one packet says: the fields of the Subunit README's version 2.
#[derive(Drop)]
pub struct Event {
    /// When it happened.
    pub stamp: Option<Stamp>,
    /// The test that it speaks of.
    pub id: Option<Text>,
    /// The test's tags. No tags, and a list of none, are two things.
    pub tags: Option<Tags>,
    /// The test can be run by its id.
    pub runnable: bool,
    /// What it says of the test.
    pub status: Status,
    /// The MIME type of the file.
    pub mime: Option<Text>,
    /// A piece of a file.
    pub file: Option<FilePart>,
    /// The file's last piece, or the end of the test.
    pub eof: bool,
    /// Where the event came from, as names with `/` between them.
    pub route: Option<Text>,
}
