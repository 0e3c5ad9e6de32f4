//! The comment of a test.

ghost use Rattle.std.specs.Prelude.{◌≡◌, [], ◌++◌, take, length, IfOk, IfSome, OnOk, ◌==◌, if◌then◌else◌};
ghost use Rattle.sub_number.specs.Lines.{with_newline};
ghost use Rattle.tap_bridge.specs.Events.{comment_limit, comment_file};
ghost use Rattle.tap_bridge.specs.Kept.{IsShortFile};

use packet_codec::FilePart;
use std::alloc::Global;
use std::marker::Model;
use sub_number::{Bytes, NoMemory, Text};

/// The bytes of a comment that are kept.
const COMMENT_LIMIT: usize = 65_536;

/// Room for the comment of most tests, so that it is taken once.
const FIRST_ROOM: usize = 256;

/// The first bytes of some lines, `COMMENT_LIMIT` at most. Contracts see them as a list of bytes.
#[derive(Drop)]
pub(crate) struct Comment {
    bytes: Vec<u8>,
}

impl Model for Comment {
    ghost use Rattle.std.specs.Prelude.{◌≤◌, List, ℕ, length};
    ghost use Rattle.tap_bridge.specs.Events.{comment_limit};

    ghost Value = { List ℕ };

    ghost view = { λ c. c.bytes.items };

    ghost invariant = { λ c. length c.bytes.items ≤ comment_limit };
}

// Appends the line and a newline.
fn put_line(line: &[u8], bytes: &mut Vec<u8>) -> Result<(), NoMemory>
    ensures { OnOk result (bytes.new.items ≡ bytes.old.items ++ with_newline line.now) }
{
    bytes.extend_from_slice(line)?;
    bytes.push(b'\n')?;
    Ok(())
}

impl Comment {
    /// No bytes. It takes no memory.
    pub(crate) fn new(alloc: Global) -> Self
        ensures { result ≡ [] }
    {
        Comment {
            bytes: Vec::new(alloc),
        }
    }

    /// Appends the line and a newline, and keeps the first bytes.
    ///
    /// After `NoMemory` nothing is known of the comment.
    pub(crate) fn add_line(&mut self, line: &[u8]) -> Result<(), NoMemory>
        ensures { OnOk result (self.new ≡ take comment_limit (self.old ++ with_newline line.now)) }
    {
        if self.bytes.is_empty() {
            self.bytes.reserve(FIRST_ROOM)?;
        }
        let done = put_line(line, &mut self.bytes);
        self.bytes.truncate(COMMENT_LIMIT);
        done
    }

    /// The comment as a file, where it is not empty.
    pub(crate) fn into_file(self, alloc: Global) -> Result<Option<FilePart>, NoMemory>
        ensures file { IfOk result (λ file. file ≡ comment_file self) }
        ensures short { IfOk result (λ file. IfSome file IsShortFile) }
    {
        if self.bytes.is_empty() {
            return Ok(None);
        }
        let name = Text::from_tested(alloc, b"tap comment")?;
        Ok(Some(FilePart {
            name,
            bytes: Bytes::from_vec(self.bytes),
        }))
    }
}
