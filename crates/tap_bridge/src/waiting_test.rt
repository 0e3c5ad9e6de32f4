//! The test that waits for its comments.

ghost use Rattle.std.specs.Prelude.{◌≡◌, ◌≤◌, [], length, IfOk};
ghost use Rattle.tap_bridge.specs.Events.{comment_of, longest_tap_line};
ghost use Rattle.tap_bridge.specs.Kept.{kept_waiting, kept_event};
ghost use Rattle.tap_bridge.specs.Read.{test_meant};
ghost use Rattle.packet_codec.specs.Canonical.{Fits};

use crate::comment::Comment;
use crate::event::{status_of, test_event};
use crate::ids::{TestId, test_id};
use crate::test_line::TestLine;
use packet_codec::{Event, Status};
use std::alloc::Global;
use sub_number::NoMemory;

/// A test whose comment is not at its end.
#[derive(Drop)]
pub(crate) struct Waiting {
    /// Its id.
    pub(crate) id: TestId,
    /// How it ended.
    pub(crate) status: Status,
    /// The comment so far.
    pub(crate) comment: Comment,
}

// The comment of a test with this reason, before any comment line.
fn comment_with(alloc: Global, reason: &[u8]) -> Result<Comment, NoMemory>
    ensures { IfOk result (λ comment. comment ≡ comment_of reason.now []) }
{
    let mut comment = Comment::new(alloc);
    if reason.is_empty() {
        return Ok(comment);
    }
    comment.add_line(reason)?;
    Ok(comment)
}

impl Waiting {
    /// The test of the line, which has this number. `name` lends its room.
    pub(crate) fn begun(
        alloc: Global,
        number: u64,
        test: &TestLine<'_>,
        name: &mut Vec<u8>,
    ) -> Result<Self, NoMemory>
        requires { length test.now.description.now ≤ longest_tap_line }
        ensures { IfOk result (λ waiting. waiting ≡ kept_waiting (record { number = number; shown = test_meant test.now; comments = [] })) }
    {
        Ok(Waiting {
            id: test_id(alloc, number, test.description, name)?,
            status: status_of(test.passed, test.directive),
            comment: comment_with(alloc, test.reason)?,
        })
    }

    /// Its event.
    pub(crate) fn into_event(self, alloc: Global) -> Result<Event, NoMemory>
        ensures event { IfOk result (λ event. event ≡ kept_event self) }
        ensures fits { IfOk result Fits }
    {
        let Waiting {
            id,
            status,
            comment,
        } = self;
        let file = comment.into_file(alloc)?;
        test_event(alloc, id, status, file)
    }
}
