//! How a test ended, and what became of it.

ghost use Rattle.outcome_fold.specs.Parts as ends;
ghost use Rattle.std.specs.Prelude.{◌≡◌};
ghost use Rattle.outcome_fold.specs.Rows.{is_failure};

use packet_codec::{Status, Tags};
use sub_number::{Bytes, Text};

/// How a test ended, as docs/FORMATS.md says under "The fold".
#[derive(Clone, Copy, Debug, PartialEq, Eq)]
pub enum Ended {
    /// The test is there; it did not run.
    Exists,
    /// The test passed.
    Success,
    /// The test passed, and was expected to fail.
    UxSuccess,
    /// The test was skipped. It counts as one that ran.
    Skip,
    /// The test failed.
    Fail,
    /// The test failed, as was expected.
    XFail,
    /// The test began, and nothing says that it ended.
    Open,
}

impl Ended {
    /// Whether the run fails by it: a failure, a success that was not expected, or a test that was left open.
    pub fn fails(self) -> bool
        ensures { result ≡ is_failure self }
    {
        match self {
            Ended::UxSuccess | Ended::Fail | Ended::Open => true,
            Ended::Exists | Ended::Success | Ended::Skip | Ended::XFail => false,
        }
    }
}

/// How an event of this status ends its test. `None` comes exactly at unset and inprogress, which end none.
pub fn ended_by(status: Status) -> Option<Ended>
    ensures { result ≡ ends.ended_by status }
{
    match status {
        Status::Unset | Status::InProgress => None,
        Status::Exists => Some(Ended::Exists),
        Status::Success => Some(Ended::Success),
        Status::UxSuccess => Some(Ended::UxSuccess),
        Status::Skip => Some(Ended::Skip),
        Status::Fail => Some(Ended::Fail),
        Status::XFail => Some(Ended::XFail),
    }
}

/// What became of one test, as docs/FORMATS.md says under "The fold".
#[derive(Drop)]
pub struct Row {
    /// The test's id.
    pub id: Text,
    /// Where its events came from.
    pub route: Option<Text>,
    /// How it ended.
    pub ended: Ended,
    /// Its tags in the order of their bytes, each once.
    pub tags: Tags,
    /// How long it took, in nanoseconds, where its events tell.
    pub nanos: Option<u64>,
    /// What its files of text say: one as it stands, or each under its name and the traceback behind them. Of the
    /// traceback the first 65,536 bytes are kept, and as many of all others together. It is empty unless the row fails.
    pub text: Bytes,
    /// Why it was skipped: the first line, without its newline, of the first 1,024 bytes of its files named `reason`. It
    /// is empty unless the row is a skip.
    pub reason: Bytes,
}

/// How many rows there are, as docs/FORMATS.md says under "What the rows say".
#[derive(Clone, Copy, Debug, PartialEq, Eq)]
pub struct Counts {
    /// The rows that are counted.
    pub total: u64,
    /// Those that neither fail nor are skipped.
    pub passed: u64,
    /// Those that fail.
    pub failed: u64,
    /// Those that are skipped.
    pub skipped: u64,
    /// The sum of their times in nanoseconds, where one of them has a time.
    pub nanos: Option<u128>,
}
