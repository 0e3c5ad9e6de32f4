//! The line that tells what a search found.

ghost use Rattle.std.specs.Prelude.{◌≡◌, ◌≤◌, length, take};
ghost use Rattle.suite_causes.specs.Lines.{cause_line, cause_of, line_bytes, finding_text};
ghost use Rattle.suite_causes.specs.Searching.{IsAmong};

use isolation_bisect::Found;
use sub_number::{IdList, Text};

/// The parts of a line, which stand where they are lent. Behind them comes a newline.
#[derive(Clone, Copy)]
pub struct CauseLine<'a> {
    /// The id of the test.
    pub test: &'a [u8],
    /// What is said of it.
    pub said: &'static [u8],
    /// The id of the cause, where there is one, else nothing.
    pub cause: &'a [u8],
}

/// The line of the test, where this was found among the first of the ids, so many. It takes no memory.
pub fn cause_line<'a>(test: &'a Text, ids: &'a IdList, count: u32, found: Found) -> CauseLine<'a>
    requires few { count ≤ length ids.now }
    requires among { IsAmong (take count ids.now) found }
    ensures { line_bytes result ≡ cause_line test.now (take count ids.now) found }
{
    CauseLine {
        test: test.bytes(),
        said: said_of(found),
        cause: cause_of(&ids.list()[..count as usize], found),
    }
}

// What is said behind the id.
fn said_of(found: Found) -> &'static [u8]
    ensures { result.now ≡ finding_text found }
{
    match found {
        Found::Alone => b": fails alone",
        Found::NotSeen => b": not reproduced",
        Found::Several => b": several tests together",
        Found::Cause(_) => b": caused by ",
    }
}

// The cause, where there is one.
fn cause_of(candidates: &[Text], found: Found) -> &[u8]
    requires { IsAmong candidates.now found }
    ensures { result.now ≡ cause_of candidates.now found }
{
    match found {
        Found::Cause(cause) => candidates[cause as usize].bytes(),
        _ => b"",
    }
}
