//! What one line is.

ghost use Rattle.std.specs.Prelude.{◌≡◌, ◌≤◌, length};
ghost use Rattle.sub_number.specs.Lines.{without_return};
ghost use Rattle.tap_bridge.specs.Grammar as grammar;
ghost use Rattle.tap_bridge.specs.Events as spec;
ghost use Rattle.tap_bridge.specs.Read.{tap_line_meant, HasShortTexts};

use crate::blanks::trim;
use crate::plan::{Plan, plan_of};
use crate::test_line::{TestLine, test_of};

/// What one line is.
pub(crate) enum Line<'a> {
    /// How many tests there are.
    Plan(Plan),
    /// How a test ended.
    Test(TestLine<'a>),
    /// A comment, with its `#`.
    Comment(&'a [u8]),
    /// The run was given up; the line without blanks at its ends.
    BailOut(&'a [u8]),
    /// Anything else.
    Other(&'a [u8]),
}

/// The line without a carriage return at its end.
pub(crate) fn without_return(line: &[u8]) -> &[u8]
    ensures line { result.now ≡ without_return line.now }
    ensures within { length result.now ≤ length line.now }
{
    if line.ends_with(b"\r") {
        &line[..line.len() - 1]
    } else {
        line
    }
}

/// What the line is, which has no newline and no carriage return at its end.
pub(crate) fn line_of(line: &[u8]) -> Line<'_>
    ensures meant { tap_line_meant result ≡ grammar.tap_line_of line.now }
    ensures within { HasShortTexts result (length line.now) }
{
    if let Some(plan) = plan_of(line) {
        return Line::Plan(plan);
    }
    if let Some(test) = test_of(line) {
        return Line::Test(test);
    }
    if line.starts_with(b"#") {
        Line::Comment(line)
    } else if line.starts_with(b"Bail out!") {
        Line::BailOut(trim(line))
    } else {
        Line::Other(line)
    }
}
