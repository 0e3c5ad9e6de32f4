//! Plans: how many tests there are.

ghost use Rattle.std.specs.Prelude.{◌≡◌};
ghost use Rattle.tap_bridge.specs.Grammar as grammar;

use crate::blanks::{begins_blank, bytes_behind, split_word, trim_start};
use crate::directive::begins_in_any_case;
use crate::number::number_of;

/// How many tests there are.
#[derive(Clone, Copy, Debug, PartialEq, Eq)]
pub(crate) struct Plan {
    /// Their number.
    pub(crate) tests: u32,
    /// A directive says that all of them are skipped.
    pub(crate) skipped: bool,
}

// Whether what stands behind the number skips all tests.
fn skips_all(rest: &[u8]) -> bool
    ensures { result ≡ grammar.skips_all rest.now }
{
    if !begins_blank(rest) {
        return false;
    }
    let sign = trim_start(rest);
    if !sign.starts_with(b"#") || !begins_blank(bytes_behind(sign, 1)) {
        return false;
    }
    begins_in_any_case(trim_start(bytes_behind(sign, 1)), b"skip")
}

/// The plan that the line is. `None` comes exactly where it is none.
pub(crate) fn plan_of(line: &[u8]) -> Option<Plan>
    ensures { result ≡ grammar.plan_of line.now }
{
    if !line.starts_with(b"1..") {
        return None;
    }
    let (word, rest) = split_word(bytes_behind(line, 3));
    let tests = number_of(word)?;
    if trim_start(rest).is_empty() {
        Some(Plan {
            tests,
            skipped: false,
        })
    } else if skips_all(rest) {
        Some(Plan {
            tests,
            skipped: true,
        })
    } else {
        None
    }
}
