//! The number in an output.

ghost use Rattle.std.specs.Prelude.{◌≡◌, ◌≤◌, IsTrue, length};
ghost use Rattle.std.specs.Char.{is_ascii_digit};
ghost use Rattle.std.specs.List.{list_all};
ghost use Rattle.std.specs.Str.Parse.{digits_value};
ghost use Rattle.suite_plan.specs.Calling.{called_count, called_number};

use std::str;
use testr_conf::trim;

// The most bytes of an output that tells a number.
const MOST_BYTES: usize = 64;

// The most digits of a number.
const MOST_DIGITS: usize = 9;

/// The number that a whole output of these bytes tells. `None` comes exactly where it has more than 64 bytes, or is not 1
/// to 9 digits between white space and newlines.
pub(crate) fn number_told(bytes: &[u8]) -> Option<u32>
    ensures { result ≡ called_number bytes.now }
{
    if bytes.len() > MOST_BYTES {
        return None;
    }
    count_of(trim(bytes))
}

// The number that 1 to 9 digits write.
fn value_of(digits: &[u8]) -> u32
    requires digits { IsTrue (list_all is_ascii_digit digits.now) }
    requires some { 1 ≤ length digits.now }
    requires few { length digits.now ≤ 9 }
    ensures { result ≡ digits_value 10 digits.now }
{
    let Ok(text) = str::from_utf8(digits) else {
        unreachable!();
    };
    let Ok(value) = text.parse() else {
        unreachable!();
    };
    value
}

// Whether each byte is a digit.
fn are_digits(bytes: &[u8]) -> bool
    ensures { result ≡ list_all is_ascii_digit bytes.now }
{
    bytes.iter().all(|byte| byte.is_ascii_digit())
}

// The number that the bytes write, where they are 1 to 9 digits.
fn count_of(bytes: &[u8]) -> Option<u32>
    ensures { result ≡ called_count bytes.now }
{
    if !are_digits(bytes) || bytes.is_empty() || bytes.len() > MOST_DIGITS {
        return None;
    }
    Some(value_of(bytes))
}
