//! Numbers of tests.

ghost use Rattle.std.specs.Prelude.{◌≡◌, ◌≤◌, IsTrue, length};
ghost use Rattle.std.specs.Str.Parse.{digits_value};
ghost use Rattle.tap_bridge.specs.Grammar as grammar;

// The most digits of a number.
const MOST_DIGITS: usize = 7;

// The greatest number.
const MOST_TESTS: u32 = 1_000_000;

/// Whether each byte is a digit.
pub(crate) fn is_digits(bytes: &[u8]) -> bool
    ensures { result ≡ grammar.is_digits bytes.now }
{
    bytes.iter().all(|byte| byte.is_ascii_digit())
}

// The number that so few digits write.
fn value_of(digits: &[u8]) -> u32
    requires digits { IsTrue (grammar.is_digits digits.now) }
    requires few { length digits.now ≤ 7 }
    ensures { result ≡ digits_value 10 digits.now }
{
    let mut value = 0;
    for digit in digits {
        value = value * 10 + u32::from(digit - b'0');
    }
    value
}

/// The number that the bytes write. `None` comes exactly where they are not 1 to 7 digits, or write more than 1,000,000.
pub(crate) fn number_of(bytes: &[u8]) -> Option<u32>
    ensures { result ≡ grammar.tap_number_of bytes.now }
{
    if !is_digits(bytes) || bytes.is_empty() || bytes.len() > MOST_DIGITS {
        return None;
    }
    let number = value_of(bytes);
    if number <= MOST_TESTS {
        Some(number)
    } else {
        None
    }
}
