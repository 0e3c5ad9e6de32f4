//! Seconds with three places.

ghost use Rattle.std.specs.Prelude.{◌≡◌, ◌++◌, ◌<◌, take, length, codes, OnOk};
ghost use Rattle.sub_number.specs.Seconds.{millis_of, three_digits, printed_seconds};

use itoa::Buffer;
use sub_number::NoMemory;

// In thousandths of a second, halves up.
fn millis_of(nanos: u64) -> u64
    ensures { result ≡ millis_of nanos }
{
    let millis = nanos / 1_000_000;
    if nanos % 1_000_000 < 500_000 {
        millis
    } else {
        millis + 1
    }
}

// The same of a sum of times, which takes more steps to divide.
fn all_millis_of(nanos: u128) -> u128
    ensures { result ≡ millis_of nanos }
{
    let millis = nanos / 1_000_000;
    if nanos % 1_000_000 < 500_000 {
        millis
    } else {
        millis + 1
    }
}

// The places behind a point, of a number below 1000.
fn places(number: u32) -> [u8; 4]
    requires { number < 1000 }
    ensures { result ≡ codes "." ++ three_digits number }
{
    [
        b'.',
        b'0' + (number / 100) as u8,
        b'0' + (number / 10 % 10) as u8,
        b'0' + (number % 10) as u8,
    ]
}

/// Appends the nanoseconds that one test took as seconds with a point and three places, halves up. What stands in the text
/// stays, also where there is not enough memory.
pub(crate) fn put_seconds(nanos: u64, text: &mut Vec<u8>) -> Result<(), NoMemory>
    ensures ok { OnOk result (text.new.items ≡ text.old.items ++ printed_seconds nanos) }
    ensures kept { take (length text.old.items) text.new.items ≡ text.old.items }
{
    let millis = millis_of(nanos);
    text.extend_from_slice(Buffer::new().format(millis / 1000).as_bytes())?;
    text.extend_from_slice(&places((millis % 1000) as u32))?;
    Ok(())
}

/// Appends a sum of such times in the same way.
pub(crate) fn put_all_seconds(nanos: u128, text: &mut Vec<u8>) -> Result<(), NoMemory>
    ensures ok { OnOk result (text.new.items ≡ text.old.items ++ printed_seconds nanos) }
    ensures kept { take (length text.old.items) text.new.items ≡ text.old.items }
{
    let millis = all_millis_of(nanos);
    text.extend_from_slice(Buffer::new().format(millis / 1000).as_bytes())?;
    text.extend_from_slice(&places((millis % 1000) as u32))?;
    Ok(())
}
