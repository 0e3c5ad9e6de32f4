//! Seconds with three places.

ghost use Rattle.std.specs.Prelude.{◌≡◌, ◌++◌, ◌<◌, codes, OnOk, OnErr};
ghost use Rattle.sub_number.specs.Seconds.{millis_of, three_digits, printed_seconds};

use itoa::Buffer;
use sub_number::NoMemory;

// In thousandths of a second, halves up.
fn millis_of(nanos: u128) -> u128
    ensures { result ≡ millis_of nanos }
{
    let millis = nanos / 1_000_000;
    if nanos % 1_000_000 < 500_000 {
        millis
    } else {
        millis + 1
    }
}

// The places behind a point, of a number below 1000.
fn places(number: u32) -> [u8; 4]
    requires { number < 1000 }
    ensures { result ≡ codes "." ++ three_digits number }
{
    [
        b'.',
        b'0' + (number / 100) as u8,
        b'0' + (number / 10 % 10) as u8,
        b'0' + (number % 10) as u8,
    ]
}

/// Appends the nanoseconds as seconds with a point and three places, halves up.
pub fn seconds_text(nanos: u128, out: &mut Vec<u8>) -> Result<(), NoMemory>
    ensures ok { OnOk result (out.new.items ≡ out.old.items ++ printed_seconds nanos) }
    ensures err { OnErr result (out.new.items ≡ out.old.items) }
{
    let millis = millis_of(nanos);
    let mut digits = Buffer::new();
    let whole = digits.format(millis / 1000).as_bytes();
    let places = places((millis % 1000) as u32);
    out.reserve(whole.len() + places.len())?;
    out.extend_from_slice(whole)?;
    out.extend_from_slice(&places)?;
    Ok(())
}
