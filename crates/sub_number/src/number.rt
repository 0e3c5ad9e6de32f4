//! Numbers of one to four bytes, by the number encoding of the Subunit README. The top two bits of the first byte say
//! how many bytes follow it, and the rest is the value, the greatest byte first.

ghost use Rattle.std.specs.Prelude.{◌≡◌, ◌<◌, ◌^◌, ◌++◌, length, IfSome, IfNone, OnOk, OnErr};
ghost use Rattle.sub_number.specs.Numbers.{BeginsWithNumber, BeginsWithNoNumber, IsShortest, shortest_number};
ghost use Rattle.sub_number.specs.Width.{widest_of};

use crate::NoMemory;

/// The widest spelling that a reader takes.
#[derive(Clone, Copy, PartialEq, Eq, Debug)]
pub enum Width {
    /// Three bytes, for values below 2^22, as for the length of a packet.
    Three,
    /// Four bytes, for values below 2^30.
    Four,
}

impl Width {
    /// The same in bytes, 3 or 4.
    pub fn bytes(self) -> usize
        ensures { result ≡ widest_of self }
    {
        match self {
            Width::Three => 3,
            Width::Four => 4,
        }
    }
}

/// The number that the bytes begin with, and how many bytes spell it, of any width up to `max`.
///
/// `None` comes exactly where no prefix of at most so many bytes spells a number.
#[inline(always)]
pub fn read_number(bytes: &[u8], max: Width) -> Option<(u32, usize)>
    ensures number { IfSome result (λ r. BeginsWithNumber bytes.now (widest_of max) r.0 r.1) }
    ensures none { IfNone result (BeginsWithNoNumber bytes.now (widest_of max)) }
{
    let first = *bytes.first()?;
    let extra = usize::from(first / 64);
    if extra >= max.bytes() || extra >= bytes.len() {
        return None;
    }
    let one = u32::from(first % 64);
    if extra == 0 {
        return Some((one, 1));
    }
    let two = one * 256 + u32::from(bytes[1]);
    if extra == 1 {
        return Some((two, 2));
    }
    let three = two * 256 + u32::from(bytes[2]);
    if extra == 2 {
        return Some((three, 3));
    }
    let four = three * 256 + u32::from(bytes[3]);
    Some((four, 4))
}

/// How many bytes the shortest spelling of the value takes, 1 to 4. A value of 2^30 or more has no spelling.
pub fn number_size(value: u32) -> usize
    requires { value < 2 ^ 30 }
    ensures size { result ≡ length (shortest_number value) }
    ensures shortest { IsShortest (shortest_number value) value }
{
    match value {
        0..0x40 => 1,
        0x40..0x4000 => 2,
        0x4000..0x40_0000 => 3,
        _ => 4,
    }
}

/// Appends the shortest spelling of the value, by the number encoding of the Subunit README.
pub fn write_number(out: &mut Vec<u8>, value: u32) -> Result<(), NoMemory>
    requires { value < 2 ^ 30 }
    ensures ok { OnOk result (out.new.items ≡ out.old.items ++ shortest_number value) }
    ensures err { OnErr result (out.new.items ≡ out.old.items) }
{
    let size = number_size(value);
    let marks = (size as u32 - 1) << (8 * size - 2);
    let bytes = (marks + value).to_be_bytes();
    out.extend_from_slice(&bytes[4 - size..])?;
    Ok(())
}
