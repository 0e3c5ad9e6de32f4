//! Pieces of a cache's file.

ghost use Rattle.std.specs.Prelude.{◌≡◌, ℕ, List, IfSome, IfNone};
ghost use Rattle.run_shelf.specs.IdFiles.{Lacks, IsCutAtMark, SpellsDecimal, BeginsWithHeading};

use itoa::Buffer;
use memchr::memchr;
use std::str;

/// The bytes before the first of this mark, and those behind it. `None` comes exactly where there is no such mark.
pub(crate) fn split_at_mark(mark: u8, bytes: &[u8]) -> Option<(&[u8], &[u8])>
    ensures some { IfSome result (λ parts. IsCutAtMark mark bytes.now parts.0.now parts.1.now) }
    ensures none { IfNone result (Lacks mark bytes.now) }
{
    let place = memchr(mark, bytes)?;
    Some((&bytes[..place], &bytes[place + 1..]))
}

/// The number below 2^64 that these digits spell, without leading zeros. `None` comes exactly where they spell none.
pub(crate) fn read_decimal(digits: &[u8]) -> Option<u64>
    ensures some { IfSome result (SpellsDecimal digits.now) }
    ensures none { IfNone result ((number : ℕ) → SpellsDecimal digits.now number → ⊥) }
{
    let Ok(text) = str::from_utf8(digits) else {
        return None;
    };
    let Ok(number) = text.parse::<u64>() else {
        return None;
    };
    let mut buffer = Buffer::new();
    if buffer.format(number).as_bytes() == digits {
        Some(number)
    } else {
        None
    }
}

/// The number in the line behind this title, and what is behind that line. `None` comes exactly where the bytes do not
/// begin so.
pub(crate) fn read_heading<'b>(title: &[u8], bytes: &'b [u8]) -> Option<(u64, &'b [u8])>
    ensures some { IfSome result (λ head. BeginsWithHeading title.now bytes.now head.0 head.1.now) }
    ensures none { IfNone result ((covers : ℕ) (rest : List ℕ) → BeginsWithHeading title.now bytes.now covers rest → ⊥) }
{
    let rest = bytes.strip_prefix(title)?;
    let (digits, behind) = split_at_mark(b'\n', rest)?;
    Some((read_decimal(digits)?, behind))
}
