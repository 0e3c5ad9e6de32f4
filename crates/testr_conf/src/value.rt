//! The values that the keys of stestr may have.

ghost use Rattle.std.specs.Prelude.{◌≡◌, Some};
ghost use Rattle.std.specs.List.{list_any};
ghost use Rattle.sub_number.specs.Quotes.{is_quote_sign, is_path};
ghost use Rattle.testr_conf.specs.Values.{is_yes, is_no, is_unfit, says_yes};

use crate::name::Name;
use sub_number::Text;

// Whether a shell reads the byte between double quotes.
fn is_quote_sign(byte: u8) -> bool
    ensures { result ≡ is_quote_sign byte }
{
    matches!(byte, b'"' | b'$' | b'\\' | b'`')
}

fn has_quote_sign(value: &[u8]) -> bool
    ensures { result ≡ list_any is_quote_sign value.now }
{
    value.iter().any(|byte| is_quote_sign(*byte))
}

/// Whether the value stands for itself between double quotes in a shell.
pub fn is_path(value: &[u8]) -> bool
    ensures { result ≡ is_path value.now }
{
    !has_quote_sign(value)
}

// Whether the word says yes.
fn is_yes(word: &[u8]) -> bool
    ensures { result ≡ is_yes word.now }
{
    word.eq_ignore_ascii_case(b"1")
        || word.eq_ignore_ascii_case(b"yes")
        || word.eq_ignore_ascii_case(b"true")
        || word.eq_ignore_ascii_case(b"on")
}

// Whether the word says no.
fn is_no(word: &[u8]) -> bool
    ensures { result ≡ is_no word.now }
{
    word.eq_ignore_ascii_case(b"0")
        || word.eq_ignore_ascii_case(b"no")
        || word.eq_ignore_ascii_case(b"false")
        || word.eq_ignore_ascii_case(b"off")
}

// Whether the value, where there is one, says yes.
pub(crate) fn says_yes(value: &Option<Text>) -> bool
    ensures { result ≡ says_yes value.now }
{
    match value {
        Some(word) => is_yes(word.bytes()),
        None => false,
    }
}

// Whether the key of this name may not have the value.
pub(crate) fn is_unfit(name: Name, value: &[u8]) -> bool
    ensures { result ≡ is_unfit (Some name) value.now }
{
    match name {
        Name::TestPath | Name::TopDir => !is_path(value),
        Name::ParallelClass => !value.is_empty() && !(is_yes(value) || is_no(value)),
        _ => false,
    }
}
