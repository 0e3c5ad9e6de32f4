//! White space of a line: spaces and tabs.

ghost use Rattle.std.specs.Prelude.{◌≡◌, ◌≤◌, length, drop};
ghost use Rattle.std.specs.List.{prefix_len, position_or_len};
ghost use Rattle.tap_bridge.specs.Blanks as blank;

fn is_blank(byte: u8) -> bool
    ensures { result ≡ blank.is_blank byte }
{
    byte == b' ' || byte == b'\t'
}

// How many blanks stand at the front.
fn leading_blanks(bytes: &[u8]) -> usize
    ensures count { result ≡ prefix_len blank.is_blank bytes.now }
    ensures within { result ≤ length bytes.now }
{
    let mut count = 0;
    while count < bytes.len() && is_blank(bytes[count]) {
        count += 1;
    }
    count
}

// How many bytes stand in front of the first blank.
fn word_size(bytes: &[u8]) -> usize
    ensures count { result ≡ position_or_len blank.is_blank bytes.now }
    ensures within { result ≤ length bytes.now }
{
    let mut count = 0;
    while count < bytes.len() && !is_blank(bytes[count]) {
        count += 1;
    }
    count
}

/// The bytes behind so many, none where there are fewer.
pub(crate) fn bytes_behind(bytes: &[u8], count: usize) -> &[u8]
    ensures rest { result.now ≡ drop count bytes.now }
    ensures within { length result.now ≤ length bytes.now }
{
    &bytes[count.min(bytes.len())..]
}

/// Whether the first byte is a blank.
pub(crate) fn begins_blank(bytes: &[u8]) -> bool
    ensures { result ≡ blank.begins_blank bytes.now }
{
    match bytes.first() {
        Some(byte) => is_blank(*byte),
        None => false,
    }
}

/// The bytes without the blanks at the front.
pub(crate) fn trim_start(bytes: &[u8]) -> &[u8]
    ensures trimmed { result.now ≡ blank.trim_start bytes.now }
    ensures within { length result.now ≤ length bytes.now }
{
    &bytes[leading_blanks(bytes)..]
}

// The bytes without the blanks at the end.
fn trim_end(bytes: &[u8]) -> &[u8]
    ensures trimmed { result.now ≡ blank.trim_end bytes.now }
    ensures within { length result.now ≤ length bytes.now }
{
    let mut end = bytes.len();
    while end > 0 && is_blank(bytes[end - 1]) {
        end -= 1;
    }
    &bytes[..end]
}

/// The bytes without the blanks at both ends.
pub(crate) fn trim(bytes: &[u8]) -> &[u8]
    ensures trimmed { result.now ≡ blank.trim bytes.now }
    ensures within { length result.now ≤ length bytes.now }
{
    trim_end(trim_start(bytes))
}

/// What stands up to the first blank, and what stands behind that.
pub(crate) fn split_word(bytes: &[u8]) -> (&[u8], &[u8])
    ensures word { result.0.now ≡ blank.first_word bytes.now }
    ensures rest { result.1.now ≡ blank.behind_word bytes.now }
    ensures within { length result.1.now ≤ length bytes.now }
{
    bytes.split_at(word_size(bytes))
}
