//! Texts, which are UTF-8 without NUL. By the Subunit README they are spelled as their length in bytes, a number, and
//! then their bytes.

ghost use Rattle.std.specs.Prelude.{◌≡◌, ◌↔◌, IfSome, IfNone, IfOk, IsTrue, IsUtf8};
ghost use Rattle.std.specs.String.{string_bytes};
ghost use Rattle.sub_number.specs.Texts.{IsText, IsShortText, BeginsWithText, BeginsWithNoText};

use crate::NoMemory;
use crate::ascii::are_plain;
use crate::number::{Width, read_number};
use std::alloc::{AllocError, Global};
use std::cmp::Ordering;
use std::marker::Model;
use std::str;

/// Where some bytes stand among others, counted in bytes from the front.
#[derive(Clone, Copy, PartialEq, Eq, Debug)]
pub struct Span {
    /// The place of the first of them.
    pub start: usize,
    /// The place behind the last of them.
    pub end: usize,
}

fn is_utf8(bytes: &[u8]) -> bool
    ensures { IsTrue result ↔ IsUtf8 bytes.now }
{
    str::from_utf8(bytes).is_ok()
}

// The same by two passes, of any characters.
#[inline(never)]
fn is_text_by_rule(bytes: &[u8]) -> bool
    ensures { IsTrue result ↔ IsText bytes.now }
{
    !bytes.contains(&0) && is_utf8(bytes)
}

/// Whether the bytes are UTF-8 without NUL. Most texts are ASCII, which is the quicker test.
pub fn is_text(bytes: &[u8]) -> bool
    ensures { IsTrue result ↔ IsText bytes.now }
{
    are_plain(bytes) || is_text_by_rule(bytes)
}

/// Where the text stands that the bytes begin with, and how many bytes spell it, its length included. The length may be
/// spelled in any width.
///
/// `None` comes exactly where no prefix of the bytes spells a text.
pub fn read_text(bytes: &[u8]) -> Option<(Span, usize)>
    ensures text { IfSome result (λ r. BeginsWithText bytes.now r.0.start r.0.end r.1) }
    ensures none { IfNone result (BeginsWithNoText bytes.now) }
{
    let (len, start) = read_number(bytes, Width::Four)?;
    let len = len as usize;
    if bytes.len() - start < len {
        return None;
    }
    let end = start + len;
    if !is_text(&bytes[start..end]) {
        return None;
    }
    Some((Span { start, end }, end))
}

/// Why no text was made.
#[derive(Clone, Copy, PartialEq, Eq, Debug)]
pub enum TextFault {
    /// The bytes are not UTF-8, have a NUL among them, or are 2^30 or more.
    NotText,
    /// There is not enough memory.
    NoMemory,
}

impl From<AllocError> for TextFault {
    ghost use Rattle.std.specs.Prelude.{◌≡◌};
    ghost use Rattle.sub_number.specs.declared.text.TextFault.TheVariants.{NoMemory};

    ghost from_gives = { λ _ fault. fault ≡ NoMemory };

    fn from(_: AllocError) -> Self {
        TextFault::NoMemory
    }
}

// The string of these bytes, without a test. That they are UTF-8 is proved at each call.
fn string_of(alloc: Global, bytes: &[u8]) -> Result<String, AllocError>
    requires { IsUtf8 bytes.now }
    ensures { IfOk result (λ string. string_bytes string ≡ bytes.now) }
{
    String::from_str(alloc, unsafe { str::from_utf8_unchecked(bytes) })
}

/// A text of fewer than 2^30 bytes, so that its length can be spelled: UTF-8 without NUL. Contracts see it as the list
/// of its bytes, and its order is theirs.
#[derive(Drop)]
pub struct Text {
    text: String,
}

impl Model for Text {
    ghost use Rattle.std.specs.Prelude.{List, ℕ};
    ghost use Rattle.std.specs.String.{string_bytes};
    ghost use Rattle.sub_number.specs.Texts.{IsShortText};

    ghost Value = { List ℕ };

    ghost view = { λ t. string_bytes t.text };

    ghost invariant = { λ t. IsShortText (string_bytes t.text) };
}

impl Text {
    /// The text of these bytes.
    ///
    /// `NotText` comes exactly where they are no such text.
    pub fn new(alloc: Global, bytes: &[u8]) -> Result<Self, TextFault>
        ensures ok { IfOk result (λ text. (text ≡ bytes.now) × IsShortText bytes.now) }
        ensures not_text { result ≡ Err TextFault.NotText → ¬ (IsShortText bytes.now) }
        ensures no_memory { result ≡ Err TextFault.NoMemory → IsShortText bytes.now }
    {
        if bytes.len() >= 1 << 30 || !is_text(bytes) {
            return Err(TextFault::NotText);
        }
        Ok(Text {
            text: string_of(alloc, bytes)?,
        })
    }

    /// The text of these bytes, which are known to be one, so that they are not tested again.
    pub fn from_tested(alloc: Global, bytes: &[u8]) -> Result<Self, NoMemory>
        requires { IsShortText bytes.now }
        ensures { IfOk result (λ text. text ≡ bytes.now) }
    {
        Ok(Text {
            text: string_of(alloc, bytes)?,
        })
    }

    /// Its bytes.
    pub fn bytes(&self) -> &[u8]
        ensures bytes { result.now ≡ self.now }
        ensures text { IsShortText self.now }
    {
        self.text.as_bytes()
    }
}

impl Text {
    ghost use Rattle.std.specs.String.{string_bytes};

    /// The text, moved out.
    pub fn into_string(self) -> String
        ensures { string_bytes result ≡ self }
    {
        self.text
    }

    /// Another text of the same bytes, over the same allocator.
    pub fn copy(&self) -> Result<Self, NoMemory>
        ensures { IfOk result (λ text. text ≡ self.now) }
    {
        Ok(Text {
            text: self.text.clone()?,
        })
    }
}

impl PartialEq for Text {
    ghost use Rattle.std.specs.Cmp.Lexicographic.{pointwise, nat_list_eq_equiv};
    ghost use Rattle.std.specs.Cmp.{partial_equiv_from_equiv};
    ghost use Rattle.std.specs.Prelude.{nat_eq};

    ghost eq = { pointwise nat_eq };

    ghost laws = { partial_equiv_from_equiv nat_list_eq_equiv };

    fn eq(&self, other: &Self) -> bool {
        self.text.as_str() == other.text.as_str()
    }
}

impl Eq for Text {
    ghost use Rattle.std.specs.Cmp.Lexicographic.{nat_list_eq_equiv};

    ghost laws = { nat_list_eq_equiv };
}

impl PartialOrd for Text {
    ghost use Rattle.std.specs.Cmp.Lexicographic.{slice_cmp, texts_po};
    ghost use Rattle.std.specs.Prelude.{Some};
    ghost use Rattle.std.specs.Ordering.{nat_cmp};

    ghost partial_cmp = { λ x y. Some (slice_cmp nat_cmp x y) };

    ghost laws = { texts_po };

    fn partial_cmp(&self, other: &Self) -> Option<Ordering> {
        Some(self.cmp(other))
    }
}

/// In the order of their bytes.
impl Ord for Text {
    ghost use Rattle.std.specs.Cmp.Lexicographic.{slice_cmp, nat_list_cmp_total, texts_ties};
    ghost use Rattle.std.specs.Prelude.{refl};
    ghost use Rattle.std.specs.Ordering.{nat_cmp};

    ghost cmp = { slice_cmp nat_cmp };

    ghost total = { nat_list_cmp_total };

    ghost matches_partial_cmp = { λ x y. refl };

    ghost matches_eq = { texts_ties };

    fn cmp(&self, other: &Self) -> Ordering {
        self.text.as_str().cmp(other.text.as_str())
    }
}
