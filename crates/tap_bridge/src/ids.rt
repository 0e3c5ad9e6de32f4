//! The ids of tests.

ghost use Rattle.std.specs.Prelude.{◌≡◌, ◌++◌, ◌<◌, ◌≤◌, ◌^◌, ◌≢◌, All, length, IfOk, OnOk};
ghost use Rattle.std.specs.String.{string_bytes};
ghost use Rattle.tap_bridge.specs.Events.{longest_tap_line};
ghost use Rattle.tap_bridge.specs.Ids as spec;

use bstr::ByteSlice;
use itoa::Buffer;
use std::alloc::Global;
use std::marker::Model;
use std::string::String;
use sub_number::{NoMemory, Text, TextFault};

/// The id of a test: a text of fewer than 2^20 bytes, which leaves room in a packet. Contracts see it as the list of its
/// bytes.
#[derive(Drop)]
pub(crate) struct TestId {
    text: Text,
}

impl Model for TestId {
    ghost use Rattle.std.specs.Prelude.{◌<◌, ◌^◌, List, ℕ, length};

    ghost Value = { List ℕ };

    ghost view = { λ id. id.text };

    ghost invariant = { λ id. length id.text < 2 ^ 20 };
}

impl TestId {
    /// Its text.
    pub(crate) fn into_text(self) -> Text
        ensures text { result ≡ self }
        ensures short { length self < 2 ^ 20 }
    {
        self.text
    }
}

// The bytes as a text, with U+FFFD for what is no UTF-8 and for each NUL.
fn lossy(alloc: Global, bytes: &[u8]) -> Result<String, NoMemory>
    ensures { IfOk result (λ text. string_bytes text ≡ spec.id_from bytes.now) }
{
    let mut text = String::with_capacity(alloc, bytes.len())?;
    for char in bytes.chars() {
        text.push(if char == '\0' { '\u{FFFD}' } else { char })?;
    }
    Ok(text)
}

// The text, which is short enough and has no NUL.
fn text_of(alloc: Global, text: &str) -> Result<TestId, NoMemory>
    requires no_nul { All (λ byte. byte ≢ 0) text.now }
    requires short { length text.now < 2 ^ 20 }
    ensures { IfOk result (λ id. id ≡ text.now) }
{
    match Text::new(alloc, text.as_bytes()) {
        Ok(text) => Ok(TestId { text }),
        Err(TextFault::NoMemory) => Err(NoMemory),
        Err(TextFault::NotText) => unreachable!(),
    }
}

/// The bytes, which are not too many for it, as an id, with U+FFFD for what is no UTF-8 and for each NUL.
pub(crate) fn id_of(alloc: Global, bytes: &[u8]) -> Result<TestId, NoMemory>
    requires { length bytes.now < 2 ^ 17 }
    ensures { IfOk result (λ id. id ≡ spec.id_from bytes.now) }
{
    match Text::new(alloc, bytes) {
        Ok(text) => Ok(TestId { text }),
        Err(TextFault::NoMemory) => Err(NoMemory),
        Err(TextFault::NotText) => {
            let text = lossy(alloc, bytes)?;
            text_of(alloc, text.as_str())
        }
    }
}

// Appends the description behind a space, where there is one.
fn describe(description: &[u8], name: &mut Vec<u8>) -> Result<(), NoMemory>
    ensures { OnOk result (name.new.items ≡ name.old.items ++ spec.described description.now) }
{
    if !description.is_empty() {
        name.push(b' ')?;
        name.extend_from_slice(description)?;
    }
    Ok(())
}

/// The id of the test of this number and description. `name` lends its room.
pub(crate) fn test_id(
    alloc: Global,
    number: u64,
    description: &[u8],
    name: &mut Vec<u8>,
) -> Result<TestId, NoMemory>
    requires { length description.now ≤ longest_tap_line }
    ensures { IfOk result (λ id. id ≡ spec.id_from (spec.test_name number description.now)) }
{
    name.clear();
    name.extend_from_slice(b"test ")?;
    name.extend_from_slice(Buffer::new().format(number).as_bytes())?;
    describe(description, name)?;
    id_of(alloc, name)
}
