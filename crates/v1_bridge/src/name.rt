//! Texts, and those that are not empty, as ids, tags and MIME types are.

ghost use Rattle.std.specs.Prelude.{◌≡◌, ◌<◌, ◌^◌, length, IfOk, Some, None, if◌then◌else◌};
ghost use Rattle.v1_bridge.specs.TagWords as spec;

use std::alloc::Global;
use sub_number::{NoMemory, Text, TextFault};

/// The bytes as a text, where they are one.
pub(crate) fn text_of(alloc: Global, bytes: &[u8]) -> Result<Option<Text>, NoMemory>
    requires { length bytes.now < 2 ^ 30 }
    ensures { IfOk result (λ text. text ≡ (if spec.is_utf8_text bytes.now then Some bytes.now else None)) }
{
    match Text::new(alloc, bytes) {
        Ok(text) => Ok(Some(text)),
        Err(TextFault::NotText) => Ok(None),
        Err(TextFault::NoMemory) => Err(NoMemory),
    }
}

/// The bytes as a text, where they are one that is not empty.
pub(crate) fn name_of(alloc: Global, bytes: &[u8]) -> Result<Option<Text>, NoMemory>
    requires { length bytes.now < 2 ^ 30 }
    ensures { IfOk result (λ name. name ≡ (if spec.is_name bytes.now then Some bytes.now else None)) }
{
    if bytes.len() == 0 {
        return Ok(None);
    }
    text_of(alloc, bytes)
}
