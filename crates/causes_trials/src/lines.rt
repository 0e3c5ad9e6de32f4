//! Lines of causes as they are printed.

ghost use Rattle.std.specs.Prelude.{◌≡◌, ◌++◌, ◌∷◌, [], IfSome};
ghost use Rattle.suite_causes.specs.Lines.{line_bytes};

use std::alloc::Global;
use suite_causes::CauseLine;

/// The parts of the line, one after another. The line's newline, byte 10, is not among them.
pub fn joined(alloc: Global, line: &CauseLine<'_>) -> Option<Vec<u8>>
    ensures { IfSome result (λ text. text.items ++ (10 ∷ []) ≡ line_bytes line.now) }
{
    let mut text = Vec::from_slice(alloc, line.test).ok()?;
    text.extend_from_slice(line.said).ok()?;
    text.extend_from_slice(line.cause).ok()?;
    Some(text)
}
