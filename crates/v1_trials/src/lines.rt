//! Lines as long as a test asks for.

ghost use Rattle.std.specs.Prelude.{◌≡◌, ◌++◌, replicate, IfSome};

use std::alloc::Global;

/// The front, so many bytes `a`, which are bytes 97, and the end, as one line.
pub fn line_of(alloc: Global, front: &[u8], count: usize, end: &[u8]) -> Option<Vec<u8>>
    ensures { IfSome result (λ line. line.items ≡ front.now ++ (replicate count 97 ++ end.now)) }
{
    let letters = vec![in alloc; b'a'; count].ok()?;
    let mut line = Vec::new(alloc);
    line.extend_from_slice(front).ok()?;
    line.extend_from_slice(&letters).ok()?;
    line.extend_from_slice(end).ok()?;
    Some(line)
}
