//! Chunks of parts.

ghost use Rattle.std.specs.Prelude.{◌≡◌, ◌∷◌, ◌++◌, codes, IfSome};

use std::alloc::Global;

/// These bytes as a chunk of 16 at most, behind their number as this digit, and the end of the part.
pub fn chunk_of(alloc: Global, digit: u8, bytes: &[u8]) -> Option<Vec<u8>>
    ensures { IfSome result (λ chunk. chunk.items ≡ digit ∷ codes "\r\n" ++ (bytes.now ++ codes "0\r\n")) }
{
    let mut chunk = Vec::new(alloc);
    chunk.push(digit).ok()?;
    chunk.extend_from_slice(b"\r\n").ok()?;
    chunk.extend_from_slice(bytes).ok()?;
    chunk.extend_from_slice(b"0\r\n").ok()?;
    Some(chunk)
}
