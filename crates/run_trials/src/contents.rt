//! What long files and outputs have.

ghost use Rattle.std.specs.Prelude.{◌≡◌, All, length, IfOk};

use std::alloc::Global;
use std::test::Fail;

/// The byte, so many times.
pub fn filled(alloc: Global, byte: u8, size: usize) -> Result<Vec<u8>, Fail>
    ensures size { IfOk result (λ bytes. length bytes.items ≡ size) }
    ensures byte { IfOk result (λ bytes. All (λ one. one ≡ byte) bytes.items) }
{
    let mut bytes = Vec::new(alloc);
    bytes.resize(size, byte)?;
    Ok(bytes)
}
