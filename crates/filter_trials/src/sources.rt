//! Streams in memory.

ghost use Rattle.std.specs.Prelude.{◌≡◌, IfSome};
ghost use Rattle.edge_io.specs.Lists.{left_bytes, source_piece, source_fails};

use edge_io::ListSource;
use std::alloc::Global;
use sub_number::Bytes;

/// The stream, of which a read gives 13 bytes, and these reads fail.
pub fn source(alloc: Global, stream: &[u8], fails: &[u64]) -> Option<ListSource>
    ensures bytes { IfSome result (λ source. left_bytes source ≡ stream.now) }
    ensures piece { IfSome result (λ source. source_piece source ≡ 13) }
    ensures fails { IfSome result (λ source. source_fails source ≡ fails.now) }
{
    let fails = fails.to_vec(alloc).ok()?;
    let stream = Bytes::new(alloc, stream).ok()?;
    Some(ListSource::new(stream, 13, fails))
}
