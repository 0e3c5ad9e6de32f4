//! Parts of what is read.

ghost use Rattle.std.specs.Prelude.{◌≡◌, ◌+◌, ◌≤◌, ◌↔◌, IsTrue, take, drop, length};

/// Whether these bytes stand in `whole` from this place on.
pub fn begins(whole: &[u8], place: usize, bytes: &[u8]) -> bool
    ensures { IsTrue result ↔ ((place + length bytes.now ≤ length whole.now) × (take (length bytes.now) (drop place whole.now) ≡ bytes.now)) }
{
    match whole.get(place..place.saturating_add(bytes.len())) {
        Some(part) => part == bytes,
        None => false,
    }
}
