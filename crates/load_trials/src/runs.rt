//! Runs, and their first bytes.

ghost use Rattle.std.specs.Prelude.{◌≡◌, take};

/// So many bytes of the run, or all where there are fewer.
pub fn front(run: &[u8], size: usize) -> &[u8]
    ensures { result.now ≡ take size run.now }
{
    &run[..size.min(run.len())]
}
