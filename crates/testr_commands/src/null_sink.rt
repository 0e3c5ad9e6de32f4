//! An output that is not looked at.

ghost use Rattle.testr_commands.specs.Spoken.{nowhere};

use edge_io::{Failed, Sink};

/// A sink that takes all and keeps nothing. It never fails.
#[derive(Drop)]
pub(crate) struct NullSink;

impl Sink for NullSink {
    ghost seen = { λ _. nowhere };

    /// Takes the whole piece.
    fn write(&mut self, piece: &[u8]) -> Result<usize, Failed> {
        Ok(piece.len())
    }
}
