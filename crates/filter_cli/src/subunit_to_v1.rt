//! The tests of a stream as lines of version 1.

use crate::notes::NoteFilter;
use packet_codec::Packet;
use std::alloc::Global;
use sub_number::NoMemory;
use v1_bridge::V1Writer;

/// Writes the lines of each test where it completes, and at the end those of the tests that are left open. Foreign bytes,
/// and the file of an event without an id, are passed on. The status is 0.
#[derive(Drop)]
pub(crate) struct SubunitToV1 {
    writer: V1Writer,
}

impl SubunitToV1 {
    ghost use Rattle.std.specs.Prelude.{[]};
    ghost use Rattle.v1_bridge.specs.Written.{HasWrittenNotes};

    /// The lines of nothing yet.
    pub(crate) fn new(alloc: Global) -> Self
        ensures { HasWrittenNotes result.writer [] }
    {
        SubunitToV1 {
            writer: V1Writer::new(alloc),
        }
    }
}

impl NoteFilter for SubunitToV1 {
    ghost use Rattle.v1_bridge.specs.Written.{HasWrittenNotes};
    ghost use Rattle.filter_cli.specs.V1Parts.{v1_plan};

    ghost plan = { λ f. v1_plan };

    ghost has = { λ f notes. HasWrittenNotes f.writer notes };

    fn take(&mut self, packet: &Packet<'_>, text: &mut Vec<u8>) -> Result<(), NoMemory> {
        self.writer.hear(packet, text)?;
        Ok(())
    }

    fn take_foreign(&mut self, bytes: &[u8], text: &mut Vec<u8>) -> Result<(), NoMemory> {
        self.writer.foreign(bytes, text)?;
        Ok(())
    }

    fn close(self, text: &mut Vec<u8>) -> Result<u8, NoMemory> {
        self.writer.close(text)?;
        Ok(0)
    }

    fn let_go(self) {}
}
