// The line whose end is not there yet.
ghost use Rattle.std.specs.Prelude.{◌≡◌, ◌<◌, ◌≤◌, ◌+◌, ◌++◌, [], true, false, length, map, OnOk, IsTrue, ◌↔◌};
ghost use Rattle.stream_reader.specs.Notes.{stdout_event as event_of_output};
ghost use Rattle.tap_bridge.specs.Events.{longest_tap_line};
ghost use Rattle.edge_io.specs.Limits.{most_at_once};
ghost use Rattle.packet_codec.specs.Canonical.{packets_of};
ghost use Rattle.filter_cli.specs.Lines.{last_line};
ghost use Rattle.filter_cli.specs.Tapped.{most_open, IsAdded};

use crate::packets::put_output;
use std::alloc::Global;
use sub_number::NoMemory;

/// The most bytes of a line of the protocol, and of a piece of one that is too long.
const LONGEST_LINE: usize = 65_536;

/// What was read of a line and is not decided, at most `LONGEST_LINE` bytes.
#[derive(Drop)]
pub(crate) struct OpenLine {
    pub(crate) held: Vec<u8>,
    // It is too long for a line of the protocol, and gave pieces.
    pub(crate) long: bool,
}

impl OpenLine {
    /// Nothing was read of it.
    pub(crate) fn new(alloc: Global) -> Self
        ensures held { result.held.items ≡ [] }
        ensures long { result.long ≡ false }
    {
        OpenLine {
            held: Vec::new(alloc),
            long: false,
        }
    }

    /// Whether nothing was read of it.
    pub(crate) fn is_new(&self) -> bool
        ensures { IsTrue result ↔ ((self.now.held.items ≡ []) × (self.now.long ≡ false)) }
    {
        self.held.is_empty() && !self.long
    }

    // How many bytes more leave it undecided.
    fn room(&self) -> usize
        requires { length self.now.held.items ≤ most_open self.now.long }
        ensures { result + length self.now.held.items ≡ most_open self.now.long }
    {
        if self.long {
            LONGEST_LINE - 1 - self.held.len()
        } else {
            LONGEST_LINE - self.held.len()
        }
    }

    /// Adds bytes of it, at most 65,536, and appends the pieces that they decide.
    pub(crate) fn add(&mut self, bytes: &[u8], text: &mut Vec<u8>) -> Result<(), NoMemory>
        requires held { length self.old.held.items ≤ most_open self.old.long }
        requires bytes { length bytes.now ≤ most_at_once }
        ensures { OnOk result (IsAdded self.old.held.items self.old.long bytes.now self.new.held.items self.new.long text.old.items text.new.items) }
    {
        if bytes.len() <= self.room() {
            self.held.extend_from_slice(bytes)?;
            return Ok(());
        }
        self.add_piece(bytes, text)?;
        Ok(())
    }

    // The same of bytes that fill up a piece.
    fn add_piece(&mut self, bytes: &[u8], text: &mut Vec<u8>) -> Result<(), NoMemory>
        requires held { length self.old.held.items ≤ most_open self.old.long }
        requires bytes { length bytes.now ≤ most_at_once }
        requires more { most_open self.old.long < length bytes.now + length self.old.held.items }
        ensures { OnOk result (IsAdded self.old.held.items self.old.long bytes.now self.new.held.items self.new.long text.old.items text.new.items) }
    {
        let (front, behind) = bytes.split_at(LONGEST_LINE - self.held.len());
        self.held.extend_from_slice(front)?;
        put_output(&self.held, text)?;
        self.held.clear();
        self.long = true;
        self.add_behind(behind, text)?;
        Ok(())
    }

    // The bytes behind a piece, which may be one more.
    fn add_behind(&mut self, bytes: &[u8], text: &mut Vec<u8>) -> Result<(), NoMemory>
        requires held { self.old.held.items ≡ [] }
        requires long { self.old.long ≡ true }
        requires bytes { length bytes.now ≤ most_at_once }
        ensures { OnOk result (IsAdded [] true bytes.now self.new.held.items self.new.long text.old.items text.new.items) }
    {
        if bytes.len() == LONGEST_LINE {
            put_output(bytes, text)?;
            return Ok(());
        }
        self.held.extend_from_slice(bytes)?;
        Ok(())
    }

    /// It has ended, and gave pieces: appends what is left of it.
    pub(crate) fn give_rest(&mut self, text: &mut Vec<u8>) -> Result<(), NoMemory>
        requires { length self.old.held.items ≤ longest_tap_line }
        ensures text { OnOk result (text.new.items ≡ text.old.items ++ packets_of (map event_of_output (last_line self.old.held.items))) }
        ensures held { OnOk result (self.new.held.items ≡ []) }
        ensures long { OnOk result (self.new.long ≡ false) }
    {
        self.long = false;
        if self.held.is_empty() {
            return Ok(());
        }
        put_output(&self.held, text)?;
        self.held.clear();
        Ok(())
    }
}
