//! Bytes as lines of version 1.

ghost use Rattle.std.specs.Prelude.{◌≡◌, ◌↔◌, ◌+◌, ◌<◌, ◌≤◌, ◌++◌, ◌∷◌, [], ℕ, List, length, true, false, IsTrue, IfOk, OnOk};
ghost use Rattle.std.specs.List.{list_any};
ghost use Rattle.packet_codec.specs.declared.event.Event.{Event};
ghost use Rattle.v1_bridge.specs.Lines.{without_newline, HasNoNewline};
ghost use Rattle.v1_bridge.specs.Cutting.{lines_of};
ghost use Rattle.v1_bridge.specs.Events.{longest_v1_line};
ghost use Rattle.v1_bridge.specs.Reading.{Input, front_piece, v1_events, last_input};
ghost use Rattle.v1_bridge.specs.Kept.{HoldsLittle};
ghost use Rattle.old_runs.specs.Files.{has_id, HasOpenParts, inputs_in};
ghost use Rattle.old_runs.specs.Giving.{AppendsEvents};
ghost use Rattle.old_runs.specs.Lines.{HasHeardLines, HasCut, HasFedLines, AreReadyLines, most_held_of_line};

use crate::heard_lines::{Heard, Verdict};
use memchr::memchr;
use std::alloc::Global;
use sub_number::NoMemory;

/// The most bytes of a line, and of a piece of one that is too long.
const LONGEST_LINE: usize = 65_536;

/// Lines of version 1 whose bytes come piece by piece. At most 65,537 bytes of a line are held.
#[derive(Drop)]
pub(crate) struct OldLines {
    heard: Heard,
    // What was read of a line and is not heard yet.
    held: Vec<u8>,
    // The line is too long, and pieces of it were heard.
    long: bool,
}

impl OldLines {
    /// Nothing was read.
    pub(crate) fn new(alloc: Global) -> Self
        ensures fed { HasFedLines result [] [] }
        ensures ready { AreReadyLines result }
    {
        OldLines {
            heard: Heard::new(alloc),
            held: Vec::new(alloc),
            long: false,
        }
    }

    // How many bytes more may be held of the line.
    fn room(&self) -> usize
        requires { length self.now.held.items ≤ most_held_of_line self.now.long }
        ensures { result + length self.now.held.items ≡ most_held_of_line self.now.long }
    {
        if self.long {
            LONGEST_LINE - 1 - self.held.len()
        } else {
            LONGEST_LINE - self.held.len()
        }
    }

    // Bytes that fill up a piece of a line that is too long.
    fn fill(&mut self, bytes: &[u8], packets: &mut Vec<u8>) -> Result<(), NoMemory>
        requires full { length bytes.now + length self.old.held.items ≡ longest_v1_line }
        requires little { HoldsLittle self.old.heard.reader }
        ensures held { OnOk result (self.new.held.items ≡ []) }
        ensures long { OnOk result (self.new.long ≡ true) }
        ensures heard { (inputs : List Input) (given : List Event) → HasHeardLines self.old.heard inputs given → OnOk result (AppendsEvents packets.old.items packets.new.items (λ more. HasHeardLines self.new.heard (inputs ++ front_piece (self.old.held.items ++ bytes.now) ∷ []) (given ++ more))) }
        ensures little { OnOk result (HoldsLittle self.new.heard.reader) }
    {
        self.held.extend_from_slice(bytes)?;
        self.heard.piece(&self.held, false, packets)?;
        self.held.clear();
        self.long = true;
        Ok(())
    }

    // Adds bytes of the line.
    fn add(&mut self, bytes: &[u8], packets: &mut Vec<u8>) -> Result<(), NoMemory>
        requires plain { HasNoNewline bytes.now }
        requires ready { AreReadyLines self.old }
        ensures ready { OnOk result (AreReadyLines self.new) }
        ensures cut { (all left : List ℕ) (given : List Event) → HasCut self.old all (bytes.now ++ left) given → OnOk result (AppendsEvents packets.old.items packets.new.items (λ more. HasCut self.new all left (given ++ more))) }
    {
        let mut rest = bytes;
        while rest.len() > self.room() {
            let (front, behind) = rest.split_at(LONGEST_LINE - self.held.len());
            self.fill(front, packets)?;
            rest = behind;
        }
        self.held.extend_from_slice(rest)?;
        Ok(())
    }

    // Hears what is left of the line.
    fn take_rest(&mut self, packets: &mut Vec<u8>) -> Result<(), NoMemory>
        requires short { length (without_newline self.old.held.items) ≤ longest_v1_line }
        requires little { HoldsLittle self.old.heard.reader }
        ensures heard { (inputs : List Input) (given : List Event) → HasHeardLines self.old.heard inputs given → OnOk result (AppendsEvents packets.old.items packets.new.items (λ more. HasHeardLines self.new.heard (inputs ++ last_input self.old.long self.old.held.items ∷ []) (given ++ more))) }
        ensures little { OnOk result (HoldsLittle self.new.heard.reader) }
    {
        if self.long {
            self.heard.piece(&self.held, true, packets)?;
            return Ok(());
        }
        self.heard.line(&self.held, packets)?;
        Ok(())
    }

    // The line's newline.
    fn end_line(&mut self, packets: &mut Vec<u8>) -> Result<(), NoMemory>
        requires ready { AreReadyLines self.old }
        ensures ready { OnOk result (AreReadyLines self.new) }
        ensures cut { (all left : List ℕ) (given : List Event) → HasCut self.old all (10 ∷ left) given → OnOk result (AppendsEvents packets.old.items packets.new.items (λ more. HasCut self.new all left (given ++ more))) }
    {
        self.held.push(b'\n')?;
        self.take_rest(packets)?;
        self.held.clear();
        self.long = false;
        Ok(())
    }

    /// Takes the next bytes, and appends the packets of what they decide.
    pub(crate) fn feed(&mut self, piece: &[u8], packets: &mut Vec<u8>) -> Result<(), NoMemory>
        requires ready { AreReadyLines self.old }
        ensures ready { OnOk result (AreReadyLines self.new) }
        ensures fed { (bytes : List ℕ) (given : List Event) → HasFedLines self.old bytes given → OnOk result (AppendsEvents packets.old.items packets.new.items (λ more. HasFedLines self.new (bytes ++ piece.now) (given ++ more))) }
    {
        let mut left = piece;
        while let Some(count) = memchr(b'\n', left) {
            self.add(&left[..count], packets)?;
            self.end_line(packets)?;
            left = &left[count + 1..];
        }
        self.add(left, packets)?;
        Ok(())
    }

    // Whether nothing was read of the line.
    fn is_new(&self) -> bool
        ensures { IsTrue result ↔ ((self.now.held.items ≡ []) × (self.now.long ≡ false)) }
    {
        self.held.is_empty() && !self.long
    }

    // What follows the last newline is a line where it is not empty.
    fn end_last(&mut self, packets: &mut Vec<u8>) -> Result<(), NoMemory>
        requires ready { AreReadyLines self.old }
        ensures heard { (bytes : List ℕ) (given : List Event) → HasFedLines self.old bytes given → OnOk result (AppendsEvents packets.old.items packets.new.items (λ more. HasHeardLines self.new.heard (inputs_in bytes) (given ++ more))) }
        ensures little { OnOk result (HoldsLittle self.new.heard.reader) }
    {
        if self.is_new() {
            return Ok(());
        }
        self.take_rest(packets)?;
        Ok(())
    }

    /// Ends the lines, and appends the packets of what the end decides.
    pub(crate) fn close(self, packets: &mut Vec<u8>) -> Result<Verdict, NoMemory>
        requires ready { AreReadyLines self }
        ensures events { (bytes : List ℕ) (given : List Event) → HasFedLines self bytes given → IfOk result (λ verdict. AppendsEvents packets.old.items packets.new.items (λ more. (given ++ more ≡ v1_events (lines_of bytes)) × (verdict.told ≡ list_any has_id (given ++ more)))) }
        ensures open_parts { (bytes : List ℕ) (given : List Event) → HasFedLines self bytes given → IfOk result (λ verdict. (verdict.open_parts ≡ true) ↔ HasOpenParts (inputs_in bytes)) }
    {
        let mut lines = self;
        lines.end_last(packets)?;
        let verdict = lines.heard.close(packets)?;
        Ok(verdict)
    }
}
