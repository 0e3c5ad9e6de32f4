//! A file of either kind.

ghost use Rattle.std.specs.Prelude.{◌≡◌, ◌↔◌, ◌++◌, ◌||◌, ◌&&◌, not, [], ◌∷◌, ℕ, List, Bool, true, IsTrue, IfOk, OnOk, OnErr};
ghost use Rattle.packet_codec.specs.declared.event.Event.{Event};
ghost use Rattle.old_runs.specs.Files.{IsOldFile, IsDamaged};
ghost use Rattle.old_runs.specs.Giving.{AppendsEvents};
ghost use Rattle.old_runs.specs.Fed.{CanBeFed, HasFedKind, HasFed, HasBegun, IsFed};

use crate::heard_lines::Verdict;
use crate::lines::OldLines;
use crate::stream::OldStream;
use packet_codec::{SIGNATURE, are_bytes};
use std::alloc::Global;
use sub_number::NoMemory;

/// Which of the two kinds a file is.
#[derive(Drop)]
pub(crate) enum Kind {
    /// Lines of version 1.
    Lines(OldLines),
    /// A stream of packets.
    Stream(OldStream),
}

impl Kind {
    // The file is a stream.
    fn begin_stream(&mut self, alloc: Global) -> Result<(), NoMemory>
        ensures ready { OnOk result (CanBeFed self.new) }
        ensures fed { OnOk result (HasFedKind true self.new [] []) }
        ensures err { OnErr result (self.new ≡ self.old) }
    {
        let stream = OldStream::new(alloc)?;
        *self = Kind::Stream(stream);
        Ok(())
    }

    // Takes the next bytes, and appends the packets of what they decide.
    fn feed(&mut self, piece: &[u8], packets: &mut Vec<u8>) -> Result<(), NoMemory>
        requires ready { CanBeFed self.old }
        ensures ready { OnOk result (CanBeFed self.new) }
        ensures fed { (stream : Bool) (bytes : List ℕ) (given : List Event) → HasFedKind stream self.old bytes given → OnOk result (AppendsEvents packets.old.items packets.new.items (λ more. HasFedKind stream self.new (bytes ++ piece.now) (given ++ more))) }
    {
        match self {
            Kind::Lines(lines) => {
                lines.feed(piece, packets)?;
                Ok(())
            }
            Kind::Stream(stream) => {
                stream.feed(piece, packets)?;
                Ok(())
            }
        }
    }
}

/// A file of a folder of the original tool, whose bytes come piece by piece.
///
/// Each event is handed on as soon as it is told, as its packet in shortest spelling, behind what stands in `packets`. A
/// file may be found damaged only at its end, when events of it were handed on. At most a line of 65,537 bytes is held and
/// what is told of one test, or the room of a reader of streams.
///
/// After `NoMemory`, which comes only for want of memory, the file is given up: nothing is said of what it knows.
#[derive(Drop)]
pub struct OldFile {
    alloc: Global,
    // Bytes were fed.
    begun: bool,
    kind: Kind,
}

impl OldFile {
    /// A file of which nothing was read. It takes no memory yet.
    pub fn new(alloc: Global) -> Self
        ensures { HasFed result [] [] }
    {
        OldFile {
            alloc,
            begun: false,
            kind: Kind::Lines(OldLines::new(alloc)),
        }
    }

    // The file begins with this byte, where nothing of it was read.
    fn begin(&mut self, first: u8) -> Result<(), NoMemory>
        requires ready { CanBeFed self.old.kind }
        ensures ready { OnOk result (CanBeFed self.new.kind) }
        ensures begun { (bytes : List ℕ) (given : List Event) → HasFed self.old bytes given → OnOk result (HasBegun self.new bytes given first) }
    {
        if self.begun {
            return Ok(());
        }
        if first == SIGNATURE {
            self.kind.begin_stream(self.alloc)?;
            self.begun = true;
            return Ok(());
        }
        self.begun = true;
        Ok(())
    }

    /// Takes the next bytes of the file, and appends the packets of the events that they decide.
    pub fn feed(&mut self, piece: &[u8], packets: &mut Vec<u8>) -> Result<(), NoMemory>
        requires going_on { IsFed self.old }
        ensures going_on { OnOk result (IsFed self.new) }
        ensures fed { (bytes : List ℕ) (given : List Event) → HasFed self.old bytes given → OnOk result (AppendsEvents packets.old.items packets.new.items (λ more. HasFed self.new (bytes ++ piece.now) (given ++ more))) }
    {
        if piece.is_empty() {
            return Ok(());
        }
        are_bytes(piece);
        self.begin(piece[0])?;
        self.kind.feed(piece, packets)?;
        Ok(())
    }

    /// Ends the file, and appends the packets of the events that the end decides. Answers whether the file is damaged.
    pub fn close(self, packets: &mut Vec<u8>) -> Result<bool, NoMemory>
        requires going_on { IsFed self }
        ensures events { (bytes : List ℕ) (given : List Event) → HasFed self bytes given → OnOk result (AppendsEvents packets.old.items packets.new.items (λ more. IsOldFile bytes (given ++ more))) }
        ensures damaged { (bytes : List ℕ) (given : List Event) → HasFed self bytes given → IfOk result (λ damaged. IsTrue damaged ↔ IsDamaged bytes) }
    {
        let OldFile {
            alloc: _alloc,
            begun,
            kind,
        } = self;
        match kind {
            Kind::Lines(lines) => {
                let verdict = lines.close(packets)?;
                Ok(is_damaged(begun, verdict))
            }
            Kind::Stream(stream) => {
                let told = stream.close(packets)?;
                Ok(!told)
            }
        }
    }
}

// Whether lines are damaged of which this is known at the end.
fn is_damaged(begun: bool, verdict: Verdict) -> bool
    ensures { result ≡ (verdict.open_parts || (begun && not verdict.told)) }
{
    verdict.open_parts || (begun && !verdict.told)
}
