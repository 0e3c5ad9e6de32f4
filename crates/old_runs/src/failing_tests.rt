//! The tests that fail in a file.

ghost use Rattle.std.specs.Prelude.{◌≡◌, ◌↔◌, ◌<◌, ◌≤◌, ◌++◌, [], ◌∷◌, ℕ, List, None, length, IfOk, IfSome, OnOk};
ghost use Rattle.packet_codec.specs.Grammar.{SpellsFront};
ghost use Rattle.packet_codec.specs.Packet.{SpellsEvent};
ghost use Rattle.packet_codec.specs.Packets.{ArePackets, ArePacketsOf};
ghost use Rattle.packet_codec.specs.declared.event.Event.{Event};
ghost use Rattle.outcome_fold.specs.Outcome.{HasFolded};
ghost use Rattle.old_runs.specs.Files.{AreFailingIn, IsDamaged};
ghost use Rattle.old_runs.specs.Fed.{HasHeardFile, HasHeardSome};

use crate::file::OldFile;
use outcome_fold::Outcomes;
use packet_codec::front_packet;
use std::alloc::Global;
use sub_number::{IdList, NoMemory};

/// A file whose tests are folded, whose bytes come piece by piece.
///
/// After `NoMemory`, which comes only for want of memory, the file is given up: nothing is said of what it knows.
#[derive(Drop)]
pub struct OldFailing {
    alloc: Global,
    file: OldFile,
    outcomes: Outcomes,
    // What a piece gave, kept for its room.
    packets: Vec<u8>,
}

impl OldFailing {
    /// A file of which nothing was read. It takes no memory yet.
    pub fn new(alloc: Global) -> Self
        ensures { HasHeardFile result [] }
    {
        OldFailing {
            alloc,
            file: OldFile::new(alloc),
            outcomes: Outcomes::new(alloc),
            packets: Vec::new(alloc),
        }
    }

    /// Takes the next bytes of the file.
    pub fn feed(&mut self, piece: &[u8]) -> Result<(), NoMemory>
        requires going_on { HasHeardSome self.old }
        ensures going_on { OnOk result (HasHeardSome self.new) }
        ensures heard { (bytes : List ℕ) → HasHeardFile self.old bytes → OnOk result (HasHeardFile self.new (bytes ++ piece.now)) }
    {
        self.packets.clear();
        self.file.feed(piece, &mut self.packets)?;
        hear_packets(&self.packets, &mut self.outcomes)?;
        Ok(())
    }

    /// Ends the file, and gives the ids that fail in the rows of its events, in the order of their bytes, each once; none
    /// where the file is damaged.
    pub fn close(self) -> Result<Option<IdList>, NoMemory>
        requires going_on { HasHeardSome self }
        ensures none { (bytes : List ℕ) → HasHeardFile self bytes → IfOk result (λ answer. (answer ≡ None) ↔ IsDamaged bytes) }
        ensures some { (bytes : List ℕ) → HasHeardFile self bytes → IfOk result (λ answer. IfSome answer (AreFailingIn bytes)) }
    {
        let OldFailing {
            alloc,
            file,
            mut outcomes,
            mut packets,
        } = self;
        packets.clear();
        let damaged = file.close(&mut packets)?;
        hear_packets(&packets, &mut outcomes)?;
        if damaged {
            return Ok(None);
        }
        let rows = outcomes.close()?;
        let ids = rows.failing_ids(alloc)?;
        Ok(Some(ids))
    }
}

// Hears the packets that the bytes are.
fn hear_packets(bytes: &[u8], outcomes: &mut Outcomes) -> Result<(), NoMemory>
    requires packets { ArePackets bytes.now }
    ensures { (seen events : List Event) → ArePacketsOf events bytes.now → HasFolded outcomes.old seen → OnOk result (HasFolded outcomes.new (seen ++ events)) }
{
    let mut left = bytes;
    while !left.is_empty() {
        let size = hear_packet(left, outcomes)?;
        left = &left[size..];
    }
    Ok(())
}

// Hears the packet that the bytes begin with, and answers its size.
fn hear_packet(bytes: &[u8], outcomes: &mut Outcomes) -> Result<usize, NoMemory>
    requires packet { (event : Event) × (behind : List ℕ) × SpellsFront SpellsEvent bytes.now event behind }
    ensures in_range { IfOk result (λ size. (0 < size) × (size ≤ length bytes.now)) }
    ensures size { (event : Event) (behind : List ℕ) → (found : SpellsFront SpellsEvent bytes.now event behind) → IfOk result (λ size. size ≡ length found.front) }
    ensures heard { (seen : List Event) (event : Event) (behind : List ℕ) → SpellsFront SpellsEvent bytes.now event behind → HasFolded outcomes.old seen → OnOk result (HasFolded outcomes.new (seen ++ event ∷ [])) }
{
    let packet = front_packet(bytes);
    outcomes.hear(&packet)?;
    Ok(packet.size())
}
