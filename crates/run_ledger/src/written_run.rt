//! What is kept of the rows of a run that is heard as it is written.

ghost use Rattle.std.specs.Prelude.{◌≡◌, ◌≤◌, ◌<◌, [], ◌∷◌, ◌++◌, ℕ, List, length, IfOk, OnOk};
ghost use Rattle.std.specs.Option.{option_to_list};
ghost use Rattle.packet_codec.specs.Grammar.{SpellsFront};
ghost use Rattle.packet_codec.specs.Packet.{SpellsEvent};
ghost use Rattle.packet_codec.specs.Packets.{ArePackets, ArePacketsOf};
ghost use Rattle.packet_codec.specs.declared.event.Event.{Event};
ghost use Rattle.outcome_fold.specs.Rows.{completed_behind, completed_row, open_rows, rows_of};
ghost use Rattle.outcome_fold.specs.Summed.{HasSummed, Sums};
ghost use Rattle.outcome_fold.specs.declared.row.Row.{Row as ARow};
ghost use Rattle.run_ledger.specs.Reading.{SumsRowsOf};
ghost use Rattle.run_ledger.specs.Writing.{HasHeardEvents, HasWrittenRun};

use outcome_fold::{Row, RowListener, RowSums, Summary};
use packet_codec::{Tags, front_packet};
use std::alloc::Global;
use sub_number::NoMemory;

/// A run that is heard as it is written, by whole packets. What is kept of its rows is that of the bytes written, which are
/// not read again.
#[derive(Drop)]
pub struct WrittenRun {
    summing: RowSums,
}

impl WrittenRun {
    /// A run of which nothing was written. A row that has one of the tags and does not fail is not counted. It takes no
    /// memory yet.
    pub fn new(alloc: Global, filter_tags: Tags) -> Self
        ensures written { HasWrittenRun filter_tags result [] }
        ensures heard { HasHeardEvents filter_tags result [] }
    {
        WrittenRun {
            summing: RowSums::new(alloc, filter_tags),
        }
    }

    /// Hears what is written next, which is packets: of each of them what is kept is copied from where it stands. That they
    /// are packets is known, so that none of them is tested again.
    ///
    /// `NoMemory` comes for want of memory, and where a count or the sum of the times no longer fits its number, which no run
    /// is long enough for. Nothing is known then of the rows.
    pub fn hear(&mut self, written: &[u8]) -> Result<(), NoMemory>
        requires packets { ArePackets written.now }
        ensures { (filter_tags : List (List ℕ)) (run : List ℕ) → HasWrittenRun filter_tags self.old run → OnOk result (HasWrittenRun filter_tags self.new (run ++ written.now)) }
    {
        self.hear_with(written, &mut DeafToRows)
    }

    /// The same, and the listener hears the rows that the events complete, in their order. `NoMemory` comes where it answers
    /// it, too; nothing is known then of what it has heard either.
    pub fn hear_with<L: RowListener>(
        &mut self,
        written: &[u8],
        listener: &mut L,
    ) -> Result<(), NoMemory>
        requires packets { ArePackets written.now }
        ensures written { (filter_tags : List (List ℕ)) (run : List ℕ) → HasWrittenRun filter_tags self.old run → OnOk result (HasWrittenRun filter_tags self.new (run ++ written.now)) }
        ensures summed { (filter_tags : List (List ℕ)) (seen events : List Event) → ArePacketsOf events written.now → HasHeardEvents filter_tags self.old seen → OnOk result (HasHeardEvents filter_tags self.new (seen ++ events)) }
        ensures heard { (filter_tags : List (List ℕ)) (seen events : List Event) (begun : L) (rows : List ARow) → ArePacketsOf events written.now → HasHeardEvents filter_tags self.old seen → L.heard begun listener.old rows → OnOk result (L.heard begun listener.new (rows ++ completed_behind seen events)) }
    {
        hear_packets(written, &mut self.summing, listener)
    }

    /// Ends the run, and gives what is kept of its rows.
    ///
    /// `NoMemory` comes as by `hear`.
    pub fn close(self) -> Result<Summary, NoMemory>
        ensures { (filter_tags : List (List ℕ)) (run : List ℕ) → HasWrittenRun filter_tags self run → IfOk result (SumsRowsOf filter_tags run) }
    {
        self.close_with(&mut DeafToRows)
    }

    /// The same, and the listener hears the rows of the tests that did not end, by route, no route first, and then by id.
    ///
    /// `NoMemory` comes as by `hear_with`.
    pub fn close_with<L: RowListener>(self, listener: &mut L) -> Result<Summary, NoMemory>
        ensures sums { (filter_tags : List (List ℕ)) (run : List ℕ) → HasWrittenRun filter_tags self run → IfOk result (SumsRowsOf filter_tags run) }
        ensures rows { (filter_tags : List (List ℕ)) (seen : List Event) → HasHeardEvents filter_tags self seen → IfOk result (Sums filter_tags (rows_of seen)) }
        ensures heard { (filter_tags : List (List ℕ)) (seen : List Event) (begun : L) (rows : List ARow) → HasHeardEvents filter_tags self seen → L.heard begun listener.old rows → OnOk result (L.heard begun listener.new (rows ++ open_rows seen)) }
    {
        self.summing.close_with(listener)
    }
}

// Hears no row.
#[derive(Drop)]
struct DeafToRows;

impl RowListener for DeafToRows {
    ghost use Rattle.std.specs.Prelude.{⊤};

    ghost heard = { λ _ _ _. ⊤ };

    fn hear_row(&mut self, _row: &Row) -> Result<(), NoMemory> {
        Ok(())
    }
}

// Hears the packets that the bytes are.
fn hear_packets<L: RowListener>(
    bytes: &[u8],
    summing: &mut RowSums,
    listener: &mut L,
) -> Result<(), NoMemory>
    requires packets { ArePackets bytes.now }
    ensures summed { (filter_tags : List (List ℕ)) (seen events : List Event) → ArePacketsOf events bytes.now → HasSummed filter_tags summing.old seen → OnOk result (HasSummed filter_tags summing.new (seen ++ events)) }
    ensures heard { (filter_tags : List (List ℕ)) (seen events : List Event) (begun : L) (rows : List ARow) → ArePacketsOf events bytes.now → HasSummed filter_tags summing.old seen → L.heard begun listener.old rows → OnOk result (L.heard begun listener.new (rows ++ completed_behind seen events)) }
{
    let mut left = bytes;
    while !left.is_empty() {
        let size = hear_packet(left, summing, listener)?;
        left = &left[size..];
    }
    Ok(())
}

// Hears the packet that the bytes begin with, and answers its size.
fn hear_packet<L: RowListener>(
    bytes: &[u8],
    summing: &mut RowSums,
    listener: &mut L,
) -> Result<usize, NoMemory>
    requires packet { (event : Event) × (behind : List ℕ) × SpellsFront SpellsEvent bytes.now event behind }
    ensures in_range { IfOk result (λ size. (0 < size) × (size ≤ length bytes.now)) }
    ensures size { (event : Event) (behind : List ℕ) → (found : SpellsFront SpellsEvent bytes.now event behind) → IfOk result (λ size. size ≡ length found.front) }
    ensures summed { (filter_tags : List (List ℕ)) (seen : List Event) (event : Event) (behind : List ℕ) → SpellsFront SpellsEvent bytes.now event behind → HasSummed filter_tags summing.old seen → OnOk result (HasSummed filter_tags summing.new (seen ++ event ∷ [])) }
    ensures heard { (filter_tags : List (List ℕ)) (seen : List Event) (event : Event) (behind : List ℕ) (begun : L) (rows : List ARow) → SpellsFront SpellsEvent bytes.now event behind → HasSummed filter_tags summing.old seen → L.heard begun listener.old rows → OnOk result (L.heard begun listener.new (rows ++ option_to_list (completed_row seen event))) }
{
    let packet = front_packet(bytes);
    summing.hear_with(&packet, listener)?;
    Ok(packet.size())
}
