//! The rows of a run that are summed up as they are completed.

ghost use Rattle.std.specs.Prelude.{◌≡◌, [], ◌∷◌, ◌++◌, ℕ, List, IfOk, OnOk};
ghost use Rattle.std.specs.Option.{option_to_list};
ghost use Rattle.packet_codec.specs.Packet.{SpellsEvent};
ghost use Rattle.packet_codec.specs.declared.event.Event.{Event as AnEvent};
ghost use Rattle.outcome_fold.specs.Rows.{rows_of, completed_row, open_rows};
ghost use Rattle.outcome_fold.specs.declared.row.Row.{Row as ARow};

use crate::fold::Fold;
use crate::row_listener::{DeafToRows, RowListener, hear_rows};
use crate::summary::Summary;
use packet_codec::{Packet, Tags};
use std::alloc::Global;
use sub_number::NoMemory;

/// The outcomes of a run so far, of which the rows that fail are kept, and of the others what they say together.
#[derive(Drop)]
pub struct RowSums {
    alloc: Global,
    filter_tags: Tags,
    fold: Fold,
    summary: Summary,
}

impl RowSums {
    ghost use Rattle.outcome_fold.specs.Summed.{Sums, HasSummed};

    /// The outcomes of no event. A row that has one of the tags and does not fail is not counted. It takes no memory yet.
    pub fn new(alloc: Global, filter_tags: Tags) -> Self
        ensures { HasSummed filter_tags result [] }
    {
        RowSums {
            alloc,
            filter_tags,
            fold: Fold::new(alloc),
            summary: Summary::new(alloc),
        }
    }

    /// Takes the event that the packet spells, which is not made: what is needed of it is copied from where it stands.
    ///
    /// `NoMemory` comes for want of memory, and where a count or the sum of the times no longer fits its number, which no run
    /// is long enough for. Nothing is known then of the outcomes.
    #[inline]
    pub fn hear(&mut self, packet: &Packet<'_>) -> Result<(), NoMemory>
        ensures { (filter_tags : List (List ℕ)) (seen : List AnEvent) (e : AnEvent) → SpellsEvent packet.now e → HasSummed filter_tags self.old seen → OnOk result (HasSummed filter_tags self.new (seen ++ e ∷ [])) }
    {
        self.hear_with(packet, &mut DeafToRows)
    }

    /// The same, and the listener hears the row that the event completes, where it completes one.
    ///
    /// `NoMemory` comes as by `hear`, and where the listener answers it. Nothing is known then of what was heard either.
    #[inline]
    pub fn hear_with<L: RowListener>(
        &mut self,
        packet: &Packet<'_>,
        listener: &mut L,
    ) -> Result<(), NoMemory>
        ensures summed { (filter_tags : List (List ℕ)) (seen : List AnEvent) (e : AnEvent) → SpellsEvent packet.now e → HasSummed filter_tags self.old seen → OnOk result (HasSummed filter_tags self.new (seen ++ e ∷ [])) }
        ensures heard { (filter_tags : List (List ℕ)) (seen : List AnEvent) (e : AnEvent) (begun : L) (rows : List ARow) → SpellsEvent packet.now e → HasSummed filter_tags self.old seen → L.heard begun listener.old rows → OnOk result (L.heard begun listener.new (rows ++ option_to_list (completed_row seen e))) }
    {
        match self.fold.hear(packet)? {
            Some(row) => {
                listener.hear_row(&row)?;
                self.summary.take(&self.filter_tags, row)
            }
            None => Ok(()),
        }
    }

    /// Ends the run, and gives what is kept of its rows: of those of the run's events, in the order of the rows.
    ///
    /// `NoMemory` comes as by `hear`.
    pub fn close(self) -> Result<Summary, NoMemory>
        ensures { (filter_tags : List (List ℕ)) (seen : List AnEvent) → HasSummed filter_tags self seen → IfOk result (Sums filter_tags (rows_of seen)) }
    {
        self.close_with(&mut DeafToRows)
    }

    /// The same, and the listener hears the rows of the tests that did not end, by route, no route first, and then by id.
    ///
    /// `NoMemory` comes as by `hear_with`.
    pub fn close_with<L: RowListener>(self, listener: &mut L) -> Result<Summary, NoMemory>
        ensures summed { (filter_tags : List (List ℕ)) (seen : List AnEvent) → HasSummed filter_tags self seen → IfOk result (Sums filter_tags (rows_of seen)) }
        ensures heard { (filter_tags : List (List ℕ)) (seen : List AnEvent) (begun : L) (rows : List ARow) → HasSummed filter_tags self seen → L.heard begun listener.old rows → OnOk result (L.heard begun listener.new (rows ++ open_rows seen)) }
    {
        let RowSums {
            alloc,
            filter_tags,
            fold,
            mut summary,
        } = self;
        let open = fold.close()?;
        hear_rows(&open, listener)?;
        summary.take_all(&filter_tags, open)?;
        summary.in_order(alloc)
    }
}
