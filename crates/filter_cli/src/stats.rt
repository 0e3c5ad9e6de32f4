//! The counts of a stream.

ghost use Rattle.std.specs.Prelude.{◌≡◌, List, ◌++◌, OnOk};
ghost use Rattle.std.specs.Option.{option_map, option_to_list};
ghost use Rattle.outcome_fold.specs.EndedParts.{row_of_part};
ghost use Rattle.outcome_fold.specs.declared.row.Row.{Row as ARow};
ghost use Rattle.filter_cli.specs.Tally.{HasTallied};

use crate::loose_output::{put_foreign, put_loose};
use crate::notes::NoteFilter;
use crate::tally::Tally;
use outcome_fold::{EndedPart, Fold};
use packet_codec::Packet;
use std::alloc::Global;
use sub_number::NoMemory;
use sub_text::counts_text;

/// How tests are counted.
#[derive(Clone, Copy, Debug, PartialEq, Eq)]
pub struct Counting {
    /// Without output of no test.
    pub hidden: bool,
}

/// Counts the tests of a stream, and names the tags that were seen, at its end. Of a test that is complete one byte is
/// kept.
#[derive(Drop)]
pub(crate) struct Stats {
    alloc: Global,
    counting: Counting,
    fold: Fold,
    tally: Tally,
}

impl Stats {
    ghost use Rattle.std.specs.Prelude.{[]};
    ghost use Rattle.outcome_fold.specs.Folded.{HasSeen};

    /// The counts of nothing yet.
    pub(crate) fn new(alloc: Global, counting: Counting) -> Self
        ensures counting { result.counting ≡ counting }
        ensures fold { HasSeen result.fold [] }
        ensures tally { HasTallied result.tally [] }
    {
        Stats {
            alloc,
            counting,
            fold: Fold::new(alloc),
            tally: Tally::new(alloc),
        }
    }
}

impl NoteFilter for Stats {
    ghost use Rattle.outcome_fold.specs.Folded.{HasSeen};
    ghost use Rattle.outcome_fold.specs.Rows.{completed_rows};
    ghost use Rattle.filter_cli.specs.Events.{events_among};
    ghost use Rattle.filter_cli.specs.Stats.{stats_plan};

    ghost plan = { λ f. stats_plan f.counting };

    ghost has = { λ f notes. HasSeen f.fold (events_among notes) × HasTallied f.tally (completed_rows (events_among notes)) };

    #[inline(always)]
    fn take(&mut self, packet: &Packet<'_>, text: &mut Vec<u8>) -> Result<(), NoMemory> {
        put_loose(self.counting.hidden, packet, text)?;
        let part = self.fold.hear_part(packet)?;
        count_part(&mut self.tally, &part)?;
        Ok(())
    }

    fn take_foreign(&mut self, bytes: &[u8], text: &mut Vec<u8>) -> Result<(), NoMemory> {
        put_foreign(self.counting.hidden, bytes, text)?;
        Ok(())
    }

    fn close(self, text: &mut Vec<u8>) -> Result<u8, NoMemory> {
        let Stats {
            alloc,
            counting: _counting,
            fold,
            mut tally,
        } = self;
        let rows = fold.close()?;
        tally.add_all(&rows)?;
        let counts = tally.counts();
        let tags = tally.tags.into_tags(alloc)?;
        counts_text(counts, &tags, text)?;
        Ok(u8::from(counts.failed > 0))
    }

    fn let_go(self) {}
}

// Counts the part of a test that has ended, where there is one.
#[inline(always)]
fn count_part(tally: &mut Tally, part: &Option<EndedPart>) -> Result<(), NoMemory>
    ensures { (rows : List ARow) → HasTallied tally.old rows → OnOk result (HasTallied tally.new (rows ++ option_to_list (option_map row_of_part part.now))) }
{
    if let Some(part) = part {
        tally.add_part(part)?;
    }
    Ok(())
}
