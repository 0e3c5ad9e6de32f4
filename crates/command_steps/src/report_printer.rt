//! Prints the report of a run, and the lines of its causes, from where their parts stand, through a buffer, so that no text of
//! them all is made.

ghost use Rattle.std.specs.Prelude.{ℕ, List};
ghost use Rattle.std.specs.List.{filter, flat_map};
ghost use Rattle.outcome_fold.specs.Answers.{row_fails};
ghost use Rattle.outcome_fold.specs.Summed.{Sums};
ghost use Rattle.outcome_fold.specs.declared.row.Row.{Row as ARow};
ghost use Rattle.sub_text.specs.Texts.{failure_of, part_bytes};
ghost use Rattle.suite_causes.specs.Lines.{line_bytes};
ghost use Rattle.command_steps.specs.Reporting.{Prints, report_shown};
ghost use Rattle.command_steps.specs.Printing.{PrintsBehindHeld};

use crate::run_report::{Ending, PrintFault, print_text};
use arrayvec::ArrayVec;
use edge_io::{PIECE, Sink};
use outcome_fold::{Row, Summary};
use sub_text::failure_parts;
use suite_causes::CauseLine;

/// Prints the report of a run: the texts of those of its rows that fail, of which this is kept, and then how it ends. It takes
/// no memory.
pub fn print_report<O: Sink>(
    out: &mut O,
    ending: &Ending,
    summary: &Summary,
) -> Result<(), PrintFault>
    ensures { (filter_tags : List (List ℕ)) (rows : List ARow) → Sums filter_tags rows summary.now → Prints (report_shown (filter row_fails rows) ending.now).text (O.seen out.old) (O.seen out.new) result }
{
    let mut gathered: ArrayVec<u8, PIECE> = ArrayVec::new();
    put_failures(out, &mut gathered, summary.failing())?;
    put(out, &mut gathered, &ending.lines)?;
    print_text(out, gathered.as_slice())
}

/// Prints the line of a test whose cause was searched. It takes no memory.
pub(crate) fn print_cause_line<O: Sink>(out: &mut O, line: &CauseLine<'_>) -> Result<(), PrintFault>
    ensures { Prints (line_bytes line.now) (O.seen out.old) (O.seen out.new) result }
{
    let mut gathered: ArrayVec<u8, PIECE> = ArrayVec::new();
    put(out, &mut gathered, line.test)?;
    put(out, &mut gathered, line.said)?;
    put(out, &mut gathered, line.cause)?;
    put(out, &mut gathered, b"\n")?;
    print_text(out, gathered.as_slice())
}

// Puts the texts of the rows behind what is gathered.
fn put_failures<O: Sink, const ROOM: usize>(
    out: &mut O,
    gathered: &mut ArrayVec<u8, ROOM>,
    rows: &[Row],
) -> Result<(), PrintFault>
    ensures { PrintsBehindHeld (flat_map failure_of rows.now) gathered.old.items (O.seen out.old) gathered.new.items (O.seen out.new) result }
{
    for row in rows {
        put_parts(out, gathered, &failure_parts(row))?;
    }
    Ok(())
}

// Puts the parts behind what is gathered, one after another.
fn put_parts<O: Sink, const ROOM: usize>(
    out: &mut O,
    gathered: &mut ArrayVec<u8, ROOM>,
    parts: &[&[u8]],
) -> Result<(), PrintFault>
    ensures { PrintsBehindHeld (flat_map part_bytes parts.now) gathered.old.items (O.seen out.old) gathered.new.items (O.seen out.new) result }
{
    for part in parts {
        put(out, gathered, part)?;
    }
    Ok(())
}

// Puts the part behind what is gathered. Where it has no room there, that is printed first; and where it has none at all, it is
// printed as it stands.
fn put<O: Sink, const ROOM: usize>(
    out: &mut O,
    gathered: &mut ArrayVec<u8, ROOM>,
    part: &[u8],
) -> Result<(), PrintFault>
    ensures { PrintsBehindHeld part.now gathered.old.items (O.seen out.old) gathered.new.items (O.seen out.new) result }
{
    if gathered.try_extend_from_slice(part).is_ok() {
        return Ok(());
    }
    print_text(out, gathered.as_slice())?;
    gathered.clear();
    if gathered.try_extend_from_slice(part).is_ok() {
        return Ok(());
    }
    print_text(out, part)
}
