//! `testr upgrade`.

ghost use Rattle.testr_commands.specs.Upgrade.{UpgradesAll};
ghost use Rattle.command_steps.specs.Outside.{shown};

use crate::{Refusal, Verdict};
use command_steps::{print_upgraded, upgrade_folder};
use edge_io::{Shelf, Sink};
use std::alloc::Global;

/// Makes a folder of the original tool a repository of its runs, and prints how many there are.
pub fn upgrade<H: Shelf, O: Sink>(
    alloc: Global,
    shelf: &mut H,
    out: &mut O,
) -> Result<Verdict, Refusal<'static>>
    ensures { UpgradesAll (shown (H.seen shelf.old) (O.seen out.old)) (shown (H.seen shelf.new) (O.seen out.new)) result }
{
    let count = upgrade_folder(alloc, shelf)?;
    print_upgraded(out, count)?;
    Ok(Verdict::Passed)
}
