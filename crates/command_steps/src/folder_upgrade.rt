//! The step that makes a folder of the original tool a repository, and what is printed of it.

ghost use Rattle.command_steps.specs.Upgrading.{UpgradesFolder, upgraded_text};
ghost use Rattle.command_steps.specs.Reporting.{Prints};

use crate::refusal_line::{Line, Part, Refuses, tell_line};
use crate::run_report::PrintFault;
use edge_io::{Shelf, Sink};
use old_upgrade::{UpgradeFault, upgrade};
use std::alloc::Global;

/// Makes a folder of the original tool a repository of its runs, and answers how many there are.
pub fn upgrade_folder<H: Shelf>(alloc: Global, shelf: &mut H) -> Result<u32, UpgradeFault>
    ensures { UpgradesFolder (H.seen shelf.old) (H.seen shelf.new) result }
{
    upgrade(alloc, shelf)
}

/// Prints how many runs there are. It takes no memory.
pub fn print_upgraded<O: Sink>(out: &mut O, count: u32) -> Result<(), PrintFault>
    ensures { Prints (upgraded_text count) (O.seen out.old) (O.seen out.new) result }
{
    let line = Line {
        front: "upgraded ",
        part: Part::Number(count),
        rest: " runs\n",
    };
    tell_line(out, line)?;
    Ok(())
}

impl<'a> Refuses<'a> for UpgradeFault {
    ghost use Rattle.command_steps.specs.Upgrading.{upgrade_exit_status, upgrade_text};

    ghost status = { upgrade_exit_status };

    ghost text = { upgrade_text };

    fn exit_status(self) -> u8 {
        match self {
            UpgradeFault::NoStore
            | UpgradeFault::NotOld
            | UpgradeFault::UnknownFormat
            | UpgradeFault::BadCount
            | UpgradeFault::BadRun(_)
            | UpgradeFault::BadFailing => 3,
            UpgradeFault::Shelf(_) => 4,
            UpgradeFault::NoMemory => 5,
        }
    }

    fn line(self) -> Line<'a> {
        match self {
            UpgradeFault::NoStore => Line::of("testr: no repository here\n"),
            UpgradeFault::NotOld => Line::of("testr: nothing to upgrade\n"),
            UpgradeFault::UnknownFormat => Line::of("testr: unknown repository format\n"),
            UpgradeFault::BadCount => Line::of("testr: next-stream is no number\n"),
            UpgradeFault::BadRun(number) => Line {
                front: "testr: run ",
                part: Part::Number(number),
                rest: " is damaged\n",
            },
            UpgradeFault::BadFailing => Line::of("testr: the failing set is damaged\n"),
            UpgradeFault::Shelf(_) => Line::of("testr: fault of the repository folder\n"),
            UpgradeFault::NoMemory => Line::of("testr: out of memory\n"),
        }
    }
}
