//! The names of the files of runs, and how many runs there are by them.

ghost use Rattle.std.specs.Prelude.{◌≡◌, ◌<◌, ◌≤◌, Bool, IfSome, IfNone};
ghost use Rattle.run_shelf.specs.Names.{SpellsRun, SpellsNoRun, SpellsRunNumber, SpellsNoRunNumber};
ghost use Rattle.run_shelf.specs.Repository.{most_runs, full_name as name_of};
ghost use Rattle.old_folder.specs.Looking.{Raises, NamesCount};

use arrayvec::ArrayString;
use itoa::Buffer;
use run_shelf::MOST_RUNS;
use std::str;
use sub_number::Text;

/// The name of the file of the run of this number. It takes no memory.
pub(crate) fn run_name(number: u32) -> ArrayString<16>
    requires { number < most_runs }
    ensures { result.bytes ≡ name_of number }
{
    let mut digits = Buffer::new();
    let mut name = ArrayString::new();
    name.push_str(digits.format(number));
    name
}

/// How many runs there are by these names, where this number comes next: as many, or one more than the greatest number that
/// has a file. Each name is read once.
pub(crate) fn run_count(names: &[Text], next: u32) -> u32
    requires { next ≤ most_runs }
    ensures { NamesCount names.now next result }
{
    let mut count = next;
    for name in names {
        count = raised(name.bytes(), count);
    }
    count
}

// How many runs there are with this name, too.
fn raised(name: &[u8], count: u32) -> u32
    ensures { Raises name.now count result }
{
    match read_name(name) {
        Some(number) if number >= count => number + 1,
        _ => count,
    }
}

// The number of the run that has this name. `None` comes exactly where it is no name of a run.
fn read_name(name: &[u8]) -> Option<u32>
    ensures some { IfSome result (λ number. (partial : Bool) × SpellsRun name.now number partial) }
    ensures none { IfNone result (SpellsNoRun name.now) }
{
    match name.strip_suffix(b".part") {
        Some(digits) => read_number(digits),
        None => read_number(name),
    }
}

// The number below 1,000,000 that these digits spell, without leading zeros.
fn read_number(digits: &[u8]) -> Option<u32>
    ensures some { IfSome result (SpellsRunNumber digits.now) }
    ensures none { IfNone result (SpellsNoRunNumber digits.now) }
{
    let Ok(text) = str::from_utf8(digits) else {
        return None;
    };
    let Ok(number) = text.parse::<u32>() else {
        return None;
    };
    let mut buffer = Buffer::new();
    if number < MOST_RUNS && buffer.format(number).as_bytes() == digits {
        Some(number)
    } else {
        None
    }
}
