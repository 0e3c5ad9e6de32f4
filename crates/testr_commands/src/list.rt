//! `testr list-tests`.

ghost use Rattle.std.specs.Prelude.{◌≡◌, ℕ, List, IfOk};
ghost use Rattle.std.specs.List.{IsDistinct};
ghost use Rattle.std.specs.Str.{bytes_eq};
ghost use Rattle.edge_io.specs.Disk.{Folder};
ghost use Rattle.edge_io.specs.Seen.{Seen};
ghost use Rattle.suite_plan.specs.Choosing.{with_further, chosen_of};
ghost use Rattle.testr_conf.specs.Jobs.{id_lines};
ghost use Rattle.command_steps.specs.Outside.{work};
ghost use Rattle.command_steps.specs.Selecting.{shard_times};
ghost use Rattle.testr_commands.specs.RunSuite.{ListsBy, groups_for};
ghost use Rattle.suite_plan.specs.Patterns.{Compiles};
ghost use Rattle.suite_plan.specs.Sharing.{ids_of_shard};
ghost use Rattle.std.specs.FinMap as fin;
ghost use Rattle.testr_words.specs.Suites.{wanted_of};

use crate::{Refusal, Verdict};
use command_steps::{Further, print_text, read_further};
use edge_io::{Sink, Site, Spawner};
use std::alloc::Global;
use sub_number::{IdList, NoMemory, TimeMap};
use suite_plan::{Compiled, PatternRefusal, choose_ids, compile_picks, ids_of_shard, list_tests};
use testr_conf::{Conf, id_lines};
use testr_words::{Command, Shard};

/// Prints the ids that the project's own listing tells of, those that the command wants, of a shard its own, each once and on
/// a line.
pub fn list<'a, S: Spawner, F: Site, O: Sink>(
    alloc: Global,
    command: &'a Command,
    conf: &'a Conf,
    spawner: &mut S,
    site: &mut F,
    out: &mut O,
) -> Result<Verdict, Refusal<'a>>
    ensures { (folder : Seen Folder) → (input : Seen (List ℕ)) → ListsBy (wanted_of command.now) conf.now
        (work folder (F.seen site.old) (S.seen spawner.old) input (O.seen out.old))
        (work folder (F.seen site.new) (S.seen spawner.new) input (O.seen out.new))
        result }
{
    let compiled = compiled(alloc, command, conf)?;
    let further = read_further(alloc, command, site)?;
    let ids = list_tests(alloc, conf, spawner)?;
    let text = wanted_lines(alloc, ids, &compiled, &further, command.shard)?;
    print_text(out, &text)?;
    Ok(Verdict::Passed)
}

// The patterns of the words, and that of the groups, which count for a shard alone.
fn compiled<'a>(
    alloc: Global,
    command: &'a Command,
    conf: &'a Conf,
) -> Result<Compiled, PatternRefusal<'a>>
    ensures { Compiles command.now.names command.now.excluded (groups_for command.now.shard conf.now) result }
{
    match command.shard {
        Some(_) => compile_picks(alloc, &command.names, &command.excluded, conf.group_regex()),
        None => compile_picks(alloc, &command.names, &command.excluded, None),
    }
}

// The ids, of which each stands once, that are wanted by these patterns and the further ones, of a shard its own, each on a
// line. Times are known by a file alone.
fn wanted_lines(
    alloc: Global,
    ids: IdList,
    compiled: &Compiled,
    further: &Further,
    shard: Option<Shard>,
) -> Result<Vec<u8>, NoMemory>
    requires { IsDistinct bytes_eq ids }
    ensures { IfOk result (λ lines. lines.items ≡ id_lines (ids_of_shard (fin.get (shard_times further.now.times)) compiled.now.groups shard (chosen_of (with_further compiled.now.picks further.now.picks) ids))) }
{
    let wanted = choose_ids(alloc, ids, &compiled.picks, &further.picks)?;
    let none = TimeMap::new(alloc);
    let times = match &further.times {
        Some(times) => times,
        None => &none,
    };
    let kept = ids_of_shard(alloc, wanted, times, &compiled.groups, shard)?;
    id_lines(alloc, kept.list())
}
