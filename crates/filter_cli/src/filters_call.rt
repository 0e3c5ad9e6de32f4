//! The top call of the filters.

ghost use Rattle.std.specs.Prelude.{◌≡◌, ℕ, List, IsTrue, None, is_some};
ghost use Rattle.edge_io.specs.Seen.{Seen};
ghost use Rattle.command_words.specs.Items.{texts};
ghost use Rattle.filter_cli.specs.Outside.{filter_outside, reach};
ghost use Rattle.filter_cli.specs.Pipe.{pipe};
ghost use Rattle.filter_cli.specs.Program.{Filters, FilterPerforms, FiltersFrom, Checked, FilterTells, TellsInside};
ghost use Rattle.filter_cli.specs.Promises.{FilterPromises};
ghost use Rattle.filter_cli.specs.Refusals.{usage_fault, filter_name_in};
ghost use Rattle.filter_cli.specs.declared.request.Asked.TheVariants as wanted;

use crate::attached_file::{attach_stream, give_event};
use crate::csv_export::export_stream;
use crate::filter::StreamEnd;
use crate::live_trace::{Trace, trace_stream};
use crate::ls::{Listing, Ls};
use crate::named_input::perform_on_file;
use crate::note_pump::pump_notes;
use crate::patterns::compiled_rules;
use crate::refusal::{Refusal, UsageFault};
use crate::refusal_line::{Line, tell_line};
use crate::request::{Asked, Request, read_request};
use crate::selection::Selection;
use crate::stats::{Counting, Stats};
use crate::subunit_to_junit::SubunitToJunit;
use crate::subunit_to_tap::SubunitToTap;
use crate::subunit_to_v1::SubunitToV1;
use crate::tag_changes::TagChanges;
use crate::tag_filter::tag_stream;
use crate::tap_pump::tap_to_subunit;
use crate::test_filter::filter_stream;
use crate::tool::tool_of_first_word;
use crate::v1_pump::v1_to_subunit;
use edge_io::{Sink, Site, Source};
use event_sift::Tagger;
use std::alloc::Global;
use sub_export::OutputJob;

/// Does what the words say, of which the first is a filter's name, and answers the exit status: 0 where it was done and
/// no test failed, 1 where a test failed, 2 where the words are no filter, 3 for a named refusal, 4 for a fault of the
/// outside, 5 for want of memory.
///
/// The input is read to its end in pieces of 65,536 bytes, and what each piece decides is written before the next one is
/// read; where the words attach no input to their events, it is left unread. A file that they name is read in its place, in
/// the same way. A refusal prints one line to `err`, and so does a stream that was read as packets and ends inside one; the
/// status is as of any other stream then. Words that are no filter, and bad patterns, touch neither input nor output.
pub fn filters<S: Site, I: Source, O: Sink, E: Sink>(
    alloc: Global,
    words: &[String],
    site: &mut S,
    input: &mut I,
    out: &mut O,
    err: &mut E,
) -> u8
    ensures promises { FilterPromises (texts words.now)
        (filter_outside (S.seen site.old) (I.seen input.old) (O.seen out.old) (E.seen err.old))
        (filter_outside (S.seen site.new) (I.seen input.new) (O.seen out.new) (E.seen err.new))
        result }
{
    let outcome = filter(alloc, words, site, input, out);
    answer(name_of(words), outcome, err)
}

// Does what the words say.
fn filter<S: Site, I: Source, O: Sink>(
    alloc: Global,
    words: &[String],
    site: &mut S,
    input: &mut I,
    out: &mut O,
) -> Result<StreamEnd, Refusal>
    ensures { Filters (texts words.now) (reach (S.seen site.old) (I.seen input.old) (O.seen out.old)) (reach (S.seen site.new) (I.seen input.new) (O.seen out.new)) result }
{
    let request = read_request(alloc, words)?;
    perform(alloc, usage_fault(words), request, site, input, out)
}

// Does what is asked for; where that is nothing, this is why.
fn perform<S: Site, I: Source, O: Sink>(
    alloc: Global,
    fault: UsageFault,
    request: Option<Request>,
    site: &mut S,
    input: &mut I,
    out: &mut O,
) -> Result<StreamEnd, Refusal>
    ensures { FilterPerforms fault request (reach (S.seen site.old) (I.seen input.old) (O.seen out.old)) (reach (S.seen site.new) (I.seen input.new) (O.seen out.new)) result }
{
    match request {
        None => Err(Refusal::Usage(fault)),
        Some(request) => pass(alloc, request, site, input, out),
    }
}

// Does what is asked for, with the file that is named, or with the input.
fn pass<S: Site, I: Source, O: Sink>(
    alloc: Global,
    request: Request,
    site: &mut S,
    input: &mut I,
    out: &mut O,
) -> Result<StreamEnd, Refusal>
    ensures { FiltersFrom request.file request.asked (reach (S.seen site.old) (I.seen input.old) (O.seen out.old)) (reach (S.seen site.new) (I.seen input.new) (O.seen out.new)) result }
{
    let Request { asked, file } = request;
    match file {
        None => pass_input(alloc, asked, input, out),
        Some(name) => perform_on_file(alloc, asked, name, site, out),
    }
}

// Does what is asked for, with the input.
fn pass_input<I: Source, O: Sink>(
    alloc: Global,
    asked: Asked,
    input: &mut I,
    out: &mut O,
) -> Result<StreamEnd, Refusal>
    ensures { Checked asked (pipe (I.seen input.old) (O.seen out.old)) (pipe (I.seen input.new) (O.seen out.new)) result }
{
    match asked {
        Asked::Filter(selection) => filter_tests(alloc, selection, input, out),
        Asked::Tags(retagging) => retag(alloc, retagging, input, out),
        Asked::Ls(listing) => list(alloc, listing, input, out),
        Asked::Stats(counting) => count(alloc, counting, input, out),
        Asked::FromTap => read_tap(alloc, input, out),
        Asked::ToTap => write_tap(alloc, input, out),
        Asked::ToCsv(selection) => export(alloc, selection, input, out),
        Asked::ToJunit => write_junit(alloc, input, out),
        Asked::Output(job) => give(alloc, job, input, out),
        Asked::FromV1 => read_v1(alloc, input, out),
        Asked::ToV1 => write_v1(alloc, input, out),
        Asked::Tracing(trace) => trace_tests(alloc, trace, input, out),
    }
}

// `subunit-filter`
fn filter_tests<I: Source, O: Sink>(
    alloc: Global,
    selection: Selection,
    input: &mut I,
    out: &mut O,
) -> Result<StreamEnd, Refusal>
    ensures { Checked (wanted.Filter selection) (pipe (I.seen input.old) (O.seen out.old)) (pipe (I.seen input.new) (O.seen out.new)) result }
{
    let hidden = selection.hidden;
    let rules = compiled_rules(alloc, selection)?;
    let end = filter_stream(alloc, &rules, hidden, input, out)?;
    Ok(end)
}

// `subunit-tags`
fn retag<I: Source, O: Sink>(
    alloc: Global,
    retagging: TagChanges,
    input: &mut I,
    out: &mut O,
) -> Result<StreamEnd, Refusal>
    ensures { Checked (wanted.Tags retagging) (pipe (I.seen input.old) (O.seen out.old)) (pipe (I.seen input.new) (O.seen out.new)) result }
{
    let tagger = Tagger::new(alloc, retagging.add, retagging.remove);
    let end = tag_stream(alloc, tagger, input, out)?;
    Ok(end)
}

// `subunit-ls`
fn list<I: Source, O: Sink>(
    alloc: Global,
    listing: Listing,
    input: &mut I,
    out: &mut O,
) -> Result<StreamEnd, Refusal>
    ensures { Checked (wanted.Ls listing) (pipe (I.seen input.old) (O.seen out.old)) (pipe (I.seen input.new) (O.seen out.new)) result }
{
    let end = pump_notes(alloc, Ls::new(alloc, listing), input, out)?;
    Ok(end)
}

// `subunit-stats`
fn count<I: Source, O: Sink>(
    alloc: Global,
    counting: Counting,
    input: &mut I,
    out: &mut O,
) -> Result<StreamEnd, Refusal>
    ensures { Checked (wanted.Stats counting) (pipe (I.seen input.old) (O.seen out.old)) (pipe (I.seen input.new) (O.seen out.new)) result }
{
    let end = pump_notes(alloc, Stats::new(alloc, counting), input, out)?;
    Ok(end)
}

// `tap2subunit`
fn read_tap<I: Source, O: Sink>(
    alloc: Global,
    input: &mut I,
    out: &mut O,
) -> Result<StreamEnd, Refusal>
    ensures { Checked wanted.FromTap (pipe (I.seen input.old) (O.seen out.old)) (pipe (I.seen input.new) (O.seen out.new)) result }
{
    let end = tap_to_subunit(alloc, input, out)?;
    Ok(end)
}

// `subunit2tap`
fn write_tap<I: Source, O: Sink>(
    alloc: Global,
    input: &mut I,
    out: &mut O,
) -> Result<StreamEnd, Refusal>
    ensures { Checked wanted.ToTap (pipe (I.seen input.old) (O.seen out.old)) (pipe (I.seen input.new) (O.seen out.new)) result }
{
    let end = pump_notes(alloc, SubunitToTap::new(alloc), input, out)?;
    Ok(end)
}

// `subunit2junitxml`
fn write_junit<I: Source, O: Sink>(
    alloc: Global,
    input: &mut I,
    out: &mut O,
) -> Result<StreamEnd, Refusal>
    ensures { Checked wanted.ToJunit (pipe (I.seen input.old) (O.seen out.old)) (pipe (I.seen input.new) (O.seen out.new)) result }
{
    let end = pump_notes(alloc, SubunitToJunit::new(alloc), input, out)?;
    Ok(end)
}

// `subunit-1to2`
fn read_v1<I: Source, O: Sink>(
    alloc: Global,
    input: &mut I,
    out: &mut O,
) -> Result<StreamEnd, Refusal>
    ensures { Checked wanted.FromV1 (pipe (I.seen input.old) (O.seen out.old)) (pipe (I.seen input.new) (O.seen out.new)) result }
{
    let end = v1_to_subunit(alloc, input, out)?;
    Ok(end)
}

// `subunit-2to1`
fn write_v1<I: Source, O: Sink>(
    alloc: Global,
    input: &mut I,
    out: &mut O,
) -> Result<StreamEnd, Refusal>
    ensures { Checked wanted.ToV1 (pipe (I.seen input.old) (O.seen out.old)) (pipe (I.seen input.new) (O.seen out.new)) result }
{
    let end = pump_notes(alloc, SubunitToV1::new(alloc), input, out)?;
    Ok(end)
}

// `subunit-trace`
fn trace_tests<I: Source, O: Sink>(
    alloc: Global,
    trace: Trace,
    input: &mut I,
    out: &mut O,
) -> Result<StreamEnd, Refusal>
    ensures { Checked (wanted.Tracing trace) (pipe (I.seen input.old) (O.seen out.old)) (pipe (I.seen input.new) (O.seen out.new)) result }
{
    let end = trace_stream(alloc, trace, input, out)?;
    Ok(end)
}

// `subunit2csv`
fn export<I: Source, O: Sink>(
    alloc: Global,
    selection: Selection,
    input: &mut I,
    out: &mut O,
) -> Result<StreamEnd, Refusal>
    ensures { Checked (wanted.ToCsv selection) (pipe (I.seen input.old) (O.seen out.old)) (pipe (I.seen input.new) (O.seen out.new)) result }
{
    let rules = compiled_rules(alloc, selection)?;
    let end = export_stream(alloc, &rules, input, out)?;
    Ok(end)
}

// `subunit-output`
fn give<I: Source, O: Sink>(
    alloc: Global,
    job: OutputJob,
    input: &mut I,
    out: &mut O,
) -> Result<StreamEnd, Refusal>
    ensures { Checked (wanted.Output job) (pipe (I.seen input.old) (O.seen out.old)) (pipe (I.seen input.new) (O.seen out.new)) result }
{
    if job.attaches() {
        return attach(alloc, job, input, out);
    }
    give_alone(alloc, job, out)
}

// The same, with the input as a file.
fn attach<I: Source, O: Sink>(
    alloc: Global,
    job: OutputJob,
    input: &mut I,
    out: &mut O,
) -> Result<StreamEnd, Refusal>
    requires { IsTrue (is_some job.attachment) }
    ensures { Checked (wanted.Output job) (pipe (I.seen input.old) (O.seen out.old)) (pipe (I.seen input.new) (O.seen out.new)) result }
{
    let end = attach_stream(alloc, job, input, out)?;
    Ok(end)
}

// The same, without one, whatever the input is.
fn give_alone<O: Sink>(alloc: Global, job: OutputJob, out: &mut O) -> Result<StreamEnd, Refusal>
    requires { job.attachment ≡ None }
    ensures { (input : Seen (List ℕ)) → Checked (wanted.Output job) (pipe input (O.seen out.old)) (pipe input (O.seen out.new)) result }
{
    let end = give_event(alloc, &job, out)?;
    Ok(end)
}

// Tells of a refusal, or that what was read ends inside a packet, and gives the status.
fn answer<E: Sink>(name: &str, outcome: Result<StreamEnd, Refusal>, err: &mut E) -> u8
    ensures { FilterTells name.now outcome (E.seen err.old) (E.seen err.new) result }
{
    match outcome {
        Ok(end) => {
            tell_inside(name, end.inside, err);
            end.status
        }
        Err(refusal) => {
            let _ = tell_line(err, refusal.line(name));
            refusal.exit_status()
        }
    }
}

// Tells that what was read ends inside a packet, where it does. Where that cannot be told nothing else changes.
fn tell_inside<E: Sink>(name: &str, inside: bool, err: &mut E)
    ensures { TellsInside name.now inside (E.seen err.old) (E.seen err.new) }
{
    if inside {
        let _ = tell_line(err, Line::of(name, ": the input ends inside a packet\n"));
    }
}

// The first word, or nothing.
fn name_of(words: &[String]) -> &str
    ensures { result.now ≡ filter_name_in (texts words.now) }
{
    match words {
        [name, ..] => name.as_str(),
        [] => "",
    }
}

// Why words are no filter.
fn usage_fault(words: &[String]) -> UsageFault
    ensures { result ≡ usage_fault (texts words.now) }
{
    match tool_of_first_word(words) {
        None => UsageFault::Tool,
        Some(_) => UsageFault::Words,
    }
}
