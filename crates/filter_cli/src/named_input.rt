//! Filters that read a file by its name, in place of the input.

ghost use Rattle.std.specs.Prelude.{◌≡◌, ℕ, List, [], Some};
ghost use Rattle.edge_io.specs.Seen.{Seen};
ghost use Rattle.stream_end.specs.Inside.{ends_inside};
ghost use Rattle.filter_cli.specs.Exporting.{IsCsvSeen, IsCsvFiltered};
ghost use Rattle.filter_cli.specs.Filtering.{filter_plan};
ghost use Rattle.filter_cli.specs.Headed.{IsSeenBelow as SeenBelow, IsWholeBelow as WholeBelow};
ghost use Rattle.filter_cli.specs.Outside.{reach};
ghost use Rattle.filter_cli.specs.Plan.{IsSeen, IsFiltered};
ghost use Rattle.filter_cli.specs.Program.{FiltersFrom, MakesAndFeeds};
ghost use Rattle.filter_cli.specs.Tagging.{tags_plan};
ghost use Rattle.filter_cli.specs.declared.request.Asked.TheVariants as wanted;

use crate::attached_file::AttachFilter;
use crate::byte_filter::ByteFilter;
use crate::csv_export::CsvFilter;
use crate::file_loop::pump_file;
use crate::filter::{Filter, StreamEnd};
use crate::head_text::FilterBelowText;
use crate::live_trace::{Trace, TraceFilter};
use crate::ls::{Listing, Ls};
use crate::notes::NoteFilter;
use crate::patterns::compiled_rules;
use crate::refusal::Refusal;
use crate::request::Asked;
use crate::selection::Selection;
use crate::stats::{Counting, Stats};
use crate::subunit_to_junit::SubunitToJunit;
use crate::subunit_to_tap::SubunitToTap;
use crate::subunit_to_v1::SubunitToV1;
use crate::tag_changes::TagChanges;
use crate::tag_filter::TagFilter;
use crate::tap_filter::TapToSubunit;
use crate::test_filter::TestFilter;
use crate::v1_filter::V1ToSubunit;
use edge_io::{Sink, Site};
use event_sift::{ByRules, Rules, Tagger};
use std::alloc::Global;
use std::str;
use sub_export::{OutputJob, csv_head};
use sub_number::Text;

/// Does what is asked for, with the file of this name in place of the input.
pub(crate) fn perform_on_file<S: Site, O: Sink>(
    alloc: Global,
    asked: Asked,
    name: Text,
    site: &mut S,
    out: &mut O,
) -> Result<StreamEnd, Refusal>
    ensures { (input : Seen (List ℕ)) → FiltersFrom (Some name) asked (reach (S.seen site.old) input (O.seen out.old)) (reach (S.seen site.new) input (O.seen out.new)) result }
{
    match asked {
        Asked::Filter(selection) => filter_named(alloc, selection, name, site, out),
        Asked::Tags(retagging) => retag_named(alloc, retagging, name, site, out),
        Asked::Ls(listing) => list_named(alloc, listing, name, site, out),
        Asked::Stats(counting) => count_named(alloc, counting, name, site, out),
        Asked::FromTap => tap_named(alloc, name, site, out),
        Asked::ToTap => notes_named(alloc, SubunitToTap::new(alloc), name, site, out),
        Asked::ToCsv(selection) => export_named(alloc, selection, name, site, out),
        Asked::ToJunit => notes_named(alloc, SubunitToJunit::new(alloc), name, site, out),
        Asked::Output(job) => attach_named(alloc, job, name, site, out),
        Asked::FromV1 => v1_named(alloc, name, site, out),
        Asked::ToV1 => notes_named(alloc, SubunitToV1::new(alloc), name, site, out),
        Asked::Tracing(trace) => trace_named(alloc, trace, name, site, out),
    }
}

// Filters the file.
fn pump_named<F: Filter, S: Site, O: Sink>(
    alloc: Global,
    filter: F,
    name: Text,
    site: &mut S,
    out: &mut O,
) -> Result<StreamEnd, Refusal>
    requires ready { F.ready filter }
    requires has { F.has filter [] [] }
    ensures { (input : Seen (List ℕ)) → MakesAndFeeds name F.inside (F.seen filter) (F.whole filter) (reach (S.seen site.old) input (O.seen out.old)) (reach (S.seen site.new) input (O.seen out.new)) result }
{
    match pump_file(alloc, filter, word_of(&name), site, out) {
        Ok(end) => Ok(end),
        Err(fault) => Err(Refusal::File(name, fault)),
    }
}

// Filters its notes.
fn notes_named<F: NoteFilter, S: Site, O: Sink>(
    alloc: Global,
    filter: F,
    name: Text,
    site: &mut S,
    out: &mut O,
) -> Result<StreamEnd, Refusal>
    requires ready { F.ready filter }
    requires has { F.has filter [] }
    ensures { (input : Seen (List ℕ)) → MakesAndFeeds name ends_inside (IsSeen (F.plan filter)) (IsFiltered (F.plan filter)) (reach (S.seen site.old) input (O.seen out.old)) (reach (S.seen site.new) input (O.seen out.new)) result }
{
    let notes = ByteFilter::new(alloc, filter)?;
    pump_named(alloc, notes, name, site, out)
}

// Filters its notes, below a text.
fn below_named<F: NoteFilter, S: Site, O: Sink>(
    alloc: Global,
    head: Vec<u8>,
    filter: F,
    name: Text,
    site: &mut S,
    out: &mut O,
) -> Result<StreamEnd, Refusal>
    requires ready { F.ready filter }
    requires has { F.has filter [] }
    ensures { (input : Seen (List ℕ)) → MakesAndFeeds name ends_inside (SeenBelow head.items (IsSeen (F.plan filter))) (WholeBelow head.items (IsFiltered (F.plan filter))) (reach (S.seen site.old) input (O.seen out.old)) (reach (S.seen site.new) input (O.seen out.new)) result }
{
    let notes = ByteFilter::new(alloc, filter)?;
    pump_named(alloc, FilterBelowText::new(head, notes), name, site, out)
}

// `subunit-filter`
fn filter_named<S: Site, O: Sink>(
    alloc: Global,
    selection: Selection,
    name: Text,
    site: &mut S,
    out: &mut O,
) -> Result<StreamEnd, Refusal>
    ensures { (input : Seen (List ℕ)) → FiltersFrom (Some name) (wanted.Filter selection) (reach (S.seen site.old) input (O.seen out.old)) (reach (S.seen site.new) input (O.seen out.new)) result }
{
    let hidden = selection.hidden;
    let rules = compiled_rules(alloc, selection)?;
    sift_named(alloc, &rules, hidden, name, site, out)
}

// Lets the tests through that the rules keep.
fn sift_named<S: Site, O: Sink>(
    alloc: Global,
    rules: &Rules,
    hidden: bool,
    name: Text,
    site: &mut S,
    out: &mut O,
) -> Result<StreamEnd, Refusal>
    ensures { (input : Seen (List ℕ)) → MakesAndFeeds name ends_inside (IsSeen (filter_plan rules.now hidden)) (IsFiltered (filter_plan rules.now hidden)) (reach (S.seen site.old) input (O.seen out.old)) (reach (S.seen site.new) input (O.seen out.new)) result }
{
    let predicate = ByRules::new(alloc, rules)?;
    let sifting = TestFilter::new(alloc, rules, hidden, predicate);
    notes_named(alloc, sifting, name, site, out)
}

// `subunit-tags`
fn retag_named<S: Site, O: Sink>(
    alloc: Global,
    retagging: TagChanges,
    name: Text,
    site: &mut S,
    out: &mut O,
) -> Result<StreamEnd, Refusal>
    ensures { (input : Seen (List ℕ)) → FiltersFrom (Some name) (wanted.Tags retagging) (reach (S.seen site.old) input (O.seen out.old)) (reach (S.seen site.new) input (O.seen out.new)) result }
{
    let tagger = Tagger::new(alloc, retagging.add, retagging.remove);
    tag_named(alloc, &tagger, name, site, out)
}

// Gives the events other tags.
fn tag_named<S: Site, O: Sink>(
    alloc: Global,
    tagger: &Tagger,
    name: Text,
    site: &mut S,
    out: &mut O,
) -> Result<StreamEnd, Refusal>
    ensures { (input : Seen (List ℕ)) → MakesAndFeeds name ends_inside (IsSeen (tags_plan tagger.now)) (IsFiltered (tags_plan tagger.now)) (reach (S.seen site.old) input (O.seen out.old)) (reach (S.seen site.new) input (O.seen out.new)) result }
{
    let tagging = TagFilter::new(alloc, tagger)?;
    notes_named(alloc, tagging, name, site, out)
}

// `subunit-ls`
fn list_named<S: Site, O: Sink>(
    alloc: Global,
    listing: Listing,
    name: Text,
    site: &mut S,
    out: &mut O,
) -> Result<StreamEnd, Refusal>
    ensures { (input : Seen (List ℕ)) → FiltersFrom (Some name) (wanted.Ls listing) (reach (S.seen site.old) input (O.seen out.old)) (reach (S.seen site.new) input (O.seen out.new)) result }
{
    notes_named(alloc, Ls::new(alloc, listing), name, site, out)
}

// `subunit-stats`
fn count_named<S: Site, O: Sink>(
    alloc: Global,
    counting: Counting,
    name: Text,
    site: &mut S,
    out: &mut O,
) -> Result<StreamEnd, Refusal>
    ensures { (input : Seen (List ℕ)) → FiltersFrom (Some name) (wanted.Stats counting) (reach (S.seen site.old) input (O.seen out.old)) (reach (S.seen site.new) input (O.seen out.new)) result }
{
    notes_named(alloc, Stats::new(alloc, counting), name, site, out)
}

// `tap2subunit`
fn tap_named<S: Site, O: Sink>(
    alloc: Global,
    name: Text,
    site: &mut S,
    out: &mut O,
) -> Result<StreamEnd, Refusal>
    ensures { (input : Seen (List ℕ)) → FiltersFrom (Some name) wanted.FromTap (reach (S.seen site.old) input (O.seen out.old)) (reach (S.seen site.new) input (O.seen out.new)) result }
{
    let lines = TapToSubunit::new(alloc);
    pump_named(alloc, lines, name, site, out)
}

// `subunit-1to2`
fn v1_named<S: Site, O: Sink>(
    alloc: Global,
    name: Text,
    site: &mut S,
    out: &mut O,
) -> Result<StreamEnd, Refusal>
    ensures { (input : Seen (List ℕ)) → FiltersFrom (Some name) wanted.FromV1 (reach (S.seen site.old) input (O.seen out.old)) (reach (S.seen site.new) input (O.seen out.new)) result }
{
    let lines = V1ToSubunit::new(alloc);
    pump_named(alloc, lines, name, site, out)
}

// `subunit2csv`
fn export_named<S: Site, O: Sink>(
    alloc: Global,
    selection: Selection,
    name: Text,
    site: &mut S,
    out: &mut O,
) -> Result<StreamEnd, Refusal>
    ensures { (input : Seen (List ℕ)) → FiltersFrom (Some name) (wanted.ToCsv selection) (reach (S.seen site.old) input (O.seen out.old)) (reach (S.seen site.new) input (O.seen out.new)) result }
{
    let rules = compiled_rules(alloc, selection)?;
    records_named(alloc, &rules, name, site, out)
}

// Writes the records of the tests that the rules keep.
fn records_named<S: Site, O: Sink>(
    alloc: Global,
    rules: &Rules,
    name: Text,
    site: &mut S,
    out: &mut O,
) -> Result<StreamEnd, Refusal>
    ensures { (input : Seen (List ℕ)) → MakesAndFeeds name ends_inside (IsCsvSeen rules.now) (IsCsvFiltered rules.now) (reach (S.seen site.old) input (O.seen out.old)) (reach (S.seen site.new) input (O.seen out.new)) result }
{
    let mut head = Vec::new(alloc);
    csv_head(alloc, &mut head)?;
    let predicate = ByRules::new(alloc, rules)?;
    let exporting = CsvFilter::new(alloc, rules, predicate);
    below_named(alloc, head, exporting, name, site, out)
}

// `subunit-output`
fn attach_named<S: Site, O: Sink>(
    alloc: Global,
    job: OutputJob,
    name: Text,
    site: &mut S,
    out: &mut O,
) -> Result<StreamEnd, Refusal>
    ensures { (input : Seen (List ℕ)) → FiltersFrom (Some name) (wanted.Output job) (reach (S.seen site.old) input (O.seen out.old)) (reach (S.seen site.new) input (O.seen out.new)) result }
{
    let attaching = AttachFilter::new(alloc, job);
    pump_named(alloc, attaching, name, site, out)
}

// `subunit-trace`
fn trace_named<S: Site, O: Sink>(
    alloc: Global,
    trace: Trace,
    name: Text,
    site: &mut S,
    out: &mut O,
) -> Result<StreamEnd, Refusal>
    ensures { (input : Seen (List ℕ)) → FiltersFrom (Some name) (wanted.Tracing trace) (reach (S.seen site.old) input (O.seen out.old)) (reach (S.seen site.new) input (O.seen out.new)) result }
{
    let filter = TraceFilter::new(alloc, trace)?;
    notes_named(alloc, filter, name, site, out)
}

// The text as a word.
fn word_of(name: &Text) -> &str
    ensures { result.now ≡ name.now }
{
    match str::from_utf8(name.bytes()) {
        Ok(name) => name,
        Err(_) => unreachable!(),
    }
}
