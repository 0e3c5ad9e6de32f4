//! Cases that are gathered by route, as their rows come.

ghost use Rattle.std.specs.Prelude.{◌≡◌, ◌+◌, List, [], ◌∷◌, ◌++◌, map, IfOk, OnOk};
ghost use Rattle.std.specs.FinMap as fin;
ghost use Rattle.std.specs.List.{flat_map};
ghost use Rattle.outcome_fold.specs.declared.row.Row.{Row as ARow};
ghost use Rattle.outcome_fold.specs.Answers.{counts_of};
ghost use Rattle.outcome_fold.specs.Rows.{by_route};
ghost use Rattle.junit_xml.specs.Documents.{junit_of};
ghost use Rattle.filter_cli.specs.JunitCases.{cases_of, HasCases, joined_times, joined_counts};

use junit_xml::{junit_case, junit_head, junit_tail};
use outcome_fold::{Counts, Row, count_with};
use packet_codec::Tags;
use std::alloc::Global;
use std::collections::BTreeMap;
use std::marker::Model;
use std::mem;
use sub_number::{NoMemory, Text};

// The cases of one route.
#[derive(Drop)]
struct RouteCases {
    counts: Counts,
    text: Vec<u8>,
}

impl Model for RouteCases {
    ghost use Rattle.filter_cli.specs.JunitCases.{Cases};

    ghost Value = { Cases };

    ghost view = { λ c. record { counts = c.counts; text = c.text.items } };
}

fn no_counts() -> Counts
    ensures { result ≡ counts_of [] [] }
{
    Counts {
        total: 0,
        passed: 0,
        failed: 0,
        skipped: 0,
        nanos: None,
    }
}

// The counts with the row too. No tag leaves one out.
fn counted(alloc: Global, counts: Counts, row: &Row) -> Result<Counts, NoMemory>
    ensures { (rows : List ARow) → counts ≡ counts_of [] rows → IfOk result (λ next. next ≡ counts_of [] (rows ++ row.now ∷ [])) }
{
    let no_tags = Tags::new(alloc);
    count_with(counts, no_tags.list(), row)
}

impl RouteCases {
    // Of no row. They take no memory yet.
    fn none(alloc: Global) -> Self
        ensures { result ≡ cases_of [] }
    {
        RouteCases {
            counts: no_counts(),
            text: Vec::new(alloc),
        }
    }

    // Puts the case of a row behind the others.
    fn put(&mut self, row: &Row) -> Result<(), NoMemory>
        ensures { (rows : List ARow) → self.old ≡ cases_of rows → OnOk result (self.new ≡ cases_of (rows ++ row.now ∷ [])) }
    {
        let alloc = *self.text.allocator();
        let counts = counted(alloc, self.counts, row)?;
        junit_case(row, &mut self.text)?;
        self.counts = counts;
        Ok(())
    }

    // Of one row.
    fn one(alloc: Global, row: &Row) -> Result<Self, NoMemory>
        ensures { IfOk result (λ cases. cases ≡ cases_of (row.now ∷ [])) }
    {
        let mut cases = RouteCases::none(alloc);
        cases.put(row)?;
        Ok(cases)
    }
}

/// The cases of rows, kept as they are written, route by route, and how many rows there are. No row is kept.
///
/// After `NoMemory` nothing is known of them. It comes for want of memory, and where a count or the sum of the times has
/// no room for a row more.
#[derive(Drop)]
pub(crate) struct JunitCases {
    alloc: Global,
    by_route: BTreeMap<Option<Text>, RouteCases>,
}

impl Model for JunitCases {
    ghost use Rattle.std.specs.FinMap as fin;
    ghost use Rattle.std.specs.Coded.{coded_ℕ, coded_list, coded_option};
    ghost use Rattle.outcome_fold.specs.Order.{route_cmp};
    ghost use Rattle.filter_cli.specs.JunitCases.{Cases, coded_cases};

    ghost Value = { fin.FinMap route_cmp Cases };

    ghost coded = { fin.code (coded_option (coded_list coded_ℕ)) coded_cases };

    ghost view = { λ c. fin.from_entries {R = route_cmp} c.by_route.entries };
}

impl JunitCases {
    /// Of no row. They take no memory yet.
    pub(crate) fn new(alloc: Global) -> Self
        ensures { HasCases result [] }
    {
        JunitCases {
            alloc,
            by_route: BTreeMap::new(alloc),
        }
    }

    // Puts the first row of a route.
    fn start(&mut self, row: Row) -> Result<(), NoMemory>
        ensures { OnOk result (self.new ≡ fin.insert self.old row.route (cases_of (row ∷ []))) }
    {
        let cases = RouteCases::one(self.alloc, &row)?;
        let Row { route, .. } = row;
        self.by_route.insert(route, cases)?;
        Ok(())
    }

    /// Puts the case of a row behind the others of its route.
    pub(crate) fn put(&mut self, row: Row) -> Result<(), NoMemory>
        ensures { (rows : List ARow) → HasCases self.old rows → OnOk result (HasCases self.new (rows ++ row ∷ [])) }
    {
        match self.by_route.get_mut(&row.route) {
            Some(cases) => cases.put(&row),
            None => self.start(row),
        }
    }

    // The cases of the routes, in the order of these.
    fn into_routes(self) -> Result<Vec<RouteCases>, NoMemory>
        ensures { IfOk result (λ routes. routes.items ≡ fin.values self) }
    {
        let mut routes = Vec::new(self.alloc);
        for (_, cases) in self.by_route {
            routes.push(cases)?;
        }
        Ok(routes)
    }

    /// Appends the document of all rows that were put, the cases route by route.
    pub(crate) fn write(self, out: &mut Vec<u8>) -> Result<(), NoMemory>
        ensures { (rows : List ARow) → HasCases self rows → OnOk result (out.new.items ≡ out.old.items ++ junit_of (by_route rows)) }
    {
        let routes = self.into_routes()?;
        junit_head(counts_in(&routes)?, out)?;
        put_texts(routes, out)?;
        junit_tail(out)?;
        Ok(())
    }
}

fn sum_of(count: u64, more: u64) -> Result<u64, NoMemory>
    ensures { IfOk result (λ sum. sum ≡ count + more) }
{
    match count.checked_add(more) {
        Some(sum) => Ok(sum),
        None => Err(NoMemory),
    }
}

fn sum_of_times(nanos: Option<u128>, more: Option<u128>) -> Result<Option<u128>, NoMemory>
    ensures { IfOk result (λ sum. sum ≡ joined_times nanos more) }
{
    match (nanos, more) {
        (None, more) => Ok(more),
        (Some(nanos), None) => Ok(Some(nanos)),
        (Some(nanos), Some(more)) => match nanos.checked_add(more) {
            Some(sum) => Ok(Some(sum)),
            None => Err(NoMemory),
        },
    }
}

fn both_counts(counts: Counts, more: Counts) -> Result<Counts, NoMemory>
    ensures { IfOk result (λ sum. sum ≡ joined_counts counts more) }
{
    Ok(Counts {
        total: sum_of(counts.total, more.total)?,
        passed: sum_of(counts.passed, more.passed)?,
        failed: sum_of(counts.failed, more.failed)?,
        skipped: sum_of(counts.skipped, more.skipped)?,
        nanos: sum_of_times(counts.nanos, more.nanos)?,
    })
}

// The counts of the rows of all routes.
fn counts_in(routes: &[RouteCases]) -> Result<Counts, NoMemory>
    ensures { (groups : List (List ARow)) → routes.now ≡ map cases_of groups → IfOk result (λ counts. counts ≡ counts_of [] (flat_map (λ group. group) groups)) }
{
    let mut counts = no_counts();
    for cases in routes {
        counts = both_counts(counts, cases.counts)?;
    }
    Ok(counts)
}

// The cases of all routes, one after another.
fn put_texts(routes: Vec<RouteCases>, out: &mut Vec<u8>) -> Result<(), NoMemory>
    ensures { OnOk result (out.new.items ≡ out.old.items ++ flat_map (λ cases. cases.text) routes.items) }
{
    for cases in routes {
        put_text(cases.text, out)?;
    }
    Ok(())
}

// Puts the text behind what is there. The longer of the two is not copied: it stays in its memory.
fn put_text(mut text: Vec<u8>, out: &mut Vec<u8>) -> Result<(), NoMemory>
    ensures { OnOk result (out.new.items ≡ out.old.items ++ text.items) }
{
    if text.len() <= out.len() {
        out.extend_from_slice(&text)?;
        return Ok(());
    }
    mem::swap(out, &mut text);
    put_before(text, out)
}

// Puts the front before the text, which is moved once, and all at once.
fn put_before(front: Vec<u8>, text: &mut Vec<u8>) -> Result<(), NoMemory>
    ensures { OnOk result (text.new.items ≡ front.items ++ text.old.items) }
{
    text.splice(0..0, front)?;
    Ok(())
}
