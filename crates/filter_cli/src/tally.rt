//! What is counted of tests as they end.

ghost use Rattle.std.specs.Prelude.{◌≡◌, List, [], ◌∷◌, ◌++◌, count_by, OnOk};
ghost use Rattle.outcome_fold.specs.declared.row.Row.{Row as ARow};
ghost use Rattle.outcome_fold.specs.Answers.{seen_tags_of};
ghost use Rattle.outcome_fold.specs.EndedParts.{row_of_part};
ghost use Rattle.outcome_fold.specs.Order.{in_byte_order};
ghost use Rattle.filter_cli.specs.Tally as spec;
ghost use Rattle.filter_cli.specs.Tally.{HasTallied, AreCounts};

use outcome_fold::{Counts, Ended, EndedPart, Row, TextSet};
use std::alloc::Global;
use sub_number::{NoMemory, Text};

/// How the tests of some rows ended, and the tags of those that ran. Nothing else is kept of them, and of each test one
/// byte.
#[derive(Drop)]
pub(crate) struct Tally {
    pub(crate) ended: Vec<Ended>,
    pub(crate) tags: TextSet,
}

// What a test is counted as.
#[derive(Clone, Copy)]
pub(crate) enum Kind {
    // It ran.
    Run,
    // It neither failed nor was skipped.
    Passed,
    Failed,
    Skipped,
}

// Whether a test that ended so is one of these.
fn is_of(kind: Kind, ended: Ended) -> bool
    ensures { result ≡ spec.is_of kind ended }
{
    match kind {
        Kind::Run => ended != Ended::Exists,
        Kind::Passed => matches!(ended, Ended::Success | Ended::XFail),
        Kind::Failed => ended.fails(),
        Kind::Skipped => ended == Ended::Skip,
    }
}

// How many tests that ended so are of this kind.
fn number_of(kind: Kind, ended: &[Ended]) -> u64
    ensures { result ≡ count_by (spec.is_of kind) ended.now }
{
    ended.iter().filter(|ended| is_of(kind, **ended)).count() as u64
}

// Adds the tags of a test that ended so, where it ran.
fn add_tags(tags: &mut TextSet, ended: Ended, texts: &[Text]) -> Result<(), NoMemory>
    ensures { (rows : List ARow) (row : ARow) → row.ended ≡ ended → in_byte_order row.tags ≡ in_byte_order texts.now → tags.old ≡ seen_tags_of rows → OnOk result (tags.new ≡ seen_tags_of (rows ++ row ∷ [])) }
{
    if !is_of(Kind::Run, ended) {
        return Ok(());
    }
    tags.insert_all(texts)?;
    Ok(())
}

impl Tally {
    /// Of no row. It takes no memory yet.
    pub(crate) fn new(alloc: Global) -> Self
        ensures { HasTallied result [] }
    {
        Tally {
            ended: Vec::new(alloc),
            tags: TextSet::new(alloc),
        }
    }

    // Counts one test more, which ended so and has these tags.
    fn count(&mut self, ended: Ended, texts: &[Text]) -> Result<(), NoMemory>
        ensures { (rows : List ARow) (row : ARow) → row.ended ≡ ended → in_byte_order row.tags ≡ in_byte_order texts.now → HasTallied self.old rows → OnOk result (HasTallied self.new (rows ++ row ∷ [])) }
    {
        self.ended.push(ended)?;
        add_tags(&mut self.tags, ended, texts)?;
        Ok(())
    }

    /// Counts one row more.
    ///
    /// After `NoMemory` nothing is known of what was counted.
    pub(crate) fn add(&mut self, row: &Row) -> Result<(), NoMemory>
        ensures { (rows : List ARow) → HasTallied self.old rows → OnOk result (HasTallied self.new (rows ++ row.now ∷ [])) }
    {
        self.count(row.ended, row.tags.list())
    }

    /// Counts the row of this part, which is not made.
    ///
    /// After `NoMemory` nothing is known of what was counted.
    pub(crate) fn add_part(&mut self, part: &EndedPart) -> Result<(), NoMemory>
        ensures { (rows : List ARow) → HasTallied self.old rows → OnOk result (HasTallied self.new (rows ++ row_of_part part.now ∷ [])) }
    {
        self.count(part.ended, part.started.tags.list())
    }

    /// Counts these rows too.
    ///
    /// After `NoMemory` nothing is known of what was counted.
    pub(crate) fn add_all(&mut self, rows: &[Row]) -> Result<(), NoMemory>
        ensures { (before : List ARow) → HasTallied self.old before → OnOk result (HasTallied self.new (before ++ rows.now)) }
    {
        for row in rows {
            self.add(row)?;
        }
        Ok(())
    }

    /// How many tests there are of each kind. No times are counted.
    pub(crate) fn counts(&self) -> Counts
        ensures { AreCounts result self.now.ended.items }
    {
        Counts {
            total: number_of(Kind::Run, &self.ended),
            passed: number_of(Kind::Passed, &self.ended),
            failed: number_of(Kind::Failed, &self.ended),
            skipped: number_of(Kind::Skipped, &self.ended),
            nanos: None,
        }
    }
}
