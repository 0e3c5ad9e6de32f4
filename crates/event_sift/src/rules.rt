//! The rules by which tests are kept.

ghost use Rattle.std.specs.Prelude.{◌≡◌, ◌&&◌, not, IfOk};
ghost use Rattle.std.specs.List.{list_all, list_any};
ghost use Rattle.partition_times.specs.Patterns.{is_found};
ghost use Rattle.event_sift.specs.Keeping as keeping;
ghost use Rattle.event_sift.specs.Keeping.{has_wanted};

use crate::predicate::Predicate;
use outcome_fold::{Ended, Row};
use packet_codec::Tags;
use partition_times::{Filters, Finder};
use std::alloc::Global;
use sub_number::{NoMemory, Text};

/// What a test must be to be kept, as docs/FORMATS.md says under "subunit-filter".
#[derive(Drop)]
pub struct Rules {
    /// Whether tests that passed are kept.
    pub success: bool,
    /// Whether failures are kept. Successes that were not expected, and tests that were left open, are such too.
    pub failure: bool,
    /// Whether tests that were skipped are kept.
    pub skip: bool,
    /// Whether failures that were expected are kept.
    pub xfail: bool,
    /// The tags that a test must have, each of them.
    pub with_tags: Tags,
    /// The tags that a test must not have, none of them.
    pub without_tags: Tags,
    /// The patterns of which one must be found in the id, where there are any.
    pub with_ids: Filters,
    /// The patterns of which none may be found in the id.
    pub without_ids: Filters,
}

// Whether a test may end so. One that is only known to exist always may.
fn allows(rules: &Rules, ended: Ended) -> bool
    ensures { result ≡ keeping.allows rules.now ended }
{
    match ended {
        Ended::Exists => true,
        Ended::Success => rules.success,
        Ended::Skip => rules.skip,
        Ended::XFail => rules.xfail,
        Ended::UxSuccess | Ended::Fail | Ended::Open => rules.failure,
    }
}

// Whether each of the tags is among a test's own.
fn has_each(tags: &[Text], own: &[Text]) -> bool
    ensures { result ≡ list_all (keeping.has_tag own.now) tags.now }
{
    tags.iter().all(|tag| own.contains(tag))
}

// Whether one of the tags is among a test's own.
fn has_one(tags: &[Text], own: &[Text]) -> bool
    ensures { result ≡ list_any (keeping.has_tag own.now) tags.now }
{
    tags.iter().any(|tag| own.contains(tag))
}

// Whether a test's own tags are as they must be.
fn keeps_tags(rules: &Rules, own: &[Text]) -> bool
    ensures { result ≡ keeping.keeps_tags rules.now own.now }
{
    has_each(rules.with_tags.list(), own) && !has_one(rules.without_tags.list(), own)
}

// Whether one of the patterns that are asked for is found in the id, where there are any.
fn has_wanted_id(with_ids: &mut Finder<'_>, id: &Text) -> bool
    ensures wanted { result ≡ has_wanted with_ids.old id.now }
    ensures same { with_ids.new ≡ with_ids.old }
{
    with_ids.is_empty() || with_ids.found(id)
}

/// Rules as a predicate: what looks for their patterns is made once, for all tests.
#[derive(Drop)]
pub struct ByRules<'r> {
    rules: &'r Rules,
    with_ids: Finder<'r>,
    without_ids: Finder<'r>,
    ghost wanted: { with_ids ≡ rules.now.with_ids },
    ghost unwanted: { without_ids ≡ rules.now.without_ids },
}

impl<'r> ByRules<'r> {
    ghost use Rattle.event_sift.specs.Sifted.{rules_asked};

    /// The predicate that these rules are.
    pub fn new(alloc: Global, rules: &'r Rules) -> Result<Self, NoMemory>
        ensures { IfOk result (λ predicate. rules_asked predicate ≡ rules.now) }
    {
        let with_ids = rules.with_ids.finder(alloc)?;
        let without_ids = rules.without_ids.finder(alloc)?;
        Ok(ByRules {
            rules,
            with_ids,
            without_ids,
        })
    }

    // Whether the id is as it must be.
    fn keeps_id(&mut self, id: &Text) -> bool
        ensures kept { result ≡ (keeping.has_wanted_id (rules_asked self.old) id.now && not (is_found (rules_asked self.old).without_ids id.now)) }
        ensures rules { rules_asked self.new ≡ rules_asked self.old }
    {
        has_wanted_id(&mut self.with_ids, id) && !self.without_ids.found(id)
    }
}

impl<'r> Predicate for ByRules<'r> {
    ghost use Rattle.event_sift.specs.Sifted.{rules_asked};

    ghost rules = { rules_asked };

    fn is_kept(&mut self, id: &Text, ended: Ended, tags: &Tags) -> Result<bool, NoMemory> {
        Ok(allows(self.rules, ended) && keeps_tags(self.rules, tags.list()) && self.keeps_id(id))
    }
}

/// Whether the rules keep the test of the row. They do where it is allowed how the test ended, and it has every tag that is
/// asked for and none that is not wanted. In its id one of the patterns that are asked for must be found, where there
/// are any, and none of the others. For many tests `ByRules` is quicker.
pub fn keeps_row(alloc: Global, rules: &Rules, row: &Row) -> Result<bool, NoMemory>
    ensures { IfOk result (λ kept. kept ≡ keeping.keeps rules.now row.now) }
{
    let mut predicate = ByRules::new(alloc, rules)?;
    predicate.is_kept(&row.id, row.ended, &row.tags)
}
