//! The patterns of `subunit-filter`.

ghost use Rattle.std.specs.Prelude.{◌≡◌, ◌<◌, [], ◌∷◌, ◌++◌, length, slice_index_or, IfOk, IfErr, OnOk};
ghost use Rattle.filter_cli.specs.Patterns as checked;

use crate::selection::Selection;
use event_sift::Rules;
use partition_times::{Filters, PatternFault};
use std::alloc::Global;
use std::marker::Model;
use sub_number::{NoMemory, Text};

/// Patterns, in the order of the words. Contracts see them as the list of their texts.
#[derive(Drop)]
pub struct Patterns {
    texts: Vec<Text>,
}

impl Model for Patterns {
    ghost use Rattle.std.specs.Prelude.{List, ℕ};

    ghost Value = { List (List ℕ) };

    ghost view = { λ p. p.texts.items };
}

impl Patterns {
    /// No pattern. It takes no memory yet.
    pub fn new(alloc: Global) -> Self
        ensures { result ≡ [] }
    {
        Patterns {
            texts: Vec::new(alloc),
        }
    }

    /// Adds the pattern at the end.
    ///
    /// After `NoMemory` nothing is known of the patterns.
    pub fn push(&mut self, pattern: Text) -> Result<(), NoMemory>
        ensures { OnOk result (self.new ≡ self.old ++ pattern ∷ []) }
    {
        self.texts.push(pattern)?;
        Ok(())
    }

    /// The patterns.
    pub fn list(&self) -> &[Text]
        ensures { result.now ≡ self.now }
    {
        &self.texts
    }

    /// The pattern with this index, moved out.
    pub fn take(mut self, index: usize) -> Text
        requires { index < length self }
        ensures { result ≡ slice_index_or self index [] }
    {
        self.texts.swap_remove(index)
    }
}

/// Why the patterns of a filter were refused.
#[derive(Drop)]
pub enum PatternsFault {
    /// This is the first bad one: `regex` reads no pattern in it, or one that is nested too deep.
    Bad(Text),
    /// There is not enough memory, or a pattern asks for more than `regex` gives one pattern.
    NoMemory,
}

/// The rules of the selection, its patterns compiled.
///
/// `Bad` comes only with the first bad pattern in the order of the words.
pub fn compiled_rules(alloc: Global, selection: Selection) -> Result<Rules, PatternsFault>
    ensures rules { IfOk result (λ rules. rules ≡ checked.rules_of_selection selection) }
    ensures patterns { checked.CompilesPatterns selection.patterns result }
{
    let Selection {
        success,
        failure,
        skip,
        xfail,
        hidden: _,
        with_tags,
        without_tags,
        with_ids,
        without_ids,
        patterns,
    } = selection;
    check(alloc, patterns)?;
    Ok(Rules {
        success,
        failure,
        skip,
        xfail,
        with_tags,
        without_tags,
        with_ids: compiled(alloc, with_ids.list())?,
        without_ids: compiled(alloc, without_ids.list())?,
    })
}

// Refuses the first bad pattern.
fn check(alloc: Global, patterns: Patterns) -> Result<(), PatternsFault>
    ensures { checked.CompilesPatterns patterns result }
{
    match Filters::new(alloc, patterns.list()) {
        Ok(_) => Ok(()),
        Err(PatternFault::BadPattern(index)) => Err(PatternsFault::Bad(patterns.take(index))),
        Err(PatternFault::NoMemory) => Err(PatternsFault::NoMemory),
    }
}

// Some of the patterns, all of which were found good before, so that memory alone can be wanting.
fn compiled(alloc: Global, patterns: &[Text]) -> Result<Filters, PatternsFault>
    ensures filters { IfOk result (λ filters. filters ≡ patterns.now) }
    ensures memory { IfErr result (λ fault. fault ≡ PatternsFault.NoMemory) }
{
    match Filters::new(alloc, patterns) {
        Ok(filters) => Ok(filters),
        Err(_) => Err(PatternsFault::NoMemory),
    }
}
