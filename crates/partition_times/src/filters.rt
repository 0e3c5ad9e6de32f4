//! Patterns, and the ids in which some pattern is found.

ghost use Rattle.std.specs.Prelude.{◌≡◌, ◌==◌, [], length, All, IfOk, IfErr, is_some, map, take};
ghost use Rattle.regex.specs.Patterns.{find_str};
ghost use Rattle.regex.specs.Strings.{matcher_pattern, regex_pattern};
ghost use Rattle.partition_times.specs.Compiled.{AreSearchers, is_picked};
ghost use Rattle.partition_times.specs.Patterns.{IsPattern, IsFirstBad, is_found, picked_ids};

use crate::pattern::{PatternFault, compiled, string_of};
use regex::{Matcher, Regex};
use std::alloc::Global;
use std::marker::Model;
use sub_number::{IdList, NoMemory, Text};

/// Patterns of ids. Contracts see them as the list of their texts.
#[derive(Drop)]
pub struct Filters {
    regexes: Vec<Regex>,
}

impl Model for Filters {
    ghost use Rattle.std.specs.Prelude.{List, ℕ, map, All};
    ghost use Rattle.regex.specs.Strings.{regex_source};
    ghost use Rattle.partition_times.specs.Compiled.{IsCompiled};

    ghost Value = { List (List ℕ) };

    ghost view = { λ f. map regex_source f.regexes.items };

    ghost invariant = { λ f. All (λ regex. IsCompiled (regex_source regex) regex) f.regexes.items };
}

impl Filters {
    /// The patterns, each compiled once.
    ///
    /// `BadPattern` comes only with the index of the first bad pattern. `NoMemory` comes only for want of memory, which
    /// also stands for a pattern that is too large for `regex`.
    pub fn new(alloc: Global, patterns: &[Text]) -> Result<Self, PatternFault>
        ensures patterns { IfOk result (λ filters. filters ≡ patterns.now) }
        ensures good { IfOk result (λ _. All IsPattern patterns.now) }
        ensures bad { (index : _) → result ≡ Err (PatternFault.BadPattern index) → IsFirstBad patterns.now index }
    {
        let mut regexes = Vec::with_capacity(alloc, patterns.len())?;
        for index in 0..patterns.len() {
            regexes.push(compiled(alloc, index, &patterns[index])?)?;
        }
        Ok(Filters { regexes })
    }

    /// Whether some pattern is found in the id. They are looked for one by one, up to the first that is found.
    pub fn found(&self, alloc: Global, id: &Text) -> Result<bool, NoMemory>
        ensures { IfOk result (λ found. found ≡ is_found self.now id.now) }
    {
        let string = string_of(id);
        for regex in &self.regexes {
            if has_match(alloc, regex, string)? {
                return Ok(true);
            }
        }
        Ok(false)
    }

    /// Whether there is no pattern.
    pub fn is_empty(&self) -> bool
        ensures { result ≡ (length self.now == 0) }
    {
        self.regexes.is_empty()
    }
}

impl Filters {
    ghost use Rattle.std.specs.List.{list_any};
    ghost use Rattle.std.specs.Prelude.{is_some};
    ghost use Rattle.regex.specs.Patterns.{find_str};
    ghost use Rattle.regex.specs.Strings.{regex_pattern, regex_source, matcher_pattern};
    ghost use Rattle.partition_times.specs.Compiled.{IsCompiled};

    // What searches for each of the patterns.
    fn matchers(&self, alloc: Global) -> Result<Vec<Matcher<'_>>, NoMemory>
        ensures { IfOk result (λ matchers. AreSearchers self.now (map matcher_pattern matchers.items)) }
    {
        let mut matchers = Vec::with_capacity(alloc, self.regexes.len())?;
        for regex in &self.regexes {
            matchers.push(regex.matcher(alloc)?)?;
        }
        Ok(matchers)
    }
}

// Whether the pattern is found in the string.
fn has_match(alloc: Global, regex: &Regex, string: &str) -> Result<bool, NoMemory>
    ensures { IfOk result (λ found. found ≡ is_some (find_str (regex_pattern regex.now) string.now 0)) }
{
    let mut matcher = regex.matcher(alloc)?;
    Ok(matcher.is_match(string))
}

// Whether some of the patterns is found in the id.
fn is_match(matchers: &mut [Matcher<'_>], id: &Text) -> bool
    ensures found { (patterns : _) → AreSearchers patterns (map matcher_pattern matchers.old) → result ≡ is_found patterns id.now }
    ensures same { map matcher_pattern matchers.new ≡ map matcher_pattern matchers.old }
{
    let string = string_of(id);
    for index in 0..matchers.len() {
        if matchers[index].is_match(string) {
            return true;
        }
    }
    false
}

// Whether the id is picked, where these are all the patterns.
fn is_picked(matchers: &mut [Matcher<'_>], id: &Text) -> bool
    ensures picked { (patterns : _) → AreSearchers patterns (map matcher_pattern matchers.old) → result ≡ is_picked patterns id.now }
    ensures same { map matcher_pattern matchers.new ≡ map matcher_pattern matchers.old }
{
    matchers.is_empty() || is_match(matchers, id)
}

/// What looks for patterns in ids. It is made once for many ids, since that takes longer than to look. Contracts see it as
/// the list of the patterns' texts.
#[derive(Drop)]
pub struct Finder<'f> {
    filters: &'f Filters,
    matchers: Vec<Matcher<'f>>,
}

impl<'f> Model for Finder<'f> {
    ghost use Rattle.std.specs.Prelude.{List, ℕ, map};
    ghost use Rattle.regex.specs.Strings.{matcher_pattern};
    ghost use Rattle.partition_times.specs.Compiled.{AreSearchers};

    ghost Value = { List (List ℕ) };

    ghost view = { λ f. f.filters.now };

    ghost invariant = { λ f. AreSearchers f.filters.now (map matcher_pattern f.matchers.items) };
}

impl Filters {
    /// What looks for the patterns.
    pub fn finder(&self, alloc: Global) -> Result<Finder<'_>, NoMemory>
        ensures { IfOk result (λ finder. finder ≡ self.now) }
    {
        let matchers = self.matchers(alloc)?;
        Ok(Finder {
            filters: self,
            matchers,
        })
    }
}

impl<'f> Finder<'f> {
    /// Whether some pattern is found in the id. They are looked for one by one, up to the first that is found. It takes
    /// no memory of its own.
    pub fn found(&mut self, id: &Text) -> bool
        ensures found { result ≡ is_found self.old id.now }
        ensures same { self.new ≡ self.old }
    {
        is_match(&mut self.matchers, id)
    }

    /// Whether there is no pattern.
    pub fn is_empty(&self) -> bool
        ensures { result ≡ (length self.now == 0) }
    {
        self.filters.is_empty()
    }
}

/// The ids in which some pattern is found, in their order, and all of them where there is no pattern.
pub fn pick(alloc: Global, ids: &IdList, filters: &Filters) -> Result<IdList, NoMemory>
    ensures { IfOk result (λ picked. picked ≡ picked_ids filters.now ids.now) }
{
    let mut matchers = filters.matchers(alloc)?;
    let mut picked = IdList::new(alloc);
    for id in ids.list() {
        if is_picked(&mut matchers, id) {
            picked.push(id.copy()?)?;
        }
    }
    Ok(picked)
}
