//! Ids that stay together.

ghost use Rattle.std.specs.Prelude.{◌≡◌, ◌++◌, ◌||◌, [], ◌∷◌, None, Some, IfOk, OnOk, IfSome, option_map, if◌then◌else◌};
ghost use Rattle.std.specs.Str.{bytes_eq};
ghost use Rattle.regex.specs.Strings.{matcher_pattern};
ghost use Rattle.partition_times.specs.Patterns.{IsPattern, IsBadPattern, first_match};
ghost use Rattle.partition_times.specs.Compiled.{FindsSame};
ghost use Rattle.partition_times.specs.Names.{group_of, named_by};
ghost use Rattle.partition_times.specs.Gathered.{SearchesFor, AreGathered, ids_under, has_group};

use crate::pattern::{PatternFault, compiled, string_of};
use regex::{Matcher, Regex};
use std::alloc::Global;
use std::collections::BTreeMap;
use std::marker::Model;
use sub_number::{IdList, NoMemory, Text};

/// How ids are put into groups: by a pattern, or each into a group of its own. Contracts see the text of the pattern.
#[derive(Drop)]
pub struct Groups {
    regex: Option<Regex>,
}

impl Model for Groups {
    ghost use Rattle.std.specs.Prelude.{List, ℕ, Option, option_map, IfSome};
    ghost use Rattle.regex.specs.Strings.{regex_source};
    ghost use Rattle.partition_times.specs.Compiled.{IsCompiled};

    ghost Value = { Option (List ℕ) };

    ghost view = { λ g. option_map regex_source g.regex };

    ghost invariant = { λ g. IfSome g.regex (λ regex. IsCompiled (regex_source regex) regex) };
}

impl Groups {
    ghost use Rattle.std.specs.Prelude.{IsSomeAnd};

    /// The groups by this pattern, which is compiled once. Without a pattern each id is a group.
    ///
    /// `BadPattern` comes only with the index 0 and where the pattern is bad. `NoMemory` comes only for want of memory,
    /// which also stands for a pattern that is too large for `regex`.
    pub fn new(alloc: Global, pattern: Option<&Text>) -> Result<Self, PatternFault>
        ensures pattern { IfOk result (λ groups. groups ≡ option_map (λ p. p.now) pattern.entry) }
        ensures good { IfOk result (λ _. IfSome pattern.entry (λ p. IsPattern p.now)) }
        ensures bad { (index : _) → result ≡ Err (PatternFault.BadPattern index) → (index ≡ 0) × IsSomeAnd pattern.entry (λ p. IsBadPattern p.now) }
    {
        let regex = match pattern {
            Some(pattern) => Some(compiled(alloc, 0, pattern)?),
            None => None,
        };
        Ok(Groups { regex })
    }
}

impl Groups {
    // What searches for the pattern.
    fn matcher(&self, alloc: Global) -> Result<Option<Matcher<'_>>, NoMemory>
        ensures { IfOk result (λ matcher. SearchesFor self.now (option_map matcher_pattern matcher)) }
    {
        match &self.regex {
            Some(regex) => Ok(Some(regex.matcher(alloc)?)),
            None => Ok(None),
        }
    }

    // The ids of each group under its name, in their order.
    pub(crate) fn gathered<'a>(
        &self,
        alloc: Global,
        ids: &'a IdList,
    ) -> Result<BTreeMap<&'a str, Vec<Text>>, NoMemory>
        ensures { IfOk result (AreGathered (group_of self.now) ids.now) }
    {
        let mut matcher = self.matcher(alloc)?;
        let mut lists = BTreeMap::new(alloc);
        for id in ids.list() {
            let name = name_of(&mut matcher, string_of(id));
            put_under(&mut lists, name, id.copy()?)?;
        }
        Ok(lists)
    }
}

// The name of the id's group, where this searches for the pattern.
fn name_of<'a>(matcher: &mut Option<Matcher<'_>>, id: &'a str) -> &'a str
    ensures name { (pattern : _) → SearchesFor pattern (option_map matcher_pattern matcher.old) → result.now ≡ group_of pattern id.now }
    ensures same { option_map matcher_pattern matcher.new ≡ option_map matcher_pattern matcher.old }
{
    match matcher {
        Some(matcher) => matched_name(matcher, id),
        None => id,
    }
}

fn matched_name<'a>(matcher: &mut Matcher<'_>, id: &'a str) -> &'a str
    ensures name { (pattern : _) → FindsSame pattern (matcher_pattern matcher.old) → result.now ≡ named_by (first_match pattern id.now) id.now }
    ensures same { matcher_pattern matcher.new ≡ matcher_pattern matcher.old }
{
    match matcher.find(id) {
        Some(found) if found.start() == 0 && !found.is_empty() => found.as_str(),
        _ => id,
    }
}

// Puts the id behind those under the name.
fn put_under<'a>(
    lists: &mut BTreeMap<&'a str, Vec<Text>>,
    name: &'a str,
    id: Text,
) -> Result<(), NoMemory>
    ensures ids { OnOk result ((q : _) → ids_under lists.new q ≡ if bytes_eq q name.now then ids_under lists.old q ++ id ∷ [] else ids_under lists.old q) }
    ensures names { OnOk result ((q : _) → has_group lists.new q ≡ (bytes_eq q name.now || has_group lists.old q)) }
{
    let list: &mut Vec<Text> = lists.entry(name)?.or_default();
    list.push(id)?;
    Ok(())
}
