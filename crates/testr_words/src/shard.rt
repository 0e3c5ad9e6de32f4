//! Which shard of a build's tests words ask for.

ghost use Rattle.std.specs.Prelude.{◌≡◌, ◌<◌, ◌≤◌, ◌-◌, map, option_map};
ghost use Rattle.std.specs.List.{list_all};
ghost use Rattle.std.specs.Option.{option_to_list};
ghost use Rattle.command_words.specs.Code.{item_meant};
ghost use Rattle.command_words.specs.Items.{value_of};
ghost use Rattle.testr_words.specs.Shards.{part_of};
ghost use Rattle.testr_words.specs.Words as words;

use crate::values::{decimal_up_to, last_value, value_of};
use command_words::Item;
use std::marker::Model;

/// How many shards there are at most.
pub const MOST_SHARDS: u32 = 1024;

/// A shard of a build's tests. Contracts see its number, which is counted from 1, and how many there are.
#[derive(Clone, Copy)]
pub struct Shard {
    number: u32,
    count: u32,
}

impl Model for Shard {
    ghost use Rattle.std.specs.Prelude.{◌≤◌};
    ghost use Rattle.testr_words.specs.Shards.{NumberedShard};

    ghost Value = { NumberedShard };

    ghost view = { λ s. record { number = s.number; count = s.count } };

    ghost inverse = { λ p. record { number = p.number; count = p.count } };

    ghost invariant = { λ s. (1 ≤ s.number) × (s.number ≤ s.count) };
}

impl Shard {
    /// The shard of this number, which is counted from 1, of so many. None comes exactly where there is no such shard.
    pub fn new(number: u32, count: u32) -> Option<Self>
        ensures { result ≡ part_of number count }
    {
        if number >= 1 && number <= count && count <= MOST_SHARDS {
            Some(Shard { number, count })
        } else {
            None
        }
    }

    /// How many shards there are: at least one.
    pub fn count(self) -> u32
        ensures count { result ≡ self.count }
        ensures some { 1 ≤ result }
    {
        self.count
    }

    /// Its place among them, counted from 0.
    pub fn place(self) -> usize
        ensures place { result ≡ self.number - 1 }
        ensures below { result < self.count }
    {
        (self.number - 1) as usize
    }
}

/// The shard that the last option tells that tells one; none in the answer where none does. None comes exactly where one of
/// these options has another value than a number, a slash, and how many shards there are.
pub(crate) fn shard_in(items: &[Item<'_>]) -> Option<Option<Shard>>
    ensures { result ≡ words.shard_in (map item_meant items.now) }
{
    if !are_shards(items) {
        return None;
    }
    match last_value(items, "--shard") {
        Some(value) => Some(told_shard(value)),
        None => Some(None),
    }
}

// Whether each of the options that tell a shard has one.
fn are_shards(items: &[Item<'_>]) -> bool
    ensures { result ≡ list_all (λ item. list_all words.is_shard (option_to_list (value_of words.shard_word (item_meant item)))) items.now }
{
    items.iter().all(|item| is_fit(*item))
}

// Whether the item, where it tells a shard, has one.
fn is_fit(item: Item<'_>) -> bool
    ensures { result ≡ list_all words.is_shard (option_to_list (value_of words.shard_word (item_meant item.entry))) }
{
    match value_of(item, "--shard") {
        Some(value) => told_shard(value).is_some(),
        None => true,
    }
}

// The shard that the value tells. None comes exactly where it tells none.
fn told_shard(value: &str) -> Option<Shard>
    ensures { result ≡ words.shard_of value.now }
{
    let (which, count) = value.split_once('/')?;
    Shard::new(
        decimal_up_to(which, MOST_SHARDS)?,
        decimal_up_to(count, MOST_SHARDS)?,
    )
}
