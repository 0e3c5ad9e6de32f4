//! What `testr selftest` asks for.

ghost use Rattle.std.specs.Prelude.{◌≡◌, map, option_map};
ghost use Rattle.command_words.specs.Code.{item_meant};
ghost use Rattle.command_words.specs.Items.{name_of};
ghost use Rattle.testr_words.specs.Drawings as drawings;
ghost use Rattle.testr_words.specs.Words as words;

use crate::command::Command;
use crate::values::decimal_up_to;
use command_words::Item;

// A seed has nine digits at most.
const MOST_SEED: u32 = 999_999_999;

// The most lanes.
const MOST_LANES: u32 = 64;

// The most tests of all lanes together.
const MOST_TESTS: u32 = 1_000_000;

/// Outputs that are made up: what the draws begin with, and how many lanes of how many tests there are.
#[derive(Clone, Copy, Debug, PartialEq, Eq)]
pub struct SelfTestWords {
    /// The seed of the draws.
    pub seed: u32,
    /// How many lanes there are.
    pub lanes: u32,
    /// How many tests each of them has.
    pub tests: u32,
}

impl SelfTestWords {
    // The drawing, where it has 1 to 64 lanes, each of them a test, and all of them 1,000,000 at most.
    fn if_few(self) -> Option<SelfTestWords>
        ensures { result ≡ drawings.if_few self }
    {
        if are_few(self.lanes, self.tests) {
            Some(self)
        } else {
            None
        }
    }
}

fn are_few(lanes: u32, tests: u32) -> bool
    ensures { result ≡ drawings.are_few lanes tests }
{
    1 <= lanes
        && lanes <= MOST_LANES
        && 1 <= tests
        && u64::from(lanes) * u64::from(tests) <= u64::from(MOST_TESTS)
}

/// The drawing of the command's numbers. None comes exactly where it is not small enough.
pub fn drawing_of(command: &Command) -> Option<SelfTestWords>
    ensures { result ≡ drawings.drawing_of command.now }
{
    SelfTestWords {
        seed: command.seed,
        lanes: command.lanes,
        tests: command.tests,
    }
    .if_few()
}

/// The drawing of these items, which are the names of its three numbers. None comes exactly where they are not.
pub(crate) fn drawing_in(items: &[Item<'_>]) -> Option<SelfTestWords>
    ensures { result ≡ words.drawing_in (map item_meant items.now) }
{
    let [seed, lanes, tests] = items else {
        return None;
    };
    let seed = name_of(*seed)?;
    let lanes = name_of(*lanes)?;
    let tests = name_of(*tests)?;
    drawing_of_names(seed, lanes, tests)
}

// The name that the item is.
fn name_of<'a>(item: Item<'a>) -> Option<&'a str>
    ensures { option_map (λ word. word.now) result ≡ name_of (item_meant item.entry) }
{
    match item {
        Item::Name(word) => Some(word),
        Item::Flag(_) | Item::Valued(_, _) => None,
    }
}

// The drawing of these numbers.
fn drawing_of_names(seed: &str, lanes: &str, tests: &str) -> Option<SelfTestWords>
    ensures { result ≡ words.drawing_of_names seed.now lanes.now tests.now }
{
    let seed = decimal_up_to(seed, MOST_SEED)?;
    let lanes = decimal_up_to(lanes, MOST_LANES)?;
    let tests = decimal_up_to(tests, MOST_TESTS)?;
    SelfTestWords { seed, lanes, tests }.if_few()
}
