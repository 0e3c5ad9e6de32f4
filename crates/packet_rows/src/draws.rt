//! Numbers that are drawn from a seed, and the outputs of lanes that are made of them.

use crate::fields::number_in;
use crate::told::{put_line, put_number, put_value};
use drawn_lanes::{Draws, drawn_plans};
use edge_io::Plan;
use std::alloc::Global;

/// Answers the first numbers of the seed.
pub fn answer_draws(words: &str, said: &mut Vec<u8>) -> Option<()> {
    let count = number_in(words, "count=")?;
    let mut draws = Draws::new(number_in(words, "seed=")?);
    for _ in 0..count {
        put_number(u128::from(draws.next()), b"\n", said)?;
    }
    Some(())
}

fn put_plans(alloc: Global, plans: &[Plan], said: &mut Vec<u8>) -> Option<()> {
    for plan in plans {
        put_line(plan.output.bytes(), said)?;
        put_value(alloc, &plan.finish, said)?;
    }
    Some(())
}

/// Answers what each lane prints, and how it ends.
pub fn answer_plans(alloc: Global, words: &str, said: &mut Vec<u8>) -> Option<()> {
    let seed = number_in(words, "seed=")?;
    let lanes = number_in(words, "lanes=")?;
    let tests = number_in(words, "tests=")?;
    if lanes < 1 || lanes > 64 || lanes.checked_mul(tests)? > 1_000_000 {
        return None;
    }
    let plans = drawn_plans(alloc, seed, lanes, tests).ok()?;
    put_plans(alloc, &plans, said)
}
