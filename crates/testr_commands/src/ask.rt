//! The commands that tell of a repository, and change nothing.

ghost use Rattle.std.specs.Prelude.{◌↔◌, ◌+◌, IsTrue};
ghost use Rattle.run_shelf.specs.Looking.{base_calls};
ghost use Rattle.testr_commands.specs.Ask.{Asks};
ghost use Rattle.command_steps.specs.Outside.{shown};
ghost use Rattle.testr_words.specs.Questions.{OfBytes};
ghost use Rattle.testr_commands.specs.Sparing.{LooksOnly};
ghost use Rattle.command_steps.specs.Calls.{SparesFor};

use crate::{Refusal, Verdict};
use command_steps::{check_has_run, copy_last, find_answer, open_store, print_text};
use edge_io::{Shelf, Sink};
use std::alloc::Global;
use testr_words::Question;

/// Prints the answer of the question.
pub fn ask<H: Shelf, O: Sink>(
    alloc: Global,
    question: Question,
    shelf: &mut H,
    out: &mut O,
) -> Result<Verdict, Refusal<'static>>
    ensures step { Asks question
        (shown (H.seen shelf.old) (O.seen out.old))
        (shown (H.seen shelf.new) (O.seen out.new))
        result }
    ensures spares { SparesFor (6 + base_calls (H.seen shelf.old).told) question (H.seen shelf.old).told (H.clock shelf.old) (H.clock shelf.new) }
    ensures looks { LooksOnly (H.seen shelf.old).told (H.clock shelf.old) (H.clock shelf.new) }
{
    let found = open_store(alloc, shelf)?;
    check_has_run(question, &found)?;
    if is_of_bytes(question) {
        copy_last(shelf, &found, out)?;
        return Ok(Verdict::Passed);
    }
    let told = find_answer(alloc, question, shelf, found)?;
    print_text(out, &told.text)?;
    Ok(told.verdict)
}

// Whether the last run's bytes are asked for.
fn is_of_bytes(question: Question) -> bool
    ensures { IsTrue result ↔ OfBytes question }
{
    matches!(question, Question::Last { subunit: true })
}
