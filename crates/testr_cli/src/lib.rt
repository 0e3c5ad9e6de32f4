//! One program, two faces.
//!
//! `program` is what the real program's `main` calls, over traits that stand for the outside: a folder of runs, files by
//! name, a spawner of programs, an input and two sinks. It looks at the first word: where that is `testr` or `stestr`, it is
//! a call of `testr_as`, and else one of `filter_cli::filters`. Its contract is what these two promise.
//!
//! - `first_word`: the first word, and what it leads to
//! - `upgrade_from`: an upgrade from another folder
//!
//! The commands of `testr` stand in `testr_commands`, and are brought in here for those who call the program. Its tests
//! stand in rooms of their own above it, `load_trials` and `run_trials`.
#![tactic(auto)]

mod first_word;
mod upgrade_from;

pub use first_word::program;
pub use testr_commands::{
    Command, CopyFault, Face, FormatKind, KeepFault, LiveKind, PrintFault, Question, RecordFault,
    Refusal, RunsFault, TellFault, UsageFault, Verb, Verdict, quiet, read_command, read_command_as,
    refusals_are_exact, refusals_stand_behind_lines, suite_refusals_are_exact, testr, testr_as,
};
