//! The commands of `testr`: words become an answer.
//!
//! `testr` does what the words behind that name say, over traits that stand for the outside: a folder of runs, files by
//! name, a spawner of programs, an input and two sinks. Its contract is the theorem of each command. It knows the order of
//! the steps, and never a real file or process. `testr_words` reads the words, and `command_steps` has the steps.
//!
//! For want of memory a call refuses so, and for nothing else; what it did outside by then stands, and its status is 5.
//!
//! - `init`, `load`, `ask`, `run`, `list`, `selftest`: the commands, each a chain of steps
//! - `upgrade`: the command that takes over a folder of the original tool
//! - `elsewhere`: instances that a project asks for, in front of its command and behind it
//! - `testr_call`: `testr`
//! - `single_thread`: `quiet`, which needs no program and no thread
//! - `answer`: a refusal is told, and the status given
//! - `live_settings`: what is said of a run while it goes on
//! - `missing_report`: what is left to tell at the end, of tests that were asked for and did not run
//! - `null_sink`: the output of a command that prints no report
//! - `laws`, `suite_laws`: each named refusal comes exactly where its cause is
//!
//! Its tests stand in rooms of their own above it, `load_trials` and `run_trials`.
#![tactic(auto)]

mod answer;
mod ask;
mod elsewhere;
mod init;
mod laws;
mod list;
mod live_settings;
mod load;
mod missing_report;
mod null_sink;
mod run;
mod selftest;
mod single_thread;
mod suite_laws;
mod testr_call;
mod upgrade;

pub use command_steps::{
    CopyFault, KeepFault, PrintFault, RecordFault, Refusal, RunsFault, TellFault, UsageFault,
    Verdict,
};
pub use laws::{
    instances_are_disposed_of_last, refusals_are_exact, refusals_stand_behind_lines,
    tests_run_elsewhere_where_asked, upgrade_refusals_are_exact,
};
pub use single_thread::quiet;
pub use suite_laws::suite_refusals_are_exact;
pub use testr_call::{testr, testr_as};
pub use testr_words::{
    Command, Face, FormatKind, LiveKind, Question, Verb, read_command, read_command_as,
};
