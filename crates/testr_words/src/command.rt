//! What words may ask for.

ghost use Rattle.std.specs.Prelude.{◌≡◌};
ghost use Rattle.testr_words.specs.Tasks.{report_question};

use crate::format::FormatKind;
use crate::live_kind::LiveKind;
use crate::shard::Shard;
use crate::words::MOST_FILES;
use std::alloc::Global;
use sub_number::{IdList, Text};

/// By which name the program was called.
#[derive(Clone, Copy, Debug, PartialEq, Eq)]
pub enum Face {
    /// `testr`.
    Testr,
    /// `stestr`, whose words ask for some things by default.
    Stestr,
}

/// Which command it is.
#[derive(Clone, Copy, Debug, PartialEq, Eq)]
pub enum Verb {
    /// Make a repository.
    Init,
    /// Keep what is recorded of streams as a run.
    Load,
    /// Run tests, and keep what is recorded of them as a run.
    Run,
    /// Tell of the last run.
    Last,
    /// Tell of the tests that fail by all runs.
    Failing,
    /// Tell of the slowest tests of the last run.
    Slowest,
    /// Tell how many runs there are.
    Stats,
    /// List the tests that there are.
    ListTests,
    /// Run generated outputs.
    SelfTest,
    /// Make a folder of the original tool a repository.
    Upgrade,
}

/// What is said of a project: what stands in place of its configuration's values, and behind its commands; and what its jobs
/// run on.
#[derive(Drop)]
pub struct ProjectWords {
    /// The path of the tests.
    pub test_path: Option<Text>,
    /// The path from which modules are named.
    pub top_dir: Option<Text>,
    /// The pattern by which tests are grouped.
    pub group_regex: Option<Text>,
    /// The words that stand behind the command of each job that runs tests, in their order.
    pub arguments: IdList,
    /// The instances that its jobs run on, where some were provisioned for it. No word tells them.
    pub instances: Option<IdList>,
}

impl ProjectWords {
    ghost use Rattle.std.specs.Prelude.{◌≡◌};
    ghost use Rattle.testr_words.specs.Words.{no_project_words};

    /// Nothing is said.
    pub fn none(alloc: Global) -> Self
        ensures { result ≡ no_project_words }
    {
        ProjectWords {
            test_path: None,
            top_dir: None,
            group_regex: None,
            arguments: IdList::new(alloc),
            instances: None,
        }
    }
}

/// What the words behind the program's name ask for. A field that the verb does not use is false, 0, none or empty.
#[derive(Drop)]
pub struct Command {
    /// By which name it was asked for.
    pub face: Face,
    /// Which command it is.
    pub verb: Verb,
    /// The run tells of a part of the tests alone.
    pub partial: bool,
    /// A repository is made first, where there is none.
    pub force_init: bool,
    /// Only the tests that fail are wanted.
    pub failing: bool,
    /// The tests run side by side.
    pub parallel: bool,
    /// How many workers run them, 64 at most; 0 where the words do not say it.
    pub concurrency: u32,
    /// More than 64 workers were asked for.
    pub too_many: bool,
    /// The tests that make others fail are looked for.
    pub find_causes: bool,
    /// The file of the ids that are wanted.
    pub load_list: Option<Text>,
    /// The file of the ids of which a run is expected to tell.
    pub expect: Option<Text>,
    /// Ids alone are printed.
    pub list: bool,
    /// How each test failed last is printed.
    pub full: bool,
    /// All tests are printed, and not ten.
    pub all: bool,
    /// Packets are printed, and not a report or ids.
    pub subunit: bool,
    /// What is printed of its tests while the run goes on.
    pub live: LiveKind,
    /// Why tests were skipped is printed behind the report.
    pub skips: bool,
    /// For whom the report is printed.
    pub format: FormatKind,
    /// The report is not printed, nor anything behind it.
    pub no_report: bool,
    /// The files or patterns, in their order.
    pub names: IdList,
    /// The patterns of the ids that are left out, in their order.
    pub excluded: IdList,
    /// The file of further patterns of the ids that are wanted.
    pub include_list: Option<Text>,
    /// The file of further patterns of the ids that are left out.
    pub exclude_list: Option<Text>,
    /// The shard of the tests that is wanted.
    pub shard: Option<Shard>,
    /// The file of the times that the shard goes by, and the shares of its workers.
    pub times: Option<Text>,
    /// What is said of the project.
    pub project: ProjectWords,
    /// The seed of generated outputs.
    pub seed: u32,
    /// How many of them there are.
    pub lanes: u32,
    /// How many tests each of them has.
    pub tests: u32,
}

impl Command {
    ghost use Rattle.std.specs.Prelude.{◌≡◌, List, ℕ, None, option_map, nat_le, length, if◌then◌else◌};
    ghost use Rattle.testr_words.specs.Tasks.{last_question, failing_question, forces as is_forced, forces_quiet as is_forced_quietly, hides as is_hidden, hides_quiet as is_hidden_quietly, warns as is_warned, live_of, live_quiet, streams as is_streamed, streams_quiet as is_streamed_quietly, expects as expected_for, expects_quiet as expected_quietly_for};
    ghost use Rattle.testr_words.specs.Suites.{wanted_of, is_choosing, on_these};
    ghost use Rattle.testr_words.specs.Words.{with_project};

    /// What is asked of the last run by `last`: its bytes, where these are wanted; else its report, with why tests were
    /// skipped or without, and with notes of those that failed or without.
    pub fn last_question(&self) -> Question
        ensures { result ≡ last_question self.now }
    {
        if self.subunit {
            Question::Last { subunit: true }
        } else {
            report_question(self.format, self.skips)
        }
    }

    /// What is asked of all runs by `failing`: the packets of how each test failed last, where they are wanted; else the list of
    /// the ids, how each test failed last, or the ids with their number.
    pub fn failing_question(&self) -> Question
        ensures { result ≡ failing_question self.now }
    {
        if self.subunit {
            Question::FailurePackets
        } else if self.list {
            Question::Failing { list: true }
        } else if self.full {
            Question::LastFailures
        } else {
            Question::Failing { list: false }
        }
    }

    /// Whether a repository is made first where there is none: only of a command that keeps a run.
    pub fn forces(&self) -> bool
        ensures { (folder : List ℕ) → result ≡ is_forced folder self.now }
    {
        match self.verb {
            Verb::Run => self.force_init,
            _ => self.forces_quietly(),
        }
    }

    /// The same where no program and no thread can be started.
    pub fn forces_quietly(&self) -> bool
        ensures { (folder : List ℕ) → result ≡ is_forced_quietly folder self.now }
    {
        match self.verb {
            Verb::Load => self.force_init && self.names.list().len() <= MOST_FILES,
            _ => false,
        }
    }

    /// Whether no report is printed: only of a command that else prints one.
    pub fn hides_report(&self) -> bool
        ensures { (folder : List ℕ) → result ≡ is_hidden folder self.now }
    {
        match self.verb {
            Verb::Run => self.no_report,
            _ => self.hides_report_quietly(),
        }
    }

    /// The same where no program and no thread can be started.
    pub fn hides_report_quietly(&self) -> bool
        ensures { (folder : List ℕ) → result ≡ is_hidden_quietly folder self.now }
    {
        match self.verb {
            Verb::Load => self.no_report && self.names.list().len() <= MOST_FILES,
            Verb::Last => self.no_report && !self.subunit,
            _ => false,
        }
    }

    /// Which lines are told of the tests while their run goes on: only of a command that keeps a run.
    pub fn live_kind(&self) -> LiveKind
        ensures { (folder : List ℕ) → result ≡ live_of folder self.now }
    {
        match self.verb {
            Verb::Run => self.live,
            _ => self.live_kind_quietly(),
        }
    }

    /// The same where no program and no thread can be started.
    pub fn live_kind_quietly(&self) -> LiveKind
        ensures { (folder : List ℕ) → result ≡ live_quiet folder self.now }
    {
        match self.verb {
            Verb::Load => {
                if self.names.list().len() <= MOST_FILES {
                    self.live
                } else {
                    LiveKind::Nothing
                }
            }
            _ => LiveKind::Nothing,
        }
    }

    /// Whether the run's packets are printed as it goes on, and no report: only of a command that keeps a run.
    pub fn streams(&self) -> bool
        ensures { (folder : List ℕ) → result ≡ is_streamed folder self.now }
    {
        match self.verb {
            Verb::Run => self.subunit,
            _ => self.streams_quietly(),
        }
    }

    /// The same where no program and no thread can be started.
    pub fn streams_quietly(&self) -> bool
        ensures { (folder : List ℕ) → result ≡ is_streamed_quietly folder self.now }
    {
        match self.verb {
            Verb::Load => self.subunit && self.names.list().len() <= MOST_FILES,
            _ => false,
        }
    }

    /// The file of the ids of which the run is expected to tell: only of a command that loads.
    pub fn expected(&self) -> Option<&Text>
        ensures spoken { (folder : List ℕ) → option_map (λ name. name.now) result ≡ expected_for folder self.now }
        ensures quiet { (folder : List ℕ) → option_map (λ name. name.now) result ≡ expected_quietly_for folder self.now }
    {
        match self.verb {
            Verb::Load => self.expected_of_few(),
            _ => None,
        }
    }

    // The same, where it is given no more files than it may be.
    fn expected_of_few(&self) -> Option<&Text>
        ensures { option_map (λ name. name.now) result ≡ (if nat_le (length self.now.names) 64 then self.now.expect else None) }
    {
        if self.names.list().len() > MOST_FILES {
            return None;
        }
        self.expect.as_ref()
    }

    /// Whether a line tells first that there are not so many workers: only of a command that has workers.
    pub fn warns(&self) -> bool
        ensures { (folder : List ℕ) → result ≡ is_warned folder self.now }
    {
        match self.verb {
            Verb::Run => self.too_many,
            _ => false,
        }
    }

    /// The command, which says this of the project.
    pub(crate) fn with_project(self, project: ProjectWords) -> Self
        ensures { result ≡ with_project project self }
    {
        Command { project, ..self }
    }

    /// The same command over the project on these instances, with so many workers.
    pub fn on_instances(mut self, instances: IdList, workers: u32) -> Self
        ensures { result ≡ on_these workers instances self }
    {
        self.parallel = true;
        self.concurrency = workers;
        self.project.instances = Some(instances);
        self
    }

    /// Whether it says by a pattern, a file of patterns or a shard which tests are wanted.
    pub fn is_choosing(&self) -> bool
        ensures { result ≡ is_choosing (wanted_of self.now) }
    {
        !self.names.list().is_empty()
            || !self.excluded.list().is_empty()
            || self.include_list.is_some()
            || self.exclude_list.is_some()
            || self.shard.is_some()
    }
}

// The report of the last run, for whom it is printed, with why tests were skipped or without.
fn report_question(format: FormatKind, skips: bool) -> Question
    ensures { result ≡ report_question format skips }
{
    match format {
        FormatKind::Github => Question::Notes { skips },
        FormatKind::Plain => {
            if skips {
                Question::Skips
            } else {
                Question::Last { subunit: false }
            }
        }
    }
}

/// What is asked of a repository.
#[derive(Clone, Copy, Debug, PartialEq, Eq)]
pub enum Question {
    /// The last run.
    Last {
        /// Its bytes are wanted, and not its report.
        subunit: bool,
    },
    /// The last run, and why tests were skipped in it.
    Skips,
    /// The last run, and notes of the tests that failed in it.
    Notes {
        /// Why tests were skipped is wanted in front of them.
        skips: bool,
    },
    /// The tests that fail by all runs.
    Failing {
        /// Their ids alone are wanted.
        list: bool,
    },
    /// How each test that fails by all runs failed last.
    LastFailures,
    /// The packets of how each of them failed last.
    FailurePackets,
    /// The slowest tests of the last run.
    Slowest {
        /// All of them are wanted, and not ten.
        all: bool,
    },
    /// How many runs there are.
    Stats,
}

impl Question {
    ghost use Rattle.std.specs.Prelude.{◌↔◌, IsTrue};
    ghost use Rattle.testr_words.specs.Questions.{OfLastRun};

    /// Whether it is of the last run.
    pub fn is_of_last_run(self) -> bool
        ensures { IsTrue result ↔ OfLastRun self }
    {
        match self {
            Question::Last { .. }
            | Question::Skips
            | Question::Notes { .. }
            | Question::Slowest { .. } => true,
            Question::Failing { .. }
            | Question::LastFailures
            | Question::FailurePackets
            | Question::Stats => false,
        }
    }
}
