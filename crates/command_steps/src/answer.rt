//! What a command answers.

ghost use Rattle.std.specs.Prelude.{◌≡◌};
ghost use Rattle.command_steps.specs.Telling.{line_text};

use crate::input_recorder::RecordFault;
use crate::instances::{provision_code, provision_line, provision_said};
use crate::question_answers::TellFault;
use crate::refusal_line::{Line, Refuses};
use crate::run_copy::CopyFault;
use crate::run_report::PrintFault;
use crate::store::{KeepFault, RunsFault};
use crate::suite_refusals::{
    call_exit_status, call_line, call_said, listing_exit_status, listing_line, listing_said,
    pattern_line,
};
use crate::test_selection::FurtherRefusal;
use crate::times_file::TimesRefusal;
use crate::usage::UsageFault;
use crate::work_plan::LongId;
use old_upgrade::UpgradeFault;
use run_shelf::{InitFault, OpenFault};
use sub_number::NoMemory;
use suite_causes::SearchFault;
use suite_plan::{
    BadLine, CallRefusal, ConfRefusal, ListRefusal, ListingRefusal, PatternListRefusal,
    PatternRefusal, ProvisionRefusal, TableRefusal,
};
use suite_run::{LanesRefusal, StartRefusal};
use testr_conf::JobFault;

/// Whether the tests of a run passed. A command that tells of no tests answers `Passed`.
#[derive(Clone, Copy, Debug, PartialEq, Eq)]
pub enum Verdict {
    /// No test failed.
    Passed,
    /// A test failed, passed where it was expected to fail, or was left open.
    Failed,
}

impl Verdict {
    ghost use Rattle.command_steps.specs.Verdicts.{verdict_exit_status};

    /// The exit status: 0 or 1.
    pub fn exit_status(self) -> u8
        ensures { result ≡ verdict_exit_status self }
    {
        match self {
            Verdict::Passed => 0,
            Verdict::Failed => 1,
        }
    }
}

/// Why a command was not done, or not done to its end: by the step that refused.
#[derive(Drop)]
pub enum Refusal<'a> {
    /// The words are no command.
    Usage(UsageFault),
    /// No repository was made.
    Init(InitFault),
    /// The repository was not opened.
    Open(OpenFault),
    /// Its runs do not serve the command.
    Runs(RunsFault),
    /// A source was not recorded whole.
    Record(RecordFault<'a>),
    /// There is not enough memory.
    Memory(NoMemory),
    /// The run was not begun, or not kept, or not surely.
    Keep(KeepFault),
    /// The caches were not brought up to the run, which is kept.
    Refresh(TellFault),
    /// The runs were not read.
    Tell(TellFault),
    /// A text was not printed whole.
    Print(PrintFault),
    /// The configuration was not read.
    Conf(ConfRefusal),
    /// A pattern was not taken.
    Pattern(PatternRefusal<'a>),
    /// A list of ids or patterns was not read.
    LoadList(ListRefusal<'a>),
    /// A line of a list of patterns is none.
    PatternLine(BadLine<'a>),
    /// A file of times was not taken.
    TimesFile(TimesRefusal<'a>),
    /// The number of workers was not called out.
    Call(CallRefusal),
    /// The table of processors was not read.
    Table(TableRefusal),
    /// The tests were not listed.
    Listing(ListingRefusal),
    /// No instances were provisioned.
    Provision(ProvisionRefusal),
    /// An id of a test is too long to be told of.
    LongId(LongId),
    /// The workers' jobs were not made.
    Job(JobFault),
    /// The workers were not started.
    Start(StartRefusal),
    /// The workers were not recorded whole.
    Lanes(LanesRefusal),
    /// There is not enough memory for the report of the run, which is kept.
    Report(NoMemory),
    /// There is not enough memory for the search for causes. The run is kept, and its report was printed.
    Suspects(NoMemory),
    /// What ran before a test was not read. The run is kept, and its report was printed.
    Ran(TellFault),
    /// The search for a cause came to no verdict. The run is kept, and its report was printed.
    Search(SearchFault),
    /// The folder was not upgraded.
    Upgrade(UpgradeFault),
}

impl<'a> From<InitFault> for Refusal<'a> {
    ghost use Rattle.command_steps.specs.declared.answer.Refusal.TheVariants.{Init};

    ghost from_gives = { λ fault refusal. refusal ≡ Init fault };

    fn from(fault: InitFault) -> Self {
        Refusal::Init(fault)
    }
}

impl<'a> From<OpenFault> for Refusal<'a> {
    ghost use Rattle.command_steps.specs.declared.answer.Refusal.TheVariants.{Open};

    ghost from_gives = { λ fault refusal. refusal ≡ Open fault };

    fn from(fault: OpenFault) -> Self {
        Refusal::Open(fault)
    }
}

impl<'a> From<RunsFault> for Refusal<'a> {
    ghost use Rattle.command_steps.specs.declared.answer.Refusal.TheVariants.{Runs};

    ghost from_gives = { λ fault refusal. refusal ≡ Runs fault };

    fn from(fault: RunsFault) -> Self {
        Refusal::Runs(fault)
    }
}

impl<'a> From<RecordFault<'a>> for Refusal<'a> {
    ghost use Rattle.command_steps.specs.declared.answer.Refusal.TheVariants.{Record};

    ghost from_gives = { λ fault refusal. refusal ≡ Record fault };

    fn from(fault: RecordFault<'a>) -> Self {
        Refusal::Record(fault)
    }
}

impl<'a> From<NoMemory> for Refusal<'a> {
    ghost use Rattle.command_steps.specs.declared.answer.Refusal.TheVariants.{Memory};

    ghost from_gives = { λ fault refusal. refusal ≡ Memory fault };

    fn from(fault: NoMemory) -> Self {
        Refusal::Memory(fault)
    }
}

impl<'a> From<KeepFault> for Refusal<'a> {
    ghost use Rattle.command_steps.specs.declared.answer.Refusal.TheVariants.{Keep};

    ghost from_gives = { λ fault refusal. refusal ≡ Keep fault };

    fn from(fault: KeepFault) -> Self {
        Refusal::Keep(fault)
    }
}

impl<'a> From<TellFault> for Refusal<'a> {
    ghost use Rattle.command_steps.specs.declared.answer.Refusal.TheVariants.{Tell};

    ghost from_gives = { λ fault refusal. refusal ≡ Tell fault };

    fn from(fault: TellFault) -> Self {
        Refusal::Tell(fault)
    }
}

impl<'a> From<CopyFault> for Refusal<'a> {
    ghost use Rattle.command_steps.specs.Copying.{copy_refusal};

    ghost from_gives = { λ fault refusal. refusal ≡ copy_refusal fault };

    fn from(fault: CopyFault) -> Self {
        match fault {
            CopyFault::Read(fault) => Refusal::Tell(fault),
            CopyFault::Write(fault) => Refusal::Print(fault),
        }
    }
}

impl<'a> From<PrintFault> for Refusal<'a> {
    ghost use Rattle.command_steps.specs.declared.answer.Refusal.TheVariants.{Print};

    ghost from_gives = { λ fault refusal. refusal ≡ Print fault };

    fn from(fault: PrintFault) -> Self {
        Refusal::Print(fault)
    }
}

impl<'a> From<ConfRefusal> for Refusal<'a> {
    ghost use Rattle.command_steps.specs.declared.answer.Refusal.TheVariants.{Conf};

    ghost from_gives = { λ fault refusal. refusal ≡ Conf fault };

    fn from(fault: ConfRefusal) -> Self {
        Refusal::Conf(fault)
    }
}

impl<'a> From<PatternRefusal<'a>> for Refusal<'a> {
    ghost use Rattle.command_steps.specs.declared.answer.Refusal.TheVariants.{Pattern};

    ghost from_gives = { λ fault refusal. refusal ≡ Pattern fault };

    fn from(fault: PatternRefusal<'a>) -> Self {
        Refusal::Pattern(fault)
    }
}

impl<'a> From<ListRefusal<'a>> for Refusal<'a> {
    ghost use Rattle.command_steps.specs.declared.answer.Refusal.TheVariants.{LoadList};

    ghost from_gives = { λ fault refusal. refusal ≡ LoadList fault };

    fn from(fault: ListRefusal<'a>) -> Self {
        Refusal::LoadList(fault)
    }
}

impl<'a> From<FurtherRefusal<'a>> for Refusal<'a> {
    ghost use Rattle.command_steps.specs.Selecting.{further_refusal};

    ghost from_gives = { λ fault refusal. refusal ≡ further_refusal fault };

    fn from(fault: FurtherRefusal<'a>) -> Self {
        match fault {
            FurtherRefusal::Patterns(PatternListRefusal::List(refusal)) => {
                Refusal::LoadList(refusal)
            }
            FurtherRefusal::Patterns(PatternListRefusal::Bad(line)) => Refusal::PatternLine(line),
            FurtherRefusal::Times(refusal) => Refusal::TimesFile(refusal),
        }
    }
}

impl<'a> From<CallRefusal> for Refusal<'a> {
    ghost use Rattle.command_steps.specs.declared.answer.Refusal.TheVariants.{Call};

    ghost from_gives = { λ fault refusal. refusal ≡ Call fault };

    fn from(fault: CallRefusal) -> Self {
        Refusal::Call(fault)
    }
}

impl<'a> From<TableRefusal> for Refusal<'a> {
    ghost use Rattle.command_steps.specs.declared.answer.Refusal.TheVariants.{Table};

    ghost from_gives = { λ fault refusal. refusal ≡ Table fault };

    fn from(fault: TableRefusal) -> Self {
        Refusal::Table(fault)
    }
}

impl<'a> From<ListingRefusal> for Refusal<'a> {
    ghost use Rattle.command_steps.specs.declared.answer.Refusal.TheVariants.{Listing};

    ghost from_gives = { λ fault refusal. refusal ≡ Listing fault };

    fn from(fault: ListingRefusal) -> Self {
        Refusal::Listing(fault)
    }
}

impl<'a> From<LongId> for Refusal<'a> {
    ghost use Rattle.command_steps.specs.declared.answer.Refusal.TheVariants.{LongId as TooLong};

    ghost from_gives = { λ fault refusal. refusal ≡ TooLong fault };

    fn from(fault: LongId) -> Self {
        Refusal::LongId(fault)
    }
}

impl<'a> From<JobFault> for Refusal<'a> {
    ghost use Rattle.command_steps.specs.declared.answer.Refusal.TheVariants.{Job};

    ghost from_gives = { λ fault refusal. refusal ≡ Job fault };

    fn from(fault: JobFault) -> Self {
        Refusal::Job(fault)
    }
}

impl<'a> From<StartRefusal> for Refusal<'a> {
    ghost use Rattle.command_steps.specs.declared.answer.Refusal.TheVariants.{Start};

    ghost from_gives = { λ fault refusal. refusal ≡ Start fault };

    fn from(fault: StartRefusal) -> Self {
        Refusal::Start(fault)
    }
}

impl<'a> From<LanesRefusal> for Refusal<'a> {
    ghost use Rattle.command_steps.specs.declared.answer.Refusal.TheVariants.{Lanes};

    ghost from_gives = { λ fault refusal. refusal ≡ Lanes fault };

    fn from(fault: LanesRefusal) -> Self {
        Refusal::Lanes(fault)
    }
}

impl<'a> From<UpgradeFault> for Refusal<'a> {
    ghost use Rattle.command_steps.specs.declared.answer.Refusal.TheVariants.{Upgrade};

    ghost from_gives = { λ fault refusal. refusal ≡ Upgrade fault };

    fn from(fault: UpgradeFault) -> Self {
        Refusal::Upgrade(fault)
    }
}

impl<'a> Refusal<'a> {
    ghost use Rattle.command_steps.specs.Refusals.{refusal_exit_status, refusal_said, refusal_line};

    /// The exit status: 2 for words, 3 for a named refusal, 4 for a fault of the outside, 5 for want of memory.
    pub fn exit_status(&self) -> u8
        ensures { result ≡ refusal_exit_status self.now }
    {
        match self {
            Refusal::Usage(_) => 2,
            Refusal::Init(fault) => (*fault).exit_status(),
            Refusal::Open(fault) => (*fault).exit_status(),
            Refusal::Runs(_) | Refusal::PatternLine(_) | Refusal::LongId(_) => 3,
            Refusal::Record(fault) => (*fault).exit_status(),
            Refusal::Refresh(fault) | Refusal::Tell(fault) | Refusal::Ran(fault) =>
                (*fault).exit_status(),
            Refusal::Keep(_) | Refusal::Print(_) => 4,
            Refusal::Memory(_) | Refusal::Report(_) | Refusal::Suspects(_) => 5,
            Refusal::Conf(refusal) => (*refusal).exit_status(),
            Refusal::Pattern(refusal) => (*refusal).exit_status(),
            Refusal::LoadList(refusal) => (*refusal).exit_status(),
            Refusal::TimesFile(refusal) => (*refusal).exit_status(),
            Refusal::Call(refusal) => call_exit_status(refusal),
            Refusal::Table(refusal) => (*refusal).exit_status(),
            Refusal::Listing(refusal) => listing_exit_status(refusal),
            Refusal::Provision(refusal) => provision_code(refusal),
            Refusal::Job(fault) => (*fault).exit_status(),
            Refusal::Start(refusal) => (*refusal).exit_status(),
            Refusal::Lanes(refusal) => (*refusal).exit_status(),
            Refusal::Search(fault) => (*fault).exit_status(),
            Refusal::Upgrade(fault) => (*fault).exit_status(),
        }
    }

    /// What the program said that it is of, where that failed: whole lines, or nothing.
    pub fn said(&self) -> &[u8]
        ensures { result.now ≡ refusal_said self.now }
    {
        match self {
            Refusal::Call(refusal) => call_said(refusal),
            Refusal::Listing(refusal) => listing_said(refusal),
            Refusal::Provision(refusal) => provision_said(refusal),
            _ => b"",
        }
    }

    /// The line that tells of it.
    pub fn line(&self) -> Line<'_>
        ensures { line_text result ≡ refusal_line self.now }
    {
        // Each arm returns: some lines hold a part of the refusal and others none, and no proof is made where such arms join.
        match self {
            Refusal::Usage(fault) => return (*fault).line(),
            Refusal::Init(fault) => return (*fault).line(),
            Refusal::Open(fault) => return (*fault).line(),
            Refusal::Runs(fault) => return (*fault).line(),
            Refusal::Record(fault) => return (*fault).line(),
            Refusal::Memory(_) | Refusal::Report(_) | Refusal::Suspects(_) => {
                return Line::of("testr: out of memory\n");
            }
            Refusal::Keep(fault) => return (*fault).line(),
            Refusal::Refresh(fault) | Refusal::Tell(fault) | Refusal::Ran(fault) => {
                return (*fault).line();
            }
            Refusal::Print(fault) => return (*fault).line(),
            Refusal::Conf(refusal) => return (*refusal).line(),
            Refusal::Pattern(refusal) => return (*refusal).line(),
            Refusal::LoadList(refusal) => return (*refusal).line(),
            Refusal::PatternLine(line) => return pattern_line(line),
            Refusal::TimesFile(refusal) => return (*refusal).line(),
            Refusal::Call(refusal) => return call_line(refusal),
            Refusal::Table(refusal) => return (*refusal).line(),
            Refusal::Listing(refusal) => return listing_line(refusal),
            Refusal::Provision(refusal) => return provision_line(refusal),
            Refusal::LongId(fault) => return (*fault).line(),
            Refusal::Job(fault) => return (*fault).line(),
            Refusal::Start(refusal) => return (*refusal).line(),
            Refusal::Lanes(refusal) => return (*refusal).line(),
            Refusal::Search(fault) => return (*fault).line(),
            Refusal::Upgrade(fault) => return (*fault).line(),
        }
    }
}
