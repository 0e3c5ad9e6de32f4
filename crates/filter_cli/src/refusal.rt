//! Why a filter was not done, or not done to its end.

ghost use Rattle.std.specs.Prelude.{◌≡◌, ◌++◌};
ghost use Rattle.filter_cli.specs.Patterns.{patterns_exit_status, patterns_text};
ghost use Rattle.filter_cli.specs.Refusals.{usage_line, pump_exit_status, pump_text, file_exit_status, file_text};
ghost use Rattle.filter_cli.specs.Telling.{filter_line_text};

use crate::file_loop::FileFault;
use crate::patterns::PatternsFault;
use crate::pump_loop::PumpFault;
use crate::refusal_line::Line;
use sub_number::{NoMemory, Text};

/// Why words are no filter.
#[derive(Clone, Copy, Debug, PartialEq, Eq)]
pub enum UsageFault {
    /// The first one is absent, or names none.
    Tool,
    /// Those behind the name are wrong.
    Words,
}

/// By the step that refused.
#[derive(Drop)]
pub enum Refusal {
    /// The words are no filter.
    Usage(UsageFault),
    /// There was not enough memory to read the words, or to make the filter of a file.
    Memory(NoMemory),
    /// The patterns are not all good.
    Patterns(PatternsFault),
    /// The input was not filtered to its end.
    Pump(PumpFault),
    /// The file of this name was not.
    File(Text, FileFault),
}

impl From<NoMemory> for Refusal {
    ghost use Rattle.filter_cli.specs.declared.refusal.Refusal.TheVariants.{Memory};

    ghost from_gives = { λ fault refusal. refusal ≡ Memory fault };

    fn from(fault: NoMemory) -> Self {
        Refusal::Memory(fault)
    }
}

impl From<PatternsFault> for Refusal {
    ghost use Rattle.filter_cli.specs.declared.refusal.Refusal.TheVariants.{Patterns};

    ghost from_gives = { λ fault refusal. refusal ≡ Patterns fault };

    fn from(fault: PatternsFault) -> Self {
        Refusal::Patterns(fault)
    }
}

impl From<PumpFault> for Refusal {
    ghost use Rattle.filter_cli.specs.declared.refusal.Refusal.TheVariants.{Pump};

    ghost from_gives = { λ fault refusal. refusal ≡ Pump fault };

    fn from(fault: PumpFault) -> Self {
        Refusal::Pump(fault)
    }
}

impl Refusal {
    ghost use Rattle.filter_cli.specs.Refusals.{filter_refusal_exit_status, filter_refusal_line};

    /// The exit status: 2 for words, 3 for a named refusal, 4 for a fault of the outside, 5 for want of memory.
    pub fn exit_status(&self) -> u8
        ensures { result ≡ filter_refusal_exit_status self.now }
    {
        match self {
            Refusal::Usage(_) => 2,
            Refusal::Memory(_) => 5,
            Refusal::Patterns(fault) => code_of_patterns(fault),
            Refusal::Pump(fault) => code_of_pump(*fault),
            Refusal::File(_, fault) => code_of_file(*fault),
        }
    }

    /// The line that tells of it, for the filter of this name.
    pub fn line<'a>(&'a self, name: &'a str) -> Line<'a>
        ensures { filter_line_text result ≡ filter_refusal_line name.now self.now }
    {
        match self {
            Refusal::Usage(fault) => line_of_usage(name, *fault),
            Refusal::Memory(_) => Line::of(name, ": out of memory\n"),
            Refusal::Patterns(fault) => line_of_patterns(name, fault),
            Refusal::Pump(fault) => Line::of(name, text_of_pump(*fault)),
            Refusal::File(file, fault) => line_of_file(name, file, *fault),
        }
    }
}

fn line_of_usage(name: &str, fault: UsageFault) -> Line<'_>
    ensures { filter_line_text result ≡ usage_line name.now fault }
{
    match fault {
        UsageFault::Tool => Line::of("", "usage: testr COMMAND or a subunit filter\n"),
        UsageFault::Words => Line::of(name, ": wrong usage\n"),
    }
}

fn code_of_patterns(fault: &PatternsFault) -> u8
    ensures { result ≡ patterns_exit_status fault.now }
{
    match fault {
        PatternsFault::Bad(_) => 3,
        PatternsFault::NoMemory => 5,
    }
}

fn line_of_patterns<'a>(name: &'a str, fault: &'a PatternsFault) -> Line<'a>
    ensures { filter_line_text result ≡ name.now ++ patterns_text fault.now }
{
    match fault {
        PatternsFault::Bad(pattern) => Line {
            name,
            front: ": bad pattern: ",
            pattern: pattern.bytes(),
            end: "\n",
        },
        PatternsFault::NoMemory => Line::of(name, ": out of memory\n"),
    }
}

fn code_of_pump(fault: PumpFault) -> u8
    ensures { result ≡ pump_exit_status fault }
{
    match fault {
        PumpFault::Input | PumpFault::Output => 4,
        PumpFault::TooLong => 3,
        PumpFault::NoMemory => 5,
    }
}

fn text_of_pump(fault: PumpFault) -> &'static str
    ensures { result.now ≡ pump_text fault }
{
    match fault {
        PumpFault::Input => ": fault reading standard input\n",
        PumpFault::TooLong => ": standard input is too long\n",
        PumpFault::Output => ": fault writing output\n",
        PumpFault::NoMemory => ": out of memory\n",
    }
}

fn code_of_file(fault: FileFault) -> u8
    ensures { result ≡ file_exit_status fault }
{
    match fault {
        FileFault::Read | FileFault::Output => 4,
        FileFault::NoFile | FileFault::TooLong => 3,
        FileFault::NoMemory => 5,
    }
}

fn line_of_file<'a>(name: &'a str, file: &'a Text, fault: FileFault) -> Line<'a>
    ensures { filter_line_text result ≡ name.now ++ file_text file.now fault }
{
    match fault {
        FileFault::Read => Line::of(name, ": fault reading a file\n"),
        FileFault::NoFile => Line {
            name,
            front: ": no file ",
            pattern: file.bytes(),
            end: "\n",
        },
        FileFault::TooLong => Line {
            name,
            front: ": ",
            pattern: file.bytes(),
            end: " is too long\n",
        },
        FileFault::Output => Line::of(name, ": fault writing output\n"),
        FileFault::NoMemory => Line::of(name, ": out of memory\n"),
    }
}
