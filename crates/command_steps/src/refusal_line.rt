//! Tells of a refusal.

ghost use Rattle.std.specs.Prelude.{◌≡◌, ℕ, List, OnOk};
ghost use Rattle.std.specs.Fmt.{decimal, signed_decimal};
ghost use Rattle.std.specs.Io.KnownBytes.{Appends};
ghost use Rattle.edge_io.specs.Bytes.{AppendsPrefix};
ghost use Rattle.edge_io.specs.Causes.{HasCause};
ghost use Rattle.command_steps.specs.Telling.{line_text, part_text, place_text, pattern_place_text};

use edge_io::{Failed, Sink, write_whole};
use itoa::Buffer;

/// What stands in the middle of a line.
#[derive(Clone, Copy, Debug)]
pub enum Part<'a> {
    /// Nothing more.
    Nothing,
    /// A number.
    Number(u32),
    /// How a program ended: its status, or the negative number of the signal that ended it.
    Status(i32),
    /// A name, as it is.
    Name(&'a str),
    /// A line of the file of this name, by its number.
    Place(&'a str, u32),
    /// The same, with the pattern that it has.
    Pattern(&'a str, u32, &'a str),
}

/// A line in parts, so that a number or a name in it takes no memory.
#[derive(Clone, Copy, Debug)]
pub struct Line<'a> {
    /// What stands in front: the whole line where nothing follows.
    pub front: &'static str,
    /// What stands in the middle.
    pub part: Part<'a>,
    /// What stands behind it.
    pub rest: &'static str,
}

impl Line<'_> {
    /// A line of one part.
    pub fn of(front: &'static str) -> Line<'static>
        ensures { line_text result ≡ front.now }
    {
        Line {
            front,
            part: Part::Nothing,
            rest: "",
        }
    }
}

/// Why a step refuses: its exit status, and the line that tells of it.
pub(crate) trait Refuses<'a>: Copy {
    ghost status: { Self → ℕ };

    ghost text: { Self → List ℕ };

    /// The exit status: 3 for a named refusal, 4 for a fault of the outside, 5 for want of memory.
    fn exit_status(self) -> u8
        ensures { result ≡ status self };

    /// The line that tells of it.
    fn line(self) -> Line<'a>
        ensures { line_text result ≡ text self };
}

/// Writes the line.
pub fn tell_line<E: Sink>(err: &mut E, line: Line<'_>) -> Result<(), Failed>
    ensures whole { OnOk result (Appends (E.seen err.old).told (E.seen err.new).told (line_text line.entry)) }
    ensures prefix { AppendsPrefix (E.seen err.old).told (E.seen err.new).told (line_text line.entry) }
    ensures cause { HasCause (E.seen err.old).faults (E.seen err.new).faults result }
{
    write_whole(err, line.front.as_bytes())?;
    tell_part(err, line.part)?;
    write_whole(err, line.rest.as_bytes())
}

// Writes the middle of a line.
fn tell_part<E: Sink>(err: &mut E, part: Part<'_>) -> Result<(), Failed>
    ensures whole { OnOk result (Appends (E.seen err.old).told (E.seen err.new).told (part_text part.entry)) }
    ensures prefix { AppendsPrefix (E.seen err.old).told (E.seen err.new).told (part_text part.entry) }
    ensures cause { HasCause (E.seen err.old).faults (E.seen err.new).faults result }
{
    match part {
        Part::Nothing => Ok(()),
        Part::Number(number) => tell_number(err, number),
        Part::Status(status) => tell_status(err, status),
        Part::Name(name) => write_whole(err, name.as_bytes()),
        Part::Place(name, number) => tell_place(err, name, number),
        Part::Pattern(name, number, pattern) => tell_pattern(err, name, number, pattern),
    }
}

fn tell_pattern<E: Sink>(err: &mut E, name: &str, number: u32, pattern: &str) -> Result<(), Failed>
    ensures whole { OnOk result (Appends (E.seen err.old).told (E.seen err.new).told (pattern_place_text name.now number pattern.now)) }
    ensures prefix { AppendsPrefix (E.seen err.old).told (E.seen err.new).told (pattern_place_text name.now number pattern.now) }
    ensures cause { HasCause (E.seen err.old).faults (E.seen err.new).faults result }
{
    tell_place(err, name, number)?;
    write_whole(err, b": bad pattern: ")?;
    write_whole(err, pattern.as_bytes())
}

fn tell_place<E: Sink>(err: &mut E, name: &str, number: u32) -> Result<(), Failed>
    ensures whole { OnOk result (Appends (E.seen err.old).told (E.seen err.new).told (place_text name.now number)) }
    ensures prefix { AppendsPrefix (E.seen err.old).told (E.seen err.new).told (place_text name.now number) }
    ensures cause { HasCause (E.seen err.old).faults (E.seen err.new).faults result }
{
    write_whole(err, name.as_bytes())?;
    write_whole(err, b" line ")?;
    tell_number(err, number)
}

fn tell_status<E: Sink>(err: &mut E, status: i32) -> Result<(), Failed>
    ensures whole { OnOk result (Appends (E.seen err.old).told (E.seen err.new).told (signed_decimal status)) }
    ensures prefix { AppendsPrefix (E.seen err.old).told (E.seen err.new).told (signed_decimal status) }
    ensures cause { HasCause (E.seen err.old).faults (E.seen err.new).faults result }
{
    let mut digits = Buffer::new();
    write_whole(err, digits.format(status).as_bytes())
}

fn tell_number<E: Sink>(err: &mut E, number: u32) -> Result<(), Failed>
    ensures whole { OnOk result (Appends (E.seen err.old).told (E.seen err.new).told (decimal number)) }
    ensures prefix { AppendsPrefix (E.seen err.old).told (E.seen err.new).told (decimal number) }
    ensures cause { HasCause (E.seen err.old).faults (E.seen err.new).faults result }
{
    let mut digits = Buffer::new();
    write_whole(err, digits.format(number).as_bytes())
}
