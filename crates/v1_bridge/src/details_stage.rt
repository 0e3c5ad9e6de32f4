//! Where the details of a test stand, and what bytes of them give.

ghost use Rattle.std.specs.Prelude.{◌≡◌, ℕ, ◌++◌, ◌<◌, ◌≤◌, ◌^◌, ◌-◌, [], length, take, drop, true, false, IfOk, OnOk, Some};
ghost use Rattle.v1_bridge.specs.Events.{longest_v1_line, rest_events, part_with_bytes, pieces_given};
ghost use Rattle.v1_bridge.specs.Lines.{content as content_of};
ghost use Rattle.v1_bridge.specs.Stages as spec;
ghost use Rattle.v1_bridge.specs.Reading.{State, detail_line, line_within};

use crate::chunk_size::{Extent, Size, size_in};
use crate::event::{add_line, add_output, file_name, give_rest};
use crate::line::{bytes_behind, line_content, without_newline};
use crate::name::{name_of, text_of};
use crate::part::{Held, Part};
use packet_codec::{Event, Status, Tags};
use std::alloc::Global;
use sub_number::{NoMemory, Text};

/// Where the bytes of a part stand.
#[derive(Drop)]
pub(crate) enum Place {
    /// At the size of a chunk, of which these bytes were read.
    Size(Held),
    /// In a chunk, of which so many bytes are still to come.
    Chunk(u32),
}

/// Where the details of a test stand.
#[derive(Drop)]
pub(crate) enum Stage {
    /// At a line of those up to a bracket, which are this part.
    Lines(Part),
    /// Between parts.
    Between,
    /// Behind the line of a part's MIME type, which is this one.
    Typed(Text),
    /// In a part.
    Bytes(Part, Place),
}

/// How a test ended whose details follow, and where they stand.
#[derive(Drop)]
pub(crate) struct Details {
    pub(crate) how: Status,
    pub(crate) stage: Stage,
}

/// The test that is open.
#[derive(Drop)]
pub(crate) struct OpenTest {
    pub(crate) id: Text,
    pub(crate) tags: Tags,
    pub(crate) details: Option<Details>,
}

impl OpenTest {
    /// Takes a line among the details up to a bracket, other than that, and answers whether it did: another line is left.
    /// Nothing is moved.
    pub(crate) fn takes_line(
        &mut self,
        alloc: Global,
        line: &[u8],
        events: &mut Vec<Event>,
    ) -> Result<bool, NoMemory>
        ensures given { (s : State) → IfOk result (λ taken. taken ≡ true → events.new.items ≡ events.old.items ++ (line_within s self.old self.old.details line.now).given) }
        ensures test { (s : State) → IfOk result (λ taken. taken ≡ true → Some self.new ≡ (line_within s self.old self.old.details line.now).state.open_test) }
        ensures last { (s : State) → IfOk result (λ taken. taken ≡ true → s.last ≡ (line_within s self.old self.old.details line.now).state.last) }
        ensures tags { (s : State) → IfOk result (λ taken. taken ≡ true → s.tags ≡ (line_within s self.old self.old.details line.now).state.tags) }
        ensures left { IfOk result (λ taken. taken ≡ false → self.new ≡ self.old) }
        ensures quiet { IfOk result (λ taken. taken ≡ false → events.new.items ≡ events.old.items) }
    {
        match &mut self.details {
            Some(details) => details.stage.takes_line(alloc, &self.id, line, events),
            None => Ok(false),
        }
    }
}

// Appends what stands where a size should, and is none.
fn add_foreign_run(
    alloc: Global,
    so_far: Held,
    run: &[u8],
    extent: Extent,
    events: &mut Vec<Event>,
) -> Result<(), NoMemory>
    ensures { OnOk result (events.new.items ≡ events.old.items ++ spec.foreign_run extent so_far run.now) }
{
    match extent {
        Extent::Whole => add_joined_line(alloc, so_far, run, events),
        Extent::Piece | Extent::Last => {
            add_output(alloc, so_far.bytes(), events)?;
            add_output(alloc, without_newline(run), events)
        }
    }
}

// Appends both as the event of one line.
fn add_joined_line(
    alloc: Global,
    so_far: Held,
    run: &[u8],
    events: &mut Vec<Event>,
) -> Result<(), NoMemory>
    ensures { OnOk result (events.new.items ≡ events.old.items ++ spec.foreign_run Extent.Whole so_far run.now) }
{
    let mut joined = so_far;
    joined.append(run)?;
    add_line(alloc, line_content(joined.bytes()), events)
}

// A size of zero ends the part, any other begins a chunk.
fn sized(id: &Text, part: Part, count: u32, events: &mut Vec<Event>) -> Result<Stage, NoMemory>
    ensures given { OnOk result (events.new.items ≡ events.old.items ++ (spec.sized id.now part count).given) }
    ensures stage { IfOk result (λ stage. stage ≡ (spec.sized id.now part count).stage) }
{
    if count == 0 {
        give_rest(id, part, events)?;
        return Ok(Stage::Between);
    }
    Ok(Stage::Bytes(part, Place::Chunk(count)))
}

// What a run tells of a size that begins with the bytes read so far.
fn size_told(alloc: Global, so_far: &Held, run: &[u8], extent: Extent) -> Result<Size, NoMemory>
    ensures { IfOk result (λ size. size ≡ spec.size_in_run so_far.now run.now extent) }
{
    if so_far.bytes().is_empty() {
        return Ok(size_in(extent, run));
    }
    let mut joined = Held::none(alloc);
    joined.append(so_far.bytes())?;
    joined.append(run)?;
    Ok(size_in(extent, joined.bytes()))
}

// A run of bytes where a size is read, of which these bytes were read so far.
fn size_run(
    alloc: Global,
    id: &Text,
    part: Part,
    so_far: Held,
    run: &[u8],
    extent: Extent,
    events: &mut Vec<Event>,
) -> Result<Stage, NoMemory>
    ensures given { OnOk result (events.new.items ≡ events.old.items ++ (spec.size_run id.now part so_far run.now extent).given) }
    ensures stage { IfOk result (λ stage. stage ≡ (spec.size_run id.now part so_far run.now extent).stage) }
{
    match size_told(alloc, &so_far, run, extent)? {
        Size::Bad => {
            give_rest(id, part, events)?;
            add_foreign_run(alloc, so_far, run, extent, events)?;
            Ok(Stage::Between)
        }
        Size::Open => {
            let mut so_far = so_far;
            so_far.append(run)?;
            Ok(Stage::Bytes(part, Place::Size(so_far)))
        }
        Size::Told(count) => sized(id, part, count, events),
    }
}

// Where the part stands where so many bytes of a chunk are still to come.
fn place_before(alloc: Global, left: u32) -> Place
    ensures { result ≡ spec.place_before left }
{
    if left == 0 {
        Place::Size(Held::none(alloc))
    } else {
        Place::Chunk(left)
    }
}

// A run of bytes in a chunk, of which so many bytes are still to come.
fn chunk_run(
    alloc: Global,
    id: &Text,
    mut part: Part,
    left: u32,
    run: &[u8],
    extent: Extent,
    events: &mut Vec<Event>,
) -> Result<Stage, NoMemory>
    ensures given { OnOk result (events.new.items ≡ events.old.items ++ (spec.chunk_run id.now part left run.now extent).given) }
    ensures stage { IfOk result (λ stage. stage ≡ (spec.chunk_run id.now part left run.now extent).stage) }
{
    let size = left as usize;
    if run.len() <= size {
        part.add(alloc, id, run, b"", events)?;
        let left = left - run.len() as u32;
        return Ok(Stage::Bytes(part, place_before(alloc, left)));
    }
    part.add(alloc, id, &run[..size], b"", events)?;
    size_run(
        alloc,
        id,
        part,
        Held::none(alloc),
        &run[size..],
        extent,
        events,
    )
}

// A run of bytes in a part.
fn part_run(
    alloc: Global,
    id: &Text,
    part: Part,
    place: Place,
    run: &[u8],
    extent: Extent,
    events: &mut Vec<Event>,
) -> Result<Stage, NoMemory>
    ensures given { OnOk result (events.new.items ≡ events.old.items ++ (spec.part_run id.now part place run.now extent).given) }
    ensures stage { IfOk result (λ stage. stage ≡ (spec.part_run id.now part place run.now extent).stage) }
{
    match place {
        Place::Size(so_far) => size_run(alloc, id, part, so_far, run, extent, events),
        Place::Chunk(left) => chunk_run(alloc, id, part, left, run, extent, events),
    }
}

// The MIME type that a line tells.
fn type_of(alloc: Global, line: &[u8]) -> Result<Option<Text>, NoMemory>
    requires { length line.now ≤ longest_v1_line }
    ensures { IfOk result (λ mime. mime ≡ spec.type_of line.now) }
{
    if line.starts_with(b"Content-Type: ") {
        return name_of(alloc, bytes_behind(line, 14));
    }
    Ok(None)
}

// A line between parts, other than a bracket.
fn between_line(alloc: Global, line: &[u8], events: &mut Vec<Event>) -> Result<Stage, NoMemory>
    requires { length line.now ≤ longest_v1_line }
    ensures given { OnOk result (events.new.items ≡ events.old.items ++ (spec.between_line line.now).given) }
    ensures stage { IfOk result (λ stage. stage ≡ (spec.between_line line.now).stage) }
{
    match type_of(alloc, line)? {
        Some(mime) => Ok(Stage::Typed(mime)),
        None => {
            add_line(alloc, line, events)?;
            Ok(Stage::Between)
        }
    }
}

// A part before its first chunk.
fn new_part(alloc: Global, mime: Text, name: Text) -> Stage
    ensures { result ≡ spec.new_part mime name }
{
    let part = Part {
        mime,
        name,
        held: Held::none(alloc),
    };
    Stage::Bytes(part, Place::Size(Held::none(alloc)))
}

// The name of a part of a test that ended so, which this line tells or not.
fn name_in(alloc: Global, how: Status, line: &[u8]) -> Result<Text, NoMemory>
    requires { length line.now ≤ longest_v1_line }
    ensures { IfOk result (λ name. name ≡ spec.part_name_in how line.now) }
{
    match text_of(alloc, line)? {
        Some(name) => Ok(name),
        None => file_name(alloc, how),
    }
}

// A piece of a line that is too long for a name.
fn name_piece(
    alloc: Global,
    how: Status,
    mime: Text,
    piece: &[u8],
    last: bool,
    events: &mut Vec<Event>,
) -> Result<Stage, NoMemory>
    ensures given { OnOk result (events.new.items ≡ events.old.items ++ (spec.name_piece how mime piece.now last).given) }
    ensures stage { IfOk result (λ stage. stage ≡ (spec.name_piece how mime piece.now last).stage) }
{
    add_output(alloc, without_newline(piece), events)?;
    if last {
        let name = file_name(alloc, how)?;
        return Ok(new_part(alloc, mime, name));
    }
    Ok(Stage::Typed(mime))
}

// A piece of a line among those up to a bracket.
fn lines_piece(
    alloc: Global,
    id: &Text,
    mut part: Part,
    piece: &[u8],
    last: bool,
    events: &mut Vec<Event>,
) -> Result<Stage, NoMemory>
    ensures given { OnOk result (events.new.items ≡ events.old.items ++ (spec.lines_piece id.now part piece.now last).given) }
    ensures stage { IfOk result (λ stage. stage ≡ (spec.lines_piece id.now part piece.now last).stage) }
{
    if last {
        part.add(alloc, id, without_newline(piece), b"\n", events)?;
    } else {
        part.add(alloc, id, piece, b"", events)?;
    }
    Ok(Stage::Lines(part))
}

// A line among those up to a bracket, other than that, by its content.
fn lines_line(
    alloc: Global,
    id: &Text,
    mut part: Part,
    line: &[u8],
    events: &mut Vec<Event>,
) -> Result<Stage, NoMemory>
    ensures given { OnOk result (events.new.items ≡ events.old.items ++ (spec.lines_line id.now part line.now).given) }
    ensures stage { IfOk result (λ stage. stage ≡ (spec.lines_line id.now part line.now).stage) }
{
    part.add(alloc, id, unquoted(line), b"\n", events)?;
    Ok(Stage::Lines(part))
}

// The line without the space in front of a bracket.
fn unquoted(line: &[u8]) -> &[u8]
    ensures { result.now ≡ spec.unquoted line.now }
{
    if line.starts_with(b" ]") {
        bytes_behind(line, 1)
    } else {
        line
    }
}

fn extent_of(last: bool) -> Extent
    ensures { result ≡ spec.extent_of last }
{
    if last { Extent::Last } else { Extent::Piece }
}

/// Whether the line is a bracket.
fn is_bracket(line: &[u8]) -> bool
    ensures { result ≡ spec.is_bracket_line line.now }
{
    b"]".as_slice() == line_content(line)
}

impl Stage {
    /// Takes a line among those up to a bracket, other than that, and answers whether it did: another line is left. Nothing
    /// is moved.
    pub(crate) fn takes_line(
        &mut self,
        alloc: Global,
        id: &Text,
        line: &[u8],
        events: &mut Vec<Event>,
    ) -> Result<bool, NoMemory>
        ensures given { (how : Status) → IfOk result (λ taken. taken ≡ true → events.new.items ≡ events.old.items ++ (spec.stage_line id.now how self.old line.now).given) }
        ensures stage { (how : Status) → IfOk result (λ taken. taken ≡ true → self.new ≡ (spec.stage_line id.now how self.old line.now).stage) }
        ensures goes_on { IfOk result (λ taken. taken ≡ true → spec.ends_details self.old line.now ≡ false) }
        ensures left { IfOk result (λ taken. taken ≡ false → self.new ≡ self.old) }
        ensures quiet { IfOk result (λ taken. taken ≡ false → events.new.items ≡ events.old.items) }
    {
        match self {
            Stage::Lines(part) => {
                if is_bracket(line) {
                    return Ok(false);
                }
                part.add(alloc, id, unquoted(line_content(line)), b"\n", events)?;
                Ok(true)
            }
            Stage::Between | Stage::Typed(_) | Stage::Bytes(_, _) => Ok(false),
        }
    }

    /// Whether the line ends the details.
    pub(crate) fn ends_with(&self, line: &[u8]) -> bool
        ensures { result ≡ spec.ends_details self.now line.now }
    {
        match self {
            Stage::Lines(_) | Stage::Between => is_bracket(line),
            Stage::Typed(_) | Stage::Bytes(_, _) => false,
        }
    }

    /// The part of which bytes may be held.
    pub(crate) fn into_part(self) -> Option<Part>
        ensures { result ≡ spec.held_part self }
    {
        match self {
            Stage::Lines(part) => Some(part),
            Stage::Bytes(part, _) => Some(part),
            Stage::Between | Stage::Typed(_) => None,
        }
    }

    /// Where the details of the test stand behind the line, which does not end them. What it gives is appended.
    pub(crate) fn after_line(
        self,
        alloc: Global,
        id: &Text,
        how: Status,
        line: &[u8],
        events: &mut Vec<Event>,
    ) -> Result<Stage, NoMemory>
        requires { length (content_of line.now) ≤ longest_v1_line }
        ensures given { OnOk result (events.new.items ≡ events.old.items ++ (spec.stage_line id.now how self line.now).given) }
        ensures stage { IfOk result (λ stage. stage ≡ (spec.stage_line id.now how self line.now).stage) }
    {
        match self {
            Stage::Lines(part) => lines_line(alloc, id, part, line_content(line), events),
            Stage::Between => between_line(alloc, line_content(line), events),
            Stage::Typed(mime) => {
                let name = name_in(alloc, how, line_content(line))?;
                Ok(new_part(alloc, mime, name))
            }
            Stage::Bytes(part, place) => {
                part_run(alloc, id, part, place, line, Extent::Whole, events)
            }
        }
    }

    /// The same of a piece of a line that is too long.
    pub(crate) fn after_piece(
        self,
        alloc: Global,
        id: &Text,
        how: Status,
        piece: &[u8],
        last: bool,
        events: &mut Vec<Event>,
    ) -> Result<Stage, NoMemory>
        ensures given { OnOk result (events.new.items ≡ events.old.items ++ (spec.stage_piece id.now how self piece.now last).given) }
        ensures stage { IfOk result (λ stage. stage ≡ (spec.stage_piece id.now how self piece.now last).stage) }
    {
        match self {
            Stage::Lines(part) => lines_piece(alloc, id, part, piece, last, events),
            Stage::Between => {
                add_output(alloc, without_newline(piece), events)?;
                Ok(Stage::Between)
            }
            Stage::Typed(mime) => name_piece(alloc, how, mime, piece, last, events),
            Stage::Bytes(part, place) => {
                part_run(alloc, id, part, place, piece, extent_of(last), events)
            }
        }
    }
}
