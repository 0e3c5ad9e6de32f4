//! Lines of version 1 in turn, and the events that they give.

ghost use Rattle.std.specs.Prelude.{List, ◌≡◌, ◌++◌, ◌∷◌, [], ◌<◌, ◌≤◌, ◌^◌, length, All, IsTrue, ◌↔◌, true, false, IfOk, OnOk, None, Some};
ghost use Rattle.v1_bridge.specs.Lines.{line_of as line_by, content as content_of, without_newline as line_without};
ghost use Rattle.v1_bridge.specs.Events.{longest_v1_line, line_event, begun_event as begun_by, completing_event, left_of as left_by, rest_events};
ghost use Rattle.v1_bridge.specs.Stages as stages;
ghost use Rattle.v1_bridge.specs.Reading as spec;
ghost use Rattle.v1_bridge.specs.Kept.{state_of, with_open, plain_test, detailed_test, HasRead, HoldsLittle};
ghost use Rattle.packet_codec.specs.Canonical.{Fits};
ghost use Rattle.v1_bridge.specs.declared.details_stage.OpenTest.{OpenTest as AnOpenTest};

use crate::details_stage::{Details, OpenTest, Stage};
use crate::event::{
    add_line, add_output, begun_event, event_with, give_rest, left_of, lines_part, tags_if_any,
};
use crate::line::{Line, bytes_behind, line_content, line_of, without_newline};
use crate::name::name_of;
use crate::part::Part;
use crate::tags::retagged;
use outcome_fold::copies_of;
use packet_codec::{Event, Stamp, Status, Tags};
use std::alloc::Global;
use sub_number::{NoMemory, Text};

/// The most bytes of a line, and of a piece of one that is too long.
const LONGEST_LINE: usize = 65_536;

/// What is known of the lines that were read: the last time, the tags outside a test, and the open test.
///
/// The events that its calls give, one after another, and then those of `close` are the events of the lines, as
/// docs/FORMATS.md says under "Version 1". A line is handed over with its newline, which only the last one may lack. A line
/// of more than 65,536 bytes is handed over in pieces, to `long` or `long_into`. Each event that is given has a packet.
///
/// After `NoMemory`, which comes only for want of memory, the reader is given up: nothing is said of what it knows.
#[derive(Drop)]
pub struct V1Reader {
    alloc: Global,
    last: Option<Stamp>,
    tags: Tags,
    open_test: Option<OpenTest>,
}

impl V1Reader {
    /// A reader that was given no line. It takes no memory yet.
    pub fn new(alloc: Global) -> Self
        ensures read { HasRead result [] }
        ensures little { HoldsLittle result }
    {
        V1Reader {
            alloc,
            last: None,
            tags: Tags::new(alloc),
            open_test: None,
        }
    }

    // Appends the event with which this test ends.
    fn complete(
        &self,
        id: Text,
        tags: Tags,
        how: Status,
        part: Option<Part>,
        events: &mut Vec<Event>,
    ) -> Result<(), NoMemory>
        ensures { OnOk result (events.new.items ≡ events.old.items ++ completing_event self.now.last id tags how part ∷ []) }
    {
        events.push(event_with(self.last, id, tags_if_any(tags), how, part))?;
        Ok(())
    }

    // Begins this test, where it can be one. No test is open.
    fn begin_test(
        &mut self,
        line: &[u8],
        id: &[u8],
        events: &mut Vec<Event>,
    ) -> Result<(), NoMemory>
        requires short { length id.now < 2 ^ 30 }
        requires none { self.old.open_test ≡ None }
        ensures given { OnOk result (events.new.items ≡ events.old.items ++ (spec.begin_test (state_of self.old) line.now id.now).given) }
        ensures state { OnOk result (state_of self.new ≡ (spec.begin_test (state_of self.old) line.now id.now).state) }
    {
        match name_of(self.alloc, id)? {
            Some(id) => self.begin(id, events),
            None => add_line(self.alloc, line, events),
        }
    }

    // Begins this test.
    fn begin(&mut self, id: Text, events: &mut Vec<Event>) -> Result<(), NoMemory>
        ensures given { OnOk result (events.new.items ≡ events.old.items ++ begun_by self.old.last id ∷ []) }
        ensures state { OnOk result (state_of self.new ≡ spec.with_test (state_of self.old) (Some (plain_test id self.old.tags))) }
    {
        events.push(begun_event(self.last, &id)?)?;
        let tags = copies_of(self.alloc, self.tags.list())?;
        self.open_test = Some(OpenTest {
            id,
            tags,
            details: None,
        });
        Ok(())
    }

    // Gives the test back as the open one, without details.
    fn keep(&mut self, id: Text, tags: Tags)
        ensures { state_of self.new ≡ with_open self.old (plain_test id tags) }
    {
        self.open_test = Some(OpenTest {
            id,
            tags,
            details: None,
        });
    }

    // Gives the test back as the open one, with details that stand there.
    fn keep_details(&mut self, id: Text, tags: Tags, how: Status, stage: Stage)
        ensures { state_of self.new ≡ with_open self.old (detailed_test id tags how stage) }
    {
        self.open_test = Some(OpenTest {
            id,
            tags,
            details: Some(Details { how, stage }),
        });
    }

    // A line among the details. The test was taken out.
    fn detail_line(
        &mut self,
        id: Text,
        tags: Tags,
        details: Details,
        line: &[u8],
        events: &mut Vec<Event>,
    ) -> Result<(), NoMemory>
        requires none { self.old.open_test ≡ None }
        requires short { length (line_without line.now) ≤ longest_v1_line }
        ensures given { OnOk result (events.new.items ≡ events.old.items ++ (spec.detail_line (state_of self.old) (record { id = id; tags = tags; details = Some details }) details line.now).given) }
        ensures state { OnOk result (state_of self.new ≡ (spec.detail_line (state_of self.old) (record { id = id; tags = tags; details = Some details }) details line.now).state) }
    {
        let Details { how, stage } = details;
        if stage.ends_with(line) {
            let part = ending_part(stage.into_part());
            return self.complete(id, tags, how, part, events);
        }
        let stage = stage.after_line(self.alloc, &id, how, line, events)?;
        self.keep_details(id, tags, how, stage);
        Ok(())
    }

    // A piece among the details. The test was taken out.
    fn detail_piece(
        &mut self,
        id: Text,
        tags: Tags,
        details: Details,
        piece: &[u8],
        last: bool,
        events: &mut Vec<Event>,
    ) -> Result<(), NoMemory>
        ensures given { OnOk result (events.new.items ≡ events.old.items ++ (spec.detail_piece (state_of self.old) (record { id = id; tags = tags; details = Some details }) details piece.now last).given) }
        ensures state { OnOk result (state_of self.new ≡ (spec.detail_piece (state_of self.old) (record { id = id; tags = tags; details = Some details }) details piece.now last).state) }
    {
        let Details { how, stage } = details;
        let stage = stage.after_piece(self.alloc, &id, how, piece, last, events)?;
        self.keep_details(id, tags, how, stage);
        Ok(())
    }

    // An outcome that is told with these bytes behind the word. The test was taken out.
    fn end_test(
        &mut self,
        id: Text,
        tags: Tags,
        line: &[u8],
        how: Status,
        rest: &[u8],
        events: &mut Vec<Event>,
    ) -> Result<(), NoMemory>
        requires { self.old.open_test ≡ None }
        ensures given { OnOk result (events.new.items ≡ events.old.items ++ (spec.end_test (with_open self.old (plain_test id tags)) (plain_test id tags) line.now how rest.now).given) }
        ensures state { OnOk result (state_of self.new ≡ (spec.end_test (with_open self.old (plain_test id tags)) (plain_test id tags) line.now how rest.now).state) }
    {
        if id.bytes() == rest {
            return self.complete(id, tags, how, None, events);
        }
        if is_id_and(b" [", id.bytes(), rest) {
            let part = lines_part(self.alloc, how)?;
            self.keep_details(id, tags, how, Stage::Lines(part));
            return Ok(());
        }
        if is_id_and(b" [ multipart", id.bytes(), rest) {
            self.keep_details(id, tags, how, Stage::Between);
            return Ok(());
        }
        self.keep(id, tags);
        add_line(self.alloc, line, events)
    }

    // The tags outside a test become these, where they can.
    fn change_tags(
        &mut self,
        line: &[u8],
        names: Option<Tags>,
        events: &mut Vec<Event>,
    ) -> Result<(), NoMemory>
        ensures given { OnOk result (events.new.items ≡ events.old.items ++ (spec.change_tags (state_of self.old) line.now names).given) }
        ensures state { OnOk result (state_of self.new ≡ (spec.change_tags (state_of self.old) line.now names).state) }
    {
        match names {
            Some(names) => {
                self.tags = names;
                Ok(())
            }
            None => add_line(self.alloc, line, events),
        }
    }

    // The open test's tags become these, where they can. The test was taken out.
    fn change_own_tags(
        &mut self,
        id: Text,
        tags: Tags,
        line: &[u8],
        names: Option<Tags>,
        events: &mut Vec<Event>,
    ) -> Result<(), NoMemory>
        ensures given { OnOk result (events.new.items ≡ events.old.items ++ (spec.change_own_tags (with_open self.old (plain_test id tags)) (plain_test id tags) line.now names).given) }
        ensures state { OnOk result (state_of self.new ≡ (spec.change_own_tags (with_open self.old (plain_test id tags)) (plain_test id tags) line.now names).state) }
    {
        match names {
            Some(names) => {
                self.keep(id, names);
                Ok(())
            }
            None => {
                self.keep(id, tags);
                add_line(self.alloc, line, events)
            }
        }
    }

    // A line within a test, which is not among details, by its content. The test was taken out.
    fn within(
        &mut self,
        id: Text,
        tags: Tags,
        line: &[u8],
        events: &mut Vec<Event>,
    ) -> Result<(), NoMemory>
        requires none { self.old.open_test ≡ None }
        requires short { length line.now ≤ longest_v1_line }
        ensures given { OnOk result (events.new.items ≡ events.old.items ++ (spec.step_inside (with_open self.old (plain_test id tags)) (plain_test id tags) line.now (line_by line.now)).given) }
        ensures state { OnOk result (state_of self.new ≡ (spec.step_inside (with_open self.old (plain_test id tags)) (plain_test id tags) line.now (line_by line.now)).state) }
    {
        match line_of(line) {
            Line::Outcome(outcome) => {
                self.end_test(id, tags, line, outcome.how, outcome.rest, events)
            }
            Line::Time(stamp) => {
                self.last = Some(stamp);
                self.keep(id, tags);
                Ok(())
            }
            Line::Tags(words) => {
                let names = retagged(self.alloc, &tags, words)?;
                self.change_own_tags(id, tags, line, names, events)
            }
            Line::Progress => {
                self.keep(id, tags);
                Ok(())
            }
            Line::Test(_) | Line::Other => {
                self.keep(id, tags);
                add_line(self.alloc, line, events)
            }
        }
    }

    // A line where no test is open, by its content.
    fn outside(&mut self, line: &[u8], events: &mut Vec<Event>) -> Result<(), NoMemory>
        requires none { self.old.open_test ≡ None }
        requires short { length line.now ≤ longest_v1_line }
        ensures given { OnOk result (events.new.items ≡ events.old.items ++ (spec.step_outside (state_of self.old) line.now (line_by line.now)).given) }
        ensures state { OnOk result (state_of self.new ≡ (spec.step_outside (state_of self.old) line.now (line_by line.now)).state) }
    {
        match line_of(line) {
            Line::Test(id) => self.begin_test(line, id, events),
            Line::Time(stamp) => {
                self.last = Some(stamp);
                Ok(())
            }
            Line::Tags(words) => {
                let names = retagged(self.alloc, &self.tags, words)?;
                self.change_tags(line, names, events)
            }
            Line::Progress => Ok(()),
            Line::Outcome(_) | Line::Other => add_line(self.alloc, line, events),
        }
    }

    // A line while this test is open. The test was taken out.
    fn line_within(
        &mut self,
        test: OpenTest,
        line: &[u8],
        events: &mut Vec<Event>,
    ) -> Result<(), NoMemory>
        requires none { self.old.open_test ≡ None }
        requires short { length (line_without line.now) ≤ longest_v1_line }
        ensures given { OnOk result (events.new.items ≡ events.old.items ++ (spec.line_step (with_open self.old test) (Some test) line.now).given) }
        ensures state { OnOk result (state_of self.new ≡ (spec.line_step (with_open self.old test) (Some test) line.now).state) }
    {
        let OpenTest { id, tags, details } = test;
        match details {
            None => {
                self.within(id, tags, line_content(line), events)?;
                Ok(())
            }
            Some(details) => self.detail_line(id, tags, details, line, events),
        }
    }

    // Takes a line of details where the open test stands, as most of them can be, and answers whether it did.
    fn takes_detail(&mut self, line: &[u8], events: &mut Vec<Event>) -> Result<bool, NoMemory>
        ensures given { IfOk result (λ taken. taken ≡ true → events.new.items ≡ events.old.items ++ (spec.line_step (state_of self.old) (state_of self.old).open_test line.now).given) }
        ensures state { IfOk result (λ taken. taken ≡ true → state_of self.new ≡ (spec.line_step (state_of self.old) (state_of self.old).open_test line.now).state) }
        ensures left { IfOk result (λ taken. taken ≡ false → self.new ≡ self.old) }
        ensures quiet { IfOk result (λ taken. taken ≡ false → events.new.items ≡ events.old.items) }
    {
        match &mut self.open_test {
            Some(test) => test.takes_line(self.alloc, line, events),
            None => Ok(false),
        }
    }

    // A line with its newline, where it has one.
    fn take_line(&mut self, line: &[u8], events: &mut Vec<Event>) -> Result<(), NoMemory>
        requires short { length (line_without line.now) ≤ longest_v1_line }
        ensures given { OnOk result (events.new.items ≡ events.old.items ++ (spec.line_step (state_of self.old) (state_of self.old).open_test line.now).given) }
        ensures state { OnOk result (state_of self.new ≡ (spec.line_step (state_of self.old) (state_of self.old).open_test line.now).state) }
    {
        if self.takes_detail(line, events)? {
            return Ok(());
        }
        match self.open_test.take() {
            Some(test) => self.line_within(test, line, events),
            None => self.outside(line_content(line), events),
        }
    }

    /// Takes the next line, with its newline, which only the last line of a stream may lack, and appends what it decides. A
    /// carriage return at its end is no part of it, but within a chunk.
    pub fn line_into(&mut self, line: &[u8], events: &mut Vec<Event>) -> Result<(), NoMemory>
        requires short { length (line_without line.now) ≤ longest_v1_line }
        ensures events { (inputs : List spec.Input) → HasRead self.old inputs → OnOk result (events.new.items ≡ events.old.items ++ spec.events_given_behind inputs (spec.line line.now)) }
        ensures read { (inputs : List spec.Input) → HasRead self.old inputs → OnOk result (HasRead self.new (inputs ++ spec.line line.now ∷ [])) }
        ensures fits { HoldsLittle self.old → All Fits events.old.items → OnOk result (All Fits events.new.items) }
        ensures little { HoldsLittle self.old → OnOk result (HoldsLittle self.new) }
    {
        self.take_line(line, events)?;
        Ok(())
    }

    /// The same, and gives the events.
    pub fn line(&mut self, line: &[u8]) -> Result<Vec<Event>, NoMemory>
        requires short { length (line_without line.now) ≤ longest_v1_line }
        ensures so_far { (inputs : List spec.Input) → HasRead self.old inputs → IfOk result (λ events. spec.events_so_far (inputs ++ spec.line line.now ∷ []) ≡ spec.events_so_far inputs ++ events.items) }
        ensures read { (inputs : List spec.Input) → HasRead self.old inputs → OnOk result (HasRead self.new (inputs ++ spec.line line.now ∷ [])) }
        ensures fits { HoldsLittle self.old → IfOk result (λ events. All Fits events.items) }
        ensures little { HoldsLittle self.old → OnOk result (HoldsLittle self.new) }
    {
        let mut events = Vec::new(self.alloc);
        self.line_into(line, &mut events)?;
        Ok(events)
    }

    // A piece while this test is open. The test was taken out.
    fn piece_within(
        &mut self,
        test: OpenTest,
        piece: &[u8],
        last: bool,
        events: &mut Vec<Event>,
    ) -> Result<(), NoMemory>
        requires none { self.old.open_test ≡ None }
        ensures given { OnOk result (events.new.items ≡ events.old.items ++ (spec.piece_step (with_open self.old test) (Some test) piece.now last).given) }
        ensures state { OnOk result (state_of self.new ≡ (spec.piece_step (with_open self.old test) (Some test) piece.now last).state) }
    {
        let OpenTest { id, tags, details } = test;
        match details {
            None => {
                self.keep(id, tags);
                add_output(self.alloc, without_newline(piece), events)
            }
            Some(details) => self.detail_piece(id, tags, details, piece, last, events),
        }
    }

    // A piece of a line that is too long.
    fn take_piece(
        &mut self,
        piece: &[u8],
        last: bool,
        events: &mut Vec<Event>,
    ) -> Result<(), NoMemory>
        ensures given { OnOk result (events.new.items ≡ events.old.items ++ (spec.piece_step (state_of self.old) (state_of self.old).open_test piece.now last).given) }
        ensures state { OnOk result (state_of self.new ≡ (spec.piece_step (state_of self.old) (state_of self.old).open_test piece.now last).state) }
    {
        match self.open_test.take() {
            Some(test) => self.piece_within(test, piece, last, events),
            None => add_output(self.alloc, without_newline(piece), events),
        }
    }

    /// Takes the next piece of a line of more than 65,536 bytes, and whether it is the line's last one, which has the newline
    /// where the line has one. Each other piece is meant to have 65,536 bytes. Appends what it decides.
    pub fn long_into(
        &mut self,
        piece: &[u8],
        last: bool,
        events: &mut Vec<Event>,
    ) -> Result<(), NoMemory>
        requires short { length (line_without piece.now) ≤ longest_v1_line }
        ensures events { (inputs : List spec.Input) → HasRead self.old inputs → OnOk result (events.new.items ≡ events.old.items ++ spec.events_given_behind inputs (spec.piece piece.now last)) }
        ensures read { (inputs : List spec.Input) → HasRead self.old inputs → OnOk result (HasRead self.new (inputs ++ spec.piece piece.now last ∷ [])) }
        ensures fits { HoldsLittle self.old → All Fits events.old.items → OnOk result (All Fits events.new.items) }
        ensures little { HoldsLittle self.old → OnOk result (HoldsLittle self.new) }
    {
        self.take_piece(piece, last, events)?;
        Ok(())
    }

    /// The same, and gives the events.
    pub fn long(&mut self, piece: &[u8], last: bool) -> Result<Vec<Event>, NoMemory>
        requires short { length (line_without piece.now) ≤ longest_v1_line }
        ensures so_far { (inputs : List spec.Input) → HasRead self.old inputs → IfOk result (λ events. spec.events_so_far (inputs ++ spec.piece piece.now last ∷ []) ≡ spec.events_so_far inputs ++ events.items) }
        ensures read { (inputs : List spec.Input) → HasRead self.old inputs → OnOk result (HasRead self.new (inputs ++ spec.piece piece.now last ∷ [])) }
        ensures fits { HoldsLittle self.old → IfOk result (λ events. All Fits events.items) }
        ensures little { HoldsLittle self.old → OnOk result (HoldsLittle self.new) }
    {
        let mut events = Vec::new(self.alloc);
        self.long_into(piece, last, &mut events)?;
        Ok(events)
    }

    /// Ends the lines, and gives what the end decides: what is left of the details of the open test.
    pub fn close(self) -> Result<Vec<Event>, NoMemory>
        ensures given { IfOk result (λ events. events.items ≡ spec.events_at_end (state_of self).open_test) }
        ensures whole { (inputs : List spec.Input) → HasRead self inputs → IfOk result (λ events. spec.events_of_inputs inputs ≡ spec.events_so_far inputs ++ events.items) }
        ensures fits { HoldsLittle self → IfOk result (λ events. All Fits events.items) }
    {
        let V1Reader {
            alloc,
            last: _last,
            tags: _tags,
            open_test,
        } = self;
        let mut events = Vec::new(alloc);
        give_end(open_test, &mut events)?;
        Ok(events)
    }
}

/// Whether the bytes are no more than a line may have, or a piece of one that is too long: 65,536, and a newline.
pub fn is_short(bytes: &[u8]) -> bool
    ensures { IsTrue result ↔ length (line_without bytes.now) ≤ longest_v1_line }
{
    without_newline(bytes).len() <= LONGEST_LINE
}

// Whether the bytes are the id, and behind it these.
fn is_id_and(more: &[u8], id: &[u8], rest: &[u8]) -> bool
    ensures { result ≡ spec.is_id_and more.now id.now rest.now }
{
    rest.starts_with(id) && bytes_behind(rest, id.len()) == more
}

// What is held of the details as the file of the completing event.
fn ending_part(part: Option<Part>) -> Option<Part>
    ensures { result ≡ spec.ending_part part }
{
    match part {
        Some(part) => left_of(part),
        None => None,
    }
}

// Appends what the end gives where this test is open, or none is.
fn give_end(test: Option<OpenTest>, events: &mut Vec<Event>) -> Result<(), NoMemory>
    ensures { OnOk result (events.new.items ≡ events.old.items ++ spec.events_at_end test) }
{
    match test {
        Some(test) => give_left(test, events),
        None => Ok(()),
    }
}

// Appends what is left of the details of a test that is open at the end.
fn give_left(test: OpenTest, events: &mut Vec<Event>) -> Result<(), NoMemory>
    ensures { OnOk result (events.new.items ≡ events.old.items ++ spec.events_at_end (Some test)) }
{
    let OpenTest {
        id,
        tags: _tags,
        details,
    } = test;
    match details {
        Some(details) => give_part(&id, details.stage.into_part(), events),
        None => Ok(()),
    }
}

// Appends what is held of a part, where there is one.
fn give_part(id: &Text, part: Option<Part>, events: &mut Vec<Event>) -> Result<(), NoMemory>
    ensures { OnOk result (events.new.items ≡ events.old.items ++ spec.part_left id.now part) }
{
    match part {
        Some(part) => give_rest(id, part, events),
        None => Ok(()),
    }
}
