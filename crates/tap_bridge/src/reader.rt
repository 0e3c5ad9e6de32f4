//! Lines of the Test Anything Protocol in turn, and the events that they give.

ghost use Rattle.std.specs.Prelude.{◌≡◌, ℕ, None, true, false, is_some, List, [], ◌∷◌, ◌++◌, ◌≤◌, length, map, All, IfOk, OnOk, if◌then◌else◌};
ghost use Rattle.std.specs.Option.{unwrap_or};
ghost use Rattle.packet_codec.specs.Canonical.{Fits};
ghost use Rattle.stream_reader.specs.Notes.{stdout_event};
ghost use Rattle.sub_number.specs.Lines.{with_newline};
ghost use Rattle.tap_bridge.specs.Grammar as grammar;
ghost use Rattle.tap_bridge.specs.Events as spec;
ghost use Rattle.tap_bridge.specs.Kept.{HasTakenLines, HasReadLines, kept_events};
ghost use Rattle.tap_bridge.specs.Read.{test_meant};

use crate::event::{add_missing, add_skipped_file, bail_out_event, output_event};
use crate::line::{Line, line_of, without_return};
use crate::plan::Plan;
use crate::test_line::TestLine;
use crate::waiting_test::Waiting;
use packet_codec::Event;
use std::alloc::Global;
use sub_number::NoMemory;

/// What is known of the lines that were read: the next number, the plan, and the test that waits for its comments.
///
/// The events that its calls of `line` and `line_into` give, one after another, and then those of `close` are the
/// events of the lines, as docs/FORMATS.md says under "TAP". A line that `comment` takes gives none. A line of more
/// than 65,536 bytes is no line of the protocol: what reads the lines gives its pieces itself, and no call is made for
/// it.
#[derive(Drop)]
pub struct TapReader {
    alloc: Global,
    next: u64,
    tests: Option<u32>,
    waiting: Option<Waiting>,
    // The last test's name, kept for its room.
    name: Vec<u8>,
}

impl TapReader {
    /// A reader that was given no line. It takes no memory yet.
    pub fn new(alloc: Global) -> Self
        ensures { HasReadLines result [] }
    {
        TapReader {
            alloc,
            next: 1,
            tests: None,
            waiting: None,
            name: Vec::new(alloc),
        }
    }

    // Appends the event of the waiting test, where one waits. Then none waits.
    fn give_waiting(&mut self, events: &mut Vec<Event>) -> Result<(), NoMemory>
        ensures events { OnOk result (events.new.items ≡ events.old.items ++ kept_events self.old.waiting) }
        ensures fits { All Fits events.old.items → OnOk result (All Fits events.new.items) }
        ensures rest { OnOk result (self.new ≡ record self.old { waiting = None }) }
    {
        if let Some(waiting) = self.waiting.take() {
            events.push(waiting.into_event(self.alloc)?)?;
        }
        Ok(())
    }

    fn take_plan(&mut self, plan: Plan, events: &mut Vec<Event>) -> Result<(), NoMemory>
        ensures events { (before : List spec.TapInput) → HasTakenLines self.old before → OnOk result (events.new.items ≡ events.old.items ++ spec.events_at before (spec.line (grammar.plan plan))) }
        ensures fits { All Fits events.old.items → OnOk result (All Fits events.new.items) }
        ensures read { (before : List spec.TapInput) → HasTakenLines self.old before → OnOk result (HasTakenLines self.new (before ++ spec.line (grammar.plan plan) ∷ [])) }
    {
        self.give_waiting(events)?;
        add_skipped_file(self.alloc, plan, events)?;
        self.tests = Some(plan.tests);
        Ok(())
    }

    fn take_test(&mut self, test: &TestLine<'_>, events: &mut Vec<Event>) -> Result<(), NoMemory>
        requires { length test.now.description.now ≤ spec.longest_tap_line }
        ensures events { (before : List spec.TapInput) → HasTakenLines self.old before → OnOk result (events.new.items ≡ events.old.items ++ spec.events_at before (spec.line (grammar.test (test_meant test.now)))) }
        ensures fits { All Fits events.old.items → OnOk result (All Fits events.new.items) }
        ensures read { (before : List spec.TapInput) → HasTakenLines self.old before → OnOk result (HasTakenLines self.new (before ++ spec.line (grammar.test (test_meant test.now)) ∷ [])) }
    {
        let number = number_in(self.next, test.number);
        self.give_waiting(events)?;
        add_missing(self.alloc, self.next, number, events)?;
        self.waiting = Some(Waiting::begun(self.alloc, number, test, &mut self.name)?);
        self.next = self.next.max(number.saturating_add(1));
        Ok(())
    }

    // Adds the comment line to the waiting test, and answers whether one waits.
    fn add_comment(&mut self, line: &[u8]) -> Result<bool, NoMemory>
        ensures events { (before : List spec.TapInput) → HasTakenLines self.old before → IfOk result (λ added. spec.events_at before (spec.line (grammar.comment line.now)) ≡ (if added then [] else stdout_event (with_newline line.now) ∷ [])) }
        ensures read { (before : List spec.TapInput) → HasTakenLines self.old before → OnOk result (HasTakenLines self.new (before ++ spec.line (grammar.comment line.now) ∷ [])) }
        ensures waits { (before : List spec.TapInput) → HasTakenLines self.old before → IfOk result (λ added. added ≡ is_some (spec.waiting before)) }
        ensures left { IfOk result (λ added. added ≡ false → self.new ≡ self.old) }
    {
        match &mut self.waiting {
            Some(waiting) => {
                waiting.comment.add_line(line)?;
                Ok(true)
            }
            None => Ok(false),
        }
    }

    fn take_comment(&mut self, line: &[u8], events: &mut Vec<Event>) -> Result<(), NoMemory>
        requires { length line.now ≤ spec.longest_tap_line }
        ensures events { (before : List spec.TapInput) → HasTakenLines self.old before → OnOk result (events.new.items ≡ events.old.items ++ spec.events_at before (spec.line (grammar.comment line.now))) }
        ensures fits { All Fits events.old.items → OnOk result (All Fits events.new.items) }
        ensures read { (before : List spec.TapInput) → HasTakenLines self.old before → OnOk result (HasTakenLines self.new (before ++ spec.line (grammar.comment line.now) ∷ [])) }
    {
        if self.add_comment(line)? {
            return Ok(());
        }
        add_output(self.alloc, line, events)?;
        Ok(())
    }

    fn take_bail_out(&mut self, id: &[u8], events: &mut Vec<Event>) -> Result<(), NoMemory>
        requires { length id.now ≤ spec.longest_tap_line }
        ensures events { (before : List spec.TapInput) → HasTakenLines self.old before → OnOk result (events.new.items ≡ events.old.items ++ spec.events_at before (spec.line (grammar.bail_out id.now))) }
        ensures fits { All Fits events.old.items → OnOk result (All Fits events.new.items) }
        ensures read { (before : List spec.TapInput) → HasTakenLines self.old before → OnOk result (HasTakenLines self.new (before ++ spec.line (grammar.bail_out id.now) ∷ [])) }
    {
        self.give_waiting(events)?;
        events.push(bail_out_event(self.alloc, id)?)?;
        Ok(())
    }

    fn take_other(&mut self, line: &[u8], events: &mut Vec<Event>) -> Result<(), NoMemory>
        requires { length line.now ≤ spec.longest_tap_line }
        ensures events { (before : List spec.TapInput) → HasTakenLines self.old before → OnOk result (events.new.items ≡ events.old.items ++ spec.events_at before (spec.line (grammar.other line.now))) }
        ensures fits { All Fits events.old.items → OnOk result (All Fits events.new.items) }
        ensures read { (before : List spec.TapInput) → HasTakenLines self.old before → OnOk result (HasTakenLines self.new (before ++ spec.line (grammar.other line.now) ∷ [])) }
    {
        add_output(self.alloc, line, events)?;
        Ok(())
    }

    // Takes the next line, without its newline, and appends what it gives.
    fn take_line(&mut self, line: &[u8], events: &mut Vec<Event>) -> Result<(), NoMemory>
        requires { length line.now ≤ spec.longest_tap_line }
        ensures events { (before : List spec.TapInput) → HasTakenLines self.old before → OnOk result (events.new.items ≡ events.old.items ++ spec.events_at before (spec.input_of line.now)) }
        ensures fits { All Fits events.old.items → OnOk result (All Fits events.new.items) }
        ensures read { (before : List spec.TapInput) → HasTakenLines self.old before → OnOk result (HasTakenLines self.new (before ++ spec.input_of line.now ∷ [])) }
    {
        match line_of(without_return(line)) {
            Line::Plan(plan) => self.take_plan(plan, events),
            Line::Test(test) => self.take_test(&test, events),
            Line::Comment(comment) => self.take_comment(comment, events),
            Line::BailOut(id) => self.take_bail_out(id, events),
            Line::Other(other) => self.take_other(other, events),
        }
    }

    /// Takes the next line, without its newline, and gives what it decides. A carriage return at its end is no part of
    /// it. A test line's own event comes only with the next plan, test line or bail out, or at the end, since the
    /// comment lines behind it belong to it.
    ///
    /// After `NoMemory` the reader is given up: nothing is said of what it knows.
    pub fn line(&mut self, line: &[u8]) -> Result<Vec<Event>, NoMemory>
        requires { length line.now ≤ spec.longest_tap_line }
        ensures events { (lines : List (List ℕ)) → HasReadLines self.old lines → IfOk result (λ events. events.items ≡ spec.events_at (map spec.input_of lines) (spec.input_of line.now)) }
        ensures so_far { (lines : List (List ℕ)) → HasReadLines self.old lines → IfOk result (λ events. spec.tap_events_so_far (lines ++ line.now ∷ []) ≡ spec.tap_events_so_far lines ++ events.items) }
        ensures fits { IfOk result (λ events. All Fits events.items) }
        ensures read { (lines : List (List ℕ)) → HasReadLines self.old lines → OnOk result (HasReadLines self.new (lines ++ line.now ∷ [])) }
    {
        // Most lines give one event at most, for which an empty list would take room for several.
        let mut events = Vec::with_capacity(self.alloc, 1)?;
        self.take_line(line, &mut events)?;
        Ok(events)
    }

    /// The same as `line`, but what the line decides is appended to a list, which a caller of many lines may keep.
    ///
    /// After `NoMemory` the reader is given up: nothing is said of what it knows.
    pub fn line_into(&mut self, line: &[u8], events: &mut Vec<Event>) -> Result<(), NoMemory>
        requires { length line.now ≤ spec.longest_tap_line }
        ensures events { (lines : List (List ℕ)) → HasReadLines self.old lines → OnOk result (events.new.items ≡ events.old.items ++ spec.events_at (map spec.input_of lines) (spec.input_of line.now)) }
        ensures fits { All Fits events.old.items → OnOk result (All Fits events.new.items) }
        ensures read { (lines : List (List ℕ)) → HasReadLines self.old lines → OnOk result (HasReadLines self.new (lines ++ line.now ∷ [])) }
    {
        self.take_line(line, events)?;
        Ok(())
    }

    /// Takes the next line, without its newline, where it is a comment line and a test waits for it, and answers
    /// whether it was taken. Such a line decides nothing, so that a caller of many lines asks this first. Where the line
    /// was not taken nothing has changed, and one of the calls above is to take it.
    ///
    /// After `NoMemory` the reader is given up: nothing is said of what it knows.
    pub fn comment(&mut self, line: &[u8]) -> Result<bool, NoMemory>
        requires { length line.now ≤ spec.longest_tap_line }
        ensures which { (lines : List (List ℕ)) → HasReadLines self.old lines → IfOk result (λ taken. taken ≡ spec.is_awaited (map spec.input_of lines) (spec.input_of line.now)) }
        ensures read { (lines : List (List ℕ)) → HasReadLines self.old lines → IfOk result (λ taken. taken ≡ true → HasReadLines self.new (lines ++ line.now ∷ [])) }
        ensures nothing { (lines : List (List ℕ)) → HasReadLines self.old lines → IfOk result (λ taken. taken ≡ true → spec.tap_events_so_far (lines ++ line.now ∷ []) ≡ spec.tap_events_so_far lines) }
        ensures left { IfOk result (λ taken. taken ≡ false → self.new ≡ self.old) }
    {
        let bytes = without_return(line);
        if !bytes.starts_with(b"#") {
            return Ok(false);
        }
        let added = self.add_comment(bytes)?;
        Ok(added)
    }

    /// Ends the lines, and gives what the end decides: the event of the test that waits, and of each test that the plan
    /// promised and no line gave.
    pub fn close(mut self) -> Result<Vec<Event>, NoMemory>
        ensures events { (lines : List (List ℕ)) → HasReadLines self lines → IfOk result (λ events. events.items ≡ spec.tap_events_at_end (map spec.input_of lines)) }
        ensures fits { IfOk result (λ events. All Fits events.items) }
        ensures whole { (lines : List (List ℕ)) → HasReadLines self lines → IfOk result (λ events. spec.tap_events lines ≡ spec.tap_events_so_far lines ++ events.items) }
    {
        let mut events = Vec::with_capacity(self.alloc, 1)?;
        self.give_waiting(&mut events)?;
        if let Some(tests) = self.tests {
            add_missing(self.alloc, self.next, u64::from(tests) + 1, &mut events)?;
        }
        Ok(events)
    }
}

// Appends the event of a line that is no part of a test.
fn add_output(alloc: Global, line: &[u8], events: &mut Vec<Event>) -> Result<(), NoMemory>
    requires { length line.now ≤ spec.longest_tap_line }
    ensures events { OnOk result (events.new.items ≡ events.old.items ++ stdout_event (with_newline line.now) ∷ []) }
    ensures fits { All Fits events.old.items → OnOk result (All Fits events.new.items) }
{
    events.push(output_event(alloc, line)?)?;
    Ok(())
}

// The test's own number, or else the next one.
fn number_in(next: u64, number: Option<u32>) -> u64
    ensures { result ≡ unwrap_or number next }
{
    match number {
        Some(number) => u64::from(number),
        None => next,
    }
}
