//! The fold of events into rows, and the rows of a whole run.

ghost use Rattle.outcome_fold.specs.Rows as rows_are;
ghost use Rattle.std.specs.FinMap as map;
ghost use Rattle.std.specs.Option.{option_map};
ghost use Rattle.std.specs.Prelude.{◌≡◌, List, [], ◌∷◌, ◌++◌, Option, None, Some, true, false, IsTrue, IsSomeAnd, IfOk, OnOk, OnErr, is_some, if◌then◌else◌};
ghost use Rattle.packet_codec.specs.Packet.{SpellsEvent};
ghost use Rattle.packet_codec.specs.declared.event.Event.{Event as AnEvent};
ghost use Rattle.outcome_fold.specs.Rows.{is_skip, completed_row, open_rows};
ghost use Rattle.outcome_fold.specs.declared.row.Ended.TheVariants as ended;
ghost use Rattle.outcome_fold.specs.Parts as parts;
ghost use Rattle.outcome_fold.specs.Parts.{first_text_line};
ghost use Rattle.outcome_fold.specs.Started.{after};
ghost use Rattle.outcome_fold.specs.declared.fold.Held.{Held as AHeld};
ghost use Rattle.std.specs.Ordering.{eq_by_cmp};
ghost use Rattle.outcome_fold.specs.Order.{test_cmp};
ghost use Rattle.outcome_fold.specs.Files.{text_shown, with_piece};
ghost use Rattle.outcome_fold.specs.Folded.{HasSeen, Speaks, open_in, other_parts_in, extended_by, with_extended, files_in, gives_failure as gives_failure_by, row_text, row_at};
ghost use Rattle.outcome_fold.specs.Outcome.{HasFolded};
ghost use Rattle.outcome_fold.specs.EndedParts.{completed_part, open_parts, part_of_open as part_of_an_open, row_of_part as row_of_a_part, text_told};

use crate::files::BoxedFiles;
use crate::part::{
    EndedPart, KeptText, Said, Started, elapsed, file_name_heard, file_name_in, instant_in,
    said_by, said_in, text_heard, text_in,
};
use crate::row::{Ended, Row, ended_by};
use crate::rows::{Rows, by_route};
use crate::test_key::{TestKey, key_in, key_of};
use crate::text_set::in_order;
use packet_codec::{Event, Packet, Status};
use std::alloc::Global;
use std::collections::BTreeMap;
use sub_number::{Bytes, NoMemory};

// A test that is open, and what its part says.
#[derive(Drop)]
struct Held {
    key: TestKey,
    part: Started,
}

/// The tests that are open, over all routes, while events are folded into rows.
///
/// Most tests end before the next one begins. So the one that was begun last is held beside the table of the others, and
/// its packets are told by what stands in them: no key is made of them, and no place in the table is looked for.
#[derive(Drop)]
pub struct Fold {
    alloc: Global,
    held: Option<Held>,
    others: BTreeMap<TestKey, Started>,
}

impl Fold {
    /// A fold that has taken no event. It takes no memory yet.
    pub fn new(alloc: Global) -> Self
        ensures { HasSeen result [] }
    {
        Fold {
            alloc,
            held: None,
            others: BTreeMap::new(alloc),
        }
    }

    // Puts the test that is held, if there is one, among the others.
    #[inline(always)]
    fn put_down(&mut self) -> Result<(), NoMemory>
        ensures ok { OnOk result ((self.new.held ≡ None) × (other_parts_in self.new ≡ open_in self.old)) }
        ensures err { OnErr result (open_in self.new ≡ open_in self.old) }
    {
        match &self.held {
            Some(_) => self.put_among_others(),
            None => Ok(()),
        }
    }

    // The same, with a frame of its own.
    #[inline(never)]
    fn put_among_others(&mut self) -> Result<(), NoMemory>
        ensures ok { OnOk result ((self.new.held ≡ None) × (other_parts_in self.new ≡ open_in self.old)) }
        ensures err { OnErr result (open_in self.new ≡ open_in self.old) }
    {
        let Some(Held { key, part }) = self.held.take() else {
            return Ok(());
        };
        match self.others.insert(key, part) {
            Ok(_) => Ok(()),
            Err(failed) => {
                let (key, part) = failed.value;
                self.held = Some(Held { key, part });
                Err(NoMemory)
            }
        }
    }

    // Whether the test is among the others. Where it is, its part takes what the event says.
    fn extend(&mut self, key: &TestKey, said: &mut Said<'_>) -> Result<bool, NoMemory>
        ensures was_open { IfOk result (λ was_open. was_open ≡ is_some (map.get (other_parts_in self.old) key.now)) }
        ensures kept { IfOk result (λ was_open. was_open ≡ false → said.new ≡ said.old) }
        ensures ok { OnOk result (other_parts_in self.new ≡ with_extended (other_parts_in self.old) key.now said.old) }
        ensures err { OnErr result (other_parts_in self.new ≡ other_parts_in self.old) }
        ensures held { self.new.held ≡ self.old.held }
    {
        if self.others.is_empty() {
            return Ok(false);
        }
        match self.others.get_mut(key) {
            Some(started) => {
                started.take(self.alloc, said)?;
                Ok(true)
            }
            None => Ok(false),
        }
    }

    // Takes what an event says that does not complete its test, which is open then. Where it was not, it is held. Each of
    // the two steps has a frame of its own, so that an event pays for the one that it takes.
    #[inline(never)]
    fn go_on(&mut self, key: TestKey, mut said: Said<'_>) -> Result<(), NoMemory>
        requires { self.old.held ≡ None }
        ensures ok { OnOk result (open_in self.new ≡ map.insert (other_parts_in self.old) key (extended_by (map.get (other_parts_in self.old) key) said.entry)) }
        ensures err { OnErr result (open_in self.new ≡ other_parts_in self.old) }
    {
        if self.extend(&key, &mut said)? {
            return Ok(());
        }
        let part = Started::begun(self.alloc, said)?;
        self.held = Some(Held { key, part });
        Ok(())
    }

    // What the part of the test says with this, and the test is no longer open.
    #[inline(never)]
    fn finish(&mut self, key: &TestKey, mut said: Said<'_>) -> Result<Started, NoMemory>
        requires { self.old.held ≡ None }
        ensures part { IfOk result (λ started. started ≡ extended_by (map.get (other_parts_in self.old) key.now) said.entry) }
        ensures ok { OnOk result (open_in self.new ≡ map.remove (other_parts_in self.old) key.now) }
        ensures err { OnErr result (open_in self.new ≡ other_parts_in self.old) }
    {
        if self.extend(key, &mut said)? {
            Ok(self.others.remove(key).unwrap())
        } else {
            Started::begun(self.alloc, said)
        }
    }

    // Takes what an event says of this test, which it ends so, or not, and gives the part that it completes.
    fn tell(
        &mut self,
        key: TestKey,
        ended: Option<Ended>,
        said: Said<'_>,
    ) -> Result<Option<EndedPart>, NoMemory>
        ensures part { (seen : List AnEvent) (e : AnEvent) → HasSeen self.old seen → Speaks e key ended said.entry → IfOk result (λ part. part ≡ completed_part seen e) }
        ensures ok { (seen : List AnEvent) (e : AnEvent) → HasSeen self.old seen → Speaks e key ended said.entry → OnOk result (HasSeen self.new (seen ++ e ∷ [])) }
        ensures err { OnErr result (open_in self.new ≡ open_in self.old) }
    {
        self.put_down()?;
        let end = said.instant;
        match ended {
            Some(ended) => {
                let started = self.finish(&key, said)?;
                Ok(Some(EndedPart {
                    key,
                    ended,
                    started,
                    end,
                }))
            }
            None => {
                self.go_on(key, said)?;
                Ok(None)
            }
        }
    }
}

// The test that is held hears its packets.
impl Fold {
    // Whether the packet's event speaks of the test that is held.
    #[inline(always)]
    fn holds(&self, packet: &Packet<'_>) -> bool
        ensures { (e : AnEvent) → SpellsEvent packet.now e → IsTrue result → IsSomeAnd self.now.held (λ held. parts.test_of e ≡ Some held.key) }
    {
        match &self.held {
            Some(held) => packet.has_id(&held.key.id) && packet.has_route(&held.key.route),
            None => false,
        }
    }

    // Its part takes what the packet's event says.
    #[inline(always)]
    fn extend_held(&mut self, packet: &Packet<'_>) -> Result<(), NoMemory>
        ensures ok { (e : AnEvent) (held : AHeld) → SpellsEvent packet.now e → self.old.held ≡ Some held → OnOk result (self.new.held ≡ Some (record { key = held.key; part = after held.part e })) }
        ensures err { OnErr result (self.new.held ≡ self.old.held) }
        ensures others { other_parts_in self.new ≡ other_parts_in self.old }
    {
        if let Some(held) = &mut self.held {
            held.part.hear(self.alloc, packet)?;
        }
        Ok(())
    }

    // Takes the test out of the others, if it is among them.
    #[inline(always)]
    fn forget(&mut self, key: &TestKey)
        ensures others { other_parts_in self.new ≡ map.remove (other_parts_in self.old) key.now }
        ensures held { self.new.held ≡ self.old.held }
    {
        if self.others.is_empty() {
            return;
        }
        self.others.remove(key);
    }

    // The test that is held, and it is no longer open: nothing is held, and it is not among the others.
    #[inline(always)]
    fn let_go(&mut self) -> Option<Held>
        ensures held { result ≡ self.old.held }
        ensures rest { (held : AHeld) → self.old.held ≡ Some held → open_in self.new ≡ map.remove (open_in self.old) held.key }
    {
        let held = self.held.take()?;
        self.forget(&held.key);
        Some(held)
    }

    // Takes the packet's event, which speaks of the test that is held, and ends it so, or not.
    #[inline(always)]
    fn hear_held(
        &mut self,
        packet: &Packet<'_>,
        ended: Option<Ended>,
    ) -> Result<Option<EndedPart>, NoMemory>
        ensures part { (seen : List AnEvent) (e : AnEvent) (held : AHeld) → SpellsEvent packet.now e → HasSeen self.old seen → self.old.held ≡ Some held → parts.test_of e ≡ Some held.key → ended ≡ parts.ended_by e.status → IfOk result (λ part. part ≡ completed_part seen e) }
        ensures ok { (seen : List AnEvent) (e : AnEvent) (held : AHeld) → SpellsEvent packet.now e → HasSeen self.old seen → self.old.held ≡ Some held → parts.test_of e ≡ Some held.key → ended ≡ parts.ended_by e.status → OnOk result (HasSeen self.new (seen ++ e ∷ [])) }
        ensures err { OnErr result (open_in self.new ≡ open_in self.old) }
    {
        self.extend_held(packet)?;
        let Some(ended) = ended else {
            return Ok(None);
        };
        let Some(Held { key, part }) = self.let_go() else {
            return Ok(None);
        };
        let end = instant_in(packet);
        Ok(Some(EndedPart {
            key,
            ended,
            started: part,
            end,
        }))
    }

    // Takes the packet's event, whatever test it speaks of.
    #[inline(never)]
    fn hear_other(&mut self, packet: &Packet<'_>) -> Result<Option<EndedPart>, NoMemory>
        ensures part { (seen : List AnEvent) (e : AnEvent) → SpellsEvent packet.now e → HasSeen self.old seen → IfOk result (λ part. part ≡ completed_part seen e) }
        ensures ok { (seen : List AnEvent) (e : AnEvent) → SpellsEvent packet.now e → HasSeen self.old seen → OnOk result (HasSeen self.new (seen ++ e ∷ [])) }
        ensures err { OnErr result (open_in self.new ≡ open_in self.old) }
    {
        let Some(key) = key_in(self.alloc, packet)? else {
            return Ok(None);
        };
        let said = said_in(self.alloc, packet)?;
        self.tell(key, ended_by(packet.status()), said)
    }
}

// The text of the row that an event gives is made before anything is taken of it, since that needs memory, and may want
// it. It is made of what is kept of its test, for a row that fails alone.
impl Fold {
    // The text of the files of this test, with the piece of the file of this name.
    fn text_with(&self, key: &TestKey, name: &[u8], piece: &[u8]) -> Result<Bytes, NoMemory>
        ensures { IfOk result (λ text. text ≡ text_shown (with_piece (files_in (map.get (open_in self.now) key.now)) name.now piece.now)) }
    {
        match &self.held {
            Some(held) => {
                if is_same_test(key, &held.key) {
                    held.part.files.shown_with(self.alloc, name, piece)
                } else {
                    self.text_among_others(key, name, piece)
                }
            }
            None => self.text_among_others(key, name, piece),
        }
    }

    // The same, where it is not the test that is held.
    fn text_among_others(&self, key: &TestKey, name: &[u8], piece: &[u8]) -> Result<Bytes, NoMemory>
        ensures { IfOk result (λ text. text ≡ text_shown (with_piece (files_in (map.get (other_parts_in self.now) key.now)) name.now piece.now)) }
    {
        match self.others.get(key) {
            Some(part) => part.files.shown_with(self.alloc, name, piece),
            None => {
                let files = BoxedFiles::new();
                files.shown_with(self.alloc, name, piece)
            }
        }
    }

    // The text of the row that the event gives.
    fn text_by(&self, event: &Event) -> Result<Bytes, NoMemory>
        ensures { (seen : List AnEvent) → HasSeen self.now seen → IfOk result (λ text. text ≡ text_told (completed_part seen event.now)) }
    {
        if gives_failure(event.status) {
            return self.failure_by(event);
        }
        Ok(no_text(self.alloc))
    }

    // The same of an event that gives a failure.
    fn failure_by(&self, event: &Event) -> Result<Bytes, NoMemory>
        ensures { (seen : List AnEvent) → gives_failure_by event.now.status ≡ true → HasSeen self.now seen → IfOk result (λ text. text ≡ text_told (completed_part seen event.now)) }
    {
        match key_of(event)? {
            Some(key) => self.text_with(&key, file_name_in(event), text_in(event)),
            None => Ok(no_text(self.alloc)),
        }
    }

    // The text of the row that the packet's event gives.
    #[inline(always)]
    fn text_spelled(&self, packet: &Packet<'_>) -> Result<Bytes, NoMemory>
        ensures { (seen : List AnEvent) (e : AnEvent) → SpellsEvent packet.now e → HasSeen self.now seen → IfOk result (λ text. text ≡ text_told (completed_part seen e)) }
    {
        if gives_failure(packet.status()) {
            return self.failure_spelled(packet);
        }
        Ok(no_text(self.alloc))
    }

    // The same of an event that gives a failure.
    #[inline(never)]
    fn failure_spelled(&self, packet: &Packet<'_>) -> Result<Bytes, NoMemory>
        ensures { (seen : List AnEvent) (e : AnEvent) → SpellsEvent packet.now e → gives_failure_by e.status ≡ true → HasSeen self.now seen → IfOk result (λ text. text ≡ text_told (completed_part seen e)) }
    {
        match key_in(self.alloc, packet)? {
            Some(key) => self.text_with(&key, file_name_heard(packet), text_heard(packet)),
            None => Ok(no_text(self.alloc)),
        }
    }
}

impl Fold {
    /// Takes the event, and gives the part of its test that it completes, with all that the part's events say. `None`
    /// comes exactly where it completes none.
    pub fn add_part(&mut self, event: &Event) -> Result<Option<EndedPart>, NoMemory>
        ensures part { (seen : List AnEvent) → HasSeen self.old seen → IfOk result (λ part. part ≡ completed_part seen event.now) }
        ensures ok { (seen : List AnEvent) → HasSeen self.old seen → OnOk result (HasSeen self.new (seen ++ event.now ∷ [])) }
        ensures err { OnErr result (open_in self.new ≡ open_in self.old) }
    {
        let Some(key) = key_of(event)? else {
            return Ok(None);
        };
        let said = said_by(self.alloc, event)?;
        self.tell(key, ended_by(event.status), said)
    }

    /// Takes the event, and gives the row of the part that it completes, as `add_part` gives the part.
    pub fn add(&mut self, event: &Event) -> Result<Option<Row>, NoMemory>
        ensures row { (seen : List AnEvent) → HasSeen self.old seen → IfOk result (λ row. row ≡ completed_row seen event.now) }
        ensures ok { (seen : List AnEvent) → HasSeen self.old seen → OnOk result (HasSeen self.new (seen ++ event.now ∷ [])) }
        ensures err { OnErr result (open_in self.new ≡ open_in self.old) }
    {
        let text = self.text_by(event)?;
        let part = self.add_part(event)?;
        Ok(row_told(self.alloc, part, text))
    }

    /// The same as `add_part` of the event that the packet spells, which is not made: what is needed of it is copied from
    /// where it stands.
    #[inline(always)]
    pub fn hear_part(&mut self, packet: &Packet<'_>) -> Result<Option<EndedPart>, NoMemory>
        ensures part { (seen : List AnEvent) (e : AnEvent) → SpellsEvent packet.now e → HasSeen self.old seen → IfOk result (λ part. part ≡ completed_part seen e) }
        ensures ok { (seen : List AnEvent) (e : AnEvent) → SpellsEvent packet.now e → HasSeen self.old seen → OnOk result (HasSeen self.new (seen ++ e ∷ [])) }
        ensures err { OnErr result (open_in self.new ≡ open_in self.old) }
    {
        if self.holds(packet) {
            return self.hear_held(packet, ended_by(packet.status()));
        }
        self.hear_other(packet)
    }

    /// The same as `add` of the event that the packet spells, which is not made.
    pub fn hear(&mut self, packet: &Packet<'_>) -> Result<Option<Row>, NoMemory>
        ensures row { (seen : List AnEvent) (e : AnEvent) → SpellsEvent packet.now e → HasSeen self.old seen → IfOk result (λ row. row ≡ completed_row seen e) }
        ensures ok { (seen : List AnEvent) (e : AnEvent) → SpellsEvent packet.now e → HasSeen self.old seen → OnOk result (HasSeen self.new (seen ++ e ∷ [])) }
        ensures err { OnErr result (open_in self.new ≡ open_in self.old) }
    {
        let text = self.text_spelled(packet)?;
        let part = self.hear_part(packet)?;
        Ok(row_told(self.alloc, part, text))
    }

    /// Ends the fold, and gives the part of each open test, by route, no route first, and then by id.
    pub fn close_parts(self) -> Result<Vec<EndedPart>, NoMemory>
        ensures { (seen : List AnEvent) → HasSeen self seen → IfOk result (λ parts. parts.items ≡ open_parts seen) }
    {
        let mut fold = self;
        fold.put_down()?;
        let mut parts = Vec::new(fold.alloc);
        for (key, started) in fold.others {
            parts.push(part_of_open(key, started))?;
        }
        Ok(parts)
    }

    /// Ends the fold, and gives a row for each open test, by route, no route first, and then by id.
    pub fn close(self) -> Result<Vec<Row>, NoMemory>
        ensures { (seen : List AnEvent) → HasSeen self seen → IfOk result (λ rows. rows.items ≡ open_rows seen) }
    {
        let mut fold = self;
        fold.put_down()?;
        let mut rows = Vec::new(fold.alloc);
        for (key, started) in fold.others {
            rows.push(open_row(fold.alloc, key, started)?)?;
        }
        Ok(rows)
    }
}

// Whether the two are one test.
fn is_same_test(key: &TestKey, other: &TestKey) -> bool
    ensures { result ≡ eq_by_cmp test_cmp key.now other.now }
{
    key.cmp(other).is_eq()
}

// Whether an event of this status gives a row that fails, where it speaks of a test.
#[inline(always)]
fn gives_failure(status: Status) -> bool
    ensures { result ≡ gives_failure_by status }
{
    match ended_by(status) {
        Some(ended) => ended.fails(),
        None => false,
    }
}

// No bytes. They take no memory.
#[inline(always)]
fn no_text(alloc: Global) -> Bytes
    ensures { result ≡ [] }
{
    Bytes::from_vec(Vec::new(alloc))
}

// The text of a row that is not completed.
fn open_text(alloc: Global, files: &BoxedFiles) -> Result<Bytes, NoMemory>
    ensures { IfOk result (λ text. text ≡ row_text ended.Open files.now) }
{
    files.shown(alloc)
}

// The reason of a row that ended so: its first line where the test was skipped, else none.
fn row_reason(alloc: Global, ended: Ended, reason: KeptText) -> Bytes
    ensures { result ≡ (if is_skip ended then first_text_line reason else []) }
{
    if ended == Ended::Skip {
        reason.into_first_line()
    } else {
        Bytes::from_vec(Vec::new(alloc))
    }
}

// The part of a test that is open at the end.
fn part_of_open(key: TestKey, started: Started) -> EndedPart
    ensures { result ≡ part_of_an_open key started }
{
    EndedPart {
        key,
        ended: Ended::Open,
        started,
        end: None,
    }
}

// The row of a part that has this text. It takes no memory.
fn row_of_part(alloc: Global, part: EndedPart, text: Bytes) -> Row
    ensures { text ≡ text_told (Some part) → result ≡ row_of_a_part part }
{
    let EndedPart {
        key,
        ended,
        started,
        end,
    } = part;
    let nanos = elapsed(started.start, end);
    row_of(alloc, key, ended, nanos, started, text)
}

// The row of a part that has this text, where there is one. It takes no memory.
fn row_told(alloc: Global, part: Option<EndedPart>, text: Bytes) -> Option<Row>
    ensures { text ≡ text_told part → result ≡ option_map row_of_a_part part }
{
    match part {
        Some(part) => Some(row_of_part(alloc, part, text)),
        None => None,
    }
}

// The row of a test that is open.
fn open_row(alloc: Global, key: TestKey, started: Started) -> Result<Row, NoMemory>
    ensures { IfOk result (λ row. row ≡ row_at key ended.Open None started) }
{
    let text = open_text(alloc, &started.files)?;
    Ok(row_of(alloc, key, Ended::Open, None, started, text))
}

// The row of a part that says this, and has this text. It takes no memory.
fn row_of(
    alloc: Global,
    key: TestKey,
    ended: Ended,
    nanos: Option<u64>,
    started: Started,
    text: Bytes,
) -> Row
    ensures { text ≡ row_text ended started.files → result ≡ row_at key ended nanos started }
{
    let TestKey { route, id } = key;
    let Started {
        start: _,
        tags,
        files: _,
        reason,
    } = started;
    Row {
        id,
        route,
        ended,
        tags: in_order(tags),
        nanos,
        text,
        reason: row_reason(alloc, ended, reason),
    }
}

/// The outcomes of a run so far: the completed rows, and the tests that are open.
#[derive(Drop)]
pub struct Outcomes {
    alloc: Global,
    fold: Fold,
    completed: Vec<Row>,
}

impl Outcomes {
    /// The outcomes of no event. They take no memory yet.
    pub fn new(alloc: Global) -> Self
        ensures { HasFolded result [] }
    {
        Outcomes {
            alloc,
            fold: Fold::new(alloc),
            completed: Vec::new(alloc),
        }
    }

    /// Takes the event.
    pub fn add(&mut self, event: &Event) -> Result<(), NoMemory>
        ensures ok { (seen : List AnEvent) → HasFolded self.old seen → OnOk result (HasFolded self.new (seen ++ event.now ∷ [])) }
        ensures err { (seen : List AnEvent) → HasFolded self.old seen → OnErr result (HasFolded self.new seen) }
    {
        self.completed.reserve(1)?;
        if let Some(row) = self.fold.add(event)? {
            self.completed.push(row)?;
        }
        Ok(())
    }

    /// The same of the event that the packet spells, which is not made: what is needed of it is copied from where it
    /// stands.
    pub fn hear(&mut self, packet: &Packet<'_>) -> Result<(), NoMemory>
        ensures ok { (seen : List AnEvent) (e : AnEvent) → SpellsEvent packet.now e → HasFolded self.old seen → OnOk result (HasFolded self.new (seen ++ e ∷ [])) }
        ensures err { (seen : List AnEvent) → HasFolded self.old seen → OnErr result (HasFolded self.new seen) }
    {
        self.completed.reserve(1)?;
        if let Some(row) = self.fold.hear(packet)? {
            self.completed.push(row)?;
        }
        Ok(())
    }

    /// Ends the run, and gives its rows: by route, no route first, and in a route first the completed ones in the order
    /// of their completing events, then the open ones by id.
    pub fn close(self) -> Result<Rows, NoMemory>
        ensures { (seen : List AnEvent) → HasFolded self seen → IfOk result (λ rows. rows ≡ rows_are.rows_of seen) }
    {
        let Outcomes {
            alloc,
            fold,
            completed: mut rows,
        } = self;
        let mut open = fold.close()?;
        rows.append(&mut open)?;
        Ok(Rows::of(by_route(alloc, rows)?))
    }
}
