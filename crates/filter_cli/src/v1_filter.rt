//! Lines of version 1 as packets.

ghost use Rattle.std.specs.Prelude.{◌≡◌, ◌++◌, ◌∷◌, ◌≤◌, ◌<◌, ◌+◌, [], true, false, ℕ, List, length, IsTrue, ◌↔◌, OnOk};
ghost use Rattle.v1_bridge.specs.Lines.{without_newline as line_without, HasNoNewline};
ghost use Rattle.v1_bridge.specs.Events.{longest_v1_line};
ghost use Rattle.v1_bridge.specs.Reading.{line as a_line, piece as a_piece, last_input};
ghost use Rattle.v1_bridge.specs.Kept.{HasRead, HoldsLittle};
ghost use Rattle.edge_io.specs.Limits.{most_at_once};
ghost use Rattle.filter_cli.specs.Pipe.{Adds};
ghost use Rattle.filter_cli.specs.Tapped.{most_open};
ghost use Rattle.filter_cli.specs.V1.{all_inputs};
ghost use Rattle.filter_cli.specs.V1Fed.{HasHeardV1, HearsV1, HasFedV1, IsAddedTo};

use crate::filter::{Filter, StreamEnd};
use crate::packets::put_events;
use memchr::memchr;
use packet_codec::Event;
use std::alloc::Global;
use sub_number::NoMemory;
use v1_bridge::V1Reader;

/// The most bytes of a line of version 1, and of a piece of one that is too long.
const LONGEST_LINE: usize = 65_536;

/// Gives the events of lines of version 1 as packets, as each line is decided.
///
/// Lines end at newlines; what follows the last one is a line where it is not empty. A line of more than 65,536 bytes, its
/// carriage return counted, is taken in pieces. At most 65,537 bytes of a line are held.
#[derive(Drop)]
pub(crate) struct V1ToSubunit {
    reader: V1Reader,
    // What was read of a line and is not decided.
    held: Vec<u8>,
    // It is too long, and gave pieces.
    long: bool,
    // What a line gave, kept for its room.
    events: Vec<Event>,
}

impl V1ToSubunit {
    /// Nothing was read yet.
    pub(crate) fn new(alloc: Global) -> Self
        ensures reader { HasRead result.reader [] }
        ensures little { HoldsLittle result.reader }
        ensures held { result.held.items ≡ [] }
        ensures long { result.long ≡ false }
    {
        V1ToSubunit {
            reader: V1Reader::new(alloc),
            held: Vec::new(alloc),
            long: false,
            events: Vec::new(alloc),
        }
    }

    // How many bytes more leave the line undecided.
    fn room(&self) -> usize
        requires { length self.now.held.items ≤ most_open self.now.long }
        ensures { result + length self.now.held.items ≡ most_open self.now.long }
    {
        if self.long {
            LONGEST_LINE - 1 - self.held.len()
        } else {
            LONGEST_LINE - self.held.len()
        }
    }

    // Adds bytes of the line, at most 65,536, and appends what they decide.
    fn add(&mut self, bytes: &[u8], text: &mut Vec<u8>) -> Result<(), NoMemory>
        requires held { length self.old.held.items ≤ most_open self.old.long }
        requires bytes { length bytes.now ≤ most_at_once }
        requires little { HoldsLittle self.old.reader }
        ensures added { OnOk result (IsAddedTo self.old.reader self.new.reader self.old.held.items self.old.long bytes.now self.new.held.items self.new.long text.old.items text.new.items) }
        ensures little { OnOk result (HoldsLittle self.new.reader) }
    {
        if bytes.len() <= self.room() {
            self.held.extend_from_slice(bytes)?;
            return Ok(());
        }
        self.add_piece(bytes, text)?;
        Ok(())
    }

    // The same of bytes that fill up a piece.
    fn add_piece(&mut self, bytes: &[u8], text: &mut Vec<u8>) -> Result<(), NoMemory>
        requires held { length self.old.held.items ≤ most_open self.old.long }
        requires bytes { length bytes.now ≤ most_at_once }
        requires more { most_open self.old.long < length bytes.now + length self.old.held.items }
        requires little { HoldsLittle self.old.reader }
        ensures added { OnOk result (IsAddedTo self.old.reader self.new.reader self.old.held.items self.old.long bytes.now self.new.held.items self.new.long text.old.items text.new.items) }
        ensures little { OnOk result (HoldsLittle self.new.reader) }
    {
        let (front, behind) = bytes.split_at(LONGEST_LINE - self.held.len());
        self.held.extend_from_slice(front)?;
        take_piece(&mut self.reader, &self.held, false, &mut self.events, text)?;
        self.held.clear();
        self.long = true;
        self.add_behind(behind, text)?;
        Ok(())
    }

    // The bytes behind a piece, which may be one more.
    fn add_behind(&mut self, bytes: &[u8], text: &mut Vec<u8>) -> Result<(), NoMemory>
        requires held { self.old.held.items ≡ [] }
        requires long { self.old.long ≡ true }
        requires bytes { length bytes.now ≤ most_at_once }
        requires little { HoldsLittle self.old.reader }
        ensures added { OnOk result (IsAddedTo self.old.reader self.new.reader [] true bytes.now self.new.held.items self.new.long text.old.items text.new.items) }
        ensures little { OnOk result (HoldsLittle self.new.reader) }
    {
        if bytes.len() == LONGEST_LINE {
            take_piece(&mut self.reader, bytes, false, &mut self.events, text)?;
            return Ok(());
        }
        self.held.extend_from_slice(bytes)?;
        Ok(())
    }

    // Takes what is left of the line that is read.
    fn take_rest(&mut self, text: &mut Vec<u8>) -> Result<(), NoMemory>
        requires short { length (line_without self.old.held.items) ≤ longest_v1_line }
        requires little { HoldsLittle self.old.reader }
        ensures hears { OnOk result (HearsV1 self.old.reader self.new.reader (last_input self.old.long self.old.held.items ∷ []) text.old.items text.new.items) }
        ensures little { OnOk result (HoldsLittle self.new.reader) }
    {
        if self.long {
            take_piece(&mut self.reader, &self.held, true, &mut self.events, text)?;
            return Ok(());
        }
        take_line(&mut self.reader, &self.held, &mut self.events, text)?;
        Ok(())
    }

    // The line that is read has ended; its newline is among what is held, where it has one.
    fn end_line(&mut self, text: &mut Vec<u8>) -> Result<(), NoMemory>
        requires short { length (line_without self.old.held.items) ≤ longest_v1_line }
        requires little { HoldsLittle self.old.reader }
        ensures held { OnOk result (self.new.held.items ≡ []) }
        ensures long { OnOk result (self.new.long ≡ false) }
        ensures hears { OnOk result (HearsV1 self.old.reader self.new.reader (last_input self.old.long self.old.held.items ∷ []) text.old.items text.new.items) }
        ensures little { OnOk result (HoldsLittle self.new.reader) }
    {
        self.take_rest(text)?;
        self.held.clear();
        self.long = false;
        Ok(())
    }

    // Whether nothing was read of the line.
    fn is_new(&self) -> bool
        ensures { IsTrue result ↔ ((self.now.held.items ≡ []) × (self.now.long ≡ false)) }
    {
        self.held.is_empty() && !self.long
    }

    // The end of a line, in front of its newline.
    #[inline(never)]
    fn take_end(&mut self, end: &[u8], text: &mut Vec<u8>) -> Result<(), NoMemory>
        requires held { length self.old.held.items ≤ most_open self.old.long }
        requires end { length end.now ≤ most_at_once }
        requires plain { HasNoNewline end.now }
        requires little { HoldsLittle self.old.reader }
        ensures held { OnOk result (self.new.held.items ≡ []) }
        ensures long { OnOk result (self.new.long ≡ false) }
        ensures fed { (fed shown : List ℕ) → HasFedV1 self.old.reader self.old.held.items self.old.long fed shown → OnOk result (Adds text.old.items text.new.items (λ more. HasFedV1 self.new.reader [] false (fed ++ (end.now ++ 10 ∷ [])) (shown ++ more))) }
        ensures little { OnOk result (HoldsLittle self.new.reader) }
    {
        self.add(end, text)?;
        self.held.push(b'\n')?;
        self.end_line(text)?;
        Ok(())
    }

    // The same, with the newline behind the end too. A line of which nothing is held is taken from where it was read.
    #[inline(always)]
    fn take_ended(&mut self, end: &[u8], ended: &[u8], text: &mut Vec<u8>) -> Result<(), NoMemory>
        requires held { length self.old.held.items ≤ most_open self.old.long }
        requires end { length end.now ≤ most_at_once }
        requires plain { HasNoNewline end.now }
        requires ended { ended.now ≡ end.now ++ 10 ∷ [] }
        requires little { HoldsLittle self.old.reader }
        ensures held { OnOk result (self.new.held.items ≡ []) }
        ensures long { OnOk result (self.new.long ≡ false) }
        ensures fed { (fed shown : List ℕ) → HasFedV1 self.old.reader self.old.held.items self.old.long fed shown → OnOk result (Adds text.old.items text.new.items (λ more. HasFedV1 self.new.reader [] false (fed ++ (end.now ++ 10 ∷ [])) (shown ++ more))) }
        ensures little { OnOk result (HoldsLittle self.new.reader) }
    {
        if !self.is_new() {
            self.take_end(end, text)?;
            return Ok(());
        }
        take_line(&mut self.reader, ended, &mut self.events, text)?;
        Ok(())
    }

    // What follows the last newline is a line where it is not empty.
    fn end_last(&mut self, text: &mut Vec<u8>) -> Result<(), NoMemory>
        requires held { length self.old.held.items ≤ most_open self.old.long }
        requires little { HoldsLittle self.old.reader }
        ensures last { (fed shown : List ℕ) → (h : HasFedV1 self.old.reader self.old.held.items self.old.long fed shown) → OnOk result (Adds text.old.items text.new.items (λ more. HasHeardV1 self.new.reader (all_inputs h.lines h.rest) (shown ++ more))) }
        ensures little { OnOk result (HoldsLittle self.new.reader) }
    {
        if self.is_new() {
            return Ok(());
        }
        self.end_line(text)?;
        Ok(())
    }
}

// Takes a line with its newline, where it has one, and appends what it gives.
fn take_line(
    reader: &mut V1Reader,
    line: &[u8],
    events: &mut Vec<Event>,
    text: &mut Vec<u8>,
) -> Result<(), NoMemory>
    requires short { length (line_without line.now) ≤ longest_v1_line }
    requires little { HoldsLittle reader.old }
    ensures hears { OnOk result (HearsV1 reader.old reader.new (a_line line.now ∷ []) text.old.items text.new.items) }
    ensures little { OnOk result (HoldsLittle reader.new) }
{
    events.clear();
    reader.line_into(line, events)?;
    put_events(events, text)?;
    Ok(())
}

// The same of a piece of a line that is too long.
fn take_piece(
    reader: &mut V1Reader,
    piece: &[u8],
    last: bool,
    events: &mut Vec<Event>,
    text: &mut Vec<u8>,
) -> Result<(), NoMemory>
    requires short { length (line_without piece.now) ≤ longest_v1_line }
    requires little { HoldsLittle reader.old }
    ensures hears { OnOk result (HearsV1 reader.old reader.new (a_piece piece.now last ∷ []) text.old.items text.new.items) }
    ensures little { OnOk result (HoldsLittle reader.new) }
{
    events.clear();
    reader.long_into(piece, last, events)?;
    put_events(events, text)?;
    Ok(())
}

impl Filter for V1ToSubunit {
    ghost use Rattle.filter_cli.specs.Pumping.{in_no_packet};
    ghost use Rattle.filter_cli.specs.V1.{IsV1Seen, IsV1Filtered};
    ghost use Rattle.filter_cli.specs.V1Laws.{v1_seen, v1_front, v1_one};

    ghost seen = { λ f. IsV1Seen };

    ghost whole = { λ f. IsV1Filtered };

    ghost inside = { in_no_packet };

    ghost has = { λ f. HasFedV1 f.reader f.held.items f.long };

    ghost ready = { λ f. (length f.held.items ≤ most_open f.long) × HoldsLittle f.reader };

    fn feed(&mut self, piece: &[u8], text: &mut Vec<u8>) -> Result<(), NoMemory> {
        let mut from = 0;
        while let Some(count) = memchr(b'\n', &piece[from..]) {
            let end = from + count;
            self.take_ended(&piece[from..end], &piece[from..end + 1], text)?;
            from = end + 1;
        }
        self.add(&piece[from..], text)?;
        Ok(())
    }

    fn close(self, text: &mut Vec<u8>) -> Result<StreamEnd, NoMemory> {
        let mut filter = self;
        filter.end_last(text)?;
        let V1ToSubunit {
            reader,
            held: _held,
            long: _long,
            events: _events,
        } = filter;
        let events = reader.close()?;
        put_events(&events, text)?;
        Ok(StreamEnd {
            status: 0,
            inside: false,
        })
    }

    fn let_go(self) {}

    ghost is_seen = { λ f. v1_seen f.reader f.held.items f.long };

    ghost front = { λ f. v1_front };

    ghost one = { λ f. v1_one };
}
