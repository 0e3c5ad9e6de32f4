//! Lines of the Test Anything Protocol as packets.

ghost use Rattle.std.specs.Prelude.{◌≡◌, ◌++◌, ◌∷◌, ◌≤◌, [], ℕ, List, length, OnOk};
ghost use Rattle.tap_bridge.specs.Events.{longest_tap_line, tap_events_so_far};
ghost use Rattle.tap_bridge.specs.Kept.{HasReadLines};
ghost use Rattle.v1_bridge.specs.Lines.{HasNoNewline};
ghost use Rattle.edge_io.specs.Limits.{most_at_once};
ghost use Rattle.packet_codec.specs.Canonical.{packets_of};
ghost use Rattle.filter_cli.specs.Lines.{last_line};
ghost use Rattle.filter_cli.specs.Pipe.{Adds};
ghost use Rattle.filter_cli.specs.Tapped.{most_open, HasTapped, HasTaken};

use crate::filter::{Filter, StreamEnd};
use crate::open_line::OpenLine;
use crate::packets::put_events;
use memchr::memchr;
use packet_codec::Event;
use std::alloc::Global;
use sub_number::NoMemory;
use tap_bridge::TapReader;

/// Gives the events of lines of the Test Anything Protocol as packets, as each line is decided.
///
/// Lines end at newlines; what follows the last one is a line where it is not empty. A line of more than 65,536 bytes, its
/// carriage return counted, is none of the protocol: its bytes are pieces of the file `stdout`.
#[derive(Drop)]
pub(crate) struct TapToSubunit {
    reader: TapReader,
    line: OpenLine,
    // What a line gave, kept for its room.
    events: Vec<Event>,
}

impl TapToSubunit {
    ghost use Rattle.std.specs.Prelude.{false};

    /// Nothing was read yet.
    pub(crate) fn new(alloc: Global) -> Self
        ensures reader { HasReadLines result.reader [] }
        ensures held { result.line.held.items ≡ [] }
        ensures long { result.line.long ≡ false }
    {
        TapToSubunit {
            reader: TapReader::new(alloc),
            line: OpenLine::new(alloc),
            events: Vec::new(alloc),
        }
    }

    // The end of a line, in front of its newline.
    fn take_end(&mut self, end: &[u8], text: &mut Vec<u8>) -> Result<(), NoMemory>
        requires held { length self.old.line.held.items ≤ most_open self.old.line.long }
        requires end { length end.now ≤ most_at_once }
        requires plain { HasNoNewline end.now }
        ensures held { OnOk result (self.new.line.held.items ≡ []) }
        ensures long { OnOk result (self.new.line.long ≡ false) }
        ensures tapped { (fed shown : List ℕ) → HasTapped self.old.reader self.old.line.held.items self.old.line.long fed shown → OnOk result (Adds text.old.items text.new.items (λ more. HasTapped self.new.reader [] false (fed ++ (end.now ++ 10 ∷ [])) (shown ++ more))) }
    {
        if self.line.is_new() {
            take_line(&mut self.reader, end, &mut self.events, text)?;
            return Ok(());
        }
        self.line.add(end, text)?;
        self.end_line(text)?;
        Ok(())
    }

    // The line that is read has ended.
    fn end_line(&mut self, text: &mut Vec<u8>) -> Result<(), NoMemory>
        requires held { length self.old.line.held.items ≤ most_open self.old.line.long }
        ensures held { OnOk result (self.new.line.held.items ≡ []) }
        ensures long { OnOk result (self.new.line.long ≡ false) }
        ensures taken { (fed shown : List ℕ) → (h : HasTapped self.old.reader self.old.line.held.items self.old.line.long fed shown) → OnOk result (Adds text.old.items text.new.items (λ more. HasTaken self.new.reader (h.lines ++ h.rest ∷ []) (shown ++ more))) }
    {
        if self.line.long {
            self.line.give_rest(text)?;
            return Ok(());
        }
        take_line(&mut self.reader, &self.line.held, &mut self.events, text)?;
        self.line.held.clear();
        Ok(())
    }

    // What follows the last newline is a line where it is not empty.
    fn end_last(&mut self, text: &mut Vec<u8>) -> Result<(), NoMemory>
        requires held { length self.old.line.held.items ≤ most_open self.old.line.long }
        ensures { (fed shown : List ℕ) → (h : HasTapped self.old.reader self.old.line.held.items self.old.line.long fed shown) → OnOk result (Adds text.old.items text.new.items (λ more. HasTaken self.new.reader (h.lines ++ last_line h.rest) (shown ++ more))) }
    {
        if self.line.is_new() {
            return Ok(());
        }
        self.end_line(text)?;
        Ok(())
    }
}

// Takes a whole line, and appends what it gives. Most lines of some streams are comments, which give nothing.
fn take_line(
    reader: &mut TapReader,
    line: &[u8],
    events: &mut Vec<Event>,
    text: &mut Vec<u8>,
) -> Result<(), NoMemory>
    requires { length line.now ≤ longest_tap_line }
    ensures { (lines : List (List ℕ)) (shown : List ℕ) → HasTaken reader.old lines shown → OnOk result (Adds text.old.items text.new.items (λ more. HasTaken reader.new (lines ++ line.now ∷ []) (shown ++ more))) }
{
    let taken = reader.comment(line)?;
    if taken {
        return Ok(());
    }
    give_line(reader, line, events, text)?;
    Ok(())
}

// The same of any line. It stands apart, so that a comment does not pay for its locals.
#[inline(never)]
fn give_line(
    reader: &mut TapReader,
    line: &[u8],
    events: &mut Vec<Event>,
    text: &mut Vec<u8>,
) -> Result<(), NoMemory>
    requires { length line.now ≤ longest_tap_line }
    ensures { (lines : List (List ℕ)) (shown : List ℕ) → HasTaken reader.old lines shown → OnOk result (Adds text.old.items text.new.items (λ more. HasTaken reader.new (lines ++ line.now ∷ []) (shown ++ more))) }
{
    events.clear();
    reader.line_into(line, events)?;
    put_events(events, text)?;
    Ok(())
}

impl Filter for TapToSubunit {
    ghost use Rattle.filter_cli.specs.Pumping.{in_no_packet};
    ghost use Rattle.filter_cli.specs.Tap.{IsTapSeen, IsTapFiltered};
    ghost use Rattle.filter_cli.specs.TapLaws.{tap_seen, tap_front, tap_one};

    ghost seen = { λ f. IsTapSeen };

    ghost whole = { λ f. IsTapFiltered };

    ghost inside = { in_no_packet };

    ghost has = { λ f. HasTapped f.reader f.line.held.items f.line.long };

    ghost ready = { λ f. length f.line.held.items ≤ most_open f.line.long };

    fn feed(&mut self, piece: &[u8], text: &mut Vec<u8>) -> Result<(), NoMemory> {
        let mut from = 0;
        while let Some(count) = memchr(b'\n', &piece[from..]) {
            let end = from + count;
            self.take_end(&piece[from..end], text)?;
            from = end + 1;
        }
        self.line.add(&piece[from..], text)?;
        Ok(())
    }

    fn close(self, text: &mut Vec<u8>) -> Result<StreamEnd, NoMemory> {
        let mut filter = self;
        filter.end_last(text)?;
        let TapToSubunit {
            reader,
            line: _line,
            events: _events,
        } = filter;
        let events = reader.close()?;
        put_events(&events, text)?;
        Ok(StreamEnd {
            status: 0,
            inside: false,
        })
    }

    fn let_go(self) {}

    ghost is_seen = { λ f. tap_seen f.reader f.line.held.items f.line.long };

    ghost front = { λ f. tap_front };

    ghost one = { λ f. tap_one };
}
