//! What the first note is made of.

ghost use Rattle.std.specs.Prelude.{◌≡◌};
ghost use Rattle.stream_reader.specs.First.{first_of};

use packet_codec::{Event, Header};

/// What the first note of the bytes held is made of, before it is made.
#[derive(Clone, Copy)]
pub enum First {
    /// A packet of this many bytes.
    Packet(usize),
    /// This many foreign bytes, and the size of the packet behind them, if one was seen there.
    Foreign(usize, Option<usize>),
    /// No further note can be told.
    Nothing,
}

/// What a look at the bytes held tells of the first note. It says no more than fits a few registers: the packet itself is
/// asked for where it is needed, and lent.
#[derive(Clone, Copy)]
pub enum Seen {
    /// A header, with as many bytes as it tells of, and the checksum that a packet there would end with. Whether one
    /// stands there `Reader::packet` tells.
    Candidate(Header, u32),
    /// What the first note is made of.
    Told(First),
}

/// What the first note of the bytes held is made of. A packet is its event by now, made from the parts that were found
/// as it was tested; foreign bytes still stand where they are held.
#[derive(Drop)]
pub(crate) enum Made {
    /// The event of a packet of this many bytes.
    Event(Event, usize),
    /// This many foreign bytes, and the size of the packet behind them, if one was seen there.
    Foreign(usize, Option<usize>),
    /// No further note can be told.
    Nothing,
}

impl Made {
    /// The same without the event.
    pub(crate) fn first(&self) -> First
        ensures { result ≡ first_of self.now }
    {
        match self {
            Made::Event(_, size) => First::Packet(*size),
            Made::Foreign(size, packet) => First::Foreign(*size, *packet),
            Made::Nothing => First::Nothing,
        }
    }
}
