//! Bytes that are held, and the part of details that they belong to.

ghost use Rattle.std.specs.Prelude.{◌≡◌, ◌+◌, ◌*◌, ◌≤◌, ◌<◌, ◌++◌, [], length, map, IfOk, OnOk};
ghost use Rattle.v1_bridge.specs.Events as spec;

use crate::event::piece_event;
use crate::line::bytes_behind;
use packet_codec::Event;
use std::alloc::Global;
use std::marker::Model;
use sub_number::{Bytes, NoMemory, Text};

/// The bytes of a full piece.
const PIECE: usize = 65_536;

/// Bytes that were read and not given yet. Contracts see them as a list of bytes.
#[derive(Drop)]
pub(crate) struct Held {
    bytes: Vec<u8>,
}

impl Model for Held {
    ghost use Rattle.std.specs.Prelude.{List, ℕ};

    ghost Value = { List ℕ };

    ghost view = { λ h. h.bytes.items };
}

impl Held {
    /// No bytes. It takes no memory.
    pub(crate) fn none(alloc: Global) -> Self
        ensures { result ≡ [] }
    {
        Held {
            bytes: Vec::new(alloc),
        }
    }

    /// All of them, in order.
    pub(crate) fn bytes(&self) -> &[u8]
        ensures { result.now ≡ self.now }
    {
        &self.bytes
    }

    /// Appends the bytes.
    ///
    /// After `NoMemory` nothing is known of what is held.
    pub(crate) fn append(&mut self, bytes: &[u8]) -> Result<(), NoMemory>
        ensures { OnOk result (self.new ≡ self.old ++ bytes.now) }
    {
        self.bytes.extend_from_slice(bytes)?;
        Ok(())
    }

    /// The bytes, moved out.
    pub(crate) fn into_bytes(self) -> Bytes
        ensures { result ≡ self }
    {
        Bytes::from_vec(self.bytes)
    }
}

/// A part of details: its MIME type, its name, and its bytes that were not given yet.
#[derive(Drop)]
pub(crate) struct Part {
    pub(crate) mime: Text,
    pub(crate) name: Text,
    pub(crate) held: Held,
}

// The piece of this number, counted from 0, which is a full one.
fn piece_at(bytes: &[u8], number: usize) -> &[u8]
    requires { 65536 * number + 65536 ≤ length bytes.now }
    ensures { result.now ≡ spec.piece_at bytes.now number }
{
    &bytes_behind(bytes, PIECE * number)[..PIECE]
}

// Appends the events of the full pieces that are held.
fn give_pieces(
    alloc: Global,
    id: &Text,
    part: &Part,
    events: &mut Vec<Event>,
) -> Result<(), NoMemory>
    ensures { OnOk result (events.new.items ≡ events.old.items ++ map (spec.piece_event id.now part.now) (spec.full_pieces part.now.held)) }
{
    let bytes = part.held.bytes();
    let pieces = bytes.len() / PIECE;
    for number in 0..pieces {
        events.push(piece_event(alloc, id, part, piece_at(bytes, number))?)?;
    }
    Ok(())
}

// What stands behind the full pieces.
fn behind_pieces(bytes: &[u8]) -> &[u8]
    ensures { result.now ≡ spec.behind_pieces bytes.now }
{
    bytes_behind(bytes, PIECE * (bytes.len() / PIECE))
}

impl Part {
    // Appends the events of the full pieces that are held, which are held no longer.
    fn give(&mut self, alloc: Global, id: &Text, events: &mut Vec<Event>) -> Result<(), NoMemory>
        ensures given { OnOk result (events.new.items ≡ events.old.items ++ map (spec.piece_event id.now self.old) (spec.full_pieces self.old.held)) }
        ensures held { OnOk result (self.new ≡ spec.part_holding self.old (spec.behind_pieces self.old.held)) }
    {
        if self.held.bytes().len() < PIECE {
            return Ok(());
        }
        give_pieces(alloc, id, self, events)?;
        let mut held = Held::none(alloc);
        held.append(behind_pieces(self.held.bytes()))?;
        self.held = held;
        Ok(())
    }

    /// Adds the bytes, and those behind them, and appends the events of the full pieces of what is held then, which is held
    /// no longer. Nothing is moved but where a piece is full.
    ///
    /// After `NoMemory` nothing is known of the part and the events.
    pub(crate) fn add(
        &mut self,
        alloc: Global,
        id: &Text,
        bytes: &[u8],
        more: &[u8],
        events: &mut Vec<Event>,
    ) -> Result<(), NoMemory>
        ensures given { OnOk result (events.new.items ≡ events.old.items ++ spec.pieces_given id.now self.old (bytes.now ++ more.now)) }
        ensures held { OnOk result (self.new ≡ spec.part_with_bytes self.old (bytes.now ++ more.now)) }
    {
        self.held.append(bytes)?;
        self.held.append(more)?;
        self.give(alloc, id, events)
    }
}
