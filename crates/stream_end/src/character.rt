//! The character that foreign bytes leave open.

ghost use Rattle.std.specs.Prelude.{◌≡◌, ◌≤◌, ◌↔◌, ℕ, length, drop, true};
ghost use Rattle.stream_reader.specs.First.{FirstIs, IsMadeBy};
ghost use Rattle.stream_reader.specs.Stream.{GivesNote};
ghost use Rattle.stream_reader.specs.declared.note.Note.{Note as ANote};
ghost use Rattle.stream_reader.specs.declared.first_note.First.TheVariants.{Nothing};
ghost use Rattle.stream_end.specs.Character.{missing_after_byte as missing_behind, missing_after_bytes, missing_after_note};

use std::marker::Model;
use stream_reader::{First, Reader};

/// The character of UTF-8 that the foreign bytes in front of a place leave open, if any. Contracts see how many bytes
/// are missing to it. A packet leaves none open.
#[derive(Clone, Copy, PartialEq, Eq)]
pub struct OpenCharacter {
    missing: u8,
}

impl Model for OpenCharacter {
    ghost use Rattle.std.specs.Prelude.{ℕ};

    ghost Value = { ℕ };

    ghost view = { λ c. c.missing };

    ghost inverse = { λ n. record { missing = n } };
}

impl OpenCharacter {
    /// None is open, as at the begin of a stream and behind a packet.
    pub fn none() -> Self
        ensures { result ≡ 0 }
    {
        OpenCharacter { missing: 0 }
    }

    /// Whether one is open.
    pub fn is_none(self) -> bool
        ensures { (result ≡ true) ↔ (self ≡ 0) }
    {
        self.missing == 0
    }

    /// The next foreign bytes.
    pub fn hear(&mut self, foreign: &[u8])
        ensures { self.new ≡ missing_after_bytes self.old foreign.now }
    {
        self.hear_each(&foreign[last_begin(foreign)..]);
    }

    // The next foreign bytes, each of which is looked at.
    fn hear_each(&mut self, foreign: &[u8])
        ensures { self.new ≡ missing_after_bytes self.old foreign.now }
    {
        for &byte in foreign {
            self.missing = missing_after_byte(self.missing, byte);
        }
    }

    /// Lets the reader pass what is first, and hears it.
    #[inline(always)]
    pub fn pass(&mut self, reader: &mut Reader, first: First)
        requires { FirstIs reader.old.ended reader.old.bytes first }
        ensures given { (note : ANote) → IsMadeBy reader.old.bytes first note → GivesNote reader.old note reader.new }
        ensures nothing { first ≡ Nothing → reader.new ≡ reader.old }
        ensures ended { reader.new.ended ≡ reader.old.ended }
        ensures character { (note : ANote) → IsMadeBy reader.old.bytes first note → self.new ≡ missing_after_note self.old note }
    {
        match first {
            First::Packet(_) => *self = OpenCharacter::none(),
            First::Foreign(size, _) => self.hear(reader.front(size)),
            First::Nothing => (),
        }
        reader.pass(first);
    }
}

// The place of the last byte that goes on with no character, or that of the first byte. What is open behind the bytes
// rests on none in front of it.
fn last_begin(foreign: &[u8]) -> usize
    ensures within { result ≤ length foreign.now }
    ensures alike { (missing : ℕ) → missing_after_bytes missing foreign.now ≡ missing_after_bytes missing (drop result foreign.now) }
{
    let mut place = foreign.len();
    while place > 0 {
        place -= 1;
        let byte = foreign[place];
        if byte < 0x80 || byte >= 0xc0 {
            return place;
        }
    }
    0
}

// How many bytes are missing behind a byte.
#[tactic(auto, unfolding(crate::specs::Character::missing_after_byte))]
fn missing_after_byte(missing: u8, byte: u8) -> u8
    ensures { result ≡ missing_behind missing byte }
{
    match byte {
        0x80..=0xbf => missing.saturating_sub(1),
        0xc2..=0xdf => 1,
        0xe0..=0xef => 2,
        0xf0..=0xf4 => 3,
        _ => 0,
    }
}
