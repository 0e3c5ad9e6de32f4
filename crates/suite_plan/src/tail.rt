//! The last bytes of a text, which are what is told of it.

ghost use Rattle.std.specs.Prelude.{◌≡◌, ◌≤◌, ◌<◌, ◌+◌, ◌++◌, ℕ, List, length, codes, IfOk, OnOk};
ghost use Rattle.outcome_fold.specs.Lines.{newline, whole_lines};
ghost use Rattle.suite_plan.specs.Saying.{last_said, told_of, name_line};

use crate::output::Taker;
use outcome_fold::line_end;
use std::alloc::Global;
use sub_number::{Bytes, NoMemory};

// The most bytes of a text that are told.
const MOST_SAID: usize = 65_536;

// The most bytes that are held: as many again, so that the front is let go of seldom.
const MOST_HELD: usize = 2 * MOST_SAID;

/// The last bytes of a text that comes piece by piece: all of them where they are few, and at least the last 65,536.
#[derive(Drop)]
pub(crate) struct Tail {
    bytes: Vec<u8>,
    // Bytes in front of these were let go of.
    cut: bool,
    ghost few: { length bytes.items ≤ 131072 },
}

impl Tail {
    ghost use Rattle.std.specs.Prelude.{[]};
    ghost use Rattle.suite_plan.specs.Tails.{IsTailOf as IsTail};

    /// Nothing has come yet. It takes no memory.
    pub(crate) fn new(alloc: Global) -> Self
        ensures { IsTail [] result }
    {
        Tail {
            bytes: Vec::new(alloc),
            cut: false,
        }
    }

    /// The bytes that are held.
    pub(crate) fn bytes(&self) -> &[u8]
        ensures { result.now ≡ self.now.bytes.items }
    {
        &self.bytes
    }

    /// One piece more.
    pub(crate) fn add(&mut self, piece: &[u8]) -> Result<(), NoMemory>
        ensures { (text : List ℕ) → IsTail text self.old → OnOk result (IsTail (text ++ piece.now) self.new) }
    {
        if piece.len() > MOST_SAID {
            return self.replace(piece);
        }
        self.add_few(piece)
    }

    // The same of at most as many bytes as are told.
    fn add_few(&mut self, piece: &[u8]) -> Result<(), NoMemory>
        requires few { length piece.now ≤ 65536 }
        ensures added { (text : List ℕ) → IsTail text self.old → OnOk result (IsTail (text ++ piece.now) self.new) }
    {
        self.make_room(piece.len());
        self.bytes.extend_from_slice(piece)?;
        Ok(())
    }

    // The same of more bytes than are told, of which the last ones are held and no others.
    fn replace(&mut self, piece: &[u8]) -> Result<(), NoMemory>
        requires many { 65536 < length piece.now }
        ensures replaced { (text : List ℕ) → OnOk result (IsTail (text ++ piece.now) self.new) }
    {
        self.bytes.clear();
        self.bytes
            .extend_from_slice(&piece[piece.len() - MOST_SAID..])?;
        self.cut = true;
        Ok(())
    }

    // Lets go of the front where there is no room for so many bytes more.
    fn make_room(&mut self, count: usize)
        requires few { count ≤ 65536 }
        ensures same { (text : List ℕ) → IsTail text self.old → IsTail text self.new }
        ensures room { length self.new.bytes.items + count ≤ 131072 }
    {
        if self.bytes.len() + count > MOST_HELD {
            let gone = self.bytes.len() - MOST_SAID;
            self.bytes.copy_within(gone.., 0);
            self.bytes.truncate(MOST_SAID);
            self.cut = true;
        }
    }

    /// Ends the line that the text ends within, if it does.
    pub(crate) fn end_line(&mut self) -> Result<(), NoMemory>
        ensures { (text : List ℕ) → IsTail text self.old → OnOk result (IsTail (whole_lines text) self.new) }
    {
        let end = line_end(&self.bytes);
        self.add(end)
    }

    /// The line in front of a file of this name.
    pub(crate) fn add_name_line(&mut self, name: &[u8]) -> Result<(), NoMemory>
        ensures { (text : List ℕ) → IsTail text self.old → OnOk result (IsTail (whole_lines text ++ name_line name.now) self.new) }
    {
        self.end_line()?;
        self.add(b"--- ")?;
        self.add(name)?;
        self.add(b" ---\n")
    }

    /// What is told of the text.
    pub(crate) fn into_told(self, alloc: Global) -> Result<Bytes, NoMemory>
        ensures { (text : List ℕ) → IsTail text self → IfOk result (λ told. told ≡ told_of text) }
    {
        let mut tail = self;
        tail.end_line()?;
        tail.into_last(alloc)
    }

    // Its last bytes, behind a line of three dots where some were left out.
    fn into_last(self, alloc: Global) -> Result<Bytes, NoMemory>
        ensures { (text : List ℕ) → IsTail text self → IfOk result (λ told. told ≡ last_said text) }
    {
        let Tail { bytes, cut } = self;
        let start = bytes.len().saturating_sub(MOST_SAID);
        if cut || start > 0 {
            return behind_dots(alloc, &bytes[start..]);
        }
        Ok(Bytes::from_vec(bytes))
    }
}

impl Taker for Tail {
    ghost use Rattle.std.specs.Prelude.{true};
    ghost use Rattle.suite_plan.specs.Tails.{IsTailOf as IsTail};

    ghost has = { λ tail bytes. IsTail bytes tail };

    ghost lacks = { true };

    ghost ready = { λ _. Unit {0} };

    fn take(&mut self, piece: &[u8]) -> Result<(), NoMemory> {
        self.add(piece)
    }
}

// The bytes behind a line of three dots.
fn behind_dots(alloc: Global, bytes: &[u8]) -> Result<Bytes, NoMemory>
    ensures { IfOk result (λ told. told ≡ codes "..." ++ newline ++ bytes.now) }
{
    let mut text = Vec::from_slice(alloc, b"...\n")?;
    text.extend_from_slice(bytes)?;
    Ok(Bytes::from_vec(text))
}
