//! Streams that are cut into notes, and what is asked of a stream in pieces.

ghost use Rattle.std.specs.Prelude.{◌≡◌, ◌++◌, ◌≤◌, All, length, max, IfSome};
ghost use Rattle.std.specs.List.{flat_map};

use crate::events::put_event;
use crate::fields::field;
use crate::told::{put_line, put_number};
use row_book::{bytes_of, put_all};
use std::alloc::Global;
use stream_reader::{Note, ROOM, Reader, notes_of_pieces};
use sub_number::Bytes;

// ---- streams, as rows tell them

fn push_times(part: &[u8], times: u32, stream: &mut Vec<u8>) -> Option<()> {
    for _ in 0..times {
        stream.extend_from_slice(part).ok()?;
    }
    Some(())
}

fn push_line(alloc: Global, line: &str, stream: &mut Vec<u8>) -> Option<()> {
    let (times, part) = line.split_once(" times ").unwrap_or(("1", line));
    let times = times.parse().ok()?;
    let part = bytes_of(alloc, part)?;
    push_times(&part, times, stream)
}

fn push_lines(alloc: Global, lines: &[&str], stream: &mut Vec<u8>) -> Option<()> {
    for line in lines {
        push_line(alloc, line, stream)?;
    }
    Some(())
}

/// The bytes that the lines spell, one behind the other. A line may be told so many times, as in `3 times ab`.
pub fn stream_of(alloc: Global, lines: &[&str]) -> Option<Vec<u8>> {
    let mut stream = Vec::new(alloc);
    push_lines(alloc, lines, &mut stream)?;
    Some(stream)
}

// ---- streams in pieces

fn push_pieces(alloc: Global, pieces: &mut Vec<Bytes>, stream: &[u8], size: usize) -> Option<()>
    ensures joined { IfSome result (λ _. flat_map (λ piece. piece) pieces.new.items ≡ flat_map (λ piece. piece) pieces.old.items ++ stream.now) }
    ensures sizes { IfSome result (λ _. All (λ piece. length piece ≤ max size 1) pieces.old.items → All (λ piece. length piece ≤ max size 1) pieces.new.items) }
{
    for piece in stream.chunks(size.max(1)) {
        let piece = Bytes::new(alloc, piece).ok()?;
        pieces.push(piece).ok()?;
    }
    Some(())
}

/// The stream in pieces of at most this size, or of one byte where it is 0.
pub fn pieces(alloc: Global, stream: &[u8], size: usize) -> Option<Vec<Bytes>>
    ensures joined { IfSome result (λ pieces. flat_map (λ piece. piece) pieces.items ≡ stream.now) }
    ensures sizes { IfSome result (λ pieces. All (λ piece. length piece ≤ max size 1) pieces.items) }
{
    let mut pieces = Vec::new(alloc);
    push_pieces(alloc, &mut pieces, stream, size)?;
    Some(pieces)
}

/// What is asked of a stream in pieces.
pub trait InPieces {
    /// Appends the answer for the stream in pieces of this size.
    fn put(&self, alloc: Global, stream: &[u8], size: usize, said: &mut Vec<u8>) -> Option<()>;
}

fn tell_other(size: usize, text: &[u8], said: &mut Vec<u8>) -> Option<()> {
    if text == said.as_slice() {
        return Some(());
    }
    put_all(&[b"in pieces of "], said)?;
    put_number(size as u128, b":\n", said)?;
    put_all(&[text], said)
}

fn put_other<A: InPieces>(
    alloc: Global,
    asked: &A,
    stream: &[u8],
    size: usize,
    said: &mut Vec<u8>,
) -> Option<()> {
    let mut text = Vec::new(alloc);
    asked.put(alloc, stream, size, &mut text)?;
    tell_other(size, &text, said)
}

/// Answers what is asked of the stream in pieces of the first size that the words tell, as in `pieces=100,1,5`. Nothing may
/// have been said yet. In pieces of the other sizes the answer must be the same, and is told where it is not.
pub fn answer_in_pieces<A: InPieces>(
    alloc: Global,
    asked: &A,
    words: &str,
    stream: &[u8],
    said: &mut Vec<u8>,
) -> Option<()> {
    let sizes = field(words, "pieces=")?;
    let (first, others) = sizes.split_once(',').unwrap_or((sizes, ""));
    asked.put(alloc, stream, first.parse().ok()?, said)?;
    if others.is_empty() {
        return Some(());
    }
    for size in others.split(',') {
        put_other(alloc, asked, stream, size.parse().ok()?, said)?;
    }
    Some(())
}

// ---- notes

fn put_note(note: &Note, said: &mut Vec<u8>) -> Option<()> {
    match note {
        Note::Event(event) => {
            put_all(&[b"event "], said)?;
            put_event(event, said)
        }
        Note::Foreign(bytes) => put_all(&[b"foreign ", bytes.bytes()], said),
    }
}

// The note, where of foreign bytes it is told how many they are.
fn put_size(note: &Note, said: &mut Vec<u8>) -> Option<()> {
    match note {
        Note::Event(_) => put_note(note, said),
        Note::Foreign(bytes) => {
            put_all(&[b"foreign "], said)?;
            put_number(bytes.bytes().len() as u128, b" bytes", said)
        }
    }
}

fn put_one(note: &Note, as_sizes: bool, said: &mut Vec<u8>) -> Option<()> {
    if as_sizes {
        put_size(note, said)
    } else {
        put_note(note, said)
    }
}

// Whether what stands behind the place is the line that begins at the start.
fn is_repeated(start: usize, place: usize, said: &[u8]) -> bool {
    let Some((front, this)) = said.split_at_checked(place) else {
        return false;
    };
    match front.split_at_checked(start) {
        Some((_, last)) => last == this,
        None => false,
    }
}

fn end_run(times: u32, said: &mut Vec<u8>) -> Option<()> {
    match times {
        0 => Some(()),
        1 => put_line(b"", said),
        _ => {
            put_all(&[b", "], said)?;
            put_number(u128::from(times), b" times\n", said)
        }
    }
}

// The last notes were so many of the line that begins at the start. Answers that of the notes up to the next one.
fn put_next(
    note: &Note,
    as_sizes: bool,
    start: usize,
    times: u32,
    said: &mut Vec<u8>,
) -> Option<(usize, u32)> {
    let place = said.len();
    put_one(note, as_sizes, said)?;
    let repeated = is_repeated(start, place, said);
    said.truncate(place);
    if repeated {
        return Some((start, times.saturating_add(1)));
    }
    end_run(times, said)?;
    let start = said.len();
    put_one(note, as_sizes, said)?;
    Some((start, 1))
}

fn put_notes(notes: &[Note], as_sizes: bool, said: &mut Vec<u8>) -> Option<()> {
    let mut start = said.len();
    let mut times = 0;
    for note in notes {
        let next = put_next(note, as_sizes, start, times, said)?;
        start = next.0;
        times = next.1;
    }
    end_run(times, said)
}

fn notes_of(alloc: Global, stream: &[u8], size: usize) -> Option<Vec<Note>> {
    let pieces = pieces(alloc, stream, size)?;
    notes_of_pieces(alloc, &pieces).ok()
}

/// The notes of the stream.
#[derive(Drop)]
pub struct Notes {
    /// Of foreign bytes it is told how many they are.
    pub as_sizes: bool,
}

impl InPieces for Notes {
    fn put(&self, alloc: Global, stream: &[u8], size: usize, said: &mut Vec<u8>) -> Option<()> {
        let notes = notes_of(alloc, stream, size)?;
        put_notes(&notes, self.as_sizes, said)
    }
}

// ---- step by step

/// What takes steps.
pub trait Steps {
    /// Takes the step of this name, and appends what it gives, where it may give anything. Answers how many bytes are held
    /// then. None where there is no such step.
    fn step(&mut self, name: &str, said: &mut Vec<u8>) -> Option<usize>;
}

fn put_step<S: Steps>(taker: &mut S, name: &str, said: &mut Vec<u8>) -> Option<()> {
    put_all(&[name.as_bytes(), b": "], said)?;
    let held = taker.step(name, said)?;
    put_number(held as u128, b" held\n", said)
}

/// Takes the steps of these names.
pub fn put_steps<S: Steps>(taker: &mut S, names: &str, said: &mut Vec<u8>) -> Option<()> {
    for name in names.split(' ') {
        put_step(taker, name, said)?;
    }
    Some(())
}

fn put_told(note: Option<Note>, said: &mut Vec<u8>) -> Option<()> {
    match note {
        Some(note) => put_note(&note, said)?,
        None => put_all(&[b"none"], said)?,
    }
    put_all(&[b", "], said)
}

impl Steps for Reader {
    fn step(&mut self, name: &str, said: &mut Vec<u8>) -> Option<usize> {
        match name {
            "next" => put_told(self.next().ok()?, said)?,
            "finish" => self.finish(),
            _ => return None,
        }
        Some(self.held())
    }
}

/// Answers the steps of a reader to which the bytes are fed.
pub fn answer_reader(alloc: Global, words: &str, given: &[u8], said: &mut Vec<u8>) -> Option<()> {
    let mut reader = Reader::new(alloc).ok()?;
    if given.len() > ROOM {
        return None;
    }
    reader.feed(given);
    put_steps(&mut reader, words, said)
}
