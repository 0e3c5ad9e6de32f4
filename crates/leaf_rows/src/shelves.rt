//! A shelf in memory, and what a stop leaves of it.

ghost use Rattle.std.specs.Prelude.{◌≡◌, Some, None, IsTrue};
ghost use Rattle.edge_io.specs.MemState.{folder_of};
ghost use Rattle.edge_io.specs.Steps.{HasDraft};

use crate::fields::{fails_of, first_word, owned_bytes, text_of};
use crate::told::{Calls, make_all, put_line, put_texts, put_value};
use edge_io::{MemShelf, Shelf};
use row_book::bytes_of;
use std::alloc::Global;
use std::str;

// A shelf, and what is known of it: that nothing is pending, and that there is a draft.
#[derive(Drop)]
struct KnownShelf {
    shelf: MemShelf,
    rests: bool,
    drafts: bool,
    ghost rest: { IsTrue rests → (folder_of shelf).disk.pending ≡ None },
    ghost draft: { IsTrue drafts → HasDraft (Some (folder_of shelf)) },
}

impl KnownShelf {
    fn new(alloc: Global, fails: Vec<u64>) -> Self {
        KnownShelf {
            shelf: MemShelf::new(alloc, fails),
            rests: true,
            drafts: false,
        }
    }

    fn put(&mut self, alloc: Global, words: &str, said: &mut Vec<u8>) -> Option<()> {
        let (name, bytes) = first_word(words);
        let name = text_of(alloc, name)?;
        let bytes = owned_bytes(alloc, bytes)?;
        if !self.rests {
            return None;
        }
        self.drafts = false;
        let put = self.shelf.put(name, bytes);
        self.rests = put.is_ok();
        put_value(alloc, &put, said)
    }

    fn start_draft(&mut self, alloc: Global, said: &mut Vec<u8>) -> Option<()> {
        let started = self.shelf.start_draft();
        self.drafts = started.is_ok();
        self.rests = self.rests && started.is_ok();
        put_value(alloc, &started, said)
    }

    fn append(&mut self, alloc: Global, words: &str, said: &mut Vec<u8>) -> Option<()> {
        let piece = bytes_of(alloc, words)?;
        if !self.drafts {
            return None;
        }
        let appended = self.shelf.append(&piece);
        self.drafts = appended.is_ok();
        self.rests = self.rests && appended.is_ok();
        put_value(alloc, &appended, said)
    }

    fn sync_draft(&mut self, alloc: Global, said: &mut Vec<u8>) -> Option<()> {
        if !self.drafts {
            return None;
        }
        let synced = self.shelf.sync_draft();
        self.drafts = synced.is_ok();
        self.rests = self.rests && synced.is_ok();
        put_value(alloc, &synced, said)
    }

    fn publish(&mut self, alloc: Global, words: &str, said: &mut Vec<u8>) -> Option<()> {
        let name = bytes_of(alloc, words)?;
        let name = str::from_utf8(&name).ok()?;
        if !self.drafts || !self.rests {
            return None;
        }
        self.drafts = false;
        self.rests = false;
        put_value(alloc, &self.shelf.publish(name), said)
    }

    fn sync_folder(&mut self, alloc: Global, said: &mut Vec<u8>) -> Option<()> {
        self.drafts = false;
        let synced = self.shelf.sync_folder();
        self.rests = synced.is_ok();
        put_value(alloc, &synced, said)
    }

    fn length(&mut self, alloc: Global, words: &str, said: &mut Vec<u8>) -> Option<()> {
        let name = bytes_of(alloc, words)?;
        let name = str::from_utf8(&name).ok()?;
        put_value(alloc, &self.shelf.length(name), said)
    }

    fn names(&mut self, alloc: Global, said: &mut Vec<u8>) -> Option<()> {
        match self.shelf.names(alloc) {
            Ok(names) => put_texts(&names, said),
            Err(fault) => put_value(alloc, &fault, said),
        }
    }

    // A read of a published file from a place on into a buffer with these bytes, and what stands there then.
    fn read(&mut self, alloc: Global, words: &str, said: &mut Vec<u8>) -> Option<()> {
        let (name, words) = first_word(words);
        let (place, buf) = first_word(words);
        let place: u64 = place.parse().ok()?;
        let mut buf = bytes_of(alloc, buf)?;
        if buf.is_empty() {
            return None;
        }
        let Ok(Some(_)) = self.shelf.length(name) else {
            return None;
        };
        put_value(alloc, &self.shelf.read_at(name, place, &mut buf), said)?;
        put_line(&buf, said)
    }

    // How long a file is after a stop at a moment, `with` the name that was pending then or `without`.
    fn stop(&self, alloc: Global, words: &str, said: &mut Vec<u8>) -> Option<()> {
        let (moment, words) = first_word(words);
        let moment = moment.parse().ok()?;
        let (choice, name) = first_word(words);
        if choice != "with" && choice != "without" {
            return None;
        }
        let mut image = self.shelf.image(moment, choice == "with").ok()?;
        put_value(alloc, &image.length(name), said)
    }
}

impl Calls for KnownShelf {
    fn call(&mut self, alloc: Global, name: &str, words: &str, said: &mut Vec<u8>) -> Option<()> {
        match name {
            "put" => self.put(alloc, words, said),
            "start_draft" => self.start_draft(alloc, said),
            "append" => self.append(alloc, words, said),
            "sync_draft" => self.sync_draft(alloc, said),
            "publish" => self.publish(alloc, words, said),
            "sync_folder" => self.sync_folder(alloc, said),
            "length" => self.length(alloc, words, said),
            "names" => self.names(alloc, said),
            "read" => self.read(alloc, words, said),
            "stop" => self.stop(alloc, words, said),
            "short" => put_value(alloc, &self.shelf.memory_faults(), said),
            _ => None,
        }
    }
}

/// Answers calls of an empty shelf, of which these are to fail: `fails=`.
pub fn answer_shelf(alloc: Global, words: &str, lines: &[&str], said: &mut Vec<u8>) -> Option<()> {
    let mut shelf = KnownShelf::new(alloc, fails_of(alloc, words, "fails=")?);
    make_all(alloc, &mut shelf, lines, said)
}
