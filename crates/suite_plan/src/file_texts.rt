//! What the files of events say, one behind another.

ghost use Rattle.std.specs.Prelude.{◌≡◌, ◌++◌, IfOk, OnOk, if◌then◌else◌};
ghost use Rattle.outcome_fold.specs.Lines.{whole_lines};
ghost use Rattle.suite_plan.specs.Listed.{HasSaying};
ghost use Rattle.suite_plan.specs.Saying.{ListingText, follows_on, name_line, nothing_said, plain_name, told_of, with_file, with_some};

use crate::tail::Tail;
use packet_codec::FilePart;
use std::alloc::Global;
use sub_number::{Bytes, NoMemory, Text};

// The name of the file of which no name is told.
const PLAIN: &[u8] = b"stdout";

/// What the files of events say, and the name of the last one.
#[derive(Drop)]
pub(crate) struct FileTexts {
    text: Tail,
    // None where it is `stdout`, as at first and behind foreign bytes.
    name: Option<Text>,
}

impl FileTexts {
    /// No file has come. It takes no memory yet.
    pub(crate) fn new(alloc: Global) -> Self
        ensures { HasSaying nothing_said result }
    {
        FileTexts {
            text: Tail::new(alloc),
            name: None,
        }
    }

    /// One piece of a file more, where there is one.
    pub(crate) fn add(&mut self, file: Option<FilePart>) -> Result<(), NoMemory>
        ensures { (saying : ListingText) → HasSaying saying self.old → OnOk result (HasSaying (with_some saying file) self.new) }
    {
        match file {
            Some(file) => self.add_file(file),
            None => Ok(()),
        }
    }

    // One piece of a file more.
    fn add_file(&mut self, file: FilePart) -> Result<(), NoMemory>
        ensures { (saying : ListingText) → HasSaying saying self.old → OnOk result (HasSaying (with_file saying file) self.new) }
    {
        let FilePart { name, bytes } = file;
        self.begin(&name)?;
        self.text.add(bytes.bytes())?;
        self.name = Some(name);
        Ok(())
    }

    /// Foreign bytes, which are a piece of `stdout`.
    pub(crate) fn add_foreign(&mut self, bytes: &[u8]) -> Result<(), NoMemory>
        ensures { (saying : ListingText) → HasSaying saying self.old → OnOk result (HasSaying (with_file saying (record { name = plain_name; bytes = bytes.now })) self.new) }
    {
        self.text.add(bytes)?;
        self.name = None;
        Ok(())
    }

    // The line in front of a file of this name, where it does not follow on.
    fn begin(&mut self, name: &Text) -> Result<(), NoMemory>
        ensures { (saying : ListingText) → HasSaying saying self.old → OnOk result (HasSaying (record saying { text = if follows_on saying.name name.now then saying.text else whole_lines saying.text ++ name_line name.now }) self.new) }
    {
        if self.follows_on(name) {
            return Ok(());
        }
        self.text.add_name_line(name.bytes())
    }

    // Whether a file of this name needs no line in front.
    fn follows_on(&self, name: &Text) -> bool
        ensures { (saying : ListingText) → HasSaying saying self.now → result ≡ follows_on saying.name name.now }
    {
        if name.bytes() == PLAIN {
            return true;
        }
        match &self.name {
            Some(before) => name == before,
            None => false,
        }
    }

    /// What is told of it.
    pub(crate) fn into_told(self, alloc: Global) -> Result<Bytes, NoMemory>
        ensures { (saying : ListingText) → HasSaying saying self → IfOk result (λ told. told ≡ told_of saying.text) }
    {
        self.text.into_told(alloc)
    }
}
