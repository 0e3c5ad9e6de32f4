//! The files of text of a part of a test, as far as they are kept, and the text that shows them.

ghost use Rattle.std.specs.Prelude.{◌≡◌, ◌++◌, [], None, Some, take, IfOk, OnOk, OnErr};
ghost use Rattle.outcome_fold.specs.Parts.{text_limit};
ghost use Rattle.outcome_fold.specs.Files.{no_files, frame_head, frame_end, framed as framed_text, shown_by, text_shown, is_current, with_other, with_bytes, with_piece};

use crate::lines::{ends_its_line, line_end};
use crate::part::KeptText;
use std::alloc::Global;
use std::marker::Model;
use sub_number::{Bytes, NoMemory};

/// The name of the file that says how a test failed. Its text stands last, and without a name.
const TRACEBACK: &[u8] = b"traceback";

/// The files of text of a part of a test, as far as they are kept.
///
/// The file that comes first has no name before it until there is another one. So a file that is alone is kept as it
/// stands, and no byte is moved where a second one comes.
#[derive(Drop)]
pub struct KeptFiles {
    // The name of the first file but the traceback, where there is one.
    first: Option<Bytes>,
    // The name of the last one, where there are several.
    later: Option<Bytes>,
    // The first bytes of these files, with what stands between them.
    others: KeptText,
    // The first bytes of the traceback.
    traceback: KeptText,
}

impl KeptFiles {
    /// No files. They take no memory.
    pub fn new(alloc: Global) -> Self
        ensures { result ≡ no_files }
    {
        KeptFiles {
            first: None,
            later: None,
            others: KeptText::new(alloc),
            traceback: KeptText::new(alloc),
        }
    }

    /// Takes a piece of the file of this name. Of its bytes no more are copied than are kept.
    #[inline(always)]
    pub fn append(&mut self, alloc: Global, name: &[u8], piece: &[u8]) -> Result<(), NoMemory>
        ensures ok { OnOk result (self.new ≡ with_piece self.old name.now piece.now) }
        ensures err { OnErr result (self.new ≡ self.old) }
    {
        if piece.is_empty() {
            return Ok(());
        }
        self.append_bytes(alloc, name, piece)
    }

    // The same of a piece that has bytes.
    #[inline(never)]
    fn append_bytes(&mut self, alloc: Global, name: &[u8], piece: &[u8]) -> Result<(), NoMemory>
        ensures ok { OnOk result (self.new ≡ with_bytes self.old name.now piece.now) }
        ensures err { OnErr result (self.new ≡ self.old) }
    {
        if name == TRACEBACK {
            self.traceback.append(piece)
        } else {
            self.append_other(alloc, name, piece)
        }
    }

    // The same of a file but the traceback.
    fn append_other(&mut self, alloc: Global, name: &[u8], piece: &[u8]) -> Result<(), NoMemory>
        ensures ok { OnOk result (self.new ≡ with_other self.old.first self.old.later self.old.others self.old.traceback name.now piece.now) }
        ensures err { OnErr result (self.new ≡ self.old) }
    {
        let goes_on = match &self.first {
            Some(first) => is_name(first, &self.later, name),
            None => return self.begin(alloc, name, piece),
        };
        if goes_on {
            self.others.append(piece)
        } else {
            self.begin_later(alloc, name, piece)
        }
    }

    // The first file begins.
    fn begin(&mut self, alloc: Global, name: &[u8], piece: &[u8]) -> Result<(), NoMemory>
        ensures ok { OnOk result (self.new ≡ with_other None None self.old.others self.old.traceback name.now piece.now) }
        ensures err { OnErr result (self.new ≡ self.old) }
    {
        let first = Bytes::new(alloc, name)?;
        self.others.append(piece)?;
        self.first = Some(first);
        self.later = None;
        Ok(())
    }

    // A later file begins: the one before it ends, and its own name stands before it.
    fn begin_later(&mut self, alloc: Global, name: &[u8], piece: &[u8]) -> Result<(), NoMemory>
        ensures first { self.new.first ≡ self.old.first }
        ensures later { OnOk result (self.new.later ≡ Some name.now) }
        ensures others { OnOk result (self.new.others ≡ take text_limit (self.old.others ++ frame_end self.old.others ++ frame_head name.now ++ piece.now)) }
        ensures traceback { self.new.traceback ≡ self.old.traceback }
        ensures err { OnErr result (self.new ≡ self.old) }
    {
        let later = Bytes::new(alloc, name)?;
        let lead = lead_to(alloc, self.others.bytes(), name, piece)?;
        self.others.append(lead.bytes())?;
        self.later = Some(later);
        Ok(())
    }

    /// The text that shows them.
    pub fn shown(&self, alloc: Global) -> Result<Bytes, NoMemory>
        ensures { IfOk result (λ text. text ≡ text_shown self.now) }
    {
        match &self.first {
            Some(first) => self.shown_from(alloc, first),
            None => Bytes::new(alloc, self.traceback.bytes()),
        }
    }

    // The same, where this is the name of the first file but the traceback.
    fn shown_from(&self, alloc: Global, first: &Bytes) -> Result<Bytes, NoMemory>
        ensures { IfOk result (λ text. text ≡ shown_by (Some first.now) self.now.later self.now.others self.now.traceback) }
    {
        let others = self.others.bytes();
        let traceback = self.traceback.bytes();
        if self.later.is_some() || !traceback.is_empty() {
            let mut text = framed(alloc, first.bytes(), others)?;
            text.extend_from_slice(traceback)?;
            Ok(Bytes::from_vec(text))
        } else {
            Bytes::new(alloc, others)
        }
    }

    /// The text that shows them with a piece more of the file of this name. They stay as they are.
    pub fn shown_with(&self, alloc: Global, name: &[u8], piece: &[u8]) -> Result<Bytes, NoMemory>
        ensures { IfOk result (λ text. text ≡ text_shown (with_piece self.now name.now piece.now)) }
    {
        let mut files = self.copy(alloc)?;
        files.append(alloc, name, piece)?;
        files.shown(alloc)
    }

    // Other files that say the same.
    fn copy(&self, alloc: Global) -> Result<Self, NoMemory>
        ensures { IfOk result (λ copy. copy ≡ self.now) }
    {
        Ok(KeptFiles {
            first: copy_of(alloc, &self.first)?,
            later: copy_of(alloc, &self.later)?,
            others: self.others.copy(alloc)?,
            traceback: self.traceback.copy(alloc)?,
        })
    }
}

/// `KeptFiles` in a box, which there is from the first byte on: a test is moved often while it is open, and most have no
/// file of text. Contracts see it as the files.
#[derive(Drop)]
pub struct BoxedFiles {
    files: Option<Box<KeptFiles>>,
}

impl Model for BoxedFiles {
    ghost use Rattle.std.specs.Prelude.{box_value};
    ghost use Rattle.std.specs.Option.{option_map, unwrap_or};
    ghost use Rattle.outcome_fold.specs.declared.files.KeptFiles.{KeptFiles as SomeFiles};
    ghost use Rattle.outcome_fold.specs.Files.{no_files};

    ghost Value = { SomeFiles };

    ghost view = { λ b. unwrap_or (option_map box_value b.files) no_files };
}

impl BoxedFiles {
    /// No files. They take no memory.
    #[inline(always)]
    pub fn new() -> Self
        ensures { result ≡ no_files }
    {
        BoxedFiles { files: None }
    }

    /// Takes a piece of the file of this name. Of its bytes no more are copied than are kept.
    #[inline(always)]
    pub fn append(&mut self, alloc: Global, name: &[u8], piece: &[u8]) -> Result<(), NoMemory>
        ensures ok { OnOk result (self.new ≡ with_piece self.old name.now piece.now) }
        ensures err { OnErr result (self.new ≡ self.old) }
    {
        if piece.is_empty() {
            return Ok(());
        }
        self.append_bytes(alloc, name, piece)
    }

    // The same of a piece that has bytes.
    #[inline(never)]
    fn append_bytes(&mut self, alloc: Global, name: &[u8], piece: &[u8]) -> Result<(), NoMemory>
        ensures ok { OnOk result (self.new ≡ with_piece self.old name.now piece.now) }
        ensures err { OnErr result (self.new ≡ self.old) }
    {
        match &mut self.files {
            Some(files) => files.append(alloc, name, piece),
            None => {
                self.files = Some(boxed_piece(alloc, name, piece)?);
                Ok(())
            }
        }
    }

    /// The text that shows them.
    pub fn shown(&self, alloc: Global) -> Result<Bytes, NoMemory>
        ensures { IfOk result (λ text. text ≡ text_shown self.now) }
    {
        match &self.files {
            Some(files) => files.shown(alloc),
            None => KeptFiles::new(alloc).shown(alloc),
        }
    }

    /// The text that shows them with a piece more of the file of this name. They stay as they are.
    pub fn shown_with(&self, alloc: Global, name: &[u8], piece: &[u8]) -> Result<Bytes, NoMemory>
        ensures { IfOk result (λ text. text ≡ text_shown (with_piece self.now name.now piece.now)) }
    {
        match &self.files {
            Some(files) => files.shown_with(alloc, name, piece),
            None => KeptFiles::new(alloc).shown_with(alloc, name, piece),
        }
    }
}

// A piece of the file of this name, which is the first.
fn boxed_piece(alloc: Global, name: &[u8], piece: &[u8]) -> Result<Box<KeptFiles>, NoMemory>
    ensures { IfOk result (λ files. files.value ≡ with_piece no_files name.now piece.now) }
{
    let mut files = KeptFiles::new(alloc);
    files.append(alloc, name, piece)?;
    Ok(Box::new(alloc, files)?)
}

// A copy of the name, where there is one.
fn copy_of(alloc: Global, name: &Option<Bytes>) -> Result<Option<Bytes>, NoMemory>
    ensures { IfOk result (λ copy. copy ≡ name.now) }
{
    match name {
        Some(name) => Ok(Some(Bytes::new(alloc, name.bytes())?)),
        None => Ok(None),
    }
}

// Whether this is the name of the file that the others end in, of which the first has that name.
fn is_name(first: &Bytes, later: &Option<Bytes>, name: &[u8]) -> bool
    ensures { result ≡ is_current first.now later.now name.now }
{
    match later {
        Some(later) => later.bytes() == name,
        None => first.bytes() == name,
    }
}

// What stands behind a file of this text, which is not alone.
fn end_behind(text: &[u8]) -> &'static [u8]
    ensures { result.now ≡ frame_end text.now }
{
    if ends_its_line(text) {
        b"}}}\n"
    } else {
        b"\n}}}\n"
    }
}

// What stands behind this text where the piece begins a file of this name, as far as it is kept.
fn lead_to(alloc: Global, text: &[u8], name: &[u8], piece: &[u8]) -> Result<KeptText, NoMemory>
    ensures { IfOk result (λ lead. lead ≡ take text_limit (frame_end text.now ++ frame_head name.now ++ piece.now)) }
{
    let mut lead = KeptText::new(alloc);
    lead.append(end_behind(text))?;
    lead.append(name)?;
    lead.append(b": {{{\n")?;
    lead.append(piece)?;
    Ok(lead)
}

// Several files but the traceback, of which the first has this name, as far as they are kept.
fn under_name(alloc: Global, first: &[u8], others: &[u8]) -> Result<KeptText, NoMemory>
    ensures { IfOk result (λ text. text ≡ take text_limit (frame_head first.now ++ others.now ++ frame_end others.now)) }
{
    let mut text = KeptText::new(alloc);
    text.append(first)?;
    text.append(b": {{{\n")?;
    text.append(others)?;
    text.append(end_behind(others))?;
    Ok(text)
}

// The same, in whole lines.
fn framed(alloc: Global, first: &[u8], others: &[u8]) -> Result<Vec<u8>, NoMemory>
    ensures { IfOk result (λ text. text.items ≡ framed_text first.now others.now) }
{
    let mut text = under_name(alloc, first, others)?.into_vec();
    let end = line_end(text.as_slice());
    text.extend_from_slice(end)?;
    Ok(text)
}
