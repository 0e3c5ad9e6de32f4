//! The lines one after another.

ghost use Rattle.std.specs.Prelude.{◌≡◌, ◌<◌, ◌≤◌, ◌+◌, ◌⊎◌, [], length, map, OnOk, IfOk, IfErr};
ghost use Rattle.sub_number.specs.Texts.{IsText};
ghost use Rattle.std.specs.Char.{to_ascii_lowercase};
ghost use Rattle.testr_conf.specs.Lines.{conf_lines, lines_below, setting};
ghost use Rattle.testr_conf.specs.Parts.{FitsWithin};
ghost use Rattle.testr_conf.specs.Seen.{conf_line_meant};
ghost use Rattle.testr_conf.specs.Settings.{first_fault, settings_of, value_above};
ghost use Rattle.testr_conf.specs.Keys.{found_of};
ghost use Rattle.testr_conf.specs.Steps.{place_in_section, reading_of, fault_at, TakesConfLine};

use crate::fault::ConfFault;
use crate::found_values::Found;
use crate::line::{Line, read_line};
use crate::name::{Dialect, read_name};
use crate::value::is_unfit;
use bstr::ByteSlice;
use std::alloc::Global;
use sub_number::{NoMemory, Text, TextFault};

// The section that a line stands in.
#[derive(Clone, Copy)]
pub(crate) enum Place {
    Nowhere,
    Default,
    Elsewhere,
}

// What is known behind some lines.
#[derive(Drop)]
pub(crate) struct Reading {
    dialect: Dialect,
    place: Place,
    found: Found,
}

fn place_of(name: &[u8]) -> Place
    ensures { result ≡ place_in_section (Some name.now) }
{
    if name == b"DEFAULT".as_slice() {
        Place::Default
    } else {
        Place::Elsewhere
    }
}

// A setting's own value, and the continuations right below it, which are deeper than it.
fn join_value(
    alloc: Global,
    own: &[u8],
    depth: Option<usize>,
    below: &[u8],
) -> Result<Vec<u8>, NoMemory>
    requires { IsText own.now }
    ensures value { IfOk result (λ value. value.items ≡ value_above own.now (lines_below depth below.now)) }
    ensures text { IfOk result (λ value. IsText value.items) }
    ensures room { IfOk result (λ value. length value.items ≤ length own.now + (length below.now + length below.now)) }
{
    let mut value = Vec::from_slice(alloc, own)?;
    let mut lines = below.lines_with_terminator();
    while let Some(line) = lines.next() {
        match read_line(line).behind(depth) {
            Line::More(_, text, _) => {
                value.push(b'\n')?;
                value.extend_from_slice(text)?;
            }
            Line::Skipped => {}
            Line::Bad | Line::Section(_) | Line::Setting(_, _) => break,
        }
    }
    Ok(value)
}

// The same as a text.
fn read_value(
    alloc: Global,
    own: &[u8],
    depth: Option<usize>,
    below: &[u8],
) -> Result<Text, NoMemory>
    requires own { FitsWithin (setting [] own.now) 16777216 }
    requires below { length below.now ≤ 16777216 }
    ensures { IfOk result (λ value. value ≡ value_above own.now (lines_below depth below.now)) }
{
    let value = join_value(alloc, own, depth, below)?;
    match Text::new(alloc, &value) {
        Ok(text) => Ok(text),
        Err(TextFault::NotText) => unreachable!(),
        Err(TextFault::NoMemory) => Err(NoMemory),
    }
}

impl Reading {
    fn new(dialect: Dialect) -> Self
        ensures { result ≡ reading_of dialect [] [] }
    {
        Reading {
            dialect,
            place: Place::Nowhere,
            found: Found::new(),
        }
    }

    // Keeps the value of a setting of `[DEFAULT]`, if its key is used. A value that the key may not have is refused.
    fn keep(
        &mut self,
        alloc: Global,
        number: u32,
        key: &[u8],
        own: &[u8],
        depth: Option<usize>,
        below: &[u8],
    ) -> Result<(), ConfFault>
        requires default { self.old.place ≡ Place.Default }
        requires own { FitsWithin (setting [] own.now) 16777216 }
        requires below { length below.now ≤ 16777216 }
        ensures ok { OnOk result (TakesConfLine self.old self.new number (setting (map to_ascii_lowercase key.now) own.now) (lines_below depth below.now)) }
        ensures err { IfErr result (λ fault. (fault_at self.old number (setting (map to_ascii_lowercase key.now) own.now) (lines_below depth below.now) ≡ Some fault) ⊎ (fault ≡ ConfFault.NoMemory)) }
    {
        let Some(name) = read_name(self.dialect, key) else {
            return Ok(());
        };
        if self.found.has(name) {
            return Err(ConfFault::Repeated(number));
        }
        let value = read_value(alloc, own, depth, below)?;
        if is_unfit(name, value.bytes()) {
            return Err(ConfFault::BadLine(number));
        }
        self.found.put(name, value);
        Ok(())
    }

    // Takes the line of this number, with what stands below it, where the setting above that stands so deep.
    fn take(
        &mut self,
        alloc: Global,
        number: u32,
        line: Line<'_>,
        depth: Option<usize>,
        below: &[u8],
    ) -> Result<(), ConfFault>
        requires parts { FitsWithin (conf_line_meant line) 16777216 }
        requires below { length below.now ≤ 16777216 }
        ensures ok { OnOk result (TakesConfLine self.old self.new number (conf_line_meant line.entry) (lines_below depth below.now)) }
        ensures err { IfErr result (λ fault. (fault_at self.old number (conf_line_meant line.entry) (lines_below depth below.now) ≡ Some fault) ⊎ (fault ≡ ConfFault.NoMemory)) }
    {
        match (line, self.place) {
            (Line::Bad, _) => Err(ConfFault::BadLine(number)),
            (Line::Skipped | Line::More(_, _, _), _) => Ok(()),
            (Line::Section(name), _) => {
                self.place = place_of(name);
                Ok(())
            }
            (Line::Setting(_, _), Place::Nowhere) => Err(ConfFault::NoSection(number)),
            (Line::Setting(_, _), Place::Elsewhere) => Ok(()),
            (Line::Setting(key, own), Place::Default) => {
                self.keep(alloc, number, key, own, depth, below)
            }
        }
    }
}

// The values that the text gives. The first line that is refused decides.
pub(crate) fn read_lines(alloc: Global, dialect: Dialect, text: &[u8]) -> Result<Found, ConfFault>
    requires { length text.now ≤ 16777216 }
    ensures none { OnOk result (first_fault dialect [] (conf_lines text.now) ≡ None) }
    ensures found { IfOk result (λ found. found ≡ found_of dialect (settings_of (conf_lines text.now))) }
    ensures err { IfErr result (λ fault. (first_fault dialect [] (conf_lines text.now) ≡ Some fault) ⊎ (fault ≡ ConfFault.NoMemory)) }
{
    let mut reading = Reading::new(dialect);
    let mut lines = text.lines_with_terminator();
    let mut number: u32 = 0;
    let mut above: Option<usize> = None;
    while let Some(line) = lines.next() {
        number += 1;
        let read = read_line(line);
        let depth = read.depth_behind(above);
        match reading.take(alloc, number, read.behind(above), depth, lines.as_bytes()) {
            Ok(()) => {}
            Err(fault) => return Err(fault),
        }
        above = depth;
    }
    Ok(reading.found)
}
