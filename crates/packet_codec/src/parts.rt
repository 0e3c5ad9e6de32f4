//! The fields of a packet, where they stand in its bytes. The readers are compiled into their callers, so that what each
//! finds and the rest behind it need not go through memory.

use crate::stamp::Stamp;
use sub_number::{Width, read_number};

/// Runs of bytes, each behind its length, at the front of some bytes.
#[derive(Clone, Copy)]
pub struct RunList<'a> {
    pub count: u32,
    pub bytes: &'a [u8],
}

/// A file's name and its bytes.
#[derive(Clone, Copy)]
pub struct FileBytes<'a> {
    pub name: &'a [u8],
    pub bytes: &'a [u8],
}

/// The fields of a packet. Whether the texts among them are texts is not tested yet.
#[derive(Clone, Copy)]
pub struct Parts<'a> {
    pub stamp: Option<Stamp>,
    pub id: Option<&'a [u8]>,
    pub tags: Option<RunList<'a>>,
    pub mime: Option<&'a [u8]>,
    pub file: Option<FileBytes<'a>>,
    pub route: Option<&'a [u8]>,
}

ghost use Rattle.std.specs.Prelude.{◌≡◌, Option, List, ℕ, IfSome, IfNone};
ghost use Rattle.sub_number.specs.Numbers.{SpellsNumber};
ghost use Rattle.packet_codec.specs.Grammar.{SpellsFront, NotFound, Flagged};
ghost use Rattle.packet_codec.specs.Fields.{SpellsStamp};
ghost use Rattle.packet_codec.specs.declared.stamp.Stamp.{Stamp};
ghost use Rattle.packet_codec.specs.Shapes.{ByteRun, CountedRuns, NamedRun, BeginsWithRuns, ShowsRuns, ShowsOptional, Form, ShowsParts, FieldShapes, Contents};

/// A number, and the bytes behind it.
#[inline(always)]
fn number_at(bytes: &[u8]) -> Option<(u32, &[u8])>
    ensures found { IfSome result (λ r. SpellsFront SpellsNumber bytes.now r.0 r.1.now) }
    ensures none { IfNone result (NotFound SpellsNumber bytes.now) }
{
    let (value, size) = read_number(bytes, Width::Four)?;
    Some((value, &bytes[size..]))
}

/// The run of bytes behind its length, and the bytes behind it.
#[inline(always)]
pub fn run_at(bytes: &[u8]) -> Option<(&[u8], &[u8])>
    ensures found { IfSome result (λ r. SpellsFront ByteRun bytes.now r.0.now r.1.now) }
    ensures none { IfNone result (NotFound ByteRun bytes.now) }
{
    let (len, rest) = number_at(bytes)?;
    let len = len as usize;
    if rest.len() < len {
        return None;
    }
    Some(rest.split_at(len))
}

/// The bytes behind so many runs.
#[inline(always)]
fn after_runs(count: u32, bytes: &[u8]) -> Option<&[u8]>
    ensures found { IfSome result (λ rest. (runs : List (List ℕ)) × BeginsWithRuns bytes.now count runs rest.now) }
    ensures none { IfNone result ((runs : List (List ℕ)) (rest : List ℕ) → BeginsWithRuns bytes.now count runs rest → ⊥) }
{
    let mut rest = bytes;
    for _ in 0..count {
        let (_, after) = run_at(rest)?;
        rest = after;
    }
    Some(rest)
}

/// A field that is read from the front of some bytes.
trait Field<'a>: Sized {
    /// What it tells, how bytes spell that, and where it stands.
    ghost form: { Form Self };

    /// The field, and the bytes behind it.
    fn read_at(bytes: &'a [u8]) -> Option<(Self, &'a [u8])>
        ensures found { IfSome result (λ r. (told : form.Told) × SpellsFront form.spells bytes.now told r.1.now × form.shows r.0 told) }
        ensures none { IfNone result (NotFound form.spells bytes.now) };
}

/// The seconds in four bytes, and the nanoseconds as a number.
impl<'a> Field<'a> for Stamp {
    ghost form = { record { Told = Stamp; spells = SpellsStamp; shows = λ stamp told. stamp ≡ told } };

    #[inline(always)]
    fn read_at(bytes: &'a [u8]) -> Option<(Stamp, &'a [u8])> {
        if bytes.len() < 4 {
            return None;
        }
        let (front, rest) = bytes.split_at(4);
        let seconds = u32::from_be_bytes([front[0], front[1], front[2], front[3]]);
        let (nanos, rest) = number_at(rest)?;
        Some((Stamp { seconds, nanos }, rest))
    }
}

/// A run of bytes behind its length.
impl<'a> Field<'a> for &'a [u8] {
    ghost form = { record { Told = List ℕ; spells = ByteRun; shows = λ run told. run.now ≡ told } };

    #[inline(always)]
    fn read_at(bytes: &'a [u8]) -> Option<(&'a [u8], &'a [u8])> {
        run_at(bytes)
    }
}

/// A list of runs behind its count.
impl<'a> Field<'a> for RunList<'a> {
    ghost form = { record { Told = List (List ℕ); spells = CountedRuns; shows = λ list told. ShowsRuns list.count list.bytes.now told } };

    #[inline(always)]
    fn read_at(bytes: &'a [u8]) -> Option<(RunList<'a>, &'a [u8])> {
        let (count, bytes) = number_at(bytes)?;
        let rest = after_runs(count, bytes)?;
        Some((RunList { count, bytes }, rest))
    }
}

/// A file's name and its bytes.
impl<'a> Field<'a> for FileBytes<'a> {
    ghost form = { record { Told = List ℕ × List ℕ; spells = NamedRun; shows = λ file told. (file.name.now, file.bytes.now) ≡ told } };

    #[inline(always)]
    fn read_at(bytes: &'a [u8]) -> Option<(FileBytes<'a>, &'a [u8])> {
        let (name, rest) = run_at(bytes)?;
        let (bytes, rest) = run_at(rest)?;
        Some((FileBytes { name, bytes }, rest))
    }
}

/// The field where the flag is set, and the bytes behind it.
#[inline(always)]
fn where_set<'a, F: Field<'a>>(set: bool, bytes: &'a [u8]) -> Option<(Option<F>, &'a [u8])>
    ensures found { IfSome result (λ r. (told : Option F.form.Told) × SpellsFront (Flagged set F.form.spells) bytes.now told r.1.now × ShowsOptional F.form.shows r.0 told) }
    ensures none { IfNone result (NotFound (Flagged set F.form.spells) bytes.now) }
{
    if !set {
        return Some((None, bytes));
    }
    let (field, rest) = F::read_at(bytes)?;
    Some((Some(field), rest))
}

/// The fields that the flags tell of, where they are all of the bytes.
#[inline(always)]
pub fn parts_of(first: u8, second: u8, bytes: &[u8]) -> Option<Parts<'_>>
    ensures found { IfSome result (λ parts. (contents : Contents) × FieldShapes first second bytes.now contents × ShowsParts parts contents) }
    ensures none { IfNone result ((contents : Contents) → FieldShapes first second bytes.now contents → ⊥) }
{
    let (stamp, rest) = where_set(first / 2 % 2 == 1, bytes)?;
    let (id, rest) = where_set(first / 8 % 2 == 1, rest)?;
    let (tags, rest) = where_set(second / 128 % 2 == 1, rest)?;
    let (mime, rest) = where_set(second / 32 % 2 == 1, rest)?;
    let (file, rest) = where_set(second / 64 % 2 == 1, rest)?;
    let (route, rest) = where_set(first / 4 % 2 == 1, rest)?;
    if !rest.is_empty() {
        return None;
    }
    Some(Parts {
        stamp,
        id,
        tags,
        mime,
        file,
        route,
    })
}
