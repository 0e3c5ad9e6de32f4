// The words that name the file that a filter writes.
ghost use Rattle.std.specs.Prelude.{◌≡◌, [], ◌∷◌, ◌++◌, List, ℕ, IfOk, OnOk, None, Some, option_map, string_bytes, if◌then◌else◌};
ghost use Rattle.help_texts.specs.declared.output_words.Place.TheVariants.{Front, Any as AnyWord, Plain as PlainWord};
ghost use Rattle.help_texts.specs.Asking.{words_as_bytes, is_one_of};
ghost use Rattle.help_texts.specs.Output as output;
ghost use Rattle.help_texts.specs.PartingOutput.{all_kept, file_of_all};

use std::alloc::{AllocError, Global};

/// Words, and the file that was named beside them.
#[derive(Drop)]
pub struct Aimed {
    /// The words without those that name the file.
    pub words: Vec<String>,
    /// The file, where one was named.
    pub file: Option<String>,
}

/// Takes each `-o` and `--output-to` with its value out of the words of a filter that has this option. The value of the last
/// one is the file. The words of another face stay as they are.
pub fn take_output_words(alloc: Global, words: &[String]) -> Result<Aimed, AllocError>
    ensures words { IfOk result (λ aimed. words_as_bytes aimed.words.items ≡ output.words_without_output (words_as_bytes words.now)) }
    ensures file { IfOk result (λ aimed. option_map string_bytes aimed.file ≡ output.output_file (words_as_bytes words.now)) }
{
    let mut parting = PartingOutput::new(alloc);
    for word in words {
        parting.take(word.as_str())?;
    }
    parting.finish()
}

// Whether it is a filter that has the option.
fn has_output(face: &str) -> bool
    ensures { result ≡ is_one_of output.with_output face.now }
{
    match face {
        "subunit-filter"
        | "subunit-ls"
        | "subunit-stats"
        | "subunit-trace"
        | "tap2subunit"
        | "subunit2tap"
        | "subunit2csv"
        | "subunit2junitxml"
        | "subunit-1to2"
        | "subunit-2to1" => { true }
        _ => false,
    }
}

// The file that is joined to the option.
fn joined_file(word: &str) -> Option<&str>
    ensures { option_map (λ file. file.now) result ≡ output.joined_file word.now }
{
    if word == "-o" || word == "--output-to" {
        return None;
    }
    either_file(word)
}

// The same of a word that has no value behind it.
fn either_file(word: &str) -> Option<&str>
    ensures { option_map (λ file. file.now) result ≡ output.either_file word.now }
{
    match word.strip_prefix("-o") {
        Some(file) => Some(file),
        None => long_file(word),
    }
}

// The file that is joined to the long option.
fn long_file(word: &str) -> Option<&str>
    ensures { option_map (λ file. file.now) result ≡ output.long_file word.now }
{
    match word.strip_prefix("--output-to=") {
        Some(file) => Some(file),
        None => None,
    }
}

// What the next word may be.
#[derive(Clone, Copy)]
enum Place {
    // The filter's name.
    Front,
    // A word, or the option.
    Any,
    // The value of `-o`.
    Letter,
    // The value of `--output-to`.
    Long,
    // A word, whatever it is.
    Plain,
}

// What the words so far are, and what the next one may be.
#[derive(Drop)]
struct PartingOutput {
    alloc: Global,
    words: Vec<String>,
    file: Option<String>,
    place: Place,
}

impl PartingOutput {
    fn new(alloc: Global) -> Self
        ensures words { result.words.items ≡ [] }
        ensures file { result.file ≡ None }
        ensures place { result.place ≡ Front }
    {
        PartingOutput {
            alloc,
            words: Vec::new(alloc),
            file: None,
            place: Place::Front,
        }
    }

    // Takes the next word.
    fn take(&mut self, word: &str) -> Result<(), AllocError>
        ensures words { OnOk result ((rest : List (List ℕ)) → all_kept self.new rest ≡ all_kept self.old (word.now ∷ rest)) }
        ensures file { OnOk result ((rest : List (List ℕ)) → file_of_all self.new rest ≡ file_of_all self.old (word.now ∷ rest)) }
    {
        match self.place {
            Place::Front => self.keep(word, behind_name(word)),
            Place::Any => self.take_any(word),
            Place::Letter | Place::Long => self.aim(word),
            Place::Plain => self.keep(word, Place::Plain),
        }
    }

    // Takes a word that may be the option.
    fn take_any(&mut self, word: &str) -> Result<(), AllocError>
        requires { self.old.place ≡ AnyWord }
        ensures words { OnOk result ((rest : List (List ℕ)) → all_kept self.new rest ≡ all_kept self.old (word.now ∷ rest)) }
        ensures file { OnOk result ((rest : List (List ℕ)) → file_of_all self.new rest ≡ file_of_all self.old (word.now ∷ rest)) }
    {
        if word == "-o" {
            self.place = Place::Letter;
            return Ok(());
        }
        if word == "--output-to" {
            self.place = Place::Long;
            return Ok(());
        }
        match joined_file(word) {
            Some(file) => self.aim(file),
            None => self.keep(word, Place::Any),
        }
    }

    // Hands the word on.
    fn keep(&mut self, word: &str, place: Place) -> Result<(), AllocError>
        ensures words { OnOk result (words_as_bytes self.new.words.items ≡ words_as_bytes self.old.words.items ++ word.now ∷ []) }
        ensures file { self.new.file ≡ self.old.file }
        ensures place { OnOk result (self.new.place ≡ place) }
    {
        self.words.push(String::from_str(self.alloc, word)?)?;
        self.place = place;
        Ok(())
    }

    // This is the file, until another one is named.
    fn aim(&mut self, file: &str) -> Result<(), AllocError>
        ensures words { self.new.words ≡ self.old.words }
        ensures file { OnOk result (option_map string_bytes self.new.file ≡ Some file.now) }
        ensures place { OnOk result (self.new.place ≡ AnyWord) }
    {
        self.file = Some(String::from_str(self.alloc, file)?);
        self.place = Place::Any;
        Ok(())
    }

    // All words were taken. An option without a value is a word.
    fn finish(mut self) -> Result<Aimed, AllocError>
        ensures words { IfOk result (λ aimed. words_as_bytes aimed.words.items ≡ all_kept self []) }
        ensures file { IfOk result (λ aimed. option_map string_bytes aimed.file ≡ file_of_all self []) }
    {
        match self.place {
            Place::Letter => self.words.push(String::from_str(self.alloc, "-o")?)?,
            Place::Long => self
                .words
                .push(String::from_str(self.alloc, "--output-to")?)?,
            _ => {}
        }
        Ok(Aimed {
            words: self.words,
            file: self.file,
        })
    }
}

// What may come behind the filter's name.
fn behind_name(face: &str) -> Place
    ensures { result ≡ if is_one_of output.with_output face.now then AnyWord else PlainWord }
{
    if has_output(face) {
        Place::Any
    } else {
        Place::Plain
    }
}
