// The words that name the folder to work in.
ghost use Rattle.std.specs.Prelude.{◌≡◌, [], ◌∷◌, ◌++◌, List, ℕ, IfOk, OnOk, None, option_map, string_bytes};
ghost use Rattle.help_texts.specs.declared.folder_words.Turn.TheVariants.{Face};
ghost use Rattle.help_texts.specs.Asking.{words_as_bytes};
ghost use Rattle.help_texts.specs.Folder.{kept_words, named_folder};
ghost use Rattle.help_texts.specs.Parting.{turn_behind, kept_with, folder_with};

use crate::testr_help::has_commands;
use std::alloc::{AllocError, Global};

/// Words, and the folder that was named beside them.
#[derive(Drop)]
pub struct Parted {
    /// The words without those that name the folder.
    pub words: Vec<String>,
    /// The folder, where one was named.
    pub folder: Option<String>,
}

/// Takes each `-d` and its value out of the words of `testr` or `stestr`, up to a word `--`. The value of the last one is the folder.
/// The words of another face stay as they are.
pub fn take_folder_words(alloc: Global, words: &[String]) -> Result<Parted, AllocError>
    ensures words { IfOk result (λ parted. words_as_bytes parted.words.items ≡ kept_words (words_as_bytes words.now)) }
    ensures folder { IfOk result (λ parted. option_map string_bytes parted.folder ≡ named_folder (words_as_bytes words.now)) }
{
    let mut parting = Parting::new(alloc);
    for word in words {
        parting.take(word.as_str())?;
    }
    parting.finish()
}

// What the next word may be.
#[derive(Clone, Copy)]
enum Turn {
    // The face.
    Face,
    // A word, or the option.
    Any,
    // The value of the option.
    Value,
    // A word, whatever it is.
    Plain,
}

// What the words so far are, and what the next one may be.
#[derive(Drop)]
struct Parting {
    alloc: Global,
    words: Vec<String>,
    folder: Option<String>,
    turn: Turn,
}

impl Parting {
    fn new(alloc: Global) -> Self
        ensures words { result.words.items ≡ [] }
        ensures folder { result.folder ≡ None }
        ensures turn { result.turn ≡ Face }
    {
        Parting {
            alloc,
            words: Vec::new(alloc),
            folder: None,
            turn: Turn::Face,
        }
    }

    // Takes the next word.
    fn take(&mut self, word: &str) -> Result<(), AllocError>
        ensures words { OnOk result ((rest : List (List ℕ)) → kept_with self.new rest ≡ kept_with self.old (word.now ∷ rest)) }
        ensures folder { OnOk result ((rest : List (List ℕ)) → folder_with self.new rest ≡ folder_with self.old (word.now ∷ rest)) }
    {
        match self.turn {
            Turn::Face => self.keep(word, behind(Turn::Face, word)),
            Turn::Any if word == "-d" => {
                self.turn = Turn::Value;
                Ok(())
            }
            Turn::Any => self.keep(word, behind(Turn::Any, word)),
            Turn::Value => {
                self.folder = Some(String::from_str(self.alloc, word)?);
                self.turn = Turn::Any;
                Ok(())
            }
            Turn::Plain => self.keep(word, Turn::Plain),
        }
    }

    // Hands the word on.
    fn keep(&mut self, word: &str, turn: Turn) -> Result<(), AllocError>
        ensures words { OnOk result (words_as_bytes self.new.words.items ≡ words_as_bytes self.old.words.items ++ word.now ∷ []) }
        ensures folder { self.new.folder ≡ self.old.folder }
        ensures turn { OnOk result (self.new.turn ≡ turn) }
    {
        self.words.push(String::from_str(self.alloc, word)?)?;
        self.turn = turn;
        Ok(())
    }

    // All words were taken. The option without a value is a word.
    fn finish(mut self) -> Result<Parted, AllocError>
        ensures words { IfOk result (λ parted. words_as_bytes parted.words.items ≡ kept_with self []) }
        ensures folder { IfOk result (λ parted. option_map string_bytes parted.folder ≡ folder_with self []) }
    {
        if matches!(self.turn, Turn::Value) {
            self.words.push(String::from_str(self.alloc, "-d")?)?;
        }
        Ok(Parted {
            words: self.words,
            folder: self.folder,
        })
    }
}

// What may come behind this word, which is handed on.
fn behind(turn: Turn, word: &str) -> Turn
    ensures { result ≡ turn_behind turn word.now }
{
    match turn {
        Turn::Face if has_commands(word) => Turn::Any,
        Turn::Any if word != "--" => Turn::Any,
        _ => Turn::Plain,
    }
}
