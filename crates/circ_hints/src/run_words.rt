//! The words of a run, without its options.
use crate::unreadable_hint::SourceKind;
use std::alloc::AllocError;
use std::fmt::Write;

/// The words of a run, of which the first is the program's name.
#[derive(Clone, Copy)]
pub struct Asked<'a> {
    words: &'a [String],
}

impl<'a> Asked<'a> {
    /// What these words ask for.
    pub fn new(words: &'a [String]) -> Asked<'a> {
        Asked { words }
    }

    /// The command; empty if there is none.
    pub fn command(&self) -> &'a str {
        self.plain(0).unwrap_or("")
    }

    /// The name of a file, by its number from 1. The words of `regex` are no files.
    pub fn file(&self, number: u8) -> Option<&'a str> {
        if self.command() == "regex" {
            return None;
        }
        self.plain(usize::from(number))
    }

    /// A word of `regex`, by its number, 1 or 2.
    pub(crate) fn expression(&self, number: u8) -> Option<&'a str> {
        if self.command() == "regex" {
            self.plain(usize::from(number))
        } else {
            None
        }
    }

    /// Whether the command has just so many words.
    pub(crate) fn has_words(&self, count: usize) -> bool {
        self.plain(count).is_some() && self.plain(count.saturating_add(1)).is_none()
    }

    /// Whether the command has so many words, or more.
    pub(crate) fn has_at_least(&self, count: usize) -> bool {
        self.plain(count).is_some()
    }

    /// What a file is to be read as, by its number from 1.
    pub fn kind(&self, number: u8) -> SourceKind {
        match self.command() {
            "same" => SourceKind::Automaton,
            _ if number <= 1 => SourceKind::Theory,
            "reduce" => SourceKind::Terms,
            "prove" | "differ" | "trace" => SourceKind::Script,
            _ => SourceKind::Proof,
        }
    }

    /// Whether `--split` is there, by which cases make goals of others too.
    pub fn splits(&self) -> bool {
        self.has("--split")
    }

    /// Whether `--rewrite` is there, by which hypotheses are rules.
    pub(crate) fn rewrites(&self) -> bool {
        self.has("--rewrite")
    }

    /// Whether a flag is there.
    fn has(&self, flag: &str) -> bool {
        for n in 0..self.words.len() {
            if self.words[n].as_str() == flag {
                return true;
            }
        }
        false
    }

    /// The first word before `--` that looks like an option and is none.
    pub(crate) fn unknown_option(&self) -> Option<&'a str> {
        let mut is_value = false;
        for n in 1..self.words.len() {
            let word = self.words[n].as_str();
            if is_value {
                is_value = false;
                continue;
            }
            if word == "--" {
                return None;
            }
            if is_option(word) && !is_known(word) {
                return Some(word);
            }
            is_value = takes_value(word);
        }
        None
    }

    /// Appends the words of a command that takes those of this one, a `prove`: with the same
    /// options, and without the name of the proof.
    pub(crate) fn push_as(&self, out: &mut String, command: &str) -> Result<(), AllocError> {
        let mut count: u64 = 0;
        let mut walk = Walk::new();
        for n in 1..self.words.len() {
            let word = self.words[n].as_str();
            if walk.is_plain(word) {
                push_one_as(out, word, count, command)?;
                count = count.saturating_add(1);
            } else {
                push_word(out, word)?;
            }
        }
        Ok(())
    }

    /// Appends all words as they are.
    pub(crate) fn push_all(&self, out: &mut String) -> Result<(), AllocError> {
        for n in 1..self.words.len() {
            push_word(out, self.words[n].as_str())?;
        }
        Ok(())
    }

    /// The word that so many come before which are no options and none of their values.
    fn plain(&self, number: usize) -> Option<&'a str> {
        let mut left = number;
        let mut walk = Walk::new();
        for n in 1..self.words.len() {
            let word = self.words[n].as_str();
            if walk.is_plain(word) {
                if left == 0 {
                    return Some(word);
                }
                left = left.saturating_sub(1);
            }
        }
        None
    }
}

/// What the words so far say of the next one.
#[derive(Clone, Copy)]
struct Walk {
    /// Whether it is the value of an option.
    is_value: bool,
    /// Whether `--` came, behind which nothing is an option.
    all_plain: bool,
}

impl Walk {
    /// Before the first word.
    fn new() -> Walk {
        Walk {
            is_value: false,
            all_plain: false,
        }
    }

    /// Goes over a word, and says whether it is neither an option nor the value of one.
    fn is_plain(&mut self, word: &str) -> bool {
        if self.is_value {
            self.is_value = false;
            return false;
        }
        if self.all_plain || !is_option(word) {
            return true;
        }
        self.all_plain = word == "--";
        self.is_value = takes_value(word);
        false
    }
}

/// Appends a word of a `prove` before which so many stand, as a command takes it that makes no
/// proof.
fn push_one_as(out: &mut String, word: &str, count: u64, command: &str) -> Result<(), AllocError> {
    match count {
        0 => push_word(out, command),
        1 | 2 => push_word(out, word),
        _ => Ok(()),
    }
}

/// Appends a word behind a blank, between quotes where a shell would take it apart.
pub(crate) fn push_word(out: &mut String, word: &str) -> Result<(), AllocError> {
    if is_of_one_word(word.as_bytes()) {
        write!(out, " {word}")
    } else {
        write!(out, " '{word}'")
    }
}

/// Whether a shell takes the bytes as one word that says what stands there.
fn is_of_one_word(bytes: &[u8]) -> bool {
    for n in 0..bytes.len() {
        if !is_of_a_word(bytes[n]) {
            return false;
        }
    }
    !bytes.is_empty()
}

/// Whether a shell takes the byte as it stands.
fn is_of_a_word(byte: u8) -> bool {
    byte.is_ascii_alphanumeric() || b"-_./=:,+@%".contains(&byte)
}

/// Whether a word is an option, or looks like one.
fn is_option(word: &str) -> bool {
    word.len() > 1 && word.as_bytes().starts_with(b"-")
}

/// Whether there is an option or a flag of this word.
fn is_known(word: &str) -> bool {
    takes_value(word)
        || word == "--split"
        || word == "--rewrite"
        || word.starts_with("--steps=")
        || word.starts_with("--derives=")
}

/// Whether an option is followed by its value.
fn takes_value(word: &str) -> bool {
    word == "--steps" || word == "--derives"
}
