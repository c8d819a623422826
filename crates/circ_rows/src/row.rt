//! A row of a table: a run of the program, and what must come of it.
ghost use Rattle.std.specs.Prelude.{◌<◌};

use crate::part::{PART, Part};
use circ_outer::{MemoryShelf, MemorySink};
use circ_top::{Status, circ};
use std::alloc::{AllocError, Global};
use std::str;

/// The kinds of parts of a run:
/// - `circ WORDS`, the words behind the program's name, and `word TEXT`, one more, blanks and all;
/// - `file NAME`, what a name holds;
/// - `pieces COUNT` and `writes COUNT`, how many bytes a call of the shelf or of the sink moves at
///   most;
/// - `shelf CALL` and `sink CALL`, a call that fails.
const RUN: [&str; 7] = ["circ", "word", "file", "pieces", "writes", "shelf", "sink"];

/// The kinds of parts of what must come:
/// - `prints NUMBER`, the number of the answer, and the text; `ends NUMBER`, the number alone;
/// - `counts NUMBER`, the number that the answer carries and the text does not show;
/// - `stores NAME`, what a name must hold, and `lacks NAME`, a name that must hold nothing.
///
/// Behind each part `times COUNT` and `then` add to its text: what is below, so many times or once.
/// In what is added by `times` each `#` stands for the number of the copy, from 0.
const ANSWER: [&str; 5] = ["prints", "ends", "counts", "stores", "lacks"];

/// How many bytes a call moves at most, where a row does not say it.
const MOST: u64 = 65_536;

/// A row of a table. Of two parts of a kind the later counts, where only one can.
#[derive(Drop)]
pub struct Row<'a> {
    pub parts: Vec<Part<'a>>,
}

/// The number that the answer carries and the printed text does not show.
pub fn count(status: &Status) -> u64 {
    match status {
        Status::TooLong { count, .. }
        | Status::ReadFault { count }
        | Status::WriteFault { count } => *count,
        Status::Stuck { goal, .. } => *goal,
        Status::Differ { length } => *length,
        Status::Expansion { units } => *units,
        _ => 0,
    }
}

impl<'a> Row<'a> {
    /// A row of no part.
    pub fn new(alloc: Global) -> Row<'a> {
        Row {
            parts: Vec::new(alloc),
        }
    }

    /// Takes the parts of a text.
    pub fn read(&mut self, alloc: Global, text: &'a str) -> Result<(), AllocError> {
        for text in text.split(PART).skip(1) {
            self.take(alloc, Part::of(alloc, text)?)?;
        }
        Ok(())
    }

    fn take(&mut self, alloc: Global, part: Part<'a>) -> Result<(), AllocError> {
        match (part.kind, self.parts.last_mut()) {
            ("times", Some(last)) => last.add(alloc, part.text.as_str(), part.number()),
            ("then", Some(last)) => last.text.push_str(part.text.as_str()),
            _ => Ok(self.parts.push(part)?),
        }
    }

    /// Runs the program. Answers the number with which it ended, or what is not as it must be. A
    /// row that says neither how many bytes a call of the shelf moves nor which one fails is run
    /// with pieces of 7 bytes and of 1 byte too.
    pub fn outcome(&self, alloc: Global) -> Result<String, AllocError> {
        if let Some(part) = self.unknown() {
            return format!(in alloc; "has a part {}, which is none", part.kind);
        }
        let outcome = self.run(alloc, self.most("pieces"))?;
        if self.last("pieces").is_some() || self.last("shelf").is_some() {
            return Ok(outcome);
        }
        let sevens = self.run(alloc, 7)?;
        let ones = self.run(alloc, 1)?;
        if sevens != outcome || ones != outcome {
            return format!(in alloc; "{outcome}\nin pieces of 7: {sevens}\nof 1: {ones}");
        }
        Ok(outcome)
    }

    /// The same, where a call of the shelf moves so many bytes at most.
    fn run(&self, alloc: Global, most: usize) -> Result<String, AllocError>
        requires { 0 < most }
    {
        let mut shelf = self.shelf(alloc, most)?;
        self.run_on(alloc, &mut shelf)
    }

    fn run_on(&self, alloc: Global, shelf: &mut MemoryShelf) -> Result<String, AllocError> {
        let mut sink = self.sink(alloc)?;
        let status = self.run_to(alloc, shelf, &mut sink)?;
        self.told(alloc, &status, shelf, sink.bytes())
    }

    fn run_to(
        &self,
        alloc: Global,
        shelf: &mut MemoryShelf,
        sink: &mut MemorySink,
    ) -> Result<Status, AllocError> {
        let words = self.words(alloc)?;
        Ok(circ(alloc, &words, shelf, sink))
    }

    /// A part of no kind.
    fn unknown(&self) -> Option<&Part<'a>> {
        self.parts.iter().find(|part| !RUN.contains(&part.kind) && !ANSWER.contains(&part.kind))
    }

    /// The last part of this kind.
    pub fn last(&self, kind: &str) -> Option<&Part<'a>> {
        let mut last = None;
        for part in &self.parts {
            if part.kind == kind {
                last = Some(part);
            }
        }
        last
    }

    /// How many bytes a call moves at most, by a part of this kind.
    fn most(&self, kind: &str) -> usize
        ensures { 0 < result }
    {
        let most = self.last(kind).map_or(MOST, |part| part.number());
        usize::try_from(most).unwrap_or(1).max(1)
    }

    /// The program's name, and the words behind it.
    pub fn words(&self, alloc: Global) -> Result<Vec<String>, AllocError> {
        let mut words = Vec::new(alloc);
        push_word(alloc, &mut words, "circ")?;
        self.put_words(alloc, &mut words)?;
        Ok(words)
    }

    fn put_words(&self, alloc: Global, words: &mut Vec<String>) -> Result<(), AllocError> {
        let line = self.last("circ").map_or("", |part| part.name);
        for word in line.split_ascii_whitespace() {
            push_word(alloc, words, word)?;
        }
        for part in &self.parts {
            if part.kind == "word" {
                push_word(alloc, words, part.name)?;
            }
        }
        Ok(())
    }

    /// The files that the program finds, and the calls that fail.
    pub fn shelf(&self, alloc: Global, most: usize) -> Result<MemoryShelf, AllocError>
        requires { 0 < most }
    {
        let mut shelf = MemoryShelf::new(alloc, most);
        self.place_all(&mut shelf)?;
        Ok(shelf)
    }

    fn place_all(&self, shelf: &mut MemoryShelf) -> Result<(), AllocError> {
        for part in &self.parts {
            part.place(shelf)?;
        }
        Ok(())
    }

    /// The sink that takes the program's text, and the calls that fail.
    fn sink(&self, alloc: Global) -> Result<MemorySink, AllocError> {
        let mut sink = MemorySink::new(alloc, self.most("writes"));
        for part in &self.parts {
            if part.kind == "sink" {
                sink.fail_at(part.number())?;
            }
        }
        Ok(sink)
    }

    /// The number of an answer, or what is not as it must be.
    fn told(
        &self,
        alloc: Global,
        status: &Status,
        shelf: &MemoryShelf,
        text: &[u8],
    ) -> Result<String, AllocError> {
        let number = u64::from(status.number());
        if !self.is_answered(number, text) {
            let text = str::from_utf8(text).unwrap_or("");
            return format!(in alloc; "prints {number}\n{text}");
        }
        if self
            .last("counts")
            .is_some_and(|part| part.number() != count(status))
        {
            return format!(in alloc; "counts {}", count(status));
        }
        match self.parts.iter().find(|part| !part.is_kept(shelf)) {
            Some(part) => format!(in alloc; "does not keep {} as it must", part.name),
            None => format!(in alloc; "{number}"),
        }
    }

    /// Whether an answer of this number and this text is the one that must come.
    pub fn is_answered(&self, number: u64, text: &[u8]) -> bool {
        let mut is = false;
        for part in &self.parts {
            match part.kind {
                "prints" => is = part.number() == number && part.text.as_bytes() == text,
                "ends" => is = part.number() == number,
                _ => {}
            }
        }
        is
    }
}

/// Appends a word.
fn push_word(alloc: Global, words: &mut Vec<String>, word: &str) -> Result<(), AllocError> {
    let word = String::from_str(alloc, word)?;
    Ok(words.push(word)?)
}

impl<'a> Part<'a> {
    /// Puts the file or the call that fails, which the part says, onto a shelf.
    fn place(&self, shelf: &mut MemoryShelf) -> Result<(), AllocError> {
        match self.kind {
            "file" => shelf.add(self.name, self.text.as_bytes()),
            "shelf" => shelf.fail_at(self.number()),
            _ => Ok(()),
        }
    }

    /// Whether a name holds what it must, where the part says it.
    pub fn is_kept(&self, shelf: &MemoryShelf) -> bool {
        match self.kind {
            "stores" => shelf.get(self.name) == Some(self.text.as_bytes()),
            "lacks" => shelf.get(self.name).is_none(),
            _ => true,
        }
    }
}
