//! Texts by number.
ghost use Rattle.std.specs.Prelude.{◌≡◌, ◌<◌, ◌^◌, [], Some, length, IfOk, OnOk, OnErr};
ghost use Rattle.std.specs.List.{slice_get};
ghost use Rattle.std.specs.Option.{option_copied};
ghost use Rattle.circ_theory.specs.Names.{AreDifferent};
ghost use Rattle.circ_mixfix.specs.WordLists.{IsNumber, with_text};

use indexmap::IndexSet;
use std::alloc::{AllocError, Global};
use std::marker::Model;

// Different texts, numbered from 0 in the order in which they were added.
#[derive(Drop)]
pub struct Words<'a> {
    texts: IndexSet<&'a [u8]>,
}

impl<'a> Model for Words<'a> {
    ghost use Rattle.std.specs.Prelude.{List, ℕ, map};
    ghost use Rattle.circ_theory.specs.Names.{AreDifferent};

    ghost Value = { List (List ℕ) };

    ghost view = { λ a. map (λ k. k.now) a.texts.keys };

    ghost invariant = { λ a. AreDifferent (map (λ k. k.now) a.texts.keys) };
}

impl<'a> Words<'a> {
    // No text.
    pub fn new(alloc: Global) -> Words<'a>
        ensures { result ≡ [] }
    {
        Words {
            texts: IndexSet::new(alloc),
        }
    }

    // Does nothing. Its contract is the law that the texts are different.
    pub fn known(&self)
        ensures { AreDifferent self.now }
    {
        let _ = &self.texts;
    }

    // How many texts there are.
    pub fn count(&self) -> usize
        ensures count { result ≡ length self.now }
        ensures small { result < 2 ^ 63 }
    {
        self.texts.len()
    }

    // A text by its number.
    pub fn text(&self, number: usize) -> Option<&'a [u8]>
        ensures { option_copied result ≡ slice_get self.now number }
    {
        match self.texts.get_index(number) {
            Some(text) => Some(*text),
            None => None,
        }
    }

    // The number of a text.
    pub fn number(&self, text: &[u8]) -> Option<usize>
        ensures { IsNumber self.now text.now result }
    {
        match self.texts.get_index_of(text) {
            Some(number) => Some(number),
            None => None,
        }
    }

    // The number of a text, which is added if it is not there.
    pub fn add(&mut self, text: &'a [u8]) -> Result<usize, AllocError>
        ensures added { OnOk result (self.new ≡ with_text self.old text.now) }
        ensures number { IfOk result (λ n. slice_get self.new n ≡ Some text.now) }
        ensures err { OnErr result (self.new ≡ self.old) }
    {
        if let Some(number) = self.number(text) {
            return Ok(number);
        }
        let number = self.count();
        self.texts.insert(text)?;
        Ok(number)
    }
}
