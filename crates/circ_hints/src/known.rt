//! What the statements before a place declare, by their words alone.
use crate::drawing::{Place, bytes_at, rest_from};
use crate::parts::{Part, first, is, is_either, next};
use crate::unreadable_hint::Source;
use circ_lexer::Tokens;
use circ_lib::lookup;
use indexmap::IndexSet;
use std::alloc::{AllocError, Global};

/// The names that are declared.
#[derive(Drop)]
pub(crate) struct Known<'a> {
    /// The names of sorts.
    sorts: IndexSet<&'a [u8]>,
    /// The names of variables, and the words of the operators' forms.
    words: IndexSet<&'a [u8]>,
}

impl<'a> Known<'a> {
    /// What is declared before a token of a text, in a script also by the theory.
    pub fn before(
        alloc: Global,
        source: &Source<'a>,
        tokens: &Tokens<'a>,
        end: usize,
    ) -> Result<Box<Known<'a>>, AllocError> {
        let mut known = Known::new(alloc)?;
        match known.add_all(alloc, source, tokens, end) {
            Ok(()) => Ok(known),
            Err(fault) => Err(fault),
        }
    }

    /// Nothing.
    fn new(alloc: Global) -> Result<Box<Known<'a>>, AllocError> {
        let known = Known {
            sorts: IndexSet::new(alloc),
            words: IndexSet::new(alloc),
        };
        Ok(Box::new(alloc, known)?)
    }

    /// Whether a sort is declared.
    pub fn has_sort(&self, name: &[u8]) -> bool {
        self.sorts.contains(name)
    }

    /// Whether a variable or a word of an operator is declared.
    pub fn has_word(&self, name: &[u8]) -> bool {
        self.words.contains(name)
    }

    /// The sort that so many were declared before.
    pub fn sort(&self, number: u32) -> Option<&'a [u8]> {
        self.sorts.get_index(number as usize).copied()
    }

    /// Adds what the theory of a script declares, and then what the text does before a token.
    fn add_all(
        &mut self,
        alloc: Global,
        source: &Source<'a>,
        tokens: &Tokens<'a>,
        end: usize,
    ) -> Result<(), AllocError> {
        if let Ok(theory) = Tokens::of(alloc, source.theory) {
            self.add_before(alloc, &theory, theory.count())?;
        }
        self.add_before(alloc, tokens, end)
    }

    /// Adds what the statements declare that end before a token, and the texts that they include.
    fn add_before(
        &mut self,
        alloc: Global,
        tokens: &Tokens<'a>,
        end: usize,
    ) -> Result<(), AllocError> {
        let mut from = 0;
        for n in 0..end {
            if ends_statement(tokens, n, from) {
                let part = part_between(behind_parentheses(tokens, from), n);
                self.declare(tokens, part)?;
                self.include(alloc, tokens, part)?;
                from = next(n);
            }
        }
        Ok(())
    }

    /// Adds what a text of the library declares, if the statement includes one: all but its
    /// variables.
    fn include(
        &mut self,
        alloc: Global,
        tokens: &Tokens<'_>,
        part: Part,
    ) -> Result<(), AllocError> {
        let Some(text) = included(tokens, part) else {
            return Ok(());
        };
        match Tokens::of(alloc, text) {
            Ok(inside) => self.add_library(&inside),
            Err(_) => Ok(()),
        }
    }

    fn add_library(&mut self, tokens: &Tokens<'a>) -> Result<(), AllocError> {
        let mut from = 0;
        for n in 0..tokens.count() {
            if ends_statement(tokens, n, from) {
                if !is(tokens, from, b"var") && !is(tokens, from, b"vars") {
                    self.declare(tokens, part_between(from, n))?;
                }
                from = next(n);
            }
        }
        Ok(())
    }

    /// Adds what a statement declares.
    fn declare(&mut self, tokens: &Tokens<'a>, part: Part) -> Result<(), AllocError> {
        let from = part.nth(1);
        let to = first(tokens, part.from, part.to, b":").unwrap_or(part.to);
        if is_either(tokens, part.from, b"sort", b"sorts") {
            return add_names(&mut self.sorts, tokens, from, to);
        }
        if is_either(tokens, part.from, b"var", b"vars") {
            return add_names(&mut self.words, tokens, from, to);
        }
        if is_either(tokens, part.from, b"op", b"ops") {
            return add_forms(&mut self.words, tokens, from, to);
        }
        Ok(())
    }
}

/// The first token from one on that is neither the end of an item in parentheses nor the begin of
/// one.
fn behind_parentheses(tokens: &Tokens<'_>, from: usize) -> usize {
    let begin = if is(tokens, from, b")") {
        next(from)
    } else {
        from
    };
    if is(tokens, begin, b"(") {
        next(begin)
    } else {
        begin
    }
}

/// The statement between two tokens, of which the second ends it.
fn part_between(from: usize, to: usize) -> Part {
    Part {
        from,
        to,
        is_ended: true,
    }
}

/// Whether a statement that begins with a token ends at another one.
fn ends_statement(tokens: &Tokens<'_>, number: usize, from: usize) -> bool {
    is(tokens, number, b".") || (from == 0 && is(tokens, number, b"is"))
}

/// The text of the library that a statement includes.
fn included(tokens: &Tokens<'_>, part: Part) -> Option<&'static [u8]> {
    let is_inclusion = is_either(tokens, part.from, b"inc", b"including")
        || is_either(tokens, part.from, b"pr", b"protecting");
    if !is_inclusion {
        return None;
    }
    lookup(tokens.token(part.nth(1))?)
}

/// Adds the tokens of a range.
fn add_names<'a>(
    names: &mut IndexSet<&'a [u8]>,
    tokens: &Tokens<'a>,
    from: usize,
    to: usize,
) -> Result<(), AllocError> {
    for number in from..to {
        if let Some(name) = tokens.token(number) {
            names.insert(name)?;
        }
    }
    Ok(())
}

/// Adds the words of the forms that the tokens of a range spell.
fn add_forms<'a>(
    words: &mut IndexSet<&'a [u8]>,
    tokens: &Tokens<'a>,
    from: usize,
    to: usize,
) -> Result<(), AllocError> {
    for number in from..to {
        if let Some(token) = tokens.token(number) {
            add_pieces(words, token)?;
        }
    }
    Ok(())
}

/// Adds what stands between the holes of a form.
fn add_pieces<'a>(words: &mut IndexSet<&'a [u8]>, form: &'a [u8]) -> Result<(), AllocError> {
    let mut at = 0;
    for n in 0..form.len() {
        if form[n] == b'_' {
            let width = n.saturating_sub(at);
            words.insert(bytes_at(form, Place { at, width }))?;
            at = next(n);
        }
    }
    words.insert(rest_from(form, at))?;
    Ok(())
}
