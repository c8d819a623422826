//! How far a term reads.
use crate::conditions::{MOST_CONDITIONS, behind_terms, has_conditions};
use crate::declared::{declared_before, read_ended};
use crate::marks::Mark;
use crate::parts::{Part, first, is, next, outside};
use crate::terms::NO_TERM;
use crate::unreadable_hint::Source;
use circ_lexer::{Span, Tokens};
use circ_mixfix::{MOST_TOKENS, ParseFault, Reading, parse_one_declared, parse_pair_declared};
use circ_theory::Theory;
use std::alloc::{AllocError, Global};

/// As many readings are tried of one term at most.
const MOST_TRIES: usize = 64;

/// The tokens that are read again times the operators that their words may begin: a tenth of a
/// second's work, so that a term that is hard to read is tried less often, and the hardest not at
/// all.
const MOST_WORK: usize = 8_000_000;

/// The terms of a statement or an item, and in what they are read.
#[derive(Clone, Copy)]
struct Reader<'a> {
    alloc: Global,
    theory: &'a Theory,
    tokens: &'a Tokens<'a>,
    /// Whether `*:X` is a hole.
    hole: bool,
}

/// The mark behind the longest part of a term that reads, where the terms of a statement or an item
/// begin with a token. None where what is declared before it does not read, or each term does.
pub(crate) fn unread_behind(
    alloc: Global,
    source: &Source<'_>,
    tokens: &Tokens<'_>,
    part: Part,
    from: usize,
) -> Result<Option<Mark>, AllocError> {
    let text = declared_before(alloc, source, tokens, part)?;
    match read_ended(alloc, text) {
        Ok(theory) => unread_in(alloc, &theory, tokens, part, from),
        Err(_) => Ok(None),
    }
}

/// The same in a theory of what is declared before the part.
fn unread_in(
    alloc: Global,
    theory: &Theory,
    tokens: &Tokens<'_>,
    part: Part,
    from: usize,
) -> Result<Option<Mark>, AllocError> {
    let reader = Reader {
        alloc,
        theory,
        tokens,
        hole: is(tokens, part.from, b"derivative"),
    };
    let end = behind_terms(tokens, part);
    if has_conditions(tokens, part) {
        reader.unread_conditional(from, end)
    } else {
        reader.unread_pair(from, end)
    }
}

impl Reader<'_> {
    /// The mark of the equation or the first of its conditions that does not read.
    fn unread_conditional(&self, from: usize, end: usize) -> Result<Option<Mark>, AllocError> {
        let mut begin = from;
        let mut to = outside(self.tokens, from, end, b"if").unwrap_or(end);
        for _ in 0..=MOST_CONDITIONS {
            if let Some(mark) = self.unread_pair(begin, to)? {
                return Ok(Some(mark));
            }
            if to >= end {
                break;
            }
            begin = next(to);
            to = outside(self.tokens, begin, end, b"/\\").unwrap_or(end);
        }
        Ok(None)
    }

    /// The mark of the first of two sides that does not read, or of one term.
    fn unread_pair(&self, from: usize, to: usize) -> Result<Option<Mark>, AllocError> {
        if self.most_tries(from, to) == 0 {
            return Ok(Some(Mark::at(from, NO_TERM)));
        }
        match first(self.tokens, from, to, b"=") {
            Some(equals) => self.unread_sides(from, equals, to),
            None => self.unread_term(from, to),
        }
    }

    /// The mark of the first of two sides that does not read, or of both.
    fn unread_sides(
        &self,
        from: usize,
        sign: usize,
        to: usize,
    ) -> Result<Option<Mark>, AllocError> {
        match self.unread_term(from, sign) {
            Ok(None) => self.unread_right(from, sign, to),
            done => done,
        }
    }

    /// The mark of the right side, or of both.
    fn unread_right(
        &self,
        from: usize,
        sign: usize,
        to: usize,
    ) -> Result<Option<Mark>, AllocError> {
        match self.unread_term(next(sign), to) {
            Ok(None) => self.unread_both(from, sign, to),
            done => done,
        }
    }

    /// The mark of two sides that are not of one sort.
    fn unread_both(&self, from: usize, sign: usize, to: usize) -> Result<Option<Mark>, AllocError> {
        let says = "each side spells a term, but not both of one sort";
        match self.reads_pair(from, sign, to) {
            Ok(true) => Ok(None),
            Ok(false) => Ok(Some(Mark::at(from, says))),
            Err(fault) => Err(fault),
        }
    }

    /// The mark of a term that does not read: behind the longest part of it that does, or where it
    /// begins.
    fn unread_term(&self, from: usize, to: usize) -> Result<Option<Mark>, AllocError> {
        if to <= from {
            return Ok(Some(Mark::behind(from.saturating_sub(1), "a term is expected here")));
        }
        match self.reads(from, to) {
            Ok(true) => Ok(None),
            Ok(false) => self.unread_rest(from, to),
            Err(fault) => Err(fault),
        }
    }

    /// The mark behind the longest part of a term that reads, or where the term begins.
    fn unread_rest(&self, from: usize, to: usize) -> Result<Option<Mark>, AllocError> {
        match self.longest(from, to) {
            Ok(Some(end)) => Ok(Some(mark_behind(end, to))),
            Ok(None) => Ok(Some(Mark::at(from, NO_TERM))),
            Err(fault) => Err(fault),
        }
    }

    /// Where the longest part of a term ends that reads.
    fn longest(&self, from: usize, to: usize) -> Result<Option<usize>, AllocError> {
        let mut end = to.saturating_sub(1).min(from.saturating_add(MOST_TOKENS));
        for _ in 0..self.most_tries(from, end) {
            if end <= from {
                return Ok(None);
            }
            if self.reads(from, end)? {
                return Ok(Some(end));
            }
            end = end.saturating_sub(1);
        }
        Ok(None)
    }

    /// So many parts of a term are tried.
    fn most_tries(&self, from: usize, to: usize) -> usize {
        let mut operators: usize = 0;
        for number in from..to {
            if let Some(word) = self.tokens.token(number) {
                operators = operators.saturating_add(self.theory.ops_by_word(word).len());
            }
        }
        let work = to.saturating_sub(from).saturating_mul(operators);
        MOST_WORK
            .checked_div(work)
            .unwrap_or(MOST_TRIES)
            .min(MOST_TRIES)
    }

    /// Whether the tokens of a range spell a term.
    fn reads(&self, from: usize, to: usize) -> Result<bool, AllocError> {
        if to < from || self.tokens.count() < to {
            return Ok(false);
        }
        let span = Span { from, to };
        is_read(parse_one_declared(self.alloc, self.theory, self.tokens, span, self.hole))
    }

    /// Whether the tokens of two ranges round a sign spell two terms of one sort.
    fn reads_pair(&self, from: usize, sign: usize, to: usize) -> Result<bool, AllocError> {
        let begin = next(sign);
        if sign < from || to <= sign || to < begin || self.tokens.count() < to {
            return Ok(false);
        }
        let left = Span { from, to: sign };
        let right = Span { from: begin, to };
        is_read(parse_pair_declared(self.alloc, self.theory, self.tokens, left, right))
    }
}

/// Whether there is a reading, or several.
fn is_read(answer: Result<Reading, ParseFault>) -> Result<bool, AllocError> {
    match answer {
        Ok(_) => Ok(true),
        Err(ParseFault::Ambiguous { .. }) => Ok(true),
        Err(ParseFault::Memory) => Err(AllocError),
        Err(_) => Ok(false),
    }
}

/// The mark behind a part of a term that reads.
fn mark_behind(end: usize, to: usize) -> Mark {
    if end < to {
        Mark::naming(
            end,
            "what stands before it is a term, and does not go on with this",
        )
    } else {
        Mark::behind(end.saturating_sub(1), "more is expected behind this term")
    }
}
