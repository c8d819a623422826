//! The readings of tokens.
ghost use Rattle.std.specs.Prelude.{◌≡◌, ◌≤◌, ◌-◌, ◌∷◌, [], ℕ, List, true, false, None, length};
ghost use Rattle.std.specs.Prelude.{IfOk};
ghost use Rattle.std.specs.List.{AllByRecursion};
ghost use Rattle.std.specs.Option.{option_or};
ghost use Rattle.circ_chart.specs.declared.TheConstants.{MOST_TOKENS};
ghost use Rattle.circ_lexer.specs.TokenList.{tokens_in, IsWithin};
ghost use Rattle.circ_mixfix.specs.Answers.{declared_by, HaveSorts, too_many, long_count};
ghost use Rattle.circ_mixfix.specs.Answers.{first_long, lists_in};
ghost use Rattle.circ_mixfix.specs.Answers.{ReadsOnly, ReadsBoth, GivesReading};
ghost use Rattle.circ_mixfix.specs.Choices.{KeepsSpelled, HaveNothing, HaveChosen, ReadsOn};
ghost use Rattle.circ_mixfix.specs.Found.{KeepsReadings, IsPairInOrder, AreTwosInOrder};
ghost use Rattle.circ_mixfix.specs.Found.{IsWithParameters, AreWithParameters, IsOneSorted};
ghost use Rattle.circ_mixfix.specs.Found.{ArePairSorted, AreTwosSorted, Tells};
ghost use Rattle.circ_mixfix.specs.Readings.{ReadsTwos};
ghost use Rattle.circ_mixfix.specs.Variables.{vars_in};

use crate::MOST_TOKENS;
use crate::choices::{Choices, add, chosen, no_choices};
use crate::few::{Few, Reading, readings_of_both, readings_of_one};
use crate::numbered::number_tokens;
use crate::variables::{Declarations, Scope};
use crate::words::Words;
use circ_chart::read_each_sort;
use circ_form::Text;
use circ_lexer::{Span, Tokens};
use circ_theory::Theory;
use std::alloc::{AllocError, Global};

/// Why tokens have no only reading.
#[derive(Drop)]
pub enum ParseFault {
    /// A side has more than [`MOST_TOKENS`](crate::MOST_TOKENS) tokens: how many the first such
    /// side has.
    TooLong { count: u64 },
    /// The tokens have no reading.
    NoParse,
    /// The tokens have several readings: two of them, the lesser first.
    Ambiguous { first: Reading, second: Reading },
    /// Memory ran out.
    Memory,
}

impl From<AllocError> for ParseFault {
    ghost use Rattle.std.specs.Prelude.{◌≡◌};
    ghost use Rattle.circ_mixfix.specs.declared.parse.ParseFault.TheVariants.{Memory};

    ghost from_gives = { λ _ e. e ≡ Memory };

    fn from(_: AllocError) -> ParseFault {
        ParseFault::Memory
    }
}

// How many tokens the span has, where that is too many.
fn long_count(span: Span) -> Option<u64>
    requires { span.from ≤ span.to }
    ensures { result ≡ too_many (span.to - span.from) }
{
    let count = span.to - span.from;
    if count > MOST_TOKENS {
        return Some(count as u64);
    }
    None
}

// The answer that tells of these readings.
fn answer(found: Few) -> Result<Reading, ParseFault>
    ensures { Tells found result }
{
    match found {
        Few::Empty => Err(ParseFault::NoParse),
        Few::One(reading) => Ok(reading),
        Few::Two(first, second) => Err(ParseFault::Ambiguous { first, second }),
    }
}

fn read_one(
    alloc: Global,
    scope: &Scope<'_>,
    tokens: &Tokens<'_>,
    span: Span,
) -> Result<Few, AllocError>
    requires span { IsWithin tokens.now span }
    requires few { length (tokens_in tokens.now span) ≤ MOST_TOKENS }
    ensures reading { IfOk result (λ f. KeepsReadings f
        (ReadsOnly scope.now.theory.now.signature (vars_in scope.now) scope.now.hole
        (tokens_in tokens.now span))) }
    ensures parameters { scope.now.hole ≡ true → IfOk result AreWithParameters }
{
    let nothing = Span {
        from: span.to,
        to: span.to,
    };
    let mut words = Words::new(alloc);
    let both = number_tokens(alloc, &mut words, scope, tokens, span, nothing)?;
    let terms = read_each_sort(alloc, &both.grammar, &both.left)?;
    Ok(readings_of_one(alloc, &terms, scope.hole)?)
}

// The terms of one sort that two spans spell. Their variables have texts of the list as names.
fn read_both<'a>(
    alloc: Global,
    words: &mut Words<'a>,
    scope: &Scope<'_>,
    tokens: &Tokens<'a>,
    left: Span,
    right: Span,
) -> Result<Few, AllocError>
    requires empty { words.old ≡ [] }
    requires hole { scope.now.hole ≡ false }
    requires left { IsWithin tokens.now left }
    requires right { IsWithin tokens.now right }
    requires few_left { length (tokens_in tokens.now left) ≤ MOST_TOKENS }
    requires few_right { length (tokens_in tokens.now right) ≤ MOST_TOKENS }
    ensures { IfOk result (KeepsSpelled scope.now.theory.now.signature (vars_in scope.now)
        (tokens_in tokens.now left) (tokens_in tokens.now right) words.new) }
{
    let both = number_tokens(alloc, words, scope, tokens, left, right)?;
    let lefts = read_each_sort(alloc, &both.grammar, &both.left)?;
    let rights = read_each_sort(alloc, &both.grammar, &both.right)?;
    Ok(readings_of_both(alloc, &lefts, &rights)?)
}

// Reads one pair of spans more, of all that are read.
fn read_pair<'a>(
    alloc: Global,
    choices: &mut Choices<'a>,
    scope: &Scope<'_>,
    tokens: &Tokens<'a>,
    left: Span,
    right: Span,
) -> Result<bool, AllocError>
    requires hole { scope.now.hole ≡ false }
    requires left { IsWithin tokens.now left }
    requires right { IsWithin tokens.now right }
    requires few_left { length (tokens_in tokens.now left) ≤ MOST_TOKENS }
    requires few_right { length (tokens_in tokens.now right) ≤ MOST_TOKENS }
    ensures { (all rest : List (List (List ℕ))) → HaveChosen scope.now.theory.now.signature
        (vars_in scope.now) all (tokens_in tokens.now left ∷ tokens_in tokens.now right ∷ rest)
        choices.old → IfOk result (ReadsOn scope.now.theory.now.signature (vars_in scope.now) all
        rest choices.new) }
{
    let mut words = Words::new(alloc);
    let found = read_both(alloc, &mut words, scope, tokens, left, right)?;
    add(alloc, &words, choices, &found)
}

// Reads the spans in twos. An odd number of them has no reading.
fn read_pairs<'a>(
    alloc: Global,
    choices: &mut Choices<'a>,
    scope: &Scope<'_>,
    tokens: &Tokens<'a>,
    spans: &[Span],
) -> Result<bool, AllocError>
    requires new { HaveNothing choices.old }
    requires hole { scope.now.hole ≡ false }
    requires spans { AllByRecursion (IsWithin tokens.now) spans.now }
    requires few { first_long (lists_in tokens.now spans.now) ≡ None }
    ensures { IfOk result (ReadsOn scope.now.theory.now.signature (vars_in scope.now)
        (lists_in tokens.now spans.now) [] choices.new) }
{
    let mut at = 0;
    while spans.len() - at >= 2 {
        if !read_pair(alloc, choices, scope, tokens, spans[at], spans[at + 1])? {
            return Ok(false);
        }
        at += 2;
    }
    Ok(at == spans.len())
}

fn read_list(
    alloc: Global,
    scope: &Scope<'_>,
    tokens: &Tokens<'_>,
    spans: &[Span],
) -> Result<Few, AllocError>
    requires hole { scope.now.hole ≡ false }
    requires spans { AllByRecursion (IsWithin tokens.now) spans.now }
    requires few { first_long (lists_in tokens.now spans.now) ≡ None }
    ensures { IfOk result (λ f. KeepsReadings f (ReadsTwos scope.now.theory.now.signature
        (vars_in scope.now) (lists_in tokens.now spans.now))) }
{
    let mut choices = no_choices(alloc);
    if read_pairs(alloc, &mut choices, scope, tokens, spans)? {
        let Choices {
            first,
            second,
            differ,
        } = choices;
        Ok(chosen(first.terms, second.terms, differ))
    } else {
        Ok(Few::Empty)
    }
}

fn one_in(
    alloc: Global,
    scope: &Scope<'_>,
    tokens: &Tokens<'_>,
    span: Span,
) -> Result<Reading, ParseFault>
    requires span { IsWithin tokens.now span }
    ensures reading { GivesReading result (long_count (tokens_in tokens.now span))
        (ReadsOnly scope.now.theory.now.signature (vars_in scope.now) scope.now.hole
        (tokens_in tokens.now span)) }
    ensures sorted { HaveSorts scope.now.theory.now.signature (vars_in scope.now) → IfOk result
        (λ r. IsOneSorted scope.now.theory.now.signature r.terms.items) }
    ensures parameters { scope.now.hole ≡ true → IfOk result (λ r. IsWithParameters r.terms.items) }
{
    scope.theory.known();
    if let Some(count) = long_count(span) {
        return Err(ParseFault::TooLong { count });
    }
    let found = read_one(alloc, scope, tokens, span)?;
    answer(found)
}

// How many tokens the first span has that has too many.
fn first_long(spans: &[Span], tokens: &Tokens<'_>) -> Option<u64>
    requires { AllByRecursion (IsWithin tokens.now) spans.now }
    ensures { result ≡ first_long (lists_in tokens.now spans.now) }
{
    for span in spans {
        if let Some(count) = long_count(*span) {
            return Some(count);
        }
    }
    None
}

fn list_in(
    alloc: Global,
    scope: &Scope<'_>,
    tokens: &Tokens<'_>,
    spans: &[Span],
) -> Result<Reading, ParseFault>
    requires hole { scope.now.hole ≡ false }
    requires spans { AllByRecursion (IsWithin tokens.now) spans.now }
    ensures reading { GivesReading result (first_long (lists_in tokens.now spans.now))
        (ReadsTwos scope.now.theory.now.signature (vars_in scope.now)
        (lists_in tokens.now spans.now)) }
    ensures sorted { HaveSorts scope.now.theory.now.signature (vars_in scope.now) → IfOk result
        (λ r. AreTwosSorted scope.now.theory.now.signature r.terms.items) }
    ensures in_order { IfOk result (λ r. AreTwosInOrder r.terms.items) }
{
    scope.theory.known();
    if let Some(count) = first_long(spans, tokens) {
        return Err(ParseFault::TooLong { count });
    }
    let found = read_list(alloc, scope, tokens, spans)?;
    answer(found)
}

/// The only reading of the span's tokens as one term, of any sort. The variables are those of
/// `vars`, by name and sort, and those that are written `NAME:SORT`. With `hole`, `*:SORT` is
/// variable 0 and the others are numbered from 1 by first occurrence; without it they are numbered
/// from 0. The span counts tokens.
pub fn parse_one(
    alloc: Global,
    theory: &Theory,
    vars: &[(Text, u32)],
    tokens: &Tokens<'_>,
    span: Span,
    hole: bool,
) -> Result<Reading, ParseFault>
    requires sorts { HaveSorts theory.now.signature (declared_by vars.now) }
    requires span { IsWithin tokens.now span }
    ensures reading { GivesReading result (long_count (tokens_in tokens.now span))
        (ReadsOnly theory.now.signature (declared_by vars.now) hole (tokens_in tokens.now span)) }
    ensures sorted { IfOk result (λ r. IsOneSorted theory.now.signature r.terms.items) }
    ensures parameters { hole ≡ true → IfOk result (λ r. IsWithParameters r.terms.items) }
{
    let scope = Scope {
        theory,
        declared: Declarations::Listed(vars),
        hole,
    };
    one_in(alloc, &scope, tokens, span)
}

/// The only reading of the spans' tokens as terms, in twos of one sort; an odd number of spans has
/// none. The variables are those of `vars`, by name and sort, and those that are written
/// `NAME:SORT`, numbered from 0 over all terms by first occurrence. Spans count tokens. More than
/// 4,294,967,296 variables count as out of memory.
pub fn parse_list(
    alloc: Global,
    theory: &Theory,
    vars: &[(Text, u32)],
    tokens: &Tokens<'_>,
    spans: &[Span],
) -> Result<Reading, ParseFault>
    requires sorts { HaveSorts theory.now.signature (declared_by vars.now) }
    requires spans { AllByRecursion (IsWithin tokens.now) spans.now }
    ensures reading { GivesReading result (first_long (lists_in tokens.now spans.now))
        (ReadsTwos theory.now.signature (declared_by vars.now) (lists_in tokens.now spans.now)) }
    ensures sorted { IfOk result (λ r. AreTwosSorted theory.now.signature r.terms.items) }
    ensures in_order { IfOk result (λ r. AreTwosInOrder r.terms.items) }
{
    let scope = Scope {
        theory,
        declared: Declarations::Listed(vars),
        hole: false,
    };
    list_in(alloc, &scope, tokens, spans)
}

/// The only reading of two spans' tokens as two terms of one sort. The variables are those of
/// `vars`, by name and sort, and those that are written `NAME:SORT`, numbered from 0 over both by
/// first occurrence, the left term first. Spans count tokens.
pub fn parse_pair(
    alloc: Global,
    theory: &Theory,
    vars: &[(Text, u32)],
    tokens: &Tokens<'_>,
    left: Span,
    right: Span,
) -> Result<Reading, ParseFault>
    requires sorts { HaveSorts theory.now.signature (declared_by vars.now) }
    requires left { IsWithin tokens.now left }
    requires right { IsWithin tokens.now right }
    ensures reading { GivesReading result (option_or (long_count (tokens_in tokens.now left))
        (long_count (tokens_in tokens.now right))) (ReadsBoth theory.now.signature
        (declared_by vars.now) (tokens_in tokens.now left) (tokens_in tokens.now right)) }
    ensures sorted { IfOk result (λ r. ArePairSorted theory.now.signature r.terms.items) }
    ensures in_order { IfOk result (λ r. IsPairInOrder r.terms.items) }
{
    parse_list(alloc, theory, vars, tokens, &[left, right])
}

/// As [`parse_one`], where the declared variables are those of the theory, which are looked up by
/// their names.
pub fn parse_one_declared(
    alloc: Global,
    theory: &Theory,
    tokens: &Tokens<'_>,
    span: Span,
    hole: bool,
) -> Result<Reading, ParseFault>
    requires { IsWithin tokens.now span }
    ensures reading { GivesReading result (long_count (tokens_in tokens.now span))
        (ReadsOnly theory.now.signature theory.now.variables hole (tokens_in tokens.now span)) }
    ensures sorted { IfOk result (λ r. IsOneSorted theory.now.signature r.terms.items) }
    ensures parameters { hole ≡ true → IfOk result (λ r. IsWithParameters r.terms.items) }
{
    theory.known();
    let scope = Scope {
        theory,
        declared: Declarations::OfTheory,
        hole,
    };
    one_in(alloc, &scope, tokens, span)
}

/// As [`parse_list`], where the declared variables are those of the theory, which are looked up by
/// their names.
pub fn parse_list_declared(
    alloc: Global,
    theory: &Theory,
    tokens: &Tokens<'_>,
    spans: &[Span],
) -> Result<Reading, ParseFault>
    requires { AllByRecursion (IsWithin tokens.now) spans.now }
    ensures reading { GivesReading result (first_long (lists_in tokens.now spans.now))
        (ReadsTwos theory.now.signature theory.now.variables (lists_in tokens.now spans.now)) }
    ensures sorted { IfOk result (λ r. AreTwosSorted theory.now.signature r.terms.items) }
    ensures in_order { IfOk result (λ r. AreTwosInOrder r.terms.items) }
{
    theory.known();
    let scope = Scope {
        theory,
        declared: Declarations::OfTheory,
        hole: false,
    };
    list_in(alloc, &scope, tokens, spans)
}

/// As [`parse_pair`], where the declared variables are those of the theory, which are looked up by
/// their names.
pub fn parse_pair_declared(
    alloc: Global,
    theory: &Theory,
    tokens: &Tokens<'_>,
    left: Span,
    right: Span,
) -> Result<Reading, ParseFault>
    requires left { IsWithin tokens.now left }
    requires right { IsWithin tokens.now right }
    ensures reading { GivesReading result (option_or (long_count (tokens_in tokens.now left))
        (long_count (tokens_in tokens.now right))) (ReadsBoth theory.now.signature
        theory.now.variables (tokens_in tokens.now left) (tokens_in tokens.now right)) }
    ensures sorted { IfOk result (λ r. ArePairSorted theory.now.signature r.terms.items) }
    ensures in_order { IfOk result (λ r. IsPairInOrder r.terms.items) }
{
    parse_list_declared(alloc, theory, tokens, &[left, right])
}
