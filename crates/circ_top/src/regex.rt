//! The command `regex`: a proof that two regular expressions match the same words is searched for.
ghost use Rattle.std.specs.Prelude.{◌≡◌, IfOk, IfErr, map};
ghost use Rattle.circ_term.specs.Limits.{IsWithinLimits};
ghost use Rattle.circ_theory.specs.WellFormed.{IsWellFormed};
ghost use Rattle.circ_regex.specs.Grammar.{IsTextOfRegex};
ghost use Rattle.circ_regex.specs.Lang.{LANG};
ghost use Rattle.circ_regex.specs.Matches.{plain_regex};
ghost use Rattle.circ_regex.specs.Member.{expression_term};
ghost use Rattle.circ_conditional_search.specs.ConditionalSearch.{CanAllBeSearched};
ghost use Rattle.circ_search.specs.Plain.{conduct_with};
ghost use Rattle.circ_found.specs.Answering.{SearchEnds};
ghost use Rattle.circ_status.specs.Ending.{plain_ending};
ghost use Rattle.circ_top.specs.Regex.{IsWordFault, equality_goals, IsEqualitySearched};
ghost use Rattle.circ_top.specs.Regex.{RefusesRegex};

use circ_found::search;
use circ_read::Cause;
use circ_regex::laws::terms_are_sorted;
use circ_regex::{Regex, RegexFault, lang_theory, read_regex, term_of};
use circ_search::Limits;
use circ_status::{Ending, Status};
use circ_term::Term;
use circ_theory::{Goal, Pairs};
use std::alloc::{AllocError, Global};

/// The number of the first expression among the words of a run.
const LEFT_WORD: u8 = 1;

/// The number of the second.
const RIGHT_WORD: u8 = 2;

/// How the search for a proof that two expressions match the same words ends, with the proof's text
/// to be stored under this name; or the answer in its place.
#[tactic(auto, using(crate::proofs::RegexOutcomes::refusing))]
pub(crate) fn regex<'a>(
    alloc: Global,
    limits: Limits,
    left: &str,
    right: &str,
    name: &'a str,
) -> Result<Ending<'a>, Status>
    ensures searched { IfOk result (λ e.
        IsEqualitySearched limits left.now right.now name.now (plain_ending e)) }
    ensures refused { IfErr result (RefusesRegex left.now right.now) }
{
    let first = match expression(alloc, LEFT_WORD, left) {
        Ok(first) => first,
        Err(status) => return Err(status),
    };
    let second = match expression(alloc, RIGHT_WORD, right) {
        Ok(second) => second,
        Err(status) => return Err(status),
    };
    Ok(equality(alloc, limits, &first, &second, name)?)
}

/// The expression that the word of this number is, or why it is none.
fn expression(alloc: Global, number: u8, word: &str) -> Result<Regex, Status>
    ensures reads { IfOk result (λ r. IsTextOfRegex word.now (plain_regex r)) }
    ensures fault { IfErr result (IsWordFault number word.now) }
{
    match read_regex(alloc, word.as_bytes()) {
        Ok(regex) => Ok(regex),
        Err(RegexFault::Limit { count }) => Err(Status::Unreadable {
            file: number,
            place: 0,
            cause: Cause::Limit { count },
        }),
        Err(RegexFault::Shape) => Err(Status::Unreadable {
            file: number,
            place: 0,
            cause: Cause::Shape,
        }),
        Err(RegexFault::Memory) => Err(Status::Memory),
    }
}

/// How the search for a proof that the terms of two expressions are equal ends.
fn equality<'a>(
    alloc: Global,
    limits: Limits,
    left: &Regex,
    right: &Regex,
    name: &'a str,
) -> Result<Ending<'a>, AllocError>
    ensures ends { IfOk result (λ e. SearchEnds LANG (conduct_with limits) name.now
        (equality_goals (plain_regex left.now) (plain_regex right.now)) (plain_ending e)) }
    ensures searchable { IfOk result (λ _. CanAllBeSearched LANG
        (equality_goals (plain_regex left.now) (plain_regex right.now))) }
    ensures well_formed { IfOk result (λ _. IsWellFormed LANG) }
{
    let goals = goals_of(alloc, left, right)?;
    let theory = lang_theory(alloc)?;
    theory.known();
    search(alloc, &theory, goals.as_slice(), &limits, name)
}

/// One block with one goal: that the terms of two expressions are equal.
fn goals_of(alloc: Global, left: &Regex, right: &Regex) -> Result<Vec<Vec<Goal>>, AllocError>
    ensures goals { IfOk result (λ v. map (λ b. b.items) v.items ≡
        equality_goals (plain_regex left.now) (plain_regex right.now)) }
    ensures searchable { IfOk result (λ _. CanAllBeSearched LANG
        (equality_goals (plain_regex left.now) (plain_regex right.now))) }
{
    terms_are_sorted();
    let left = term(alloc, left)?;
    let right = term(alloc, right)?;
    let conds = Pairs::new(alloc);
    let goals = vec![in alloc; Goal { conds, left, right }]?;
    Ok(vec![in alloc; goals]?)
}

/// The term of an expression. That of one that was read is within the limits, as
/// `terms_are_within_limits` of circ_regex says, so that there is none only if memory runs out.
fn term(alloc: Global, regex: &Regex) -> Result<Term, AllocError>
    ensures term { IfOk result (λ t. t ≡ expression_term (plain_regex regex.now)) }
    ensures within { IfOk result (λ _.
        IsWithinLimits (expression_term (plain_regex regex.now))) }
{
    match term_of(alloc, regex) {
        Ok(term) => Ok(term),
        Err(_) => Err(AllocError),
    }
}
