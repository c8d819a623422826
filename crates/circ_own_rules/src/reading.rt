//! How hypotheses are read as rules.
ghost use Rattle.std.specs.Prelude.{◌≡◌, ℕ, [], IfOk};
ghost use Rattle.std.specs.Option.{option_map};
ghost use Rattle.circ_theory.specs.Theory.{goal};
ghost use Rattle.circ_rewrite.specs.Matching.{matches};
ghost use Rattle.circ_plain_search.specs.BlockRules.{can_rewrite};
ghost use Rattle.circ_attempt.specs.Rules.{own_rule, lemma_of, read_as, turned};
ghost use Rattle.circ_attempt.specs.Rules.{is_even, match_each_other};
ghost use Rattle.circ_own_rules.specs.Rules.{plain_rule};

use crate::rule::HypothesisRule;
use circ_join::can_rewrite;
use circ_match::match_term;
use circ_term::Term;
use circ_theory::{Goal, Pairs, Theory, Way};
use std::alloc::{AllocError, Global};

// The way in which a hypothesis is read, and whether it is ordered.
#[derive(Clone, Copy)]
struct Reading {
    way: Way,
    ordered: bool,
}

/// A hypothesis of the block as a rule, if it is one. It is told whether it was a goal of the
/// script.
pub(crate) fn own_rule(
    alloc: Global,
    number: u32,
    of_script: bool,
    goal: &Goal,
) -> Result<Option<HypothesisRule>, AllocError>
    ensures { IfOk result (λ o.
        option_map plain_rule o ≡ own_rule number of_script goal.now) }
{
    let reading = own_reading(alloc, of_script, goal)?;
    read_as(alloc, number, goal, reading)
}

/// A goal of an earlier block as a rule, if it is hidden and can be one.
pub(crate) fn lemma_of(
    alloc: Global,
    theory: &Theory,
    number: u32,
    goal: &Goal,
) -> Result<Option<HypothesisRule>, AllocError>
    ensures { IfOk result (λ o. option_map plain_rule o ≡ lemma_of theory.now number goal.now) }
{
    let reading = lemma_reading(alloc, theory, goal)?;
    read_as(alloc, number, goal, reading)
}

fn read_as(
    alloc: Global,
    number: u32,
    goal: &Goal,
    reading: Option<Reading>,
) -> Result<Option<HypothesisRule>, AllocError>
    ensures { IfOk result (λ o. option_map plain_rule o
        ≡ option_map (λ r. read_as number r.way goal.now r.ordered) reading) }
{
    match reading {
        None => Ok(None),
        Some(Reading { way, ordered }) => Ok(Some(HypothesisRule {
            number,
            way,
            hypothesis: goal.share(alloc)?,
            ordered,
        })),
    }
}

fn own_reading(alloc: Global, of_script: bool, goal: &Goal) -> Result<Option<Reading>, AllocError>
    ensures { IfOk result (λ o. (n : ℕ) → option_map (λ r. read_as n r.way goal.now r.ordered) o
        ≡ own_rule n of_script goal.now) }
{
    if is_even(alloc, goal)? {
        return Ok(Some(Reading {
            way: Way::Forth,
            ordered: true,
        }));
    }
    let forth = can_read(alloc, &goal.left, &goal.right)?;
    let back = can_read(alloc, &goal.right, &goal.left)?;
    let shrinks = forth && back && !of_script && goal.left.size() < goal.right.size();
    if forth && !shrinks {
        return Ok(Some(Reading {
            way: Way::Forth,
            ordered: false,
        }));
    }
    if back {
        return Ok(Some(Reading {
            way: Way::Back,
            ordered: false,
        }));
    }
    Ok(None)
}

fn lemma_reading(alloc: Global, theory: &Theory, goal: &Goal) -> Result<Option<Reading>, AllocError>
    ensures { IfOk result (λ o. (n : ℕ) → option_map (λ r. read_as n r.way goal.now r.ordered) o
        ≡ lemma_of theory.now n goal.now) }
{
    if !theory.is_hidden(goal.left.sort()) {
        return Ok(None);
    }
    if can_rewrite(alloc, goal)? {
        return Ok(Some(Reading {
            way: Way::Forth,
            ordered: match_each_other(alloc, goal)?,
        }));
    }
    if can_rewrite_back(alloc, goal)? {
        return Ok(Some(Reading {
            way: Way::Back,
            ordered: false,
        }));
    }
    Ok(None)
}

// Whether the left side is no variable, and both sides match each other.
fn is_even(alloc: Global, goal: &Goal) -> Result<bool, AllocError>
    ensures { IfOk result (λ b. b ≡ is_even goal.now) }
{
    if goal.left.op_number().is_none() {
        return Ok(false);
    }
    match_each_other(alloc, goal)
}

fn match_each_other(alloc: Global, goal: &Goal) -> Result<bool, AllocError>
    ensures { IfOk result (λ b. b ≡ match_each_other goal.now) }
{
    if !matches(alloc, &goal.left, &goal.right)? {
        return Ok(false);
    }
    matches(alloc, &goal.right, &goal.left)
}

// Whether the term is an instance of the pattern.
fn matches(alloc: Global, pattern: &Term, term: &Term) -> Result<bool, AllocError>
    ensures { IfOk result (λ b. b ≡ matches pattern.now term.now) }
{
    let found = match_term(alloc, pattern, term)?;
    Ok(found.is_some())
}

// Whether the first side can be replaced by the second, whatever conditions have besides.
fn can_read(alloc: Global, left: &Term, right: &Term) -> Result<bool, AllocError>
    ensures { IfOk result (λ b. b ≡ can_rewrite (goal [] left.now right.now)) }
{
    let sides = Goal {
        conds: Pairs::new(alloc),
        left: left.share()?,
        right: right.share()?,
    };
    can_rewrite(alloc, &sides)
}

// Whether the goal the other way about can be a rule.
fn can_rewrite_back(alloc: Global, goal: &Goal) -> Result<bool, AllocError>
    ensures { IfOk result (λ b. b ≡ can_rewrite (turned goal.now)) }
{
    let turned = Goal {
        conds: goal.conds.share(alloc)?,
        left: goal.right.share()?,
        right: goal.left.share()?,
    };
    can_rewrite(alloc, &turned)
}
