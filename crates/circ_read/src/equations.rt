//! `eq` and `ceq`.
ghost use Rattle.std.specs.Prelude.{◌≡◌, ◌∷◌, IfOk, map, true};
ghost use Rattle.std.specs.List.{AllByRecursion};
ghost use Rattle.circ_lexer.specs.TokenList.{tokens_in, IsWithin};
ghost use Rattle.circ_mixfix.specs.Found.{AreTwosSorted, AreTwosInOrder};
ghost use Rattle.circ_statement.specs.Said.{sides_of};
ghost use Rattle.circ_read.specs.Outcomes.{equation_added};
ghost use Rattle.circ_read.specs.Steps.{StepAnswers, GivesEquation, condition_spans};

use crate::cause::{Cause, Fault, because, done};
use crate::terms::{goal_of, unread};
use circ_lexer::{Span, Tokens};
use circ_mixfix::parse_list_declared;
use circ_statement::Sides;
use circ_term::Term;
use circ_theory::{Goal, Theory};
use std::alloc::{AllocError, Global};

pub(crate) fn add_equation(
    alloc: Global,
    theory: &mut Theory,
    tokens: &Tokens<'_>,
    left: Span,
    right: Span,
    conds: &[Sides],
    exec: bool,
) -> Result<(), Fault>
    requires left { IsWithin tokens.now left }
    requires right { IsWithin tokens.now right }
    requires conds { AllByRecursion (λ s. IsWithin tokens.now s.left × IsWithin tokens.now s.right)
        conds.now }
    ensures { StepAnswers result theory.new (GivesEquation theory.old
        (tokens_in tokens.now left) (tokens_in tokens.now right)
        (map (sides_of tokens.now) conds.now) exec) }
{
    let spans = spans_of(alloc, left, right, conds)?;
    match parse_list_declared(alloc, theory, tokens, &spans) {
        Ok(reading) => add_terms(alloc, theory, &reading.terms, exec),
        Err(fault) => Err(unread(alloc, theory, true, fault)),
    }
}

/// The spans of all terms of an equation or a goal, in the order in which they are read.
pub fn spans_of(
    alloc: Global,
    left: Span,
    right: Span,
    conds: &[Sides],
) -> Result<Vec<Span>, AllocError>
    ensures { IfOk result (λ v. v.items ≡ left ∷ right ∷ condition_spans conds.now) }
{
    let mut spans = vec![in alloc; left, right]?;
    for cond in conds {
        spans.push(cond.left)?;
        spans.push(cond.right)?;
    }
    Ok(spans)
}

fn add_terms(alloc: Global, theory: &mut Theory, terms: &[Term], exec: bool) -> Result<(), Fault>
    requires sorted { AreTwosSorted theory.old.signature terms.now }
    requires in_order { AreTwosInOrder terms.now }
    ensures { StepAnswers result theory.new
        (λ r. r ≡ equation_added theory.old exec terms.now) }
{
    match goal_of(alloc, terms)? {
        Some(goal) => {
            let Goal { conds, left, right } = goal;
            done(theory.add_equation(left, right, conds, exec))
        }
        None => Err(because(Cause::NoParse)),
    }
}
