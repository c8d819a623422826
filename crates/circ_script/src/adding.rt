//! What the items of a script ask for.
ghost use Rattle.std.specs.Prelude.{◌≡◌, ◌++◌, ◌∷◌, [], IfErr, OnOk, map};
ghost use Rattle.std.specs.List.{AllByRecursion};
ghost use Rattle.circ_lexer.specs.TokenList.{tokens_in, IsWithin};
ghost use Rattle.circ_term.specs.Tree.{Tree};
ghost use Rattle.circ_theory.specs.Theory.{Theory};
ghost use Rattle.circ_statement.specs.Said.{sides_of};
ghost use Rattle.circ_read.specs.declared.cause.Fault.TheVariants.{Memory};
ghost use Rattle.circ_read.specs.Steps.{StepAnswers};
ghost use Rattle.circ_script.specs.Items.{goal, coinduction, reduce};
ghost use Rattle.circ_script.specs.Steps.{draft_of, item_of, ItemOutcome, LieWithin};
ghost use Rattle.circ_script.specs.Steps.{IsButVariables};

use crate::goals::push_goal;
use crate::items::FoundItem;
use crate::variables::add_variables;
use circ_lexer::{Span, Tokens};
use circ_mixfix::{parse_list_declared, parse_one_declared};
use circ_read::{Cause, Fault, because, spans_of, unread};
use circ_statement::Sides;
use circ_term::Term;
use circ_theory::{Goal, Theory};
use std::alloc::Global;
use std::mem::replace;

// What the items so far ask for.
#[derive(Drop)]
pub(crate) struct Asked {
    pub(crate) blocks: Vec<Vec<Goal>>,
    // The goals since the last block.
    pub(crate) goals: Vec<Goal>,
    pub(crate) terms: Vec<Term>,
}

// Adds what an item says.
pub(crate) fn add_item(
    alloc: Global,
    theory: &mut Theory,
    asked: &mut Asked,
    tokens: &Tokens<'_>,
    item: FoundItem,
) -> Result<(), Fault>
    requires { LieWithin tokens.now item }
    ensures outcome { StepAnswers result (draft_of theory.new asked.new)
        (ItemOutcome (draft_of theory.old asked.old) (item_of tokens.now item)) }
    ensures kept { IsButVariables theory.old theory.new }
{
    match item {
        FoundItem::Variables { names, sort } => add_variables(theory, tokens, names, sort),
        FoundItem::Goal { sides, conds } => {
            add_goal(alloc, theory, asked, tokens, sides, &conds)
        }
        FoundItem::Coinduction => close_block(alloc, asked),
        FoundItem::Reduce { term } => add_term(alloc, theory, asked, tokens, term),
    }
}

fn add_goal(
    alloc: Global,
    theory: &Theory,
    asked: &mut Asked,
    tokens: &Tokens<'_>,
    sides: Sides,
    conds: &[Sides],
) -> Result<(), Fault>
    requires left { IsWithin tokens.now sides.left }
    requires right { IsWithin tokens.now sides.right }
    requires conds { AllByRecursion (λ s. IsWithin tokens.now s.left × IsWithin tokens.now s.right)
        conds.now }
    ensures { StepAnswers result (draft_of theory.now asked.new)
        (ItemOutcome (draft_of theory.now asked.old)
        (goal (sides_of tokens.now sides) (map (sides_of tokens.now) conds.now))) }
{
    let spans = spans_of(alloc, sides.left, sides.right, conds)?;
    match parse_list_declared(alloc, theory, tokens, &spans) {
        Ok(reading) => push_goal(alloc, theory, &mut asked.goals, &reading.terms),
        Err(fault) => Err(unread(alloc, theory, false, fault)),
    }
}

// Makes the goals since the last block a block.
fn close_block(alloc: Global, asked: &mut Asked) -> Result<(), Fault>
    ensures { (th : Theory) → StepAnswers result (draft_of th asked.new)
        (ItemOutcome (draft_of th asked.old) coinduction) }
{
    if asked.goals.is_empty() {
        return Err(because(Cause::NoGoal));
    }
    let goals = replace(&mut asked.goals, Vec::new(alloc));
    asked.blocks.push(goals)?;
    Ok(())
}

fn add_term(
    alloc: Global,
    theory: &Theory,
    asked: &mut Asked,
    tokens: &Tokens<'_>,
    term: Span,
) -> Result<(), Fault>
    requires { IsWithin tokens.now term }
    ensures { StepAnswers result (draft_of theory.now asked.new)
        (ItemOutcome (draft_of theory.now asked.old) (reduce (tokens_in tokens.now term))) }
{
    match parse_one_declared(alloc, theory, tokens, term, false) {
        Ok(reading) => push_term(&mut asked.terms, reading.terms),
        Err(fault) => Err(unread(alloc, theory, false, fault)),
    }
}

// Adds the only term of a reading.
fn push_term(all: &mut Vec<Term>, terms: Vec<Term>) -> Result<(), Fault>
    requires { (t : Tree) × (terms.items ≡ t ∷ []) }
    ensures pushed { OnOk result ((t : Tree) → terms.items ≡ t ∷ [] →
        all.new.items ≡ all.old.items ++ t ∷ []) }
    ensures fault { IfErr result (λ f. f ≡ Memory) }
{
    let mut terms = terms;
    match terms.pop() {
        Some(term) => all.push(term)?,
        None => unreachable!(),
    }
    Ok(())
}
