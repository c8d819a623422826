//! One item of a script, read from its words.
ghost use Rattle.std.specs.Prelude.{◌≡◌, ◌↔◌, ◌∷◌, IsTrue, IfOk, codes};
ghost use Rattle.circ_lexer.specs.TokenList.{TokenList, tokens_in, IsWithin};
ghost use Rattle.circ_script.specs.Items.{IsItem, IsFor};
ghost use Rattle.circ_script.specs.Steps.{item_of, shaped, GivesItem, GivesFound, GivesTerm};
ghost use Rattle.circ_script.specs.Steps.{declaration, IsDeclaration, MayHaveGoal};

use crate::Job;
use crate::spans::after;
use circ_lexer::{Span, Tokens};
use circ_read::{Cause, Fault, because, shape};
use circ_statement::{Conditional, Sides, Statement, sides, under_conditions};
use std::alloc::{AllocError, Global};

// An item, by the places of its parts.
#[derive(Drop)]
pub(crate) enum FoundItem {
    Variables { names: Span, sort: usize },
    Goal { sides: Sides, conds: Vec<Sides> },
    Coinduction,
    Reduce { term: Span },
}

// The item that the words of a span are, without parentheses.
pub(crate) fn item(alloc: Global, tokens: &Tokens<'_>, words: Span) -> Result<FoundItem, Fault>
    requires { IsWithin tokens.now words }
    ensures { GivesItem result tokens.now (tokens_in tokens.now words)
        (IsItem (tokens_in tokens.now words)) }
{
    if let Some(rest) = after(tokens, words, b"add") {
        return shaped(goal(alloc, tokens, rest)?);
    }
    if let Some(rest) = after(tokens, words, b"coinduction") {
        return shaped(coinduction(rest));
    }
    if let Some(term) = reduced(tokens, words) {
        return Ok(FoundItem::Reduce { term });
    }
    variables(alloc, tokens, words)
}

fn shaped(item: Option<FoundItem>) -> Result<FoundItem, Fault>
    ensures { result ≡ shaped item }
{
    match item {
        Some(item) => Ok(item),
        None => Err(because(Cause::Shape)),
    }
}

// The goal that the words after `add` are.
fn goal(alloc: Global, tokens: &Tokens<'_>, words: Span) -> Result<Option<FoundItem>, AllocError>
    requires { IsWithin tokens.now words }
    ensures { IfOk result (λ o. GivesFound o tokens.now
        (IsItem (codes "add" ∷ tokens_in tokens.now words))) }
{
    if let Some(rest) = after(tokens, words, b"goal") {
        return Ok(bare_goal(alloc, tokens, rest));
    }
    match after(tokens, words, b"cgoal") {
        Some(rest) => conditional_goal(alloc, tokens, rest),
        None => Ok(None),
    }
}

// A goal without conditions.
fn bare_goal(alloc: Global, tokens: &Tokens<'_>, words: Span) -> Option<FoundItem>
    requires { IsWithin tokens.now words }
    ensures { GivesFound result tokens.now
        (IsItem (codes "add" ∷ codes "goal" ∷ tokens_in tokens.now words)) }
{
    match sides(tokens, words) {
        Some(sides) => {
            let conds = Vec::new(alloc);
            Some(FoundItem::Goal { sides, conds })
        }
        None => None,
    }
}

fn conditional_goal(
    alloc: Global,
    tokens: &Tokens<'_>,
    words: Span,
) -> Result<Option<FoundItem>, AllocError>
    requires { IsWithin tokens.now words }
    ensures { IfOk result (λ o. GivesFound o tokens.now
        (IsItem (codes "add" ∷ codes "cgoal" ∷ tokens_in tokens.now words))) }
{
    match under_conditions(alloc, tokens, words)? {
        Some(Conditional { sides, conds }) => Ok(Some(FoundItem::Goal { sides, conds })),
        None => Ok(None),
    }
}

// The end of a block, where nothing stands after its word.
fn coinduction(rest: Span) -> Option<FoundItem>
    ensures { (ts : TokenList) → IsWithin ts rest →
        GivesFound result ts (IsItem (codes "coinduction" ∷ tokens_in ts rest)) }
{
    if rest.from < rest.to {
        None
    } else {
        Some(FoundItem::Coinduction)
    }
}

// The tokens of a term to be reduced.
fn reduced(tokens: &Tokens<'_>, words: Span) -> Option<Span>
    requires { IsWithin tokens.now words }
    ensures { GivesTerm result tokens.now (tokens_in tokens.now words) }
{
    match after(tokens, words, b"reduce") {
        Some(term) => Some(term),
        None => after(tokens, words, b"red"),
    }
}

// The variables that a statement of a theory text declares.
fn variables(alloc: Global, tokens: &Tokens<'_>, words: Span) -> Result<FoundItem, Fault>
    requires { IsWithin tokens.now words }
    ensures { GivesItem result tokens.now (tokens_in tokens.now words)
        (IsDeclaration (tokens_in tokens.now words)) }
{
    circ_statement::laws::said_in_one_way();
    match shape(alloc, tokens, words) {
        Ok(statement) => shaped(declaration(statement)),
        Err(fault) => Err(fault),
    }
}

fn declaration(statement: Statement) -> Option<FoundItem>
    ensures { result ≡ declaration statement }
{
    match statement {
        Statement::Variables { names, sort } => Some(FoundItem::Variables { names, sort }),
        _ => None,
    }
}

// Whether a script for the job may have the item.
pub(crate) fn is_for(job: Job, item: &FoundItem) -> bool
    ensures { (ts : TokenList) → IsTrue result ↔ IsFor job (item_of ts item.now) }
{
    match item {
        FoundItem::Variables { .. } => true,
        FoundItem::Goal { conds, .. } => may_have_goal(job, conds),
        FoundItem::Coinduction => job != Job::Reduce,
        FoundItem::Reduce { .. } => job == Job::Reduce,
    }
}

// Whether a script for the job may have a goal with these conditions.
fn may_have_goal(job: Job, conds: &[Sides]) -> bool
    ensures { IsTrue result ↔ MayHaveGoal job conds.now }
{
    match job {
        Job::Prove => true,
        Job::Differ => conds.is_empty(),
        Job::Reduce => false,
    }
}
