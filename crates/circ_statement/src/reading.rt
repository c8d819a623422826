//! One statement read from its tokens.
ghost use Rattle.circ_lexer.specs.TokenList.{tokens_in, IsWithin};
ghost use Rattle.std.specs.Prelude.{◌≡◌, ◌↔◌, IsTrue, IfOk};
ghost use Rattle.circ_statement.specs.Statement.{IsInclusion, IsSorts, IsVariables, IsEquation, IsCases};
ghost use Rattle.circ_statement.specs.Statement.{IsConditional, nonexec, GivesStatement};
ghost use Rattle.circ_statement.specs.Said.{IsPlace};
ghost use Rattle.circ_statement.specs.Reading.{GivesSaid, GivesOperators, GivesUnmarked, IsNamed, shaped};
ghost use Rattle.circ_statement.specs.Reading.{GivesSides, GivesOneCut, GivesConditions};
ghost use Rattle.circ_statement.specs.Reading.{GivesConditional, PushesCondition};

use crate::attributes::attributes_of;
use crate::heads::{Head, foreign_mark, head_of};
use crate::keywords::{Keyword, is_name, keyword_of};
use crate::outside::{Cut, cut_outside};
use crate::places::{after, are_names, are_some_names, first_of, is_name_at, only_name, split};
use crate::spellings::forms;
use crate::{Conditional, Sides, Statement, StatementFault};
use circ_lexer::{Span, Tokens};
use std::alloc::{AllocError, Global};

// How many tokens the mark of an equation that is no rewrite rule has.
const MARK_TOKENS: usize = 3;

/// The statement that the tokens of the span are, without the stop that ends it. The causes of a
/// fault are tested in the order of [`StatementFault`].
pub fn statement(
    alloc: Global,
    tokens: &Tokens<'_>,
    span: Span,
) -> Result<Statement, StatementFault>
    requires { IsWithin tokens.now span }
    ensures { GivesStatement result tokens.now span }
{
    let Some(first) = first_of(tokens, span) else {
        return Err(StatementFault::Shape);
    };
    let words = first.rest;
    match keyword_of(first.word) {
        None => Err(StatementFault::Shape),
        Some(Keyword::LeftOut) => Err(StatementFault::LeftOut { word: first.place }),
        Some(Keyword::Inclusion) => shaped(inclusion(tokens, words)),
        Some(Keyword::Sorts) => shaped(sorts(tokens, words)),
        Some(Keyword::Operator) => operators(alloc, tokens, words, true),
        Some(Keyword::Operators) => operators(alloc, tokens, words, false),
        Some(Keyword::Variables) => shaped(variables(tokens, words)),
        Some(Keyword::Equation) => shaped(equation(alloc, tokens, words)),
        Some(Keyword::Conditional) => shaped(conditional(alloc, tokens, words)?),
        Some(Keyword::Derivative) => Ok(Statement::Derivative { term: words }),
        Some(Keyword::Cases) => shaped(cases(tokens, words)),
    }
}

fn shaped(statement: Option<Statement>) -> Result<Statement, StatementFault>
    ensures { result ≡ shaped statement }
{
    match statement {
        Some(statement) => Ok(statement),
        None => Err(StatementFault::Shape),
    }
}

fn inclusion(tokens: &Tokens<'_>, span: Span) -> Option<Statement>
    requires { IsWithin tokens.now span }
    ensures { GivesSaid result tokens.now (IsInclusion (tokens_in tokens.now span)) }
{
    let name = only_name(tokens, span)?;
    Some(Statement::Inclusion { name })
}

fn sorts(tokens: &Tokens<'_>, names: Span) -> Option<Statement>
    requires { IsWithin tokens.now names }
    ensures { GivesSaid result tokens.now (IsSorts (tokens_in tokens.now names)) }
{
    if are_some_names(tokens, names) {
        Some(Statement::Sorts { names })
    } else {
        None
    }
}

fn variables(tokens: &Tokens<'_>, span: Span) -> Option<Statement>
    requires { IsWithin tokens.now span }
    ensures { GivesSaid result tokens.now (IsVariables (tokens_in tokens.now span)) }
{
    let Some((names, last)) = split(tokens, span, b":") else {
        return None;
    };
    let Some(sort) = only_name(tokens, last) else {
        return None;
    };
    if are_some_names(tokens, names) {
        Some(Statement::Variables { names, sort })
    } else {
        None
    }
}

fn cases(tokens: &Tokens<'_>, span: Span) -> Option<Statement>
    requires { IsWithin tokens.now span }
    ensures { GivesSaid result tokens.now (IsCases (tokens_in tokens.now span)) }
{
    let sort = first_of(tokens, span)?;
    let names = after(tokens, sort.rest, b"by")?;
    if is_name(sort.word) && are_names(tokens, names) {
        Some(Statement::Cases {
            sort: sort.place,
            names,
        })
    } else {
        None
    }
}

fn equation(alloc: Global, tokens: &Tokens<'_>, span: Span) -> Option<Statement>
    requires { IsWithin tokens.now span }
    ensures { GivesSaid result tokens.now (IsEquation (tokens_in tokens.now span)) }
{
    let (body, exec) = unmarked(tokens, span);
    match sides(tokens, body) {
        Some(Sides { left, right }) => Some(Statement::Equation {
            left,
            right,
            conds: Vec::new(alloc),
            exec,
        }),
        None => None,
    }
}

fn conditional(
    alloc: Global,
    tokens: &Tokens<'_>,
    span: Span,
) -> Result<Option<Statement>, AllocError>
    requires { IsWithin tokens.now span }
    ensures { IfOk result
        (λ o. GivesSaid o tokens.now (IsConditional (tokens_in tokens.now span))) }
{
    let (body, exec) = unmarked(tokens, span);
    match under_conditions(alloc, tokens, body)? {
        Some(Conditional { sides, conds }) => Ok(Some(Statement::Equation {
            left: sides.left,
            right: sides.right,
            conds,
            exec,
        })),
        None => Ok(None),
    }
}

/// The sides before the only `if` outside parentheses, and behind it the conditions, which are cut
/// at each `/\` outside parentheses.
pub fn under_conditions(
    alloc: Global,
    tokens: &Tokens<'_>,
    span: Span,
) -> Result<Option<Conditional>, AllocError>
    requires { IsWithin tokens.now span }
    ensures { IfOk result (λ o. GivesConditional o tokens.now span) }
{
    let Some((front, rest)) = cut_once(tokens, span, b"if") else {
        return Ok(None);
    };
    let Some(sides) = sides(tokens, front) else {
        return Ok(None);
    };
    match conditions(alloc, tokens, rest)? {
        Some(conds) => Ok(Some(Conditional { sides, conds })),
        None => Ok(None),
    }
}

// The tokens before and behind the only such word outside parentheses.
fn cut_once(tokens: &Tokens<'_>, span: Span, word: &[u8]) -> Option<(Span, Span)>
    requires { IsWithin tokens.now span }
    ensures { GivesOneCut result tokens.now span word.now }
{
    let Cut::At { before, after } = cut_outside(tokens, span, word) else {
        return None;
    };
    match cut_outside(tokens, after, word) {
        Cut::Nowhere => Some((before, after)),
        Cut::At { .. } => None,
        Cut::Unopened => None,
    }
}

fn conditions(
    alloc: Global,
    tokens: &Tokens<'_>,
    span: Span,
) -> Result<Option<Vec<Sides>>, AllocError>
    requires { IsWithin tokens.now span }
    ensures { IfOk result (λ o. GivesConditions o tokens.now span) }
{
    let mut conds = Vec::new(alloc);
    let mut rest = span;
    loop {
        match cut_outside(tokens, rest, b"/\\") {
            Cut::At { before, after } => {
                if !push_condition(tokens, before, &mut conds)? {
                    return Ok(None);
                }
                rest = after;
            }
            Cut::Nowhere => {
                if !push_condition(tokens, rest, &mut conds)? {
                    return Ok(None);
                }
                return Ok(Some(conds));
            }
            Cut::Unopened => return Ok(None),
        }
    }
}

// Appends the sides of the only equals sign, and answers whether there is one.
fn push_condition(
    tokens: &Tokens<'_>,
    span: Span,
    conds: &mut Vec<Sides>,
) -> Result<bool, AllocError>
    requires { IsWithin tokens.now span }
    ensures { IfOk result
        (λ b. PushesCondition b tokens.now span conds.old.items conds.new.items) }
{
    match sides(tokens, span) {
        Some(condition) => {
            conds.push(condition)?;
            Ok(true)
        }
        None => Ok(false),
    }
}

/// The sides of the only equals sign.
pub fn sides(tokens: &Tokens<'_>, span: Span) -> Option<Sides>
    requires { IsWithin tokens.now span }
    ensures { GivesSides result tokens.now span }
{
    let Some((left, right)) = split(tokens, span, b"=") else {
        return None;
    };
    match split(tokens, right, b"=") {
        Some(_) => None,
        None => Some(Sides { left, right }),
    }
}

// The tokens without the mark of an equation that is no rewrite rule, and whether they have no
// mark.
fn unmarked(tokens: &Tokens<'_>, span: Span) -> (Span, bool)
    requires { IsWithin tokens.now span }
    ensures { GivesUnmarked result tokens.now span }
{
    if span.to - span.from < MARK_TOKENS {
        return (span, true);
    }
    let at = span.to - MARK_TOKENS;
    let mark = Span {
        from: at,
        to: span.to,
    };
    if !is_mark(tokens, mark) {
        return (span, true);
    }
    let sides = Span {
        from: span.from,
        to: at,
    };
    (sides, false)
}

fn is_mark(tokens: &Tokens<'_>, span: Span) -> bool
    requires { IsWithin tokens.now span }
    ensures { IsTrue result ↔ (tokens_in tokens.now span ≡ nonexec) }
{
    let Some(rest) = after(tokens, span, b"[") else {
        return false;
    };
    let Some(rest) = after(tokens, rest, b"nonexec") else {
        return false;
    };
    let Some(rest) = after(tokens, rest, b"]") else {
        return false;
    };
    rest.from == rest.to
}

// The operators of a statement, of one form or of a form for each token.
fn operators(
    alloc: Global,
    tokens: &Tokens<'_>,
    span: Span,
    is_one: bool,
) -> Result<Statement, StatementFault>
    requires { IsWithin tokens.now span }
    ensures { GivesOperators result tokens.now is_one span }
{
    let Some(head) = head_of(tokens, span) else {
        return Err(StatementFault::Shape);
    };
    if let Some(word) = foreign_mark(tokens, head.marks) {
        return Err(StatementFault::LeftOut { word });
    }
    let Some(given) = attributes_of(tokens, head.marks) else {
        return Err(StatementFault::Shape);
    };
    if !is_named(tokens, head) {
        return Err(StatementFault::Shape);
    }
    match forms(alloc, tokens, head.front, is_one, given) {
        Err(fault) => Err(fault),
        Ok(forms) => Ok(Statement::Operators {
            forms,
            args: head.args,
            result: head.result,
            assoc: given.assoc,
            comm: given.comm,
            idem: given.idem,
        }),
    }
}

// Whether there is a form, and each sort can be a sort.
fn is_named(tokens: &Tokens<'_>, head: Head) -> bool
    requires front { IsWithin tokens.now head.front }
    requires args { IsWithin tokens.now head.args }
    requires result { IsPlace tokens.now head.result }
    ensures { IsTrue result ↔ IsNamed tokens.now head }
{
    head.front.from < head.front.to
        && are_names(tokens, head.args)
        && is_name_at(tokens, head.result)
}
