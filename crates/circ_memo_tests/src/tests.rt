//! What no clause says: that a memo is used, and its rows of rules, and that there is memory.
ghost use Rattle.std.specs.Prelude.{◌≡◌, [], IfOk};
ghost use Rattle.std.specs.List.{AllByRecursion};
ghost use Rattle.circ_term.specs.Tree.{App, none};
ghost use Rattle.circ_rewrite.specs.Due.{IsRewriteRule, AreUnconditional};

use circ_form::Form;
use circ_memo::Memo;
use circ_rewrite::{RewriteFault, Rule, RuleName};
use circ_term::{Term, TermFault};
use circ_theory::{OpDecl, Pairs, Side, Theory, TheoryFault};
use itoa::Buffer;
use std::alloc::Global;

const CONSTANTS: u32 = 60_000;

fn declared(alloc: Global, number: u32) -> Result<OpDecl, TheoryFault> {
    let mut digits = Buffer::new();
    let Ok(form) = Form::read(alloc, digits.format(number).as_bytes()) else {
        return Err(TheoryFault::Memory);
    };
    Ok(OpDecl {
        form,
        args: Vec::new(alloc),
        result: 0,
        prec: 0,
        side: Side::Neither,
        assoc: false,
        comm: false,
        idem: false,
    })
}

// A theory of one sort and constants.
fn constants(alloc: Global) -> Result<Theory, TheoryFault> {
    let mut theory = Theory::new(alloc, b"T")?;
    theory.add_sort(b"A")?;
    for number in 0..CONSTANTS {
        theory.add_op(declared(alloc, number)?)?;
    }
    Ok(theory)
}

fn constant(alloc: Global, number: u32) -> Result<Term, TermFault>
    ensures { IfOk result (λ t. t ≡ App number 0 none) }
{
    Term::app(alloc, number, 0, Vec::new(alloc))
}

// Constant `from` becomes constant `to`.
fn step(alloc: Global, from: u32, to: u32) -> Result<Rule, TermFault>
    ensures rewrites { IfOk result IsRewriteRule }
    ensures unconditional { IfOk result (λ r. r.conds ≡ []) }
{
    Ok(Rule {
        name: RuleName::Equation { number: from },
        left: constant(alloc, from)?,
        right: constant(alloc, to)?,
        conds: Pairs::new(alloc),
    })
}

// Each constant becomes the next, and the last becomes itself.
fn steps(alloc: Global) -> Result<Vec<Rule>, TermFault>
    ensures rewrite { IfOk result (λ v. AllByRecursion IsRewriteRule v.items) }
    ensures unconditional { IfOk result (λ v. AreUnconditional v.items) }
{
    let mut rules = Vec::new(alloc);
    for number in 0..CONSTANTS {
        rules.push(step(alloc, number, (number + 1).min(CONSTANTS - 1))?)?;
    }
    Ok(rules)
}

// Whether the budget is spent, to its end, on the first constant.
fn is_spent(alloc: Global, theory: &Theory) -> Result<bool, TermFault> {
    let rules = steps(alloc)?;
    if rules.len() != CONSTANTS as usize {
        return Ok(false);
    }
    let first = constant(alloc, 0)?;
    let mut memo = Memo::new(alloc, theory, rules)?;
    let spent = spends(&mut memo, &first);
    drop(memo);
    Ok(spent)
}

fn spends(memo: &mut Memo<'_>, term: &Term) -> bool {
    let mut budget = 1_000_000;
    let normal = memo.normal(term, &mut budget);
    matches!(normal, Err(RewriteFault::Spent)) && budget == 0
}

#[test]
fn a_rule_is_found_among_60000(rt: HostRuntime) {
    let theory = constants(rt.alloc());
    assert!(rt; theory.is_ok_and(|theory| is_spent(rt.alloc(), &theory) == Ok(true)));
}
