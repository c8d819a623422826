//! Normal forms under rules with conditions: calls that no command makes, with ample memory.
ghost use Rattle.std.specs.Prelude.{◌≤◌, ◌<◌, ◌^◌, length};

use circ_read::read_theory;
use circ_rewrite::{RewriteFault, theory_rules};
use circ_term::{Term, TermFault};
use circ_theory::{Pair, Theory};
use circ_tries::{Reducer, normalise};
use std::alloc::Global;

// Operators 0 to 3, in this order. A rule for `f` is tried before it applies, and that of `g` asks
// for itself.
const CASES: &[u8] = b"theory T is
  sort A .
  ops a b : -> A .
  op f : A -> A .
  op g : A -> A .
  var X : A .
  ceq f(X) = a if X = b .
  ceq f(X) = b if X = a .
  ceq g(X) = a if g(X) = b .
endtheory";

// The operator on the constant `a`.
fn on_a(alloc: Global, op: u32) -> Result<Term, TermFault> {
    let a = Term::app(alloc, 0, 0, Vec::new(alloc))?;
    Term::app(alloc, op, 0, vec![in alloc; a]?)
}

// The operator of the normal form, with what is left of the budget.
fn outcome(
    alloc: Global,
    theory: &Theory,
    assumptions: &[Pair],
    term: &Term,
    tries: u32,
    budget: u64,
) -> Result<(Option<u32>, u64), RewriteFault>
    requires tries { tries ≤ 8 }
    requires few { length assumptions.now < 2 ^ 32 }
{
    let rules = theory_rules(alloc, theory)?;
    let mut left = budget;
    match normalise(
        alloc,
        theory,
        rules.as_slice(),
        assumptions,
        term,
        tries,
        &mut left,
    ) {
        Ok(normal) => Ok((normal.term.op_number(), left)),
        Err(fault) => Err(fault),
    }
}

// Whether the work comes to this operator, with this left.
fn comes_to(
    alloc: Global,
    theory: &Theory,
    term: &Term,
    tries: u32,
    budget: u64,
    op: u32,
    left: u64,
) -> bool
    requires { tries ≤ 8 }
{
    match outcome(alloc, theory, &[], term, tries, budget) {
        Ok((Some(found), rest)) => found == op && rest == left,
        Ok((None, _)) => false,
        Err(_) => false,
    }
}

// Whether the budget is spent.
fn is_spent(alloc: Global, theory: &Theory, term: &Term, budget: u64) -> bool {
    matches!(
        outcome(alloc, theory, &[], term, 0, budget),
        Err(RewriteFault::Spent)
    )
}

// Whether `f(a)` becomes `b` by a failed try, a second one and a replacement, and by no fewer
// steps; with eight tries around it none is made.
fn tries_are_counted(alloc: Global, theory: &Theory) -> Result<bool, TermFault> {
    let term = on_a(alloc, 2)?;
    Ok(
        comes_to(alloc, theory, &term, 0, 4, 1, 1)
            && is_spent(alloc, theory, &term, 2)
            && comes_to(alloc, theory, &term, 8, 0, 2, 0),
    )
}

// Whether eight tries of a rule that asks for itself are made inside one another, and no ninth.
fn eight_tries_are_made(alloc: Global, theory: &Theory) -> Result<bool, TermFault> {
    let term = on_a(alloc, 3)?;
    Ok(
        comes_to(alloc, theory, &term, 0, 9, 3, 1)
            && is_spent(alloc, theory, &term, 7)
            && comes_to(alloc, theory, &term, 5, 3, 3, 0),
    )
}

// Whether an assumption is used in a condition and in the result, where `a` is assumed to be `b`.
fn assumption_is_used(alloc: Global, theory: &Theory) -> Result<bool, TermFault> {
    let assumption = Pair {
        left: Term::app(alloc, 0, 0, Vec::new(alloc))?,
        right: Term::app(alloc, 1, 0, Vec::new(alloc))?,
    };
    let term = on_a(alloc, 2)?;
    match outcome(alloc, theory, &[assumption], &term, 0, 9) {
        Ok((found, left)) => Ok(found == Some(1) && left == 5),
        Err(_) => Ok(false),
    }
}

// Whether three steps are enough without traces too.
fn value_is_b(alloc: Global, theory: &Theory, term: &Term) -> Result<bool, RewriteFault> {
    let mut reducer = Reducer::new(alloc, theory, theory_rules(alloc, theory)?)?;
    let mut left = 3;
    match reducer.value(term, 0, &mut left) {
        Ok(value) => Ok(value.op_number() == Some(1) && left == 0),
        Err(fault) => Err(fault),
    }
}

fn are_tried(alloc: Global, theory: &Theory) -> Result<bool, TermFault> {
    Ok(
        tries_are_counted(alloc, theory)?
            && eight_tries_are_made(alloc, theory)?
            && assumption_is_used(alloc, theory)?
            && value_is_b(alloc, theory, &on_a(alloc, 2)?).is_ok_and(|same| same),
    )
}

#[test]
fn conditions_are_tried(rt: HostRuntime) {
    let theory = read_theory(rt.alloc(), CASES);
    assert!(rt; theory.is_ok_and(|theory| are_tried(rt.alloc(), &theory) == Ok(true)));
}
