//! Contents by weights: a call that no command makes, with ample memory.
use circ_nodes::{Nodes, Terms};
use circ_read::read_theory;
use circ_term::{Term, TermFault};
use circ_theory::Theory;
use circ_weigh::same_content;
use std::alloc::Global;

// Operators 0 to 3, in this order.
const SUMS: &[u8] = b"theory T is
  sort A .
  ops a b : -> A .
  op _+_ : A A -> A [assoc comm] .
  op _|_ : A A -> A [assoc comm idem] .
endtheory";

fn constant(alloc: Global, op: u32) -> Result<Term, TermFault> {
    Term::app(alloc, op, 0, Vec::new(alloc))
}

fn sum(alloc: Global, op: u32, first: Term, second: Term) -> Result<Term, TermFault> {
    Term::app(alloc, op, 0, vec![in alloc; first, second]?)
}

// `a, (x, a)` by this operator, where `x` is a constant.
fn to_the_right(alloc: Global, op: u32, x: u32) -> Result<Term, TermFault> {
    let rest = sum(alloc, op, constant(alloc, x)?, constant(alloc, 0)?)?;
    sum(alloc, op, constant(alloc, 0)?, rest)
}

// `(a, a), x`
fn to_the_left(alloc: Global, op: u32, x: u32) -> Result<Term, TermFault> {
    let front = sum(alloc, op, constant(alloc, 0)?, constant(alloc, 0)?)?;
    sum(alloc, op, front, constant(alloc, x)?)
}

// Whether both have the same content under the operator.
fn is_same(
    alloc: Global,
    theory: &Theory,
    op: u32,
    first: &Term,
    second: &Term,
) -> Result<bool, TermFault> {
    is_same_among(alloc, theory, &mut Nodes::new(alloc), op, first, second)
}

fn is_same_among(
    alloc: Global,
    theory: &Theory,
    nodes: &mut Nodes,
    op: u32,
    first: &Term,
    second: &Term,
) -> Result<bool, TermFault> {
    let a = nodes.intern(first)?;
    let b = nodes.intern(second)?;
    let mut terms = Terms::new(alloc);
    Ok(same_content(alloc, theory, nodes, &mut terms, op, a, b)?)
}

// Whether `a, (x, a)` and `(a, a), y` have the same content.
fn is_same_turned(alloc: Global, theory: &Theory, x: u32, y: u32) -> Result<bool, TermFault> {
    let right = to_the_right(alloc, 2, x)?;
    let left = to_the_left(alloc, 2, y)?;
    is_same(alloc, theory, 2, &right, &left)
}

// Whether `a, (b, a)` and `a, b` have the same content where repeated summands do not count.
fn is_same_once(alloc: Global, theory: &Theory) -> Result<bool, TermFault> {
    let repeated = to_the_right(alloc, 3, 1)?;
    let once = sum(alloc, 3, constant(alloc, 0)?, constant(alloc, 1)?)?;
    is_same(alloc, theory, 3, &repeated, &once)
}

// Whether sums are the same in any order, and not with another summand; repeated ones count, unless
// they do not.
fn are_weighed(alloc: Global, theory: &Theory) -> Result<bool, TermFault> {
    Ok(
        is_same_turned(alloc, theory, 1, 1)?
            && !is_same_turned(alloc, theory, 1, 0)?
            && is_same_once(alloc, theory)?,
    )
}

#[test]
fn contents_are_weighed(rt: HostRuntime) {
    let theory = read_theory(rt.alloc(), SUMS);
    assert!(rt; theory.is_ok_and(|theory| are_weighed(rt.alloc(), &theory) == Ok(true)));
}
