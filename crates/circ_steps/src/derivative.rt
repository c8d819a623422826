//! The derivatives of a theory by number.
ghost use Rattle.std.specs.Prelude.{◌≡◌, ◌≤◌, ◌<◌, ◌+◌, ◌^◌, length, IfOk};
ghost use Rattle.std.specs.List.{slice_get};
ghost use Rattle.std.specs.Option.{IfSome};
ghost use Rattle.circ_term.specs.Growing.{Grows};
ghost use Rattle.circ_term.specs.Tree.{trees_of};
ghost use Rattle.circ_theory.specs.Fresh.{variables_from};
ghost use Rattle.circ_nodes.specs.Named.{AreNamed};
ghost use Rattle.circ_steps.specs.Derivatives.{IsDerivativeAt, AreDerivativesAt};

use circ_nodes::Nodes;
use circ_theory::Theory;
use std::alloc::{AllocError, Global};

/// A derivative: its body, the variable of its hole, and those of its parameters 1, 2 and so on, by
/// number.
#[derive(Drop)]
pub struct SharedDerivative {
    pub body: u32,
    pub hole: u32,
    pub params: Vec<u32>,
}

/// The derivatives of a theory, in order, by number. Costs a look-up for each node of them, counted
/// as trees.
pub fn derivatives(
    alloc: Global,
    theory: &Theory,
    nodes: &mut Nodes,
) -> Result<Vec<SharedDerivative>, AllocError>
    ensures grows { Grows nodes.old nodes.new }
    ensures derivatives { IfOk result (λ v.
        AreDerivativesAt nodes.new theory.now.derivatives v.items) }
{
    let mut shared = Vec::new(alloc);
    for number in 0..theory.derivative_count() {
        shared.push(share_derivative(alloc, theory, nodes, number)?)?;
    }
    Ok(shared)
}

fn share_derivative(
    alloc: Global,
    theory: &Theory,
    nodes: &mut Nodes,
    number: u32,
) -> Result<SharedDerivative, AllocError>
    requires { number < length theory.now.derivatives }
    ensures grows { Grows nodes.old nodes.new }
    ensures derivative { IfSome (slice_get theory.now.derivatives number)
        (λ d. IfOk result (IsDerivativeAt nodes.new d)) }
{
    theory.known();
    let Some(body) = theory.derivative(number) else {
        unreachable!()
    };
    let Some(hole) = theory.hole_sort(number) else {
        unreachable!()
    };
    let Some(sorts) = theory.parameter_sorts(number) else {
        unreachable!()
    };
    let body = nodes.intern(body)?;
    let hole = nodes.variable(0, hole)?;
    let params = variables(alloc, nodes, 1, sorts)?;
    Ok(SharedDerivative { body, hole, params })
}

// Variables of these sorts, numbered from `first`.
pub(crate) fn variables(
    alloc: Global,
    nodes: &mut Nodes,
    first: u64,
    sorts: &[u32],
) -> Result<Vec<u32>, AllocError>
    requires { first + length sorts.now ≤ 2 ^ 32 }
    ensures grows { Grows nodes.old nodes.new }
    ensures named { IfOk result (λ v.
        AreNamed nodes.new v.items (trees_of (variables_from first sorts.now))) }
{
    let mut numbers = Vec::with_capacity(alloc, sorts.len())?;
    for (place, sort) in sorts.iter().enumerate() {
        numbers.push(nodes.variable((first + place as u64) as u32, *sort)?)?;
    }
    Ok(numbers)
}
