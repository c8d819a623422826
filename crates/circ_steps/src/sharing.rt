//! The equations of a theory by number.
ghost use Rattle.std.specs.Prelude.{◌≡◌, map, IfOk};
ghost use Rattle.std.specs.List.{AllByRecursion};
ghost use Rattle.circ_term.specs.Growing.{Grows};
ghost use Rattle.circ_theory.specs.Theory.{goal_of};
ghost use Rattle.circ_theory.specs.Pairs.{plain_pair};
ghost use Rattle.circ_shared.specs.Patterns.{pairs_at, goal_at, AreThere, IsPattern};

use circ_nodes::Nodes;
use circ_shared::{Pattern, Sides, pattern};
use circ_theory::{Equation, Pair, Theory};
use std::alloc::{AllocError, Global};

/// The equations of a theory, in order, by number. Costs a look-up for each node of them, counted
/// as trees.
pub fn equations(
    alloc: Global,
    theory: &Theory,
    nodes: &mut Nodes,
) -> Result<Vec<Pattern>, AllocError>
    ensures grows { Grows nodes.old nodes.new }
    ensures equations { IfOk result (λ v.
        map (goal_at nodes.new) v.items ≡ map goal_of theory.now.equations) }
    ensures patterns { IfOk result (λ v. AllByRecursion (IsPattern nodes.new) v.items) }
{
    let mut patterns = Vec::new(alloc);
    for number in 0..theory.equation_count() {
        let Some(equation) = theory.equation(number) else {
            unreachable!()
        };
        patterns.push(share_equation(alloc, nodes, equation)?)?;
    }
    Ok(patterns)
}

fn share_equation(
    alloc: Global,
    nodes: &mut Nodes,
    equation: &Equation,
) -> Result<Pattern, AllocError>
    ensures grows { Grows nodes.old nodes.new }
    ensures pattern { IfOk result (IsPattern nodes.new) }
    ensures same { IfOk result (λ p. goal_at nodes.new p ≡ goal_of equation.now) }
{
    let conds = share_pairs(alloc, nodes, equation.conds.as_slice())?;
    let left = nodes.intern(&equation.left)?;
    let right = nodes.intern(&equation.right)?;
    let made = pattern(alloc, nodes, conds, Sides { left, right })?;
    Ok(made)
}

/// Pairs of terms by number. Costs a look-up for each node of them, counted as trees.
pub fn share_pairs(
    alloc: Global,
    nodes: &mut Nodes,
    pairs: &[Pair],
) -> Result<Vec<Sides>, AllocError>
    ensures grows { Grows nodes.old nodes.new }
    ensures there { IfOk result (λ v. AreThere nodes.new v.items) }
    ensures same { IfOk result (λ v. pairs_at nodes.new v.items ≡ map plain_pair pairs.now) }
{
    let mut shared = Vec::with_capacity(alloc, pairs.len())?;
    for pair in pairs {
        let left = nodes.intern(&pair.left)?;
        let right = nodes.intern(&pair.right)?;
        shared.push(Sides { left, right })?;
    }
    Ok(shared)
}
