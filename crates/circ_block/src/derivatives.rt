//! The goals that Derive makes, in a search.
ghost use Rattle.circ_block.specs.Derived.{CanBeDerived, GivesDerivatives};

use circ_join::Stop;
use circ_rules::DeriveFault;
use circ_theory::{Goal, Theory};
use std::alloc::Global;
use std::collections::VecDeque;

/// The derivatives of a goal: that of each derivative of its sort, with fresh parameters, under the
/// goal's conditions.
pub fn derivatives_on(alloc: Global, theory: &Theory, goal: &Goal) -> Result<VecDeque<Goal>, Stop>
    requires ready { CanBeDerived theory.now goal.now }
    ensures { GivesDerivatives theory.now goal.now result }
{
    theory.known();
    match circ_rules::derivatives_on(alloc, theory, goal) {
        Ok(derived) => Ok(derived),
        Err(DeriveFault::Term(fault)) => Err(Stop::of_term(fault)),
        Err(DeriveFault::Numbers) => unreachable!(),
    }
}
