//! Both sides of a goal, with the links that led to them.
ghost use Rattle.std.specs.Prelude.{◌≡◌, ◌≤◌, ℕ, IfOk};
ghost use Rattle.circ_attempt.specs.Attempt.{both_normal};
ghost use Rattle.circ_conditional_search.specs.Search.{passed_sides};
ghost use Rattle.circ_join.specs.Sides.{plain_swept_sides};
ghost use Rattle.circ_join.specs.Trying.{Works};
ghost use Rattle.circ_rounds.specs.Running.{plain_sides};

use circ_join::{SweptSides, use_links};
use circ_proof::Chain;
use circ_rewrite::{RewriteFault, links_of};
use circ_term::Term;
use circ_tries::Reducer;
use std::alloc::{AllocError, Global};

/// Two sides, with the links that led to them.
#[derive(Drop)]
pub(crate) struct Sides {
    pub left: Term,
    pub right: Term,
    pub chain: Chain<Term>,
}

/// The normal forms of the left side and then of the right side, under the reducer's assumptions.
/// The budget is left with what they did not use.
pub(crate) fn both_normal(
    alloc: Global,
    reducer: &mut Reducer<'_>,
    left: &Term,
    right: &Term,
    budget: &mut u64,
) -> Result<Sides, RewriteFault>
    ensures exact { Works (plain_sides budget.new) budget.new (both_normal reducer.old.theory
        reducer.old.rules reducer.old.assumptions left.now right.now budget.old) result }
    ensures less { budget.new ≤ budget.old }
    ensures same { reducer.new ≡ reducer.old }
{
    match reducer.normal(left, 0, budget) {
        Err(fault) => Err(fault),
        Ok(one) => match reducer.normal(right, 0, budget) {
            Err(fault) => Err(fault),
            Ok(other) => {
                let chain = Chain {
                    left: links_of(alloc, one.traces)?,
                    right: links_of(alloc, other.traces)?,
                };
                let (left, right) = (one.term, other.term);
                Ok(Sides { left, right, chain })
            }
        },
    }
}

/// Both sides after a pass.
pub(crate) fn passed_sides(alloc: Global, swept: SweptSides) -> Result<Sides, AllocError>
    ensures { (k : ℕ) → IfOk result (λ s.
        plain_sides k s ≡ passed_sides (plain_swept_sides swept) k) }
{
    let SweptSides { left, right } = swept;
    let chain = Chain {
        left: use_links(alloc, left.uses)?,
        right: use_links(alloc, right.uses)?,
    };
    let (left, right) = (left.whole, right.whole);
    Ok(Sides { left, right, chain })
}
