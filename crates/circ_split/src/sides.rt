//! Both sides of a goal in normal form.
ghost use Rattle.std.specs.Prelude.{◌≡◌, ◌≤◌};
ghost use Rattle.circ_conditional_search.specs.Search.{normalised_trying, normal_sides_trying};
ghost use Rattle.circ_split.specs.Answers.{GivesSide, GivesSides};

use circ_join::Stop;
use circ_proof::{Chain, Link};
use circ_rewrite::links_of;
use circ_term::Term;
use circ_tries::Reducer;
use std::alloc::Global;

/// Two sides, with the links that led to them.
#[derive(Drop)]
pub struct Sides {
    /// The left side.
    pub left: Term,
    /// The right side.
    pub right: Term,
    /// The links.
    pub chain: Chain<Term>,
}

// A side in normal form, with the links that led to it.
#[derive(Drop)]
struct Side {
    term: Term,
    links: Vec<Link<Term>>,
}

/// The normal forms of the left side and then of the right side, under the reducer's assumptions.
/// The budget is left with what they did not use.
pub fn normal_sides(
    alloc: Global,
    reducer: &mut Reducer<'_>,
    left: &Term,
    right: &Term,
    budget: &mut u64,
) -> Result<Sides, Stop>
    ensures exact { GivesSides (normal_sides_trying reducer.old.theory reducer.old.rules
        reducer.old.assumptions left.now right.now budget.old) budget.new result }
    ensures less { budget.new ≤ budget.old }
    ensures same { reducer.new ≡ reducer.old }
{
    match normal_side(alloc, reducer, left, budget) {
        Err(stop) => Err(stop),
        Ok(one) => match normal_side(alloc, reducer, right, budget) {
            Err(stop) => Err(stop),
            Ok(other) => Ok(Sides {
                left: one.term,
                right: other.term,
                chain: Chain {
                    left: one.links,
                    right: other.links,
                },
            }),
        },
    }
}

fn normal_side(
    alloc: Global,
    reducer: &mut Reducer<'_>,
    side: &Term,
    budget: &mut u64,
) -> Result<Side, Stop>
    ensures exact { GivesSide (normalised_trying reducer.old.theory reducer.old.rules
        reducer.old.assumptions side.now budget.old) budget.new result }
    ensures less { budget.new ≤ budget.old }
    ensures same { reducer.new ≡ reducer.old }
{
    match reducer.normal(side, 0, budget) {
        Err(fault) => Err(Stop::of_rewrite(fault)),
        Ok(normal) => {
            let links = links_of(alloc, normal.traces)?;
            Ok(Side {
                term: normal.term,
                links,
            })
        }
    }
}
