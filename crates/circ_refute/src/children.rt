//! The pairs that an expansion adds.
ghost use Rattle.std.specs.Prelude.{◌≡◌, ◌≤◌, ◌+◌, ◌^◌, Some};
ghost use Rattle.std.specs.List.{slice_get};
ghost use Rattle.std.specs.Option.{IfSome, option_map};
ghost use Rattle.circ_term.specs.Tree.{sort_of};
ghost use Rattle.circ_theory.specs.Theory.{pair_with, IsWellSortedPair};
ghost use Rattle.circ_theory.specs.Fresh.{FitSome};
ghost use Rattle.circ_refute.specs.PlainRefutation.{first_parameter};
ghost use Rattle.circ_refute.specs.Plain.{descendant, descendants, GivesDescendant, PutsLast};

use crate::descendant::{Descendant, Origin};
use circ_term::{Term, TermFault};
use circ_theory::{Theory, above, variables_from};
use std::alloc::Global;
use std::collections::VecDeque;

// Puts the derivatives of the expanded pair of a place last.
pub(crate) fn push_children(
    alloc: Global,
    theory: &Theory,
    parent: usize,
    left: &Term,
    right: &Term,
    queue: &mut VecDeque<Descendant>,
) -> Result<(), TermFault>
    requires sorted { IsWellSortedPair theory.now.signature (pair_with left.now right.now) }
    requires room { first_parameter left.now right.now + 8 ≤ 2 ^ 32 }
    ensures { PutsLast (descendants parent left.now right.now
        (first_parameter left.now right.now) 0 theory.now.derivatives)
        queue.old.items queue.new.items result }
{
    let sort = left.sort();
    let first = above(left).max(above(right)).max(1);
    for derivative in 0..theory.derivative_count() {
        if theory.takes(derivative, sort) {
            let origin = Origin {
                parent,
                derivative,
                first,
            };
            match child(alloc, theory, origin, left, right) {
                Ok(child) => queue.push_back(child)?,
                Err(fault) => return Err(fault),
            }
        }
    }
    Ok(())
}

// The derivative on both terms, its parameters numbered from the origin's first.
fn child(
    alloc: Global,
    theory: &Theory,
    origin: Origin,
    left: &Term,
    right: &Term,
) -> Result<Descendant, TermFault>
    requires hole { option_map (λ d. d.hole) (slice_get theory.now.derivatives origin.derivative)
        ≡ Some (sort_of left.now) }
    requires same_sort { sort_of right.now ≡ sort_of left.now }
    requires room { origin.first + 8 ≤ 2 ^ 32 }
    ensures { IfSome (slice_get theory.now.derivatives origin.derivative)
        (λ d. GivesDescendant (descendant origin.parent left.now right.now origin.first
        origin.derivative d) result) }
{
    theory.known();
    let Some(sorts) = theory.parameter_sorts(origin.derivative) else {
        unreachable!();
    };
    let params = variables_from(alloc, origin.first, sorts)?;
    let left = match theory.instance(origin.derivative, params.as_slice(), left) {
        Ok(left) => left,
        Err(fault) => return Err(fault),
    };
    let right = match theory.instance(origin.derivative, params.as_slice(), right) {
        Ok(right) => right,
        Err(fault) => return Err(fault),
    };
    Ok(Descendant {
        left,
        right,
        origin: Some(origin),
    })
}
