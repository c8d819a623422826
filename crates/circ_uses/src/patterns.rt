//! What stands in a term where a pattern has its variables.
ghost use Rattle.std.specs.Prelude.{◌≡◌, ℕ, IfOk, OnOk};
ghost use Rattle.std.specs.Option.{option_or};
ghost use Rattle.circ_term.specs.Tree.{trees_of};
ghost use Rattle.circ_term.specs.Subst.{found};
ghost use Rattle.circ_rewrite.specs.Matching.{image, images, matching};
ghost use Rattle.circ_uses.specs.Valuations.{bounds_in, valued_by};

use crate::valuation::Valuation;
use circ_term::{Kind, Term};
use std::alloc::{AllocError, Global};

/// Each variable of the pattern with the subterm at its first place from the left, if that is of its
/// sort.
pub fn matching(alloc: Global, pattern: &Term, term: &Term) -> Result<Valuation, AllocError>
    ensures { IfOk result (λ v. (n s : ℕ) →
        valued_by v n s ≡ matching pattern.now term.now n s) }
{
    let mut values = Valuation::new(alloc);
    match_into(&mut values, pattern, term)?;
    Ok(values)
}

#[cycle(match_into)]
fn match_into(values: &mut Valuation, pattern: &Term, term: &Term) -> Result<(), AllocError>
    ensures { OnOk result ((n s : ℕ) → found (bounds_in values.new) n s ≡
        option_or (found (bounds_in values.old) n s) (image pattern.now term.now n s)) }
{
    match (pattern.kind(), term.kind()) {
        (Kind::Variable { number, sort }, _) => {
            if term.sort() == sort {
                values.put(number, sort, term)?;
            }
            Ok(())
        }
        (Kind::Application { .. }, Kind::Variable { .. }) => Ok(()),
        (Kind::Application { args, .. }, Kind::Application { args: terms, .. }) => {
            match_all(values, args, terms)
        }
    }
}

#[cycle(match_into)]
fn match_all(values: &mut Valuation, patterns: &[Term], terms: &[Term]) -> Result<(), AllocError>
    ensures { OnOk result ((n s : ℕ) → found (bounds_in values.new) n s ≡
        option_or (found (bounds_in values.old) n s)
        (images (trees_of patterns.now) (trees_of terms.now) n s)) }
{
    for i in 0..patterns.len().min(terms.len()) {
        match_into(values, &patterns[i], &terms[i])?;
    }
    Ok(())
}
