//! Variables that stand for themselves.
ghost use Rattle.std.specs.Prelude.{◌==◌, ◌&&◌, map, OnOk};
ghost use Rattle.circ_term.specs.Tree.{trees_of};
ghost use Rattle.circ_theory.specs.Pairs.{plain_pair};
ghost use Rattle.circ_match.specs.Matcher.{has_variable, have_variable};
ghost use Rattle.circ_join.specs.Binding.{BindsRest, has_pair_variable, have_pair_variable};

use circ_term::{Kind, Subst, Term};
use circ_theory::Pair;
use std::alloc::AllocError;

/// Each variable of the conditions that is not bound stands for itself.
pub fn bind_conditions(conds: &[Pair], subst: &mut Subst) -> Result<(), AllocError>
    ensures { OnOk result (BindsRest (have_pair_variable (map plain_pair conds.now)) subst.old
        subst.new) }
{
    for cond in conds {
        bind_pair(cond, subst)?;
    }
    Ok(())
}

fn bind_pair(pair: &Pair, subst: &mut Subst) -> Result<(), AllocError>
    ensures { OnOk result (BindsRest (has_pair_variable (plain_pair pair.now)) subst.old
        subst.new) }
{
    bind_variables(&pair.left, subst)?;
    bind_variables(&pair.right, subst)
}

#[cycle(bind_variables)]
fn bind_variables(term: &Term, subst: &mut Subst) -> Result<(), AllocError>
    ensures { OnOk result (BindsRest (has_variable term.now) subst.old subst.new) }
{
    match term.kind() {
        Kind::Variable { number, sort } => bind_variable(number, sort, subst),
        Kind::Application { args, .. } => bind_all(args, subst),
    }
}

#[cycle(bind_variables)]
fn bind_all(terms: &[Term], subst: &mut Subst) -> Result<(), AllocError>
    ensures { OnOk result (BindsRest (have_variable (trees_of terms.now)) subst.old subst.new) }
{
    for term in terms {
        bind_variables(term, subst)?;
    }
    Ok(())
}

fn bind_variable(number: u32, sort: u32, subst: &mut Subst) -> Result<(), AllocError>
    ensures { OnOk result (BindsRest (λ n s. (number == n) && (sort == s)) subst.old subst.new) }
{
    if subst.get(number, sort).is_none() {
        subst.bind(number, sort, &Term::var(number, sort))?;
    }
    Ok(())
}
