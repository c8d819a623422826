//! Goals with their variables numbered anew.
ghost use Rattle.std.specs.Prelude.{◌≡◌, ◌≤◌, ◌^◌, map, length, IfOk, OnOk};
ghost use Rattle.circ_term.specs.Tree.{trees_of};
ghost use Rattle.circ_term.specs.Substitution.{instance};
ghost use Rattle.circ_term.specs.Subst.{substitution_of};
ghost use Rattle.circ_pairs.specs.Pair.{instance_pair};
ghost use Rattle.circ_pairs.specs.Pairs.{plain_pair};
ghost use Rattle.circ_pairs.specs.Variables.{IsInOrder, variables_of, seen, seen_in, seen_in_all};
ghost use Rattle.circ_pairs.specs.Variables.{seen_in_pairs};
ghost use Rattle.circ_pairs.specs.Renumbering.{renumbered, renumbering, Renumbers};
ghost use Rattle.circ_pairs.specs.Renumbering.{instance_goal};
ghost use Rattle.circ_pairs.specs.Occurring.{variable_of};

use crate::goals::Goal;
use crate::pairs::{Pair, Pairs};
use circ_term::{Kind, Subst, Term};
use indexmap::IndexSet;
use std::alloc::{AllocError, Global};

/// A variable that occurs in a term.
#[derive(Clone, Copy, PartialEq, Eq, Hash)]
pub struct Occurring {
    pub number: u32,
    pub sort: u32,
}

/// The goal with its variables numbered anew: they get the numbers 0, 1 and so on by their first
/// occurrence, the left side first, the conditions last. Costs as much as the terms have nodes.
pub fn renumbered(alloc: Global, goal: &Goal) -> Result<Goal, AllocError>
    requires few { length (variables_of goal.now) ≤ 2 ^ 32 }
    ensures exact { IfOk result (λ g. g ≡ renumbered goal.now) }
    ensures in_order { IfOk result (λ g. IsInOrder g) }
{
    let subst = goal_renumbering(alloc, goal)?;
    instances(alloc, &subst, goal)
}

/// Adds the term's variables to those that were seen so far, by first occurrence. After want of
/// memory some of them are added.
#[cycle(gather)]
pub fn gather(term: &Term, variables: &mut IndexSet<Occurring>) -> Result<(), AllocError>
    ensures { OnOk result (map variable_of variables.new.keys ≡
        seen_in term.now (map variable_of variables.old.keys)) }
{
    match term.kind() {
        Kind::Variable { number, sort } => {
            variables.insert(Occurring { number, sort })?;
            Ok(())
        }
        Kind::Application { args, .. } => gather_all(args, variables),
    }
}

#[cycle(gather)]
fn gather_all(terms: &[Term], variables: &mut IndexSet<Occurring>) -> Result<(), AllocError>
    ensures { OnOk result (map variable_of variables.new.keys ≡
        seen_in_all (trees_of terms.now) (map variable_of variables.old.keys)) }
{
    for term in terms {
        gather(term, variables)?;
    }
    Ok(())
}

// What numbers the variables of a goal anew.
fn goal_renumbering(alloc: Global, goal: &Goal) -> Result<Subst, AllocError>
    requires { length (variables_of goal.now) ≤ 2 ^ 32 }
    ensures { IfOk result (λ σ. Renumbers (substitution_of σ) (variables_of goal.now)) }
{
    let mut variables = IndexSet::new(alloc);
    gather_goal(goal, &mut variables)?;
    renumbering(alloc, variables.as_slice())
}

fn gather_goal(goal: &Goal, variables: &mut IndexSet<Occurring>) -> Result<(), AllocError>
    ensures { OnOk result (map variable_of variables.new.keys ≡
        seen_in_pairs goal.now.conds (seen_in goal.now.right
        (seen_in goal.now.left (map variable_of variables.old.keys)))) }
{
    gather(&goal.left, variables)?;
    gather(&goal.right, variables)?;
    gather_pairs(goal.conds.as_slice(), variables)
}

fn gather_pairs(pairs: &[Pair], variables: &mut IndexSet<Occurring>) -> Result<(), AllocError>
    ensures { OnOk result (map variable_of variables.new.keys ≡
        seen_in_pairs (map plain_pair pairs.now) (map variable_of variables.old.keys)) }
{
    for pair in pairs {
        gather(&pair.left, variables)?;
        gather(&pair.right, variables)?;
    }
    Ok(())
}

// Each variable is bound to the one that has its place as number.
fn renumbering(alloc: Global, variables: &[Occurring]) -> Result<Subst, AllocError>
    requires { length variables.now ≤ 2 ^ 32 }
    ensures { IfOk result (λ σ. Renumbers (substitution_of σ) (map variable_of variables.now)) }
{
    let mut subst = Subst::new(alloc);
    for i in 0..variables.len() {
        let variable = variables[i];
        let number = Term::var(i as u32, variable.sort);
        subst.bind(variable.number, variable.sort, &number)?;
    }
    Ok(subst)
}

fn instances(alloc: Global, subst: &Subst, goal: &Goal) -> Result<Goal, AllocError>
    ensures { IfOk result (λ g. g ≡ instance_goal (substitution_of subst.now) goal.now) }
{
    let left = instance(subst, &goal.left)?;
    let right = instance(subst, &goal.right)?;
    let conds = pair_instances(alloc, subst, goal.conds.as_slice())?;
    Ok(Goal { conds, left, right })
}

fn pair_instances(alloc: Global, subst: &Subst, pairs: &[Pair]) -> Result<Pairs, AllocError>
    ensures { IfOk result (λ ps. ps ≡
        map (instance_pair (substitution_of subst.now)) (map plain_pair pairs.now)) }
{
    let mut made = Pairs::new(alloc);
    for pair in pairs {
        let left = instance(subst, &pair.left)?;
        let right = instance(subst, &pair.right)?;
        made.push(Pair { left, right })?;
    }
    Ok(made)
}

// A variable for each variable: the term keeps its shape, so it passes no limit.
fn instance(subst: &Subst, term: &Term) -> Result<Term, AllocError>
    ensures { IfOk result (λ t. t ≡ instance (substitution_of subst.now) term.now) }
{
    match subst.apply(term) {
        Ok(term) => Ok(term),
        Err(_) => Err(AllocError),
    }
}
