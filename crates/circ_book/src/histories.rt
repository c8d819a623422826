//! What becomes of the goals of a block, told from its last step to its first.
ghost use Rattle.std.specs.Prelude.{◌≡◌, ◌≤◌, ◌<◌, ◌+◌, ◌^◌, [], length, map, take, drop, IfOk, OnOk};
ghost use Rattle.circ_proof.specs.declared.proof.Step.TheVariants.{Simplify, Reduce, Derive};
ghost use Rattle.circ_book.specs.Histories.{meeting_of, Tells, TellsOne};

use circ_proof::{Chain, Step, Why};
use circ_term::Term;
use circ_theory::Goal;
use std::alloc::{AllocError, Global};
use std::collections::VecDeque;

/// A goal with what becomes of it.
#[derive(Drop)]
pub struct Node<'a> {
    pub goal: Goal,
    pub what: What<'a>,
}

/// It is simplified to the goal of another node, or reduced, or derived, and its children are the
/// goals of other nodes.
#[derive(Drop)]
pub enum What<'a> {
    Simplified { chain: &'a Chain, next: u32 },
    Reduced { why: &'a Why },
    Derived { children: Vec<u32> },
}

// A goal that a step acts on, and how many others there are.
#[derive(Drop)]
pub(crate) struct Met {
    pub(crate) goal: Goal,
    pub(crate) others: usize,
}

// The nodes of goals that are open, and of those that are derived from here on.
#[derive(Drop)]
pub(crate) struct Numbers {
    pub(crate) goals: VecDeque<u32>,
    pub(crate) derived: VecDeque<u32>,
}

// What the steps say of the goals that they act on, from the last step to the first.
pub(crate) fn tell<'a>(
    alloc: Global,
    nodes: &mut Vec<Node<'a>>,
    mut met: Vec<Met>,
    steps: &'a [Step],
) -> Result<Numbers, AllocError>
    requires steps { length met.items ≤ length steps.now }
    requires room { length nodes.old.items + length met.items ≤ 2 ^ 31 }
    ensures { IfOk result (λ told. Tells nodes.old.items nodes.new.items told
        (map meeting_of met.items) steps.now) }
{
    let mut told = Numbers {
        goals: VecDeque::new(alloc),
        derived: VecDeque::new(alloc),
    };
    while let Some(one) = met.pop() {
        tell_one(alloc, nodes, &mut told, one, &steps[met.len()])?;
    }
    Ok(told)
}

// One step more, before those of which it is told.
fn tell_one<'a>(
    alloc: Global,
    nodes: &mut Vec<Node<'a>>,
    told: &mut Numbers,
    met: Met,
    step: &'a Step,
) -> Result<(), AllocError>
    requires room { length nodes.old.items < 2 ^ 31 }
    ensures { OnOk result (TellsOne nodes.old.items nodes.new.items told.old told.new
        (meeting_of met) step.now) }
{
    match step {
        Step::Simplify { chain } => simplified(nodes, told, met.goal, chain),
        Step::Reduce { why } => reduced(nodes, told, met.goal, why),
        Step::Derive => derived(alloc, nodes, told, met),
        Step::Cases { .. } => {
            forget(told);
            Ok(())
        }
        Step::Done => {
            forget(told);
            Ok(())
        }
    }
}

// The first open goal is what another is simplified to.
fn simplified<'a>(
    nodes: &mut Vec<Node<'a>>,
    told: &mut Numbers,
    goal: Goal,
    chain: &'a Chain,
) -> Result<(), AllocError>
    requires room { length nodes.old.items < 2 ^ 31 }
    ensures { OnOk result (TellsOne nodes.old.items nodes.new.items told.old told.new
        (goal, 0) (Simplify chain.now)) }
{
    let number = nodes.len() as u32;
    let next = told.goals.pop_front().unwrap_or(number);
    told.goals.push_front(number)?;
    nodes.push(Node {
        goal,
        what: What::Simplified { chain, next },
    })?;
    Ok(())
}

// A goal that is reduced is before the open ones.
fn reduced<'a>(
    nodes: &mut Vec<Node<'a>>,
    told: &mut Numbers,
    goal: Goal,
    why: &'a Why,
) -> Result<(), AllocError>
    requires room { length nodes.old.items < 2 ^ 31 }
    ensures { OnOk result (TellsOne nodes.old.items nodes.new.items told.old told.new
        (goal, 0) (Reduce why.now)) }
{
    told.goals.push_front(nodes.len() as u32)?;
    nodes.push(Node {
        goal,
        what: What::Reduced { why },
    })?;
    Ok(())
}

// The open goals behind the others are the children of one that is derived.
fn derived(
    alloc: Global,
    nodes: &mut Vec<Node<'_>>,
    told: &mut Numbers,
    met: Met,
) -> Result<(), AllocError>
    requires room { length nodes.old.items < 2 ^ 31 }
    ensures { OnOk result (TellsOne nodes.old.items nodes.new.items told.old told.new
        (meeting_of met) Derive) }
{
    let number = nodes.len() as u32;
    let children = behind(alloc, &mut told.goals, met.others)?;
    told.goals.push_front(number)?;
    told.derived.push_front(number)?;
    nodes.push(Node {
        goal: met.goal,
        what: What::Derived { children },
    })?;
    Ok(())
}

fn forget(told: &mut Numbers)
    ensures goals { told.new.goals.items ≡ [] }
    ensures derived { told.new.derived.items ≡ [] }
{
    told.goals.clear();
    told.derived.clear();
}

// Takes those behind the first so many.
fn behind(alloc: Global, goals: &mut VecDeque<u32>, count: usize) -> Result<Vec<u32>, AllocError>
    ensures kept { OnOk result (goals.new.items ≡ take count goals.old.items) }
    ensures taken { IfOk result (λ v. v.items ≡ drop count goals.old.items) }
{
    let mut taken = Vec::new(alloc);
    let mut left = goals.len();
    while left > count {
        left -= 1;
        if let Some(last) = goals.pop_back() {
            taken.push(last)?;
        }
    }
    taken.reverse();
    Ok(taken)
}
