//! Whether goals are refuted.
ghost use Rattle.std.specs.Prelude.{◌≡◌, ◌≤◌, ◌+◌, ◌^◌, [], map, IfOk};
ghost use Rattle.std.specs.List.{AllByRecursion};
ghost use Rattle.circ_theory.specs.Theory.{IsWellSortedGoal};
ghost use Rattle.circ_theory.specs.Fresh.{fresh_in};
ghost use Rattle.circ_plain_search.specs.PlainSearch.{IsSearchable};
ghost use Rattle.circ_refute.specs.PlainRefutation.{conclude, refutation, refutations, goals_in};
ghost use Rattle.circ_refute.specs.PlainRefutation.{PlainRefutation};
ghost use Rattle.circ_refute.specs.Difference.{IsRight, IsRightDecision};
ghost use Rattle.circ_refute.specs.Plain.{plain_refuted, plain_decision};
ghost use Rattle.circ_refute.specs.Progress.{rewriting_in};

use crate::laws::{decisions_are_right, differences_are_right};
use crate::refuted::{Decision, Refuted};
use crate::refuter::Refuter;
use circ_theory::{Goal, Theory};
use std::alloc::{AllocError, Global};

/// Looks for an experiment that leads the sides of a goal without conditions to two different
/// constants of one case list, with at most so many rewrites and tries of conditions, and so many
/// expanded pairs. Both budgets fall by what was used. After want of memory they hold what was left;
/// the clauses say only that this is no more than before.
pub fn refute(
    alloc: Global,
    theory: &Theory,
    goal: &Goal,
    rewrites: &mut u64,
    derives: &mut u64,
) -> Result<Refuted, AllocError>
    requires sorted { IsWellSortedGoal theory.now goal.now }
    requires no_conds { goal.now.conds ≡ [] }
    requires low { fresh_in goal.now ≤ 2 ^ 31 }
    requires few { derives.old ≤ 10000 }
    ensures exact { IfOk result (λ r. refutation theory.now derives.old rewrites.old goal.now
        ≡ conclude (plain_refuted r) rewrites.new derives.new) }
    ensures right { IfOk result (λ r. IsRight theory.now goal.now (plain_refuted r)) }
    ensures rewrites { rewrites.new ≤ rewrites.old }
    ensures derives { derives.new ≤ derives.old }
{
    theory.known();
    goal.left.known();
    goal.right.known();
    differences_are_right();
    let mut refuter = Refuter::new(alloc, theory, *rewrites, *derives)?;
    let found = refuter.refute(goal);
    *rewrites = refuter.rewrites;
    *derives = refuter.derives;
    found
}

/// Tries the goals of the blocks in order on shared budgets, as [`refute`] does: the first that is
/// not alike decides.
pub fn refute_all(
    alloc: Global,
    theory: &Theory,
    blocks: &[Vec<Goal>],
    rewrites: &mut u64,
    derives: &mut u64,
) -> Result<Decision, AllocError>
    requires goals { AllByRecursion (λ b. AllByRecursion (IsSearchable theory.now) b)
        (map (λ b. b.items) blocks.now) }
    requires few { derives.old ≤ 10000 }
    ensures exact { IfOk result (λ x. PlainRefutation theory.now (map (λ b. b.items) blocks.now)
        derives.old rewrites.old (plain_decision x rewrites.new derives.new)) }
    ensures right { IfOk result (λ x. IsRightDecision theory.now
        (goals_in (map (λ b. b.items) blocks.now))
        (plain_decision x rewrites.new derives.new)) }
    ensures rewrites { rewrites.new ≤ rewrites.old }
    ensures derives { derives.new ≤ derives.old }
{
    theory.known();
    decisions_are_right();
    let mut refuter = Refuter::new(alloc, theory, *rewrites, *derives)?;
    let decision = refuter.refute_blocks(blocks);
    *rewrites = refuter.rewrites;
    *derives = refuter.derives;
    decision
}

impl Refuter<'_> {
    // What is found of the goals of blocks, which are counted from 1.
    fn refute_blocks(&mut self, blocks: &[Vec<Goal>]) -> Result<Decision, AllocError>
        requires reducer { self.old.reducer ≡ rewriting_in self.old.theory.now }
        requires goals { AllByRecursion
            (λ b. AllByRecursion (IsSearchable self.old.theory.now) b)
            (map (λ b. b.items) blocks.now) }
        requires few { self.old.derives ≤ 10000 }
        ensures exact { IfOk result (λ x. PlainRefutation self.old.theory.now
            (map (λ b. b.items) blocks.now) self.old.derives self.old.rewrites
            (plain_decision x self.new.rewrites self.new.derives)) }
        ensures rewrites { self.new.rewrites ≤ self.old.rewrites }
        ensures derives { self.new.derives ≤ self.old.derives }
    {
        let mut next = 1;
        for block in blocks {
            let decision = self.refute_block(next, block.as_slice())?;
            match decision.refuted {
                Refuted::Alike => next = decision.goal,
                _ => return Ok(decision),
            }
        }
        Ok(Decision {
            goal: next,
            refuted: Refuted::Alike,
        })
    }

    // What is found of goals, of which the first has this number.
    fn refute_block(&mut self, first: u64, goals: &[Goal]) -> Result<Decision, AllocError>
        requires reducer { self.old.reducer ≡ rewriting_in self.old.theory.now }
        requires goals { AllByRecursion (IsSearchable self.old.theory.now) goals.now }
        requires few { self.old.derives ≤ 10000 }
        ensures exact { IfOk result (λ x. refutations self.old.theory.now first self.old.derives
            self.old.rewrites goals.now ≡ plain_decision x self.new.rewrites self.new.derives) }
        ensures theory { self.new.theory ≡ self.old.theory }
        ensures reducer { self.new.reducer ≡ self.old.reducer }
        ensures rewrites { self.new.rewrites ≤ self.old.rewrites }
        ensures derives { self.new.derives ≤ self.old.derives }
    {
        let mut number = first;
        for goal in goals {
            match self.refute(goal)? {
                Refuted::Alike => number = following(number)?,
                refuted => {
                    return Ok(Decision {
                        goal: number,
                        refuted,
                    });
                }
            }
        }
        Ok(Decision {
            goal: number,
            refuted: Refuted::Alike,
        })
    }
}

// The next number. That there is none is want of memory.
fn following(number: u64) -> Result<u64, AllocError>
    ensures { IfOk result (λ n. n ≡ number + 1) }
{
    match number.checked_add(1) {
        Some(next) => Ok(next),
        None => Err(AllocError),
    }
}
