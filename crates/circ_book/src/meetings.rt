//! The goals that the steps of an accepted block act on.
ghost use Rattle.std.specs.Prelude.{◌≡◌, ◌<◌, List, [], length, map, IfOk, OnOk};
ghost use Rattle.std.specs.List.{AllByRecursion};
ghost use Rattle.circ_theory.specs.Signature.{IsWellSorted};
ghost use Rattle.circ_theory.specs.Theory.{Theory as PlainTheory};
ghost use Rattle.circ_theory.specs.Rewriting.{named};
ghost use Rattle.circ_theory.specs.Goal.{Goal as TheGoal};
ghost use Rattle.circ_proof.specs.PlainProof.{plain_step, plain_steps};
ghost use Rattle.circ_proof.specs.Rules.{State as PlainState, state as state_with, map_step};
ghost use Rattle.circ_proof.specs.Rules.{AllOfStep, IsSortedState, StepOf, StepsOf};
ghost use Rattle.circ_proof.specs.Proof.{IsPlainStep};
ghost use Rattle.circ_entering.specs.Work.{state_of, table_of, IsWork};
ghost use Rattle.circ_book.specs.Histories.{meeting_of, meetings, Meets, Lengthens};

use crate::histories::Met;
use circ_entering::Work;
use circ_proof::Step;
use circ_special::Gamma;
use circ_term::Term;
use circ_theory::Theory;
use std::alloc::{AllocError, Global};

/// A theory, the terms that links name by their numbers, and a special set.
#[derive(Clone, Copy)]
pub struct Ground<'a> {
    pub alloc: Global,
    pub theory: &'a Theory,
    pub table: &'a [Term],
    pub gamma: &'a Gamma,
}

impl Ground<'_> {
    /// The goals that steps act on, which lead from those that there are to none.
    pub(crate) fn meet(&self, work: &mut Work, steps: &[Step]) -> Result<Vec<Met>, AllocError>
        requires work { IsWork self.now.theory.now work.old }
        requires terms { table_of work.old ≡ self.now.table.now }
        requires in_table { AllByRecursion (AllOfStep (λ n. n < length self.now.table.now))
            (plain_steps steps.now) }
        requires table_sorted { AllByRecursion (IsWellSorted self.now.theory.now.signature)
            self.now.table.now }
        requires state_sorted { IsSortedState self.now.theory.now (state_of work.old) }
        requires bare_goals { AllByRecursion (λ g. g.conds ≡ []) (state_of work.old).goals }
        requires plain_steps { AllByRecursion IsPlainStep (plain_steps steps.now) }
        requires runs { (F : List TheGoal) × StepsOf self.now.theory.now self.now.gamma.now
            (map (map_step (named self.now.table.now)) (plain_steps steps.now))
            (state_of work.old) (state_with F []) }
        ensures work { OnOk result (IsWork self.now.theory.now work.new) }
        ensures terms { OnOk result (table_of work.new ≡ self.now.table.now) }
        ensures met { IfOk result (λ v. map meeting_of v.items ≡ meetings self.now.theory.now
            self.now.gamma.now (state_of work.old).hypotheses (state_of work.old).goals
            (map (map_step (named self.now.table.now)) (plain_steps steps.now))) }
        ensures hyps { OnOk result (Lengthens (state_of work.old).hypotheses
            (state_of work.new).hypotheses) }
    {
        let mut met = Vec::new(self.alloc);
        for step in steps {
            if work.goal_count() == 0 {
                return Ok(met);
            }
            self.meet_one(work, &mut met, step)?;
        }
        Ok(met)
    }

    // One step is done, and the goal that it acts on put last.
    fn meet_one(&self, work: &mut Work, met: &mut Vec<Met>, step: &Step) -> Result<(), AllocError>
        requires work { IsWork self.now.theory.now work.old }
        requires terms { table_of work.old ≡ self.now.table.now }
        requires in_table { AllOfStep (λ n. n < length self.now.table.now) (plain_step step.now) }
        requires table_sorted { AllByRecursion (IsWellSorted self.now.theory.now.signature)
            self.now.table.now }
        requires state_sorted { IsSortedState self.now.theory.now (state_of work.old) }
        requires applies { (b : PlainState) × StepOf self.now.theory.now self.now.gamma.now
            (map_step (named self.now.table.now) (plain_step step.now)) (state_of work.old) b }
        ensures work { OnOk result (IsWork self.now.theory.now work.new) }
        ensures terms { OnOk result (table_of work.new ≡ self.now.table.now) }
        ensures met { OnOk result (Meets (state_of work.old).goals
            (map meeting_of met.old.items) (map meeting_of met.new.items)) }
        ensures applied { OnOk result (StepOf self.now.theory.now self.now.gamma.now
            (map_step (named self.now.table.now) (plain_step step.now)) (state_of work.old)
            (state_of work.new)) }
        ensures state_sorted { OnOk result
            (IsSortedState self.now.theory.now (state_of work.new)) }
    {
        note_first(self.alloc, work, met)?;
        if !work.apply(self.alloc, self.theory, self.gamma, step)? {
            unreachable!()
        }
        Ok(())
    }
}

// The first goal is put last.
fn note_first(alloc: Global, work: &mut Work, met: &mut Vec<Met>) -> Result<(), AllocError>
    requires { (th : PlainTheory) × IsWork th work.old }
    ensures work { (th : PlainTheory) → IsWork th work.old → IsWork th work.new }
    ensures table { table_of work.new ≡ table_of work.old }
    ensures state { state_of work.new ≡ state_of work.old }
    ensures met { OnOk result (Meets (state_of work.old).goals (map meeting_of met.old.items)
        (map meeting_of met.new.items)) }
{
    let count = work.goal_count();
    if let Some(goal) = work.first(alloc)? {
        let others = count - 1;
        met.push(Met { goal, others })?;
    }
    Ok(())
}
