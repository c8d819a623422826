//! One step.
ghost use Rattle.std.specs.Prelude.{◌≡◌, ◌<◌, length, IfOk};
ghost use Rattle.std.specs.Result.{OnErr};
ghost use Rattle.std.specs.List.{AllByRecursion};
ghost use Rattle.circ_theory.specs.Signature.{IsWellSorted};
ghost use Rattle.circ_theory.specs.Rewriting.{named};
ghost use Rattle.circ_proof.specs.Rules.{map_step, AllOfStep, IsSortedState};
ghost use Rattle.circ_proof.specs.PlainProof.{plain_state, plain_step};
ghost use Rattle.circ_rules.specs.Answers.{Applies};

use circ_entering::Work;
use circ_proof::{State, Step};
use circ_special::Gamma;
use circ_term::Term;
use circ_theory::Theory;
use std::alloc::{AllocError, Global};

/// Does the step. False where it is no instance of its rule. The state is unchanged then, and after
/// want of memory.
pub fn apply(
    alloc: Global,
    theory: &Theory,
    table: &[Term],
    gamma: &Gamma,
    state: &mut State,
    step: &Step,
) -> Result<bool, AllocError>
    requires in_table { AllOfStep (λ n. n < length table.now) (plain_step step.now) }
    requires table_sorted { AllByRecursion (IsWellSorted theory.now.signature) table.now }
    requires state_sorted { IsSortedState theory.now (plain_state state.old) }
    ensures exact { IfOk result (Applies theory.now gamma.now
        (map_step (named table.now) (plain_step step.now))
        (plain_state state.old) (plain_state state.new)) }
    ensures kept { OnErr result (plain_state state.new ≡ plain_state state.old) }
    ensures state_sorted { IsSortedState theory.now (plain_state state.new) }
{
    let mut work = Work::new(alloc, theory, table)?;
    work.add_hypotheses(alloc, state.hyps.as_slice())?;
    let (front, back) = state.goals.as_slices();
    work.add_goals(alloc, front)?;
    work.add_goals(alloc, back)?;
    let holds = work.apply(alloc, theory, gamma, step)?;
    if !holds {
        return Ok(false);
    }
    *state = work.state(alloc)?;
    Ok(true)
}
