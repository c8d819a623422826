//! A round of an attempt.
ghost use Rattle.std.specs.Prelude.{◌≡◌, ◌≤◌, ℕ, suc, Bool, List};
ghost use Rattle.circ_theory.specs.Theory.{Pair};
ghost use Rattle.circ_rounds.specs.Attempting.{AttemptsIn, rounds_in};
ghost use Rattle.circ_rounds.specs.Attempting.{normal_round_in, join_round_in};
ghost use Rattle.circ_rounds.specs.Running.{RoundGoes, sides_of, stood_of};

use crate::attempt::Attempting;
use crate::run::{Next, Run};
use crate::sides::{both_normal, passed_sides};
use circ_moves::ContentJoining;
use circ_own_rules::RulePassing;
use circ_rewrite::RewriteFault;
use circ_tries::Reducer;

impl Attempting<'_> {
    /// A round: a pass over both sides, and where it replaces anything, normal forms and Join.
    pub(crate) fn one_round(
        &self,
        reducer: &mut Reducer<'_>,
        run: &mut Run,
        budget: &mut u64,
    ) -> Result<Next, RewriteFault>
        ensures exact { (A : List Pair) (bs : List Bool) (n : ℕ)
            → AttemptsIn self.now bs A reducer.old → RoundGoes (rounds_in self.now bs A n)
            (rounds_in self.now bs A (suc n) (stood_of run.old) (sides_of run.old) budget.old)
            run.new budget.new result }
        ensures less { budget.new ≤ budget.old }
        ensures same { reducer.new ≡ reducer.old }
    {
        let passing = RulePassing {
            alloc: self.alloc,
            gamma: self.gamma,
            lemmas: self.lemmas,
            own: self.own,
        };
        match passing.pass_both(reducer, &run.left, &run.right, budget) {
            Err(fault) => Err(fault),
            Ok(swept) => {
                if !swept.has_uses() {
                    return Ok(Next::Ended);
                }
                run.go_to(passed_sides(self.alloc, swept)?)?;
                self.normal_round(reducer, run, budget)
            }
        }
    }

    // Both sides are normalised, and then they join or not.
    fn normal_round(
        &self,
        reducer: &mut Reducer<'_>,
        run: &mut Run,
        budget: &mut u64,
    ) -> Result<Next, RewriteFault>
        ensures exact { (A : List Pair) (bs : List Bool) (n : ℕ)
            → AttemptsIn self.now bs A reducer.old → RoundGoes (rounds_in self.now bs A n)
            (normal_round_in self.now bs A n (stood_of run.old) (sides_of run.old) budget.old)
            run.new budget.new result }
        ensures less { budget.new ≤ budget.old }
        ensures same { reducer.new ≡ reducer.old }
    {
        match both_normal(self.alloc, reducer, &run.left, &run.right, budget) {
            Err(fault) => Err(fault),
            Ok(sides) => {
                run.go_to(sides)?;
                self.join_round(reducer, run, budget)
            }
        }
    }

    // Both sides join up to content, or there is the next round.
    fn join_round(
        &self,
        reducer: &mut Reducer<'_>,
        run: &mut Run,
        budget: &mut u64,
    ) -> Result<Next, RewriteFault>
        ensures exact { (A : List Pair) (bs : List Bool) (n : ℕ)
            → AttemptsIn self.now bs A reducer.old → RoundGoes (rounds_in self.now bs A n)
            (join_round_in self.now bs A n (stood_of run.old) (sides_of run.old) budget.old)
            run.new budget.new result }
        ensures less { budget.new ≤ budget.old }
        ensures same { reducer.new ≡ reducer.old }
    {
        let joining = ContentJoining {
            alloc: self.alloc,
            theory: self.theory,
            gamma: self.gamma,
            hyps: self.hyps,
        };
        match joining.join(reducer, &run.left, &run.right, budget) {
            Err(fault) => Err(fault),
            Ok(Some(moves)) => Ok(run.close(self.alloc, moves)?),
            Ok(None) => Ok(run.go_on()?),
        }
    }
}
