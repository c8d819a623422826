//! Hypotheses as the rules of a block's passes.
ghost use Rattle.std.specs.Prelude.{◌≡◌, ◌≤◌, ◌<◌, ◌+◌, ◌^◌, ◌++◌, ◌∷◌, [], List, length, take};
ghost use Rattle.std.specs.Prelude.{drop, nat_lt, IfOk, OnOk};
ghost use Rattle.circ_term.specs.Tree.{Tree};
ghost use Rattle.circ_attempt.specs.Following.{derives_in, script_left};
ghost use Rattle.circ_attempt.specs.Rules.{lemmas_of, own_rule, own_rules, derived_of_script};
ghost use Rattle.circ_attempt.specs.Rules.{or_no_rule, script_goals_left};
ghost use Rattle.circ_proof.specs.PlainProof.{plain_steps, plain_step};
ghost use Rattle.circ_proof.specs.Rules.{ProofStep};
ghost use Rattle.circ_turn.specs.Standing.{standing};
ghost use Rattle.circ_rewriting_turn.specs.PassRules.{ReadAt};

use circ_own_rules::HypothesisRules;
use circ_proof::Step;
use circ_split::constants_of;
use circ_term::Term;
use circ_theory::{Goal, Theory};
use circ_turn::State;
use std::alloc::{AllocError, Global};

/// The hidden goals of earlier blocks, and the hypotheses that the block has derived, as they are
/// read.
#[derive(Drop)]
pub struct PassRules {
    /// The hidden lemmas.
    pub lemmas: HypothesisRules,
    /// The block's own rules.
    pub own: HypothesisRules,
    /// How many goals of earlier blocks there are.
    pub count: u32,
    /// How many goals of the script are left in the block.
    pub script: u64,
}

impl PassRules {
    /// Those of the first block, which has so many goals.
    pub fn new(alloc: Global, goals: usize) -> PassRules
        ensures lemmas { result.lemmas ≡ [] }
        ensures own { result.own ≡ [] }
        ensures count { result.count ≡ 0 }
        ensures script { result.script ≡ goals }
    {
        PassRules {
            lemmas: HypothesisRules::new(alloc),
            own: HypothesisRules::new(alloc),
            count: 0,
            script: goals as u64,
        }
    }

    // Reads the steps of the block from this place on, and the hypotheses that they derived, the
    // first of which has this number.
    pub(crate) fn read_steps(
        &mut self,
        theory: &Theory,
        steps: &[Step<Term>],
        from: usize,
        hyps: &[Goal],
        first: usize,
    ) -> Result<(), AllocError>
        requires all { first + derives_in (plain_steps (drop from steps.now)) ≡ length hyps.now }
        requires short { length hyps.now < 2 ^ 32 }
        requires few { length self.old.own + length hyps.now < 2 ^ 32 + first }
        ensures own { OnOk result (self.new.own ≡ self.old.own ++ own_rules first
            (derived_of_script theory.now self.old.script (plain_steps (drop from steps.now)))
            (drop first hyps.now)) }
        ensures script { OnOk result (self.new.script
            ≡ script_left theory.now self.old.script (plain_steps (drop from steps.now))) }
        ensures lemmas { self.new.lemmas ≡ self.old.lemmas }
        ensures count { self.new.count ≡ self.old.count }
    {
        let mut number = first;
        for n in from..steps.len() {
            number = self.read_step(theory, &steps[n], hyps, number)?;
        }
        Ok(())
    }

    // Reads a step, and the hypothesis of this number where it derived one. The number of the next.
    fn read_step(
        &mut self,
        theory: &Theory,
        step: &Step<Term>,
        hyps: &[Goal],
        number: usize,
    ) -> Result<usize, AllocError>
        requires there { number + derives_in (plain_step step.now ∷ []) ≤ length hyps.now }
        requires short { length hyps.now < 2 ^ 32 }
        requires few { length self.old.own + length hyps.now < 2 ^ 32 + number }
        ensures own { IfOk result (λ n. (xs : List (ProofStep Tree)) → self.new.own ++ own_rules n
            (derived_of_script theory.now self.new.script xs) (drop n hyps.now)
            ≡ self.old.own ++ own_rules number
            (derived_of_script theory.now self.old.script (plain_step step.now ∷ xs))
            (drop number hyps.now)) }
        ensures script { OnOk result ((xs : List (ProofStep Tree)) →
            script_left theory.now self.new.script xs
            ≡ script_left theory.now self.old.script (plain_step step.now ∷ xs)) }
        ensures number { IfOk result (λ n. n ≡ number + derives_in (plain_step step.now ∷ [])) }
        ensures few { IfOk result (λ n. length self.new.own + number ≤ length self.old.own + n) }
        ensures lemmas { self.new.lemmas ≡ self.old.lemmas }
        ensures count { self.new.count ≡ self.old.count }
    {
        match step {
            Step::Simplify { .. } => Ok(number),
            Step::Reduce { .. } => {
                self.script = self.script.saturating_sub(1);
                Ok(number)
            }
            Step::Derive => {
                self.read_derived(&hyps[number], number)?;
                Ok(number + 1)
            }
            Step::Cases { term } => {
                let cases = constants_of(theory, term.sort()).len();
                self.script = goals_left(self.script, cases)?;
                Ok(number)
            }
            Step::Done => Ok(number),
        }
    }

    // Reads a hypothesis of this number that was derived from the first goal that was left.
    fn read_derived(&mut self, goal: &Goal, number: usize) -> Result<(), AllocError>
        requires small { number < 2 ^ 32 }
        requires few { length self.old.own + 1 < 2 ^ 32 }
        ensures own { OnOk result (self.new.own ≡ self.old.own
            ++ or_no_rule (own_rule number (nat_lt 0 self.old.script) goal.now) []) }
        ensures script { OnOk result (self.new.script ≡ script_goals_left self.old.script 0) }
        ensures lemmas { self.new.lemmas ≡ self.old.lemmas }
        ensures count { self.new.count ≡ self.old.count }
    {
        self.own.push_own(number as u32, self.script > 0, goal)?;
        self.script = self.script.saturating_sub(1);
        Ok(())
    }

    // Those of the next block, which begins where a search stands: goals of earlier blocks are read
    // that were not read before.
    pub(crate) fn next_block(
        &mut self,
        alloc: Global,
        theory: &Theory,
        state: &State<'_>,
    ) -> Result<(), AllocError>
        requires few { length state.now.hyps.earlier ≤ 100000 }
        requires before { self.old.lemmas
            ≡ lemmas_of theory.now 0 (take self.old.count state.now.hyps.earlier) }
        requires begun { state.now.hyps.all ≡ state.now.hyps.earlier }
        requires no_steps { state.now.steps.items ≡ [] }
        ensures { OnOk result (ReadAt theory.now (standing state.now) self.new) }
    {
        self.own = HypothesisRules::new(alloc);
        self.script = state.goals.len() as u64;
        self.read_goals(theory, state.hyps.earlier())?;
        Ok(())
    }

    // Reads the goals of earlier blocks that were not read before.
    fn read_goals(&mut self, theory: &Theory, earlier: &[Goal]) -> Result<(), AllocError>
        requires few { length earlier.now ≤ 100000 }
        requires before { self.old.lemmas
            ≡ lemmas_of theory.now 0 (take self.old.count earlier.now) }
        ensures lemmas { OnOk result (self.new.lemmas ≡ lemmas_of theory.now 0 earlier.now) }
        ensures count { OnOk result (self.new.count ≡ length earlier.now) }
        ensures own { self.new.own ≡ self.old.own }
        ensures script { self.new.script ≡ self.old.script }
    {
        for n in self.count as usize..earlier.len() {
            self.lemmas.push_lemma(theory, n as u32, &earlier[n])?;
        }
        self.count = earlier.len() as u32;
        Ok(())
    }
}

// Where one of so many goals of the script gives way to so many, these are left. More than fit a
// number do not fit the memory.
fn goals_left(script: u64, cases: usize) -> Result<u64, AllocError>
    ensures { IfOk result (λ n. n ≡ script_goals_left script cases) }
{
    if script == 0 {
        return Ok(0);
    }
    match (script - 1).checked_add(cases as u64) {
        Some(left) => Ok(left),
        None => Err(AllocError),
    }
}
