//! Steps that are recorded.
ghost use Rattle.std.specs.Prelude.{◌≡◌, ◌<◌, ◌≤◌, ◌+◌, ◌++◌, ◌||◌, ◌∷◌, []};
ghost use Rattle.std.specs.Prelude.{length, map, drop, Ok, OnOk};
ghost use Rattle.circ_term.specs.Tree.{sort_of};
ghost use Rattle.circ_plain_search.specs.Search.{derive_turn, done_turn, next_goal, with_this};
ghost use Rattle.circ_plain_search.specs.Search.{no_links, has_links, case_of, constants_of};
ghost use Rattle.circ_plain_search.specs.Search.{Standing};
ghost use Rattle.circ_conditional_search.specs.Coming.{IsReadyTrying, IsSmallTrying};
ghost use Rattle.circ_conditional_search.specs.Search.{step_is_deep, step_recorded};
ghost use Rattle.circ_conditional_search.specs.Search.{goal_reduced, goal_simplified};
ghost use Rattle.circ_conditional_search.specs.Search.{hidden_turn_trying, cases_turn};
ghost use Rattle.circ_conditional_search.specs.Search.{derives_turn};
ghost use Rattle.circ_proof.specs.Goals.{with_cond};
ghost use Rattle.circ_proof.specs.Plain.{plain_chain, plain_why};
ghost use Rattle.circ_proof.specs.PlainProof.{plain_step, plain_steps};
ghost use Rattle.circ_turn.specs.Standing.{standing, plain_limits, manner_of, KeepsRest};
ghost use Rattle.circ_turn.specs.Ending.{GoesTo, GoesUnlinked, GoesOrDone, end_by, end_spent};
ghost use Rattle.circ_turn.specs.Ending.{cases_made};

use crate::MOST_STEPS;
use crate::end::End;
use crate::search::Search;
use crate::state::{State, put_first, share_queue};
use circ_block::{derivatives_on, step_is_deep};
use circ_join::Stop;
use circ_numbering::TermBlock;
use circ_proof::{Chain, Step, Why};
use circ_rewrite::share_goals;
use circ_split::{case_goals, case_term};
use circ_term::Term;
use circ_theory::Goal;
use std::alloc::AllocError;
use std::collections::VecDeque;
use std::mem;

/// Whether a chain has a link.
pub(crate) fn has_links(chain: &Chain<Term>) -> bool
    ensures { result ≡ has_links (plain_chain chain.now) }
{
    if !chain.left.as_slice().is_empty() {
        return true;
    }
    !chain.right.as_slice().is_empty()
}

impl Search<'_> {
    // A budget is spent.
    pub(crate) fn spent(&self, state: &State<'_>) -> End
        ensures { result ≡ end_spent (plain_limits self.now.limits) (standing state.now) }
    {
        End::Spent {
            rewrites: self.limits.steps.saturating_sub(state.budget),
            derives: state.derives,
            steps: state.made,
        }
    }

    /// How a search ends that a part of it stops.
    pub fn end(&self, state: &State<'_>, stop: Stop) -> End
        requires finished { length state.now.finished.items ≤ 100000 }
        requires taken { state.now.taken ≤ 100000 }
        ensures { result ≡ end_by (plain_limits self.now.limits) (standing state.now) stop }
    {
        match stop {
            Stop::Spent => End::Spent {
                rewrites: self.limits.steps,
                derives: state.derives,
                steps: state.made,
            },
            Stop::TooBig { nodes } => End::TooBig { nodes },
            Stop::TooDeep { depth } => End::TooDeep { depth },
            Stop::Stuck {
                left,
                right,
                assumptions,
            } => End::Stuck {
                block: state.finished.len() as u32 + 1,
                goal: state.taken + 1,
                left,
                right,
                assumptions,
            },
            Stop::Memory => End::Memory,
        }
    }

    // A step is recorded, unless it would be one too many.
    fn step_recorded(&self, state: &mut State<'_>, step: Step<Term>) -> Result<(), End>
        ensures exact { GoesTo (step_recorded self.now.theory.now
            (plain_limits self.now.limits) (standing state.old) (plain_step step))
            (standing state.new) result }
        ensures kept { KeepsRest state.old state.new }
    {
        if state.made >= MOST_STEPS {
            return Err(self.spent(state));
        }
        self.add_step(state, step)?;
        Ok(())
    }

    // The step goes behind those of the block.
    fn add_step(&self, state: &mut State<'_>, step: Step<Term>) -> Result<(), AllocError>
        requires { state.old.made < 100000 }
        ensures added { OnOk result (standing state.new ≡ record (standing state.old) {
          steps = plain_steps state.old.steps.items ++ plain_step step ∷ [];
          made = state.old.made + 1;
          deep = state.old.deep ||
              step_is_deep self.now.theory.now state.old.hyps.all (plain_step step);
        }) }
        ensures kept { KeepsRest state.old state.new }
    {
        let deep = step_is_deep(self.theory, state.hyps.goals(), &step);
        state.steps.push(step)?;
        state.made += 1;
        state.deep = state.deep || deep;
        Ok(())
    }

    /// The goal in hand is reduced by the reason.
    pub fn goal_reduced(&self, state: &mut State<'_>, why: Why<Term>) -> Result<(), End>
        requires taken { state.old.taken ≤ 100000 }
        ensures { GoesTo (goal_reduced self.now.theory.now (plain_limits self.now.limits)
            (standing state.old) (drop 1 state.old.queue.items) (plain_why why))
            (standing state.new) result }
    {
        match self.step_recorded(state, Step::Reduce { why }) {
            Err(end) => return Err(end),
            Ok(()) => {}
        }
        state.next_goal(self.alloc);
        Ok(())
    }

    // A hidden goal is split, or becomes a hypothesis.
    pub(crate) fn hidden_turn(&self, state: &mut State<'_>, goal: &Goal) -> Result<(), End>
        requires ready { IsReadyTrying self.now.theory.now goal.now }
        requires small { IsSmallTrying (standing state.old) }
        ensures { GoesTo (hidden_turn_trying self.now.theory.now (manner_of self.now)
            (standing state.old) goal.now (drop 1 state.old.queue.items))
            (standing state.new) result }
    {
        match case_term(self.theory, self.limits.split, goal) {
            Some(term) => self.cases_turn(state, goal, term),
            None => self.derives_turn(state, goal),
        }
    }

    // Cases: a Simplify step, and then the goal in hand is replaced by those in which the term is
    // each constant in turn.
    fn cases_turn(&self, state: &mut State<'_>, goal: &Goal, term: &Term) -> Result<(), End>
        requires taken { state.old.taken ≤ 100000 }
        ensures { GoesTo (cases_turn self.now.theory.now (plain_limits self.now.limits)
            (standing state.old) goal.now (drop 1 state.old.queue.items) term.now)
            (standing state.new) result }
    {
        match self.goal_simplified(state) {
            Err(end) => Err(end),
            Ok(()) => self.make_cases(state, goal, term),
        }
    }

    // The step Cases, and its goals.
    fn make_cases(&self, state: &mut State<'_>, goal: &Goal, term: &Term) -> Result<(), End>
        requires taken { state.old.taken ≤ 100000 }
        ensures { GoesTo (cases_made self.now.theory.now (plain_limits self.now.limits)
            (standing state.old) goal.now (drop 1 state.old.queue.items) term.now)
            (standing state.new) result }
    {
        let step = Step::Cases {
            term: term.share()?,
        };
        match self.step_recorded(state, step) {
            Err(end) => return Err(end),
            Ok(()) => {}
        }
        self.put_cases(state, goal, term)?;
        Ok(())
    }

    // The goals in the cases of the term take the place of the goal in hand.
    fn put_cases(&self, state: &mut State<'_>, goal: &Goal, term: &Term) -> Result<(), AllocError>
        requires taken { state.old.taken ≤ 100000 }
        ensures { OnOk result (standing state.new ≡ next_goal state.old.hyps.all
            (map (λ c. with_cond goal.now (case_of term.now c))
            (constants_of self.now.theory.now (sort_of term.now))
            ++ drop 1 state.old.queue.items) (standing state.old)) }
    {
        let goals = case_goals(self.alloc, self.theory, goal, term)?;
        state.next_goal(self.alloc);
        put_first(&mut state.queue, goals)
    }

    // A hidden goal that is not split: the Derive budget first, then a Simplify step, then Derive.
    fn derives_turn(&self, state: &mut State<'_>, goal: &Goal) -> Result<(), End>
        requires ready { IsReadyTrying self.now.theory.now goal.now }
        requires finished { length state.old.finished.items ≤ 100000 }
        requires taken { state.old.taken ≤ 100000 }
        requires derives { state.old.derives ≤ 100000 }
        requires hyps { length state.old.hyps.all ≤ 100000 }
        ensures { GoesTo (derives_turn self.now.theory.now (plain_limits self.now.limits)
            (standing state.old) goal.now (drop 1 state.old.queue.items))
            (standing state.new) result }
    {
        if state.derives >= self.limits.derives {
            return Err(self.spent(state));
        }
        match self.goal_simplified(state) {
            Err(end) => Err(end),
            Ok(()) => self.derive_turn(state, goal),
        }
    }

    // A Simplify step, where the chain has a link.
    fn goal_simplified(&self, state: &mut State<'_>) -> Result<(), End>
        ensures exact { GoesUnlinked (goal_simplified self.now.theory.now
            (plain_limits self.now.limits) (standing state.old)) (standing state.new) result }
        ensures kept { KeepsRest state.old state.new }
    {
        if !has_links(&state.chain) {
            return Ok(());
        }
        let chain = state.take_chain(self.alloc);
        self.step_recorded(state, Step::Simplify { chain })
    }

    // The goal in hand becomes a hypothesis, and its derivatives become goals.
    fn derive_turn(&self, state: &mut State<'_>, goal: &Goal) -> Result<(), End>
        requires ready { IsReadyTrying self.now.theory.now goal.now }
        requires finished { length state.old.finished.items ≤ 100000 }
        requires taken { state.old.taken ≤ 100000 }
        requires derives { state.old.derives ≤ 100000 }
        requires hyps { length state.old.hyps.all ≤ 100000 }
        ensures { GoesTo (derive_turn self.now.theory.now (plain_limits self.now.limits)
            (standing state.old) goal.now (drop 1 state.old.queue.items))
            (standing state.new) result }
    {
        if state.made >= MOST_STEPS {
            return Err(self.spent(state));
        }
        match derivatives_on(self.alloc, self.theory, goal) {
            Err(stop) => Err(self.end(state, stop)),
            Ok(derived) => {
                match self.step_recorded(state, Step::Derive) {
                    Err(end) => return Err(end),
                    Ok(()) => {}
                }
                self.derived(state, goal, derived)?;
                Ok(())
            }
        }
    }

    fn derived(
        &self,
        state: &mut State<'_>,
        goal: &Goal,
        derived: VecDeque<Goal>,
    ) -> Result<(), AllocError>
        requires taken { state.old.taken ≤ 100000 }
        requires derives { state.old.derives ≤ 100000 }
        requires hyps { length state.old.hyps.all ≤ 100000 }
        ensures { OnOk result (standing state.new
            ≡ next_goal (state.old.hyps.all ++ goal.now ∷ [])
            (drop 1 state.old.queue.items ++ derived.items)
            (record (standing state.old) { derives = state.old.derives + 1 })) }
    {
        let mut derived = derived;
        state.derives += 1;
        state.next_goal(self.alloc);
        state.hyps.push(goal)?;
        state.queue.append(&mut derived)?;
        Ok(())
    }

    /// After a block's last goal a Done step is made, and the next block begins. False where there
    /// is none.
    pub fn done_turn(&self, state: &mut State<'_>) -> Result<bool, End>
        requires next { (y : Standing) → done_turn self.now.theory.now
            (plain_limits self.now.limits) (standing state.old) ≡ Ok y → IsSmallTrying y }
        ensures { GoesOrDone (done_turn self.now.theory.now (plain_limits self.now.limits)
            (standing state.old)) (standing state.new) result }
    {
        match self.step_recorded(state, Step::Done) {
            Err(end) => return Err(end),
            Ok(()) => {}
        }
        match state.later.split_first() {
            None => {
                self.finish(state)?;
                Ok(false)
            }
            Some((block, later)) => {
                self.next_block(state, block.as_slice())?;
                state.later = later;
                Ok(true)
            }
        }
    }

    // The block is finished.
    fn finish(&self, state: &mut State<'_>) -> Result<(), AllocError>
        ensures { OnOk result (standing state.new ≡ record (standing state.old) {
          finished = with_this (standing state.old);
          goals = [];
          steps = [];
        }) }
    {
        let goals = mem::replace(&mut state.goals, Vec::new(self.alloc));
        let steps = mem::replace(&mut state.steps, Vec::new(self.alloc));
        state.finished.push(TermBlock { goals, steps })?;
        Ok(())
    }

    // The block is finished, and one with these goals begins.
    fn next_block(&self, state: &mut State<'_>, block: &[Goal]) -> Result<(), AllocError>
        requires few { length state.old.hyps.earlier + length state.old.goals.items ≤ 100000 }
        ensures { OnOk result (standing state.new ≡ record (standing state.old) {
          finished = with_this (standing state.old);
          earlier = state.old.hyps.earlier ++ state.old.goals.items;
          goals = block.now;
          hypotheses = state.old.hyps.earlier ++ state.old.goals.items;
          queue = block.now;
          chain = no_links;
          steps = [];
          taken = 0;
        }) }
    {
        state.hyps.finish_block(state.goals.as_slice())?;
        self.finish(state)?;
        state.goals = share_goals(self.alloc, block)?;
        state.queue = share_queue(self.alloc, block)?;
        let _chain = state.take_chain(self.alloc);
        state.taken = 0;
        Ok(())
    }
}
