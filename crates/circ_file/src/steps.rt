//! The lines of blocks.
ghost use Rattle.std.specs.Prelude.{◌≡◌, ◌++◌, [], true, List, IfOk, OnOk, is_some};
ghost use Rattle.circ_term.specs.Tree.{Tree};
ghost use Rattle.circ_proof.specs.Plain.{plain_link, plain_chain, plain_why};
ghost use Rattle.circ_line.specs.Line.{goal_line, simplify_line, reduce_line, derive_line};
ghost use Rattle.circ_line.specs.Line.{done_line, same_line, split_line, left_line, right_line};
ghost use Rattle.circ_line.specs.Line.{given_line, cases_line, if_line};
ghost use Rattle.circ_grammar.specs.Machine.{empty};
ghost use Rattle.circ_grammar.specs.Now.{is_step, give_chain_now};
ghost use Rattle.circ_proof.specs.Proof.{goal_at, pair_at};
ghost use Rattle.circ_theory.specs.Pairs.{plain_pair};
ghost use Rattle.circ_grammar.specs.Grammar.{is_bare};
ghost use Rattle.circ_grammar.specs.Machine.{goal_names, add_left};
ghost use Rattle.circ_file.specs.Givens.{Gives};
ghost use Rattle.circ_file.specs.Splits.{given, tops, now_given, parts_given};
ghost use Rattle.circ_file.specs.View.{now_of, queue_of, shown_step_parts};
ghost use Rattle.circ_file.specs.View.{IsMachineOf, Moves, Begins};
ghost use Rattle.circ_file.specs.View.{EndsLast};
ghost use Rattle.circ_file.specs.declared.machine.Mode.TheVariants.{Opened, Joining};

use crate::conds::{give_chain, give_last, takes, takes_last};
use crate::givens::{give_names, give_pair};
use crate::machine::{Machine, Mode, empty_chain};
use crate::splits::{OpenSplit, give};
use circ_proof::{Chain, GoalNames, Link, Step, Why};
use circ_table::Part;
use circ_theory::{Goal, Pair};
use std::alloc::AllocError;
use std::mem;

impl Machine {
    /// A block began, and no step of it. The goal is of the terms that its numbers name.
    pub(crate) fn put_goal(&mut self, goal: Goal, left: u32, right: u32) -> Result<(), AllocError>
        requires { self.old.mode ≡ Opened }
        ensures { OnOk result ((ts : List Tree) → IsMachineOf ts self.old →
            goal ≡ goal_at ts (goal_names left right) →
            Moves true ts self.old (goal_line left right) self.new) }
    {
        self.goals.push(goal)?;
        let conds = Vec::new(self.alloc);
        self.names.push(GoalNames { conds, left, right })?;
        Ok(())
    }

    /// A block began, and no step of it. The condition of the last goal is of the terms that its
    /// numbers name.
    pub(crate) fn put_given(
        &mut self,
        pair: Pair,
        left: u32,
        right: u32,
    ) -> Result<bool, AllocError>
        requires { self.old.mode ≡ Opened }
        ensures { IfOk result (λ taken. (ts : List Tree) → IsMachineOf ts self.old →
            plain_pair pair ≡ pair_at ts (left, right) →
            Moves taken ts self.old (given_line left right) self.new) }
    {
        if !give_pair(&mut self.goals, pair)? {
            return Ok(false);
        }
        let given = give_names(&mut self.names, left, right)?;
        Ok(given)
    }

    pub(crate) fn on_simplify(&mut self) -> Result<bool, AllocError>
        ensures { IfOk result (λ taken. (ts : List Tree) → IsMachineOf ts self.old →
            Moves taken ts self.old simplify_line self.new) }
    {
        if !self.begin_step()? {
            return Ok(false);
        }
        self.chain = empty_chain(self.alloc);
        self.mode = Mode::Simplifying;
        Ok(true)
    }

    pub(crate) fn on_reduce(&mut self) -> Result<bool, AllocError>
        ensures { IfOk result (λ taken. (ts : List Tree) → IsMachineOf ts self.old →
            Moves taken ts self.old reduce_line self.new) }
    {
        if !self.begin_step()? {
            return Ok(false);
        }
        self.chain = empty_chain(self.alloc);
        self.splits.clear();
        self.mode = Mode::Reducing;
        Ok(true)
    }

    pub(crate) fn on_derive(&mut self) -> Result<bool, AllocError>
        ensures { IfOk result (λ taken. (ts : List Tree) → IsMachineOf ts self.old →
            Moves taken ts self.old derive_line self.new) }
    {
        if !self.begin_step()? {
            return Ok(false);
        }
        self.queue.push_back(Part::Step { step: Step::Derive })?;
        self.mode = Mode::Stepping;
        Ok(true)
    }

    pub(crate) fn on_cases(&mut self, term: u32) -> Result<bool, AllocError>
        ensures { IfOk result (λ taken. (ts : List Tree) → IsMachineOf ts self.old →
            Moves taken ts self.old (cases_line term) self.new) }
    {
        if !self.begin_step()? {
            return Ok(false);
        }
        let step = Step::Cases { term };
        self.queue.push_back(Part::Step { step })?;
        self.mode = Mode::Stepping;
        Ok(true)
    }

    pub(crate) fn on_done(&mut self) -> Result<bool, AllocError>
        ensures { IfOk result (λ taken. (ts : List Tree) → IsMachineOf ts self.old →
            Moves taken ts self.old done_line self.new) }
    {
        if !self.begin_step()? {
            return Ok(false);
        }
        self.queue.push_back(Part::Step { step: Step::Done })?;
        self.mode = Mode::Closed;
        Ok(true)
    }

    #[inline(always)]
    pub(crate) fn on_left(&mut self, link: Link) -> Result<bool, AllocError>
        requires { is_bare (plain_link link) ≡ true }
        ensures { IfOk result (λ taken. (ts : List Tree) → IsMachineOf ts self.old →
            Moves taken ts self.old (left_line (plain_link link)) self.new) }
    {
        match self.mode {
            Mode::Certifying => {
                self.links.push(link)?;
                Ok(true)
            }
            Mode::Simplifying | Mode::Reducing => {
                if !push_left(&mut self.chain, link)? {
                    return Ok(false);
                }
                Ok(true)
            }
            Mode::Joining => {
                if !push_left(&mut self.cond, link)? {
                    return Ok(false);
                }
                Ok(true)
            }
            _ => Ok(false),
        }
    }

    #[inline(always)]
    pub(crate) fn on_right(&mut self, link: Link) -> Result<bool, AllocError>
        requires { is_bare (plain_link link) ≡ true }
        ensures { IfOk result (λ taken. (ts : List Tree) → IsMachineOf ts self.old →
            Moves taken ts self.old (right_line (plain_link link)) self.new) }
    {
        match self.mode {
            Mode::Simplifying | Mode::Reducing => {
                self.chain.right.push(link)?;
                Ok(true)
            }
            Mode::Joining => {
                self.cond.right.push(link)?;
                Ok(true)
            }
            _ => Ok(false),
        }
    }

    pub(crate) fn on_same(&mut self) -> Result<bool, AllocError>
        ensures { IfOk result (λ taken. (ts : List Tree) → IsMachineOf ts self.old →
            Moves taken ts self.old same_line self.new) }
    {
        match self.mode {
            Mode::Reducing => {
                let chain = self.take_chain();
                self.close(Why::Same { chain })?;
                Ok(true)
            }
            Mode::Joining => self.end_cond(),
            _ => Ok(false),
        }
    }

    pub(crate) fn on_split(&mut self, term: u32, count: u32) -> Result<bool, AllocError>
        ensures { IfOk result (λ taken. (ts : List Tree) → IsMachineOf ts self.old →
            Moves taken ts self.old (split_line term count) self.new) }
    {
        match self.mode {
            Mode::Reducing => {
                let chain = self.take_chain();
                let whys = Vec::new(self.alloc);
                if count == 0 {
                    self.close(Why::Split { chain, term, whys })?;
                    return Ok(true);
                }
                self.splits.push(OpenSplit {
                    chain,
                    term,
                    count,
                    whys,
                })?;
                Ok(true)
            }
            _ => Ok(false),
        }
    }

    /// The chain of a condition of the last link begins.
    pub(crate) fn on_if(&mut self) -> Result<bool, AllocError>
        ensures { IfOk result (λ taken. (ts : List Tree) →
            Moves taken ts self.old if_line self.new) }
    {
        if !self.takes_cond() {
            return Ok(false);
        }
        let cond = mem::replace(&mut self.cond, empty_chain(self.alloc));
        match self.mode {
            Mode::Joining => {
                self.conds.push(cond)?;
                Ok(true)
            }
            _ => {
                self.conds.clear();
                self.base = self.mode;
                self.mode = Mode::Joining;
                Ok(true)
            }
        }
    }

    // Whether the last link can have a condition more.
    fn takes_cond(&self) -> bool
        ensures { result ≡ is_some (give_chain_now (now_of self.now) empty) }
    {
        match self.mode {
            Mode::Certifying => takes_last(self.links.as_slice()),
            Mode::Simplifying => takes(&self.chain),
            Mode::Reducing => takes(&self.chain),
            Mode::Joining => takes(&self.cond),
            _ => false,
        }
    }

    // The innermost condition is whole.
    fn end_cond(&mut self) -> Result<bool, AllocError>
        requires { self.old.mode ≡ Joining }
        ensures { IfOk result (λ taken. (ts : List Tree) →
            Moves taken ts self.old same_line self.new) }
    {
        let cond = mem::replace(&mut self.cond, empty_chain(self.alloc));
        match self.conds.pop() {
            Some(outer) => {
                self.cond = outer;
                let given = give_chain(&mut self.cond, cond)?;
                Ok(given)
            }
            None => self.end_last(cond),
        }
    }

    // The condition is whole that no other is around.
    fn end_last(&mut self, cond: Chain) -> Result<bool, AllocError>
        ensures { IfOk result (λ taken. EndsLast taken self.old (plain_chain cond) self.new) }
    {
        match self.base {
            Mode::Certifying => {
                self.mode = Mode::Certifying;
                give_last(&mut self.links, cond)
            }
            Mode::Simplifying => {
                self.mode = Mode::Simplifying;
                give_chain(&mut self.chain, cond)
            }
            Mode::Reducing => {
                self.mode = Mode::Reducing;
                give_chain(&mut self.chain, cond)
            }
            _ => Ok(false),
        }
    }

    // Whether a step may begin. The part that ends by it goes to the queue.
    fn begin_step(&mut self) -> Result<bool, AllocError>
        ensures { IfOk result (λ taken. (ts : List Tree) → IsMachineOf ts self.old →
            Begins taken ts self.old self.new) }
    {
        match self.mode {
            Mode::Opened => {
                if self.names.is_empty() {
                    return Ok(false);
                }
                let goals = mem::replace(&mut self.goals, Vec::new(self.alloc));
                let names = mem::replace(&mut self.names, Vec::new(self.alloc));
                self.queue.push_back(Part::Goals { goals, names })?;
                Ok(true)
            }
            Mode::Simplifying => {
                let chain = self.take_chain();
                let step = Step::Simplify { chain };
                self.queue.push_back(Part::Step { step })?;
                Ok(true)
            }
            Mode::Stepping => Ok(true),
            _ => Ok(false),
        }
    }

    // The links so far. None are left.
    fn take_chain(&mut self) -> Chain
        ensures taken { plain_chain result ≡ plain_chain self.old.chain }
        ensures empty { plain_chain self.new.chain ≡ empty }
        ensures splits { self.new.splits.items ≡ self.old.splits.items }
        ensures queue { queue_of self.new ≡ queue_of self.old }
        ensures places { self.new.places.items ≡ self.old.places.items }
        ensures mode { self.new.mode ≡ self.old.mode }
    {
        mem::replace(&mut self.chain, empty_chain(self.alloc))
    }

    // A whole reason goes to the splits. Where none waits for it, the step is whole.
    fn close(&mut self, why: Why) -> Result<(), AllocError>
        requires { plain_chain self.old.chain ≡ empty }
        ensures next { OnOk result (now_of self.new ≡
            now_given (given (tops self.old.splits.items []) (plain_why why))) }
        ensures queue { OnOk result (queue_of self.new ≡ queue_of self.old ++
            parts_given (given (tops self.old.splits.items []) (plain_why why))) }
        ensures places { OnOk result (self.new.places.items ≡ self.old.places.items) }
        ensures kept { OnOk result ((ts : List Tree) → IsMachineOf ts self.new) }
    {
        match give(&mut self.splits, why)? {
            Some(why) => {
                let step = Step::Reduce { why };
                self.queue.push_back(Part::Step { step })?;
                self.mode = Mode::Stepping;
                Ok(())
            }
            None => {
                self.mode = Mode::Reducing;
                Ok(())
            }
        }
    }
}

// A link of the left side, where the right side has none yet.
#[inline(always)]
fn push_left(chain: &mut Chain, link: Link) -> Result<bool, AllocError>
    ensures { IfOk result (λ taken. Gives taken
        (add_left (plain_chain chain.old) (plain_link link)) (plain_chain chain.new)) }
{
    if !chain.right.is_empty() {
        return Ok(false);
    }
    chain.left.push(link)?;
    Ok(true)
}
