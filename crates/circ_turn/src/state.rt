//! Where a search stands.
ghost use Rattle.std.specs.Prelude.{◌≡◌, ◌<◌, ◌≤◌, [], ◌∷◌, ◌++◌, length, drop, map, false, ℕ};
ghost use Rattle.std.specs.Prelude.{IfOk, OnOk};
ghost use Rattle.circ_plain_search.specs.Search.{no_links, next_goal, sides_with, chained, start};
ghost use Rattle.circ_conditional_search.specs.Search.{with_sides_of};
ghost use Rattle.circ_proof.specs.Plain.{plain_chain};
ghost use Rattle.circ_turn.specs.Standing.{standing, unlinked, limits_with, KeepsRest};

use circ_join::{Hypotheses, append};
use circ_numbering::TermBlock;
use circ_proof::{Chain, Step};
use circ_rewrite::share_goals;
use circ_term::Term;
use circ_theory::Goal;
use std::alloc::{AllocError, Global};
use std::collections::VecDeque;
use std::mem;

/// Where a search stands, in the midst of a block. The first goal of the queue is the one in hand:
/// its sides are as they stand now, and the chain has led to them.
#[derive(Drop)]
pub struct State<'a> {
    /// The blocks that are finished.
    pub finished: Vec<TermBlock>,
    /// The goals of this block.
    pub goals: Vec<Goal>,
    /// Those of the blocks to come.
    pub later: &'a [Vec<Goal>],
    /// The hypotheses, the goals of the finished blocks among them.
    pub hyps: Hypotheses,
    /// The goals that are left.
    pub queue: VecDeque<Goal>,
    /// The links that have led to the goal in hand.
    pub chain: Chain<Term>,
    /// The steps of this block.
    pub steps: Vec<Step<Term>>,
    /// The goals of this block that are dropped or derived.
    pub taken: u64,
    /// The rewrite steps that are left.
    pub budget: u64,
    /// The Derive steps made.
    pub derives: u64,
    /// All steps made.
    pub made: u64,
    /// Whether a hidden hypothesis was used at a path that is not empty.
    pub deep: bool,
}

impl<'a> State<'a> {
    /// The start of a search for proofs of these blocks.
    pub fn start(
        alloc: Global,
        blocks: &'a [Vec<Goal>],
        budget: u64,
    ) -> Result<State<'a>, AllocError>
        ensures { (derives : ℕ) → IfOk result (λ s. standing s
            ≡ start (limits_with budget derives) (map (λ v. v.items) blocks.now)) }
    {
        match blocks.split_first() {
            None => {
                let (goals, queue) = (Vec::new(alloc), VecDeque::new(alloc));
                Ok(State::at(alloc, goals, queue, &[], budget))
            }
            Some((first, later)) => {
                let goals = share_goals(alloc, first.as_slice())?;
                let queue = share_queue(alloc, first.as_slice())?;
                Ok(State::at(alloc, goals, queue, later, budget))
            }
        }
    }

    // Before the first step.
    fn at(
        alloc: Global,
        goals: Vec<Goal>,
        queue: VecDeque<Goal>,
        later: &'a [Vec<Goal>],
        budget: u64,
    ) -> State<'a>
        ensures { standing result ≡ record {
          finished = [];
          earlier = [];
          goals = goals.items;
          later = map (λ v. v.items) later.now;
          hypotheses = [];
          queue = queue.items;
          chain = no_links;
          steps = [];
          taken = 0;
          budget = budget;
          derives = 0;
          made = 0;
          deep = false;
        } }
    {
        State {
            finished: Vec::new(alloc),
            goals,
            later,
            hyps: Hypotheses::new(alloc),
            queue,
            chain: no_links(alloc),
            steps: Vec::new(alloc),
            taken: 0,
            budget,
            derives: 0,
            made: 0,
            deep: false,
        }
    }

    /// The goal in hand is this one now, to whose sides these links have led.
    pub fn set_hand(
        &mut self,
        alloc: Global,
        goal: &Goal,
        chain: Chain<Term>,
        budget: u64,
    ) -> Result<(), AllocError>
        requires { 0 < length self.old.queue.items }
        ensures { OnOk result (standing self.new
            ≡ with_sides_of (standing self.old) goal.now (drop 1 self.old.queue.items)
            (sides_with goal.now.left goal.now.right (plain_chain chain) budget)) }
    {
        let hand = goal.share(alloc)?;
        self.put_hand(hand, budget);
        append(&mut self.chain, chain)
    }

    fn put_hand(&mut self, hand: Goal, budget: u64)
        requires { 0 < length self.old.queue.items }
        ensures { standing self.new ≡ record (standing self.old) {
          queue = hand ∷ drop 1 self.old.queue.items;
          budget = budget;
        } }
    {
        if let Some(first) = self.queue.front_mut() {
            *first = hand;
        }
        self.budget = budget;
    }

    /// The chain, which has no links afterwards.
    pub fn take_chain(&mut self, alloc: Global) -> Chain<Term>
        ensures taken { plain_chain result ≡ plain_chain self.old.chain }
        ensures left { standing self.new ≡ unlinked (standing self.old) }
        ensures kept { KeepsRest self.old self.new }
    {
        mem::replace(&mut self.chain, no_links(alloc))
    }

    // The goal in hand is done with.
    pub(crate) fn next_goal(&mut self, alloc: Global)
        requires { self.old.taken ≤ 100000 }
        ensures { standing self.new
            ≡ next_goal self.old.hyps.all (drop 1 self.old.queue.items) (standing self.old) }
    {
        let _hand = self.queue.pop_front();
        self.chain = no_links(alloc);
        self.taken += 1;
    }
}

/// Puts goals before those of a queue, in their order.
pub(crate) fn put_first(queue: &mut VecDeque<Goal>, goals: Vec<Goal>) -> Result<(), AllocError>
    ensures { OnOk result (queue.new.items ≡ goals.items ++ queue.old.items) }
{
    let mut goals = goals;
    while let Some(goal) = goals.pop() {
        queue.push_front(goal)?;
    }
    Ok(())
}

// A chain without links.
fn no_links(alloc: Global) -> Chain<Term>
    ensures { plain_chain result ≡ no_links }
{
    Chain {
        left: Vec::new(alloc),
        right: Vec::new(alloc),
    }
}

/// The same goals once more, as a queue.
pub(crate) fn share_queue(alloc: Global, goals: &[Goal]) -> Result<VecDeque<Goal>, AllocError>
    ensures { IfOk result (λ q. q.items ≡ goals.now) }
{
    let mut queue = VecDeque::new(alloc);
    for goal in goals {
        queue.push_back(goal.share(alloc)?)?;
    }
    Ok(queue)
}
