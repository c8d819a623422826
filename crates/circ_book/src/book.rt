//! What becomes of all goals of a proof.
ghost use Rattle.std.specs.Prelude.{◌≡◌, ◌<◌, ◌≤◌, ◌+◌, ◌^◌, ◌++◌, ◌∷◌, List, [], length, map};
ghost use Rattle.std.specs.Prelude.{IfOk, OnOk};
ghost use Rattle.std.specs.List.{AllByRecursion};
ghost use Rattle.circ_theory.specs.Signature.{IsWellSorted};
ghost use Rattle.circ_theory.specs.Rewriting.{named};
ghost use Rattle.circ_theory.specs.Goal.{Goal as TheGoal};
ghost use Rattle.circ_proof.specs.PlainProof.{plain_steps};
ghost use Rattle.circ_proof.specs.Rules.{state as state_with, map_step, AllOfStep};
ghost use Rattle.circ_proof.specs.Rules.{IsSortedState, StepsOf};
ghost use Rattle.circ_proof.specs.Proof.{IsPlainStep, IsPlain, ProofFor};
ghost use Rattle.circ_proof.specs.PlainProof.{plain_proof};
ghost use Rattle.circ_proof.specs.Accepted.{Accepted};
ghost use Rattle.circ_entering.specs.Work.{state_of, table_of, IsWork};
ghost use Rattle.circ_book.specs.Book.{AddsBlock, IsBook, kept_in, derivations};
ghost use Rattle.circ_book.specs.Book.{kept_hypotheses, kept_at};
ghost use Rattle.std.specs.List.{slice_get};
ghost use Rattle.std.specs.Option.{option_copied, option_map};

use crate::histories::{Node, Numbers, tell};
use crate::meetings::Ground;
use circ_entering::Work;
use circ_proof::{Block, Proof};
use circ_table::Table;
use circ_theory::Goal;
use std::alloc::{AllocError, Global};
use std::collections::VecDeque;

/// A goal that is followed in a block, by the number of its node.
#[derive(Clone, Copy)]
pub struct Followed {
    pub block: u32,
    pub node: u32,
}

/// The hypotheses at the end of a block: so many goals of earlier blocks, and the nodes of those
/// that the block derives.
#[derive(Drop)]
pub struct Derivations {
    pub earlier: usize,
    pub derived: VecDeque<u32>,
}

/// All goals, in order, and the hypotheses of each block.
#[derive(Drop)]
pub struct Book<'a> {
    pub nodes: Vec<Node<'a>>,
    pub goals: Vec<Followed>,
    pub blocks: Vec<Derivations>,
}

impl<'a> Book<'a> {
    // The hypotheses of a block are the goals before it and what it derives, and its own goals come
    // last.
    fn note(&mut self, told: Numbers) -> Result<(), AllocError>
        requires { length self.old.blocks.items < 2 ^ 32 }
        ensures nodes { OnOk result (self.new.nodes.items ≡ self.old.nodes.items) }
        ensures goals { OnOk result (self.new.goals.items ≡ self.old.goals.items ++
            kept_in (length self.old.blocks.items) told.goals.items) }
        ensures blocks { OnOk result (self.new.blocks.items ≡ self.old.blocks.items ++
            derivations (length self.old.goals.items) told.derived ∷ []) }
    {
        let block = self.blocks.len() as u32;
        let earlier = self.goals.len();
        put_last(&mut self.goals, block, told.goals)?;
        self.blocks.push(Derivations {
            earlier,
            derived: told.derived,
        })?;
        Ok(())
    }
}

impl Book<'_> {
    /// The hypothesis of this number at the end of a block.
    pub fn hypothesis(&self, block: u32, number: u32) -> Option<Followed>
        ensures { result ≡ slice_get (kept_at self.now block) number }
    {
        match self.blocks.get(block as usize) {
            Some(of_block) => self.hypothesis_in(of_block, block, number as usize),
            None => None,
        }
    }

    fn hypothesis_in(&self, of_block: &Derivations, block: u32, number: usize) -> Option<Followed>
        ensures { result ≡ slice_get (kept_hypotheses self.now.goals.items block of_block.now)
            number }
    {
        let earlier = of_block.earlier.min(self.goals.len());
        if number < earlier {
            return Some(self.goals[number]);
        }
        match of_block.derived.get(number - earlier) {
            Some(node) => Some(Followed { block, node: *node }),
            None => None,
        }
    }

    /// The goal of a node.
    pub fn goal(&self, node: u32) -> Option<&Goal>
        ensures { option_copied result ≡ option_map (λ n. n.goal)
            (slice_get self.now.nodes.items node) }
    {
        match self.nodes.get(node as usize) {
            Some(node) => Some(&node.goal),
            None => None,
        }
    }
}

// The nodes of a block are put last.
fn put_last(
    goals: &mut Vec<Followed>,
    block: u32,
    mut nodes: VecDeque<u32>,
) -> Result<(), AllocError>
    ensures { OnOk result (goals.new.items ≡ goals.old.items ++ kept_in block nodes.items) }
{
    while let Some(node) = nodes.pop_front() {
        goals.push(Followed { block, node })?;
    }
    Ok(())
}

impl Ground<'_> {
    // One block more. The hypotheses at first are the goals of the blocks before it, and its own
    // come behind them.
    fn add_block<'a>(
        &self,
        book: &mut Book<'a>,
        work: &mut Work,
        block: &'a Block,
    ) -> Result<(), AllocError>
        requires work { IsWork self.now.theory.now work.old }
        requires terms { table_of work.old ≡ self.now.table.now }
        requires no_goal { (state_of work.old).goals ≡ [] }
        requires in_table { AllByRecursion (AllOfStep (λ n. n < length self.now.table.now))
            (plain_steps block.now.steps.items) }
        requires table_sorted { AllByRecursion (IsWellSorted self.now.theory.now.signature)
            self.now.table.now }
        requires sorted { IsSortedState self.now.theory.now
            (state_with (state_of work.old).hypotheses block.now.goals.items) }
        requires bare_goals { AllByRecursion (λ g. g.conds ≡ []) block.now.goals.items }
        requires plain_steps { AllByRecursion IsPlainStep (plain_steps block.now.steps.items) }
        requires runs { (F : List TheGoal) × StepsOf self.now.theory.now self.now.gamma.now
            (map (map_step (named self.now.table.now)) (plain_steps block.now.steps.items))
            (state_with (state_of work.old).hypotheses block.now.goals.items)
            (state_with F []) }
        requires room { length book.old.nodes.items + length block.now.steps.items ≤ 2 ^ 31 }
        requires few { length book.old.blocks.items < 2 ^ 32 }
        ensures work { OnOk result (IsWork self.now.theory.now work.new) }
        ensures terms { OnOk result (table_of work.new ≡ self.now.table.now) }
        ensures state { OnOk result (state_of work.new ≡ state_with
            ((state_of work.old).hypotheses ++ block.now.goals.items) []) }
        ensures added { OnOk result (AddsBlock self.now.theory.now self.now.gamma.now
            self.now.table.now book.old book.new (state_of work.old).hypotheses block.now) }
    {
        let earlier = work.hypothesis_count();
        work.add_goals(self.alloc, block.goals.as_slice())?;
        let met = self.meet(work, block.steps.as_slice())?;
        let told = tell(self.alloc, &mut book.nodes, met, block.steps.as_slice())?;
        book.note(told)?;
        work.keep(earlier);
        work.add_hypotheses(self.alloc, block.goals.as_slice())?;
        Ok(())
    }

    /// All blocks of an accepted proof, in order, whose table these lines are. Costs what its steps
    /// cost by number, and a look-up for each line and for each argument in it.
    pub fn read<'a>(&self, proof: &'a Proof, lines: &Table) -> Result<Book<'a>, AllocError>
        requires lines { lines.now ≡ proof.now.table.items }
        requires table { self.now.table.now ≡ proof.now.table.items }
        requires gamma { self.now.gamma.now ≡ proof.now.gamma }
        requires for_theory { ProofFor self.now.theory.now (plain_proof proof.now) }
        requires plain { IsPlain (plain_proof proof.now) }
        requires accepted { Accepted self.now.theory.now (plain_proof proof.now) }
        ensures { IfOk result (IsBook self.now.theory.now (plain_proof proof.now)) }
    {
        self.theory.known();
        let mut work = Work::by_table(self.alloc, self.theory, lines)?;
        self.read_by(&mut work, proof)
    }

    // The same by rules that have numbers, where there is no hypothesis and no goal.
    fn read_by<'a>(&self, work: &mut Work, proof: &'a Proof) -> Result<Book<'a>, AllocError>
        requires work { IsWork self.now.theory.now work.old }
        requires terms { table_of work.old ≡ self.now.table.now }
        requires start { state_of work.old ≡ state_with [] [] }
        requires table { self.now.table.now ≡ proof.now.table.items }
        requires gamma { self.now.gamma.now ≡ proof.now.gamma }
        requires for_theory { ProofFor self.now.theory.now (plain_proof proof.now) }
        requires plain { IsPlain (plain_proof proof.now) }
        requires accepted { Accepted self.now.theory.now (plain_proof proof.now) }
        ensures { IfOk result (IsBook self.now.theory.now (plain_proof proof.now)) }
    {
        let mut book = Book {
            nodes: Vec::new(self.alloc),
            goals: Vec::new(self.alloc),
            blocks: Vec::new(self.alloc),
        };
        for block in &proof.blocks {
            self.add_block(&mut book, work, block)?;
        }
        Ok(book)
    }
}
