//! Why goals hold, as proofs record it, by number.
ghost use Rattle.std.specs.Prelude.{◌≡◌, ◌<◌, ◌↔◌, length};
ghost use Rattle.std.specs.Prelude.{IsTrue, IfOk, OnOk};
ghost use Rattle.circ_term.specs.Growing.{Grows};
ghost use Rattle.circ_term.specs.Tree.{App, none, sort_of};
ghost use Rattle.circ_theory.specs.Observing.{case_list};
ghost use Rattle.circ_theory.specs.Rewriting.{named};
ghost use Rattle.circ_proof.specs.Plain.{Split_why, plain_chain, plain_why, plain_whys, map_whys};
ghost use Rattle.circ_proof.specs.Link.{resolved_chain, resolved_why};
ghost use Rattle.circ_proof.specs.Justified.{Justified, EachJustified, IsWhyInTable};
ghost use Rattle.circ_proof.specs.Justified.{AllOfChain, AllOfWhys};
ghost use Rattle.circ_nodes.specs.Named.{IsNamed, tree_at};
ghost use Rattle.circ_shared.specs.Patterns.{pair_at, IsThere, AreThere};
ghost use Rattle.circ_shared.specs.Settings.{AreShared, setting_at, table_at};
ghost use Rattle.circ_shared.specs.Chains.{AddsCase};

use crate::patterns::Sides;
use crate::usage::Sources;
use circ_nodes::{Nodes, Numbers};
use circ_proof::{Chain, Why};
use circ_term::TermFault;
use std::alloc::{AllocError, Global};

impl Sources<'_> {
    /// Whether the goal of these sides holds by the reason, with its conditions as assumptions:
    /// each of its links applies, in its splits each constant of the term's case list has a
    /// reason, and each reason ends with two sides that are the same. The terms that were made on
    /// the way are gone then, so that the table is as it was.
    pub fn follow_why(
        &self,
        nodes: &mut Nodes,
        conds: &[Sides],
        sides: Sides,
        why: &Why,
    ) -> Result<bool, AllocError>
        requires shared { AreShared nodes.old self.now }
        requires in_table { IsWhyInTable (length self.now.table.now) (plain_why why.now) }
        requires conditions { AreThere nodes.old conds.now }
        requires sides { IsThere nodes.old sides }
        ensures same { nodes.new ≡ nodes.old }
        ensures exact { IfOk result (λ b. IsTrue b ↔ Justified
            (setting_at nodes.old self.now conds.now) (pair_at nodes.old sides)
            (resolved_why (table_at nodes.old self.now) (plain_why why.now))) }
    {
        let mut assumptions = Vec::from_slice(self.alloc, conds)?;
        let count = nodes.len();
        let answer = self.is_justified(nodes, &mut assumptions, sides, why);
        nodes.cut(count);
        answer
    }

    // Whether the pair holds by the reason. A case's assumption is taken off again after it.
    #[cycle(justify)]
    fn is_justified(
        &self,
        nodes: &mut Nodes,
        assumptions: &mut Vec<Sides>,
        pair: Sides,
        why: &Why,
    ) -> Result<bool, AllocError>
        requires shared { AreShared nodes.old self.now }
        requires in_table { IsWhyInTable (length self.now.table.now) (plain_why why.now) }
        requires assumptions { AreThere nodes.old assumptions.old.items }
        requires pair { IsThere nodes.old pair }
        ensures grows { Grows nodes.old nodes.new }
        ensures exact { IfOk result (λ b. IsTrue b ↔ Justified
            (setting_at nodes.old self.now assumptions.old.items) (pair_at nodes.old pair)
            (resolved_why (table_at nodes.old self.now) (plain_why why.now))) }
        ensures same { OnOk result (assumptions.new.items ≡ assumptions.old.items) }
    {
        match why {
            Why::Same { chain } => self.meets(nodes, assumptions.as_slice(), chain, pair),
            Why::Split { chain, term, whys } => {
                self.is_split(nodes, assumptions, pair, chain, *term, whys.as_slice())
            }
        }
    }

    // The same by a split: the chain leads to two sides, which hold in each case of the term.
    #[cycle(justify)]
    fn is_split(
        &self,
        nodes: &mut Nodes,
        assumptions: &mut Vec<Sides>,
        pair: Sides,
        chain: &Chain,
        term: u32,
        whys: &[Why],
    ) -> Result<bool, AllocError>
        requires shared { AreShared nodes.old self.now }
        requires chain { AllOfChain (λ n. n < length self.now.table.now) (plain_chain chain.now) }
        requires term { term < length self.now.table.now }
        requires whys { AllOfWhys (λ n. n < length self.now.table.now) (plain_whys whys.now) }
        requires assumptions { AreThere nodes.old assumptions.old.items }
        requires pair { IsThere nodes.old pair }
        ensures grows { Grows nodes.old nodes.new }
        ensures exact { IfOk result (λ b. IsTrue b ↔ Justified
            (setting_at nodes.old self.now assumptions.old.items) (pair_at nodes.old pair)
            (Split_why (resolved_chain (table_at nodes.old self.now) (plain_chain chain.now))
            (named (table_at nodes.old self.now) term)
            (map_whys (named (table_at nodes.old self.now)) (plain_whys whys.now)))) }
        ensures same { OnOk result (assumptions.new.items ≡ assumptions.old.items) }
    {
        self.theory.known();
        let term = self.table[term as usize];
        let Some(constants) = self.theory.cases(nodes.sort(term)) else {
            return Ok(false);
        };
        let Some(sides) = self.follow_chain(nodes, assumptions.as_slice(), chain, pair)? else {
            return Ok(false);
        };
        self.each_justified(nodes, assumptions, sides, term, constants, whys)
    }

    // The same in the case of each constant.
    #[cycle(justify)]
    fn each_justified(
        &self,
        nodes: &mut Nodes,
        assumptions: &mut Vec<Sides>,
        pair: Sides,
        term: u32,
        constants: &[u32],
        whys: &[Why],
    ) -> Result<bool, AllocError>
        requires shared { AreShared nodes.old self.now }
        requires in_table { AllOfWhys (λ n. n < length self.now.table.now) (plain_whys whys.now) }
        requires assumptions { AreThere nodes.old assumptions.old.items }
        requires pair { IsThere nodes.old pair }
        requires term { term < length nodes.old }
        ensures grows { Grows nodes.old nodes.new }
        ensures exact { IfOk result (λ b. IsTrue b ↔ EachJustified
            (setting_at nodes.old self.now assumptions.old.items) (pair_at nodes.old pair)
            (tree_at nodes.old term)
            (case_list (sort_of (tree_at nodes.old term)) constants.now) constants.now
            (map_whys (named (table_at nodes.old self.now)) (plain_whys whys.now))) }
        ensures same { OnOk result (assumptions.new.items ≡ assumptions.old.items) }
    {
        if constants.len() != whys.len() {
            return Ok(false);
        }
        let count = assumptions.len();
        for i in 0..whys.len() {
            self.assume(nodes, assumptions, term, constants[i])?;
            let justified = self.is_justified(nodes, assumptions, pair, &whys[i])?;
            assumptions.truncate(count);
            if !justified {
                return Ok(false);
            }
        }
        Ok(true)
    }

    // Adds the assumption that the term is the constant.
    fn assume(
        &self,
        nodes: &mut Nodes,
        assumptions: &mut Vec<Sides>,
        term: u32,
        constant: u32,
    ) -> Result<(), AllocError>
        requires { term < length nodes.old }
        ensures grows { Grows nodes.old nodes.new }
        ensures assumed { OnOk result (AddsCase nodes.new assumptions.old.items
            assumptions.new.items term constant (sort_of (tree_at nodes.old term))) }
    {
        let sort = nodes.sort(term);
        let right = constant_of(self.alloc, nodes, constant, sort)?;
        assumptions.push(Sides { left: term, right })?;
        Ok(())
    }
}

/// The number of a constant of this sort.
pub fn constant_of(alloc: Global, nodes: &mut Nodes, op: u32, sort: u32) -> Result<u32, AllocError>
    ensures grows { Grows nodes.old nodes.new }
    ensures named { IfOk result (λ n. IsNamed nodes.new n (App op sort none)) }
{
    match nodes.app(op, sort, Numbers::new(alloc)) {
        Ok(number) => Ok(number),
        Err(TermFault::Memory) => Err(AllocError),
        Err(TermFault::TooBig { .. }) => unreachable!(),
        Err(TermFault::TooDeep { .. }) => unreachable!(),
    }
}
