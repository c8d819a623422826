//! What recorded links lead to, by number.
ghost use Rattle.std.specs.Prelude.{◌≡◌, ◌<◌, ◌↔◌, IsTrue, IfOk, length};
ghost use Rattle.circ_term.specs.Growing.{Grows};
ghost use Rattle.circ_theory.specs.Rewriting.{named};
ghost use Rattle.circ_proof.specs.Plain.{plain_link, plain_links, plain_chain, plain_chains};
ghost use Rattle.circ_proof.specs.Plain.{map_chains, Same_why};
ghost use Rattle.circ_proof.specs.Link.{resolved_link, resolved_links, resolved_chain};
ghost use Rattle.circ_proof.specs.Link.{IsInTable, AllOfLinks, AllOfChains};
ghost use Rattle.circ_proof.specs.Justified.{Justified, AllOfChain};
ghost use Rattle.circ_nodes.specs.Named.{tree_at};
ghost use Rattle.circ_replay.specs.Following.{Follows, FollowsAll};
ghost use Rattle.circ_replay.specs.Usage.{AllMeet};
ghost use Rattle.circ_shared.specs.Interned.{OfTerm};
ghost use Rattle.circ_shared.specs.Patterns.{pair_at, pairs_at, IsThere, AreThere};
ghost use Rattle.circ_shared.specs.Settings.{AreShared, setting_at, table_at};
ghost use Rattle.circ_shared.specs.Chains.{FollowsSides};

use crate::lightening::{lightened, room_for};
use crate::patterns::Sides;
use crate::usage::{Sources, chains};
use circ_nodes::Nodes;
use circ_proof::{Chain, Link};
use std::alloc::AllocError;

impl Sources<'_> {
    /// The number of the term that the links lead to, one after another. None where one of them
    /// does not apply.
    #[cycle(follow)]
    pub fn follow_all(
        &self,
        nodes: &mut Nodes,
        assumptions: &[Sides],
        links: &[Link],
        term: u32,
    ) -> Result<Option<u32>, AllocError>
        requires shared { AreShared nodes.old self.now }
        requires in_table { AllOfLinks (λ n. n < length self.now.table.now)
            (plain_links links.now) }
        requires assumptions { AreThere nodes.old assumptions.now }
        requires term { term < length nodes.old }
        ensures grows { Grows nodes.old nodes.new }
        ensures exact { IfOk result (OfTerm nodes.new (FollowsAll
            (setting_at nodes.old self.now assumptions.now)
            (resolved_links (table_at nodes.old self.now) (plain_links links.now))
            (tree_at nodes.old term))) }
    {
        let count = nodes.len();
        let mut room = room_for(nodes);
        let mut here = term;
        for link in links {
            match self.follow(nodes, assumptions, link, here)? {
                Some(next) => here = lightened(self.alloc, nodes, count, &mut room, next)?,
                None => return Ok(None),
            }
        }
        Ok(Some(here))
    }

    /// The number of the term that the link leads to. None where the link does not apply.
    #[cycle(follow)]
    pub fn follow(
        &self,
        nodes: &mut Nodes,
        assumptions: &[Sides],
        link: &Link,
        term: u32,
    ) -> Result<Option<u32>, AllocError>
        requires shared { AreShared nodes.old self.now }
        requires in_table { IsInTable (length self.now.table.now) (plain_link link.now) }
        requires assumptions { AreThere nodes.old assumptions.now }
        requires term { term < length nodes.old }
        ensures grows { Grows nodes.old nodes.new }
        ensures exact { IfOk result (OfTerm nodes.new (Follows
            (setting_at nodes.old self.now assumptions.now)
            (resolved_link (table_at nodes.old self.now) (plain_link link.now))
            (tree_at nodes.old term))) }
    {
        let Some(made) = self.used(nodes, assumptions, link, term)? else {
            return Ok(None);
        };
        if !self.all_meet(nodes, assumptions, made.conds.as_slice(), chains(link))? {
            return Ok(None);
        }
        Ok(Some(made.term))
    }

    // Whether each pair's sides lead to one term by its chain.
    #[cycle(follow)]
    fn all_meet(
        &self,
        nodes: &mut Nodes,
        assumptions: &[Sides],
        pairs: &[Sides],
        chains: &[Chain],
    ) -> Result<bool, AllocError>
        requires shared { AreShared nodes.old self.now }
        requires in_table { AllOfChains (λ n. n < length self.now.table.now)
            (plain_chains chains.now) }
        requires assumptions { AreThere nodes.old assumptions.now }
        requires pairs { AreThere nodes.old pairs.now }
        ensures grows { Grows nodes.old nodes.new }
        ensures exact { IfOk result (λ b. IsTrue b ↔ AllMeet
            (setting_at nodes.old self.now assumptions.now) (pairs_at nodes.old pairs.now)
            (map_chains (named (table_at nodes.old self.now)) (plain_chains chains.now))) }
    {
        if pairs.len() != chains.len() {
            return Ok(false);
        }
        for i in 0..chains.len() {
            if !self.meets(nodes, assumptions, &chains[i], pairs[i])? {
                return Ok(false);
            }
        }
        Ok(true)
    }

    // Whether the chain leads to two sides that are the same: one comparison.
    #[cycle(follow)]
    pub(crate) fn meets(
        &self,
        nodes: &mut Nodes,
        assumptions: &[Sides],
        chain: &Chain,
        pair: Sides,
    ) -> Result<bool, AllocError>
        requires shared { AreShared nodes.old self.now }
        requires in_table { AllOfChain (λ n. n < length self.now.table.now)
            (plain_chain chain.now) }
        requires assumptions { AreThere nodes.old assumptions.now }
        requires pair { IsThere nodes.old pair }
        ensures grows { Grows nodes.old nodes.new }
        ensures exact { IfOk result (λ b. IsTrue b ↔ Justified
            (setting_at nodes.old self.now assumptions.now) (pair_at nodes.old pair)
            (Same_why (resolved_chain (table_at nodes.old self.now) (plain_chain chain.now)))) }
    {
        let Some(end) = self.follow_chain(nodes, assumptions, chain, pair)? else {
            return Ok(false);
        };
        nodes.known();
        Ok(end.left == end.right)
    }

    /// The numbers of the two sides that the chain leads to. None where one of its links does not
    /// apply.
    #[cycle(follow)]
    pub fn follow_chain(
        &self,
        nodes: &mut Nodes,
        assumptions: &[Sides],
        chain: &Chain,
        pair: Sides,
    ) -> Result<Option<Sides>, AllocError>
        requires shared { AreShared nodes.old self.now }
        requires in_table { AllOfChain (λ n. n < length self.now.table.now)
            (plain_chain chain.now) }
        requires assumptions { AreThere nodes.old assumptions.now }
        requires pair { IsThere nodes.old pair }
        ensures grows { Grows nodes.old nodes.new }
        ensures exact { IfOk result (FollowsSides nodes.new
            (setting_at nodes.old self.now assumptions.now)
            (resolved_chain (table_at nodes.old self.now) (plain_chain chain.now))
            (pair_at nodes.old pair)) }
    {
        let Some(left) = self.follow_all(nodes, assumptions, chain.left.as_slice(), pair.left)?
        else {
            return Ok(None);
        };
        let Some(right) = self.follow_all(nodes, assumptions, chain.right.as_slice(), pair.right)?
        else {
            return Ok(None);
        };
        Ok(Some(Sides { left, right }))
    }
}
