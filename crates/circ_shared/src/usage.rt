//! Links by themselves: what they lead to where their conditions hold.
ghost use Rattle.std.specs.Prelude.{◌≡◌, ◌<◌, ◌↔◌, IsTrue, IfOk, List, [], length, map, true};
ghost use Rattle.std.specs.List.{slice_get, AllByRecursion};
ghost use Rattle.std.specs.Option.{option_copied};
ghost use Rattle.circ_term.specs.Growing.{Grows};
ghost use Rattle.circ_term.specs.Substitution.{Substitution};
ghost use Rattle.circ_term.specs.Tree.{Tree, sort_of};
ghost use Rattle.circ_theory.specs.Theory.{IsHidden};
ghost use Rattle.circ_theory.specs.Rewriting.{named};
ghost use Rattle.circ_special.specs.Special.{IsSpecial};
ghost use Rattle.circ_aci.specs.Content.{HasContentOf};
ghost use Rattle.circ_proof.specs.Plain.{ChainsOf, plain_link, plain_chains, chains_in};
ghost use Rattle.circ_proof.specs.Plain.{Equation_link, Hypothesis_link};
ghost use Rattle.circ_proof.specs.Plain.{Assumption_link, Content_link};
ghost use Rattle.circ_proof.specs.Link.{resolved_link, IsInTable};
ghost use Rattle.circ_nodes.specs.Named.{tree_at};
ghost use Rattle.circ_replay.specs.Following.{Follows};
ghost use Rattle.circ_shared.specs.Usage.{Uses, GivesUse};
ghost use Rattle.circ_shared.specs.Interned.{OfTerm};
ghost use Rattle.circ_shared.specs.Memo.{IsMade};
ghost use Rattle.circ_shared.specs.Patterns.{pairs_at, goal_at, AreThere, IsPattern};
ghost use Rattle.circ_shared.specs.Settings.{AreShared, setting_at, table_at};
ghost use Rattle.circ_shared.specs.Usage.{OfUse, GivesRewriting, IsUnconditional};

use crate::binding::bind;
use crate::instances::Made;
use crate::patterns::{Pattern, Sides, Turned};
use crate::rewriting::{exchange, pair_instances, replaced_at, rewrite};
use crate::special::is_special;
use circ_nodes::{Nodes, Terms};
use circ_proof::{Chain, Link};
use circ_special::Gamma;
use circ_theory::{Theory, Way};
use circ_weigh::same_content;
use std::alloc::{AllocError, Global};

/// What a link is read against, the assumptions apart: a theory and its equations by number, a
/// special set, hypotheses by number, and the numbers of the terms of the proof's table.
#[derive(Clone, Copy)]
pub struct Sources<'a> {
    pub alloc: Global,
    pub theory: &'a Theory,
    pub equations: &'a [Pattern],
    pub gamma: &'a Gamma,
    pub hyps: &'a [Pattern],
    pub table: &'a [u32],
}

// The term that a link leads to where its conditions hold, and the sides of its conditions.
#[derive(Drop)]
pub(crate) struct Use {
    pub(crate) term: u32,
    pub(crate) conds: Vec<Sides>,
}

// The chains of a link's conditions.
pub(crate) fn chains(link: &Link) -> &[Chain]
    ensures { plain_chains result.now ≡ chains_in (plain_link link.now) }
{
    match link {
        Link::Equation { conds, .. } => conds.as_slice(),
        Link::Hypothesis { conds, .. } => conds.as_slice(),
        Link::Assumption { .. } => &[],
        Link::Content { .. } => &[],
    }
}

impl Sources<'_> {
    // What the link leads to where its conditions hold. None where it leads nowhere.
    pub(crate) fn used(
        &self,
        nodes: &mut Nodes,
        assumptions: &[Sides],
        link: &Link,
        term: u32,
    ) -> Result<Option<Use>, AllocError>
        requires shared { AreShared nodes.old self.now }
        requires in_table { IsInTable (length self.now.table.now) (plain_link link.now) }
        requires assumptions { AreThere nodes.old assumptions.now }
        requires term { term < length nodes.old }
        ensures grows { Grows nodes.old nodes.new }
        ensures exact { IfOk result (OfUse nodes.new (Uses
            (setting_at nodes.old self.now assumptions.now)
            (resolved_link (table_at nodes.old self.now) (plain_link link.now))
            (tree_at nodes.old term))) }
    {
        match link {
            Link::Equation {
                number,
                way,
                path,
                terms,
                ..
            } => {
                let terms = terms.as_slice();
                self.by_equation(nodes, *number, *way, path.as_slice(), terms, term)
            }
            Link::Hypothesis {
                number,
                way,
                path,
                terms,
                ..
            } => {
                let terms = terms.as_slice();
                self.by_hypothesis(nodes, *number, *way, path.as_slice(), terms, term)
            }
            Link::Assumption { number, way, path } => {
                let path = path.as_slice();
                let made = self.by_assumption(nodes, assumptions, *number, *way, path, term)?;
                Ok(unconditional(self.alloc, made))
            }
            Link::Content {
                op,
                path,
                term: new,
            } => {
                let made = self.by_content(nodes, *op, path.as_slice(), *new, term)?;
                Ok(unconditional(self.alloc, made))
            }
        }
    }

    fn by_equation(
        &self,
        nodes: &mut Nodes,
        number: u32,
        way: Way,
        path: &[u16],
        terms: &[u32],
        term: u32,
    ) -> Result<Option<Use>, AllocError>
        requires shared { AreShared nodes.old self.now }
        requires in_table { AllByRecursion (λ n. n < length self.now.table.now) terms.now }
        requires term { term < length nodes.old }
        ensures grows { Grows nodes.old nodes.new }
        ensures exact { (ss : List Sides) (cs : ChainsOf Tree) → IfOk result (OfUse nodes.new (Uses
            (setting_at nodes.old self.now ss) (Equation_link number way path.now
            (map (named (table_at nodes.old self.now)) terms.now) cs) (tree_at nodes.old term))) }
    {
        let Some(equation) = pattern_at(self.equations, number) else {
            return Ok(None);
        };
        self.by_pattern(nodes, equation, way, path, terms, term)
    }

    fn by_hypothesis(
        &self,
        nodes: &mut Nodes,
        number: u32,
        way: Way,
        path: &[u16],
        terms: &[u32],
        term: u32,
    ) -> Result<Option<Use>, AllocError>
        requires shared { AreShared nodes.old self.now }
        requires in_table { AllByRecursion (λ n. n < length self.now.table.now) terms.now }
        requires term { term < length nodes.old }
        ensures grows { Grows nodes.old nodes.new }
        ensures exact { (ss : List Sides) (cs : ChainsOf Tree) → IfOk result (OfUse nodes.new (Uses
            (setting_at nodes.old self.now ss) (Hypothesis_link number way path.now
            (map (named (table_at nodes.old self.now)) terms.now) cs) (tree_at nodes.old term))) }
    {
        let Some(hypothesis) = pattern_at(self.hyps, number) else {
            return Ok(None);
        };
        if !self.may_use(nodes, hypothesis, path, term) {
            return Ok(None);
        }
        self.by_pattern(nodes, hypothesis, way, path, terms, term)
    }

    // One side of the pattern, under the substitution that the terms give, is replaced by the
    // other.
    fn by_pattern(
        &self,
        nodes: &mut Nodes,
        pattern: &Pattern,
        way: Way,
        path: &[u16],
        terms: &[u32],
        term: u32,
    ) -> Result<Option<Use>, AllocError>
        requires pattern { IsPattern nodes.old pattern.now }
        requires table { AllByRecursion (λ n. n < length nodes.old) self.now.table.now }
        requires in_table { AllByRecursion (λ n. n < length self.now.table.now) terms.now }
        requires term { term < length nodes.old }
        ensures grows { Grows nodes.old nodes.new }
        ensures exact { IfOk result (OfUse nodes.new (GivesRewriting
            (goal_at nodes.old pattern.now) way path.now
            (map (named (table_at nodes.old self.now)) terms.now) (tree_at nodes.old term))) }
    {
        if is_plain(pattern, terms) {
            return self.by_sides(nodes, pattern, way, path, term);
        }
        self.by_instance(nodes, pattern, way, path, terms, term)
    }

    // The same where nothing is to be given, and there are no conditions: then the sides are
    // replaced as they stand.
    fn by_sides(
        &self,
        nodes: &mut Nodes,
        pattern: &Pattern,
        way: Way,
        path: &[u16],
        term: u32,
    ) -> Result<Option<Use>, AllocError>
        requires pattern { IsPattern nodes.old pattern.now }
        requires variables { pattern.now.variables.items ≡ [] }
        requires conditions { pattern.now.conds.items ≡ [] }
        requires term { term < length nodes.old }
        ensures grows { Grows nodes.old nodes.new }
        ensures exact { IfOk result (OfUse nodes.new (GivesRewriting
            (goal_at nodes.old pattern.now) way path.now [] (tree_at nodes.old term))) }
    {
        let made = exchange(nodes, pattern.sides.turned(way), path, term)?;
        Ok(unconditional(self.alloc, made))
    }

    // The same, whatever there is. It stands apart, so that `by_sides` pays nothing for what it owns.
    #[inline(never)]
    fn by_instance(
        &self,
        nodes: &mut Nodes,
        pattern: &Pattern,
        way: Way,
        path: &[u16],
        terms: &[u32],
        term: u32,
    ) -> Result<Option<Use>, AllocError>
        requires pattern { IsPattern nodes.old pattern.now }
        requires table { AllByRecursion (λ n. n < length nodes.old) self.now.table.now }
        requires in_table { AllByRecursion (λ n. n < length self.now.table.now) terms.now }
        requires term { term < length nodes.old }
        ensures grows { Grows nodes.old nodes.new }
        ensures exact { IfOk result (OfUse nodes.new (GivesRewriting
            (goal_at nodes.old pattern.now) way path.now
            (map (named (table_at nodes.old self.now)) terms.now) (tree_at nodes.old term))) }
    {
        let mut made = Made::new(self.alloc);
        let variables = pattern.variables.as_slice();
        if !bind(self.alloc, nodes, &mut made, variables, self.table, terms)? {
            return Ok(None);
        }
        let sides = pattern.sides.turned(way);
        use_of(
            self.alloc,
            nodes,
            &mut made,
            sides,
            pattern.conds.as_slice(),
            path,
            term,
        )
    }

    // A hypothesis of hidden sort may be used at special paths only.
    fn may_use(&self, nodes: &Nodes, hypothesis: &Pattern, path: &[u16], term: u32) -> bool
        requires left { hypothesis.now.sides.left < length nodes.now }
        requires term { term < length nodes.now }
        ensures { IsTrue result ↔ (IsHidden self.now.theory.now
            (sort_of (tree_at nodes.now hypothesis.now.sides.left))
            → IsSpecial self.now.gamma.now (tree_at nodes.now term) path.now) }
    {
        if !self.theory.is_hidden(nodes.sort(hypothesis.sides.left)) {
            return true;
        }
        is_special(nodes, self.gamma, term, path)
    }

    #[inline(never)]
    fn by_assumption(
        &self,
        nodes: &mut Nodes,
        assumptions: &[Sides],
        number: u32,
        way: Way,
        path: &[u16],
        term: u32,
    ) -> Result<Option<u32>, AllocError>
        requires assumptions { AreThere nodes.old assumptions.now }
        requires term { term < length nodes.old }
        ensures grows { Grows nodes.old nodes.new }
        ensures exact { IfOk result (OfTerm nodes.new (Follows
            (setting_at nodes.old self.now assumptions.now)
            (Assumption_link number way path.now) (tree_at nodes.old term))) }
    {
        let Some(assumption) = sides_at(assumptions, number) else {
            return Ok(None);
        };
        exchange(nodes, assumption.turned(way), path, term)
    }

    #[inline(never)]
    fn by_content(
        &self,
        nodes: &mut Nodes,
        op: u32,
        path: &[u16],
        new: u32,
        term: u32,
    ) -> Result<Option<u32>, AllocError>
        requires shared { AreShared nodes.old self.now }
        requires in_table { new < length self.now.table.now }
        requires term { term < length nodes.old }
        ensures grows { Grows nodes.old nodes.new }
        ensures exact { (ss : List Sides) → IfOk result (OfTerm nodes.new (Follows
            (setting_at nodes.old self.now ss)
            (Content_link op path.now (named (table_at nodes.old self.now) new))
            (tree_at nodes.old term))) }
    {
        let Some(old) = nodes.at(term, path) else {
            return Ok(None);
        };
        let new = self.table[new as usize];
        if !self.has_content_of(nodes, op, old, new)? {
            return Ok(None);
        }
        replaced_at(nodes, term, path, new)
    }

    fn has_content_of(&self, nodes: &Nodes, op: u32, old: u32, new: u32) -> Result<bool, AllocError>
        requires old { old < length nodes.now }
        requires new { new < length nodes.now }
        ensures { IfOk result (λ b. IsTrue b ↔ HasContentOf self.now.theory.now.signature op
            (tree_at nodes.now old) (tree_at nodes.now new)) }
    {
        if op >= self.theory.op_count() {
            return Ok(false);
        }
        if nodes.sort(new) != nodes.sort(old) {
            return Ok(false);
        }
        let mut terms = Terms::new(self.alloc);
        same_content(self.alloc, self.theory, nodes, &mut terms, op, old, new)
    }
}

// One side of a pair, under the substitution, is replaced by the other, where both sides of each
// condition under it are within the limits.
fn use_of(
    alloc: Global,
    nodes: &mut Nodes,
    made: &mut Made,
    sides: Turned,
    conds: &[Sides],
    path: &[u16],
    term: u32,
) -> Result<Option<Use>, AllocError>
    requires from { sides.from < length nodes.old }
    requires to { sides.to < length nodes.old }
    requires conditions { AreThere nodes.old conds.now }
    requires term { term < length nodes.old }
    requires made { (σ : Substitution) × IsMade σ nodes.old made.old.entries }
    ensures grows { Grows nodes.old nodes.new }
    ensures exact { (σ : Substitution) → IsMade σ nodes.old made.old.entries
        → IfOk result (OfUse nodes.new (GivesUse σ (tree_at nodes.old sides.from)
        (tree_at nodes.old sides.to) (pairs_at nodes.old conds.now) path.now
        (tree_at nodes.old term))) }
{
    let Some(term) = rewrite(alloc, nodes, made, sides, path, term)? else {
        return Ok(None);
    };
    let Some(conds) = pair_instances(alloc, nodes, made, conds)? else {
        return Ok(None);
    };
    Ok(Some(Use { term, conds }))
}

fn unconditional(alloc: Global, made: Option<u32>) -> Option<Use>
    ensures { IsUnconditional made result }
{
    match made {
        Some(term) => Some(Use {
            term,
            conds: Vec::new(alloc),
        }),
        None => None,
    }
}

// Whether no terms are given, and the pattern has no variables and no conditions.
fn is_plain(pattern: &Pattern, terms: &[u32]) -> bool
    ensures terms { result ≡ true → terms.now ≡ [] }
    ensures variables { result ≡ true → pattern.now.variables.items ≡ [] }
    ensures conditions { result ≡ true → pattern.now.conds.items ≡ [] }
{
    if !terms.is_empty() {
        return false;
    }
    if !pattern.variables.is_empty() {
        return false;
    }
    pattern.conds.is_empty()
}

fn pattern_at(patterns: &[Pattern], number: u32) -> Option<&Pattern>
    ensures { option_copied result ≡ slice_get patterns.now number }
{
    patterns.get(number as usize)
}

fn sides_at(sides: &[Sides], number: u32) -> Option<Sides>
    ensures { result ≡ slice_get sides.now number }
{
    sides.get(number as usize).copied()
}
