//! What recorded links lead to, and why goals hold.
ghost use Rattle.std.specs.Prelude.{◌≡◌, ◌<◌, ◌↔◌, IsTrue, IfOk, length, map};
ghost use Rattle.std.specs.List.{AllByRecursion};
ghost use Rattle.std.specs.Option.{IfSome};
ghost use Rattle.circ_term.specs.Tree.{sort_of};
ghost use Rattle.circ_theory.specs.Signature.{IsWellSorted};
ghost use Rattle.circ_theory.specs.Theory.{sides, AreWellSortedPairs, IsWellSortedGoal};
ghost use Rattle.circ_theory.specs.Pairs.{plain_pair};
ghost use Rattle.circ_proof.specs.Plain.{plain_link, plain_links, plain_why};
ghost use Rattle.circ_proof.specs.Goals.{AreSortedGoals};
ghost use Rattle.circ_proof.specs.Link.{setting, resolved_link, resolved_links, resolved_why};
ghost use Rattle.circ_proof.specs.Link.{IsInTable, AllOfLinks, LinkDerives};
ghost use Rattle.circ_proof.specs.Justified.{Justified, IsWhyInTable};
ghost use Rattle.circ_replay.specs.Following.{Follows, FollowsAll};

use crate::entered::{built, enter};
use circ_nodes::Nodes;
use circ_proof::{Link, Why};
use circ_shared::Sides;
use circ_special::Gamma;
use circ_term::Term;
use circ_theory::{Goal, Pair, Theory};
use std::alloc::{AllocError, Global};

/// The term that a link leads to. None where the link does not apply.
pub fn follow(
    alloc: Global,
    theory: &Theory,
    table: &[Term],
    gamma: &Gamma,
    hyps: &[Goal],
    assumptions: &[Pair],
    link: &Link,
    term: &Term,
) -> Result<Option<Term>, AllocError>
    requires in_table { IsInTable (length table.now) (plain_link link.now) }
    requires table_sorted { AllByRecursion (IsWellSorted theory.now.signature) table.now }
    requires hyps_sorted { AreSortedGoals theory.now hyps.now }
    requires assumptions_sorted { AreWellSortedPairs theory.now.signature
        (map plain_pair assumptions.now) }
    requires term_sorted { IsWellSorted theory.now.signature term.now }
    ensures exact { IfOk result (Follows
        (setting theory.now gamma.now hyps.now (map plain_pair assumptions.now))
        (resolved_link table.now (plain_link link.now)) term.now) }
    ensures derivable { IfOk result (λ o. IfSome o
        (LinkDerives theory.now (map plain_pair assumptions.now) (plain_link link.now) term.now)) }
    ensures well_sorted { IfOk result (λ o. IfSome o (IsWellSorted theory.now.signature)) }
    ensures same_sort { IfOk result (λ o. IfSome o (λ u. sort_of u ≡ sort_of term.now)) }
{
    theory.known();
    let mut nodes = Nodes::new(alloc);
    let entered = enter(alloc, theory, &mut nodes, table, hyps, assumptions)?;
    let first = nodes.intern(term)?;
    let sources = entered.sources(alloc, theory, gamma);
    let last = sources.follow(&mut nodes, entered.assumptions.as_slice(), link, first)?;
    built(alloc, &nodes, last)
}

/// The term that links lead to, one after another. None where one of them does not apply.
pub fn follow_all(
    alloc: Global,
    theory: &Theory,
    table: &[Term],
    gamma: &Gamma,
    hyps: &[Goal],
    assumptions: &[Pair],
    links: &[Link],
    term: &Term,
) -> Result<Option<Term>, AllocError>
    requires in_table { AllOfLinks (λ n. n < length table.now) (plain_links links.now) }
    requires table_sorted { AllByRecursion (IsWellSorted theory.now.signature) table.now }
    requires hyps_sorted { AreSortedGoals theory.now hyps.now }
    requires assumptions_sorted { AreWellSortedPairs theory.now.signature
        (map plain_pair assumptions.now) }
    requires term_sorted { IsWellSorted theory.now.signature term.now }
    ensures exact { IfOk result (FollowsAll
        (setting theory.now gamma.now hyps.now (map plain_pair assumptions.now))
        (resolved_links table.now (plain_links links.now)) term.now) }
    ensures well_sorted { IfOk result (λ o. IfSome o (IsWellSorted theory.now.signature)) }
    ensures same_sort { IfOk result (λ o. IfSome o (λ u. sort_of u ≡ sort_of term.now)) }
{
    theory.known();
    let mut nodes = Nodes::new(alloc);
    let entered = enter(alloc, theory, &mut nodes, table, hyps, assumptions)?;
    let first = nodes.intern(term)?;
    let sources = entered.sources(alloc, theory, gamma);
    let last = sources.follow_all(&mut nodes, entered.assumptions.as_slice(), links, first)?;
    built(alloc, &nodes, last)
}

/// Whether the goal holds by the reason, with its conditions as assumptions: each of its links
/// applies, in its splits each constant of the term's case list has a reason, and each reason ends
/// with two sides that are the same.
pub fn follow_why(
    alloc: Global,
    theory: &Theory,
    table: &[Term],
    gamma: &Gamma,
    hyps: &[Goal],
    goal: &Goal,
    why: &Why,
) -> Result<bool, AllocError>
    requires in_table { IsWhyInTable (length table.now) (plain_why why.now) }
    requires table_sorted { AllByRecursion (IsWellSorted theory.now.signature) table.now }
    requires hyps_sorted { AreSortedGoals theory.now hyps.now }
    requires goal_sorted { IsWellSortedGoal theory.now goal.now }
    ensures { IfOk result (λ b. IsTrue b ↔ Justified
        (setting theory.now gamma.now hyps.now goal.now.conds) (sides goal.now)
        (resolved_why table.now (plain_why why.now))) }
{
    let mut nodes = Nodes::new(alloc);
    let entered = enter(
        alloc,
        theory,
        &mut nodes,
        table,
        hyps,
        goal.conds.as_slice(),
    )?;
    let left = nodes.intern(&goal.left)?;
    let right = nodes.intern(&goal.right)?;
    let sources = entered.sources(alloc, theory, gamma);
    let sides = Sides { left, right };
    sources.follow_why(&mut nodes, entered.assumptions.as_slice(), sides, why)
}
