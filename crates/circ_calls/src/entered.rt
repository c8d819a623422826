//! What links are read against gets numbers.
ghost use Rattle.std.specs.Prelude.{◌≡◌, ◌<◌, List, Option, length, map, IfOk};
ghost use Rattle.std.specs.Option.{option_map, IfSome};
ghost use Rattle.circ_term.specs.Growing.{Grows};
ghost use Rattle.circ_term.specs.Tree.{Tree};
ghost use Rattle.circ_theory.specs.Pairs.{plain_pair};
ghost use Rattle.circ_theory.specs.Theory.{Pair as PlainPair};
ghost use Rattle.circ_theory.specs.Goal.{Goal as PlainGoal};
ghost use Rattle.circ_proof.specs.Link.{setting};
ghost use Rattle.circ_nodes.specs.Named.{tree_at};
ghost use Rattle.circ_shared.specs.Interned.{OfTerm};
ghost use Rattle.circ_shared.specs.Settings.{AreShared, setting_at, table_at};
ghost use Rattle.circ_calls.specs.Entered.{IsEntered};

use circ_entering::{Numbered, enter_hypotheses, enter_rules};
use circ_nodes::{Nodes, Terms};
use circ_shared::{Pattern, Sides, Sources};
use circ_special::Gamma;
use circ_steps::share_pairs;
use circ_term::Term;
use circ_theory::{Goal, Pair, Theory};
use std::alloc::{AllocError, Global};

// The rules of a theory with the terms of a table, hypotheses, and assumptions, by number.
#[derive(Drop)]
pub(crate) struct Entered {
    pub(crate) numbered: Numbered,
    pub(crate) hyps: Vec<Pattern>,
    pub(crate) assumptions: Vec<Sides>,
}

pub(crate) fn enter(
    alloc: Global,
    theory: &Theory,
    nodes: &mut Nodes,
    table: &[Term],
    hyps: &[Goal],
    assumptions: &[Pair],
) -> Result<Entered, AllocError>
    ensures grows { Grows nodes.old nodes.new }
    ensures entered { IfOk result (IsEntered theory.now table.now hyps.now
        (map plain_pair assumptions.now) nodes.new) }
{
    let numbered = enter_rules(alloc, theory, nodes, table)?;
    let mut shared = Vec::with_capacity(alloc, hyps.len())?;
    enter_hypotheses(alloc, nodes, hyps, &mut shared)?;
    let assumptions = share_pairs(alloc, nodes, assumptions)?;
    Ok(Entered {
        numbered,
        hyps: shared,
        assumptions,
    })
}

impl Entered {
    // What links are read against, with a special set.
    pub(crate) fn sources<'a>(
        &'a self,
        alloc: Global,
        theory: &'a Theory,
        gamma: &'a Gamma,
    ) -> Sources<'a>
        ensures shared { (table nodes : List Tree) (H : List PlainGoal) (A : List PlainPair)
            → IsEntered theory.now table H A nodes self.now → AreShared nodes result }
        ensures table { (table nodes : List Tree) (H : List PlainGoal) (A : List PlainPair)
            → IsEntered theory.now table H A nodes self.now → table_at nodes result ≡ table }
        ensures setting { (table nodes : List Tree) (H : List PlainGoal) (A : List PlainPair)
            → IsEntered theory.now table H A nodes self.now
            → setting_at nodes result self.now.assumptions.items
            ≡ setting theory.now gamma.now H A }
    {
        Sources {
            alloc,
            theory,
            equations: self.numbered.equations.as_slice(),
            gamma,
            hyps: self.hyps.as_slice(),
            table: self.numbered.table.as_slice(),
        }
    }
}

// The term of the number, if there is one.
pub(crate) fn built(
    alloc: Global,
    nodes: &Nodes,
    number: Option<u32>,
) -> Result<Option<Term>, AllocError>
    requires { IfSome number (λ n. n < length nodes.now) }
    ensures { IfOk result (λ o. o ≡ option_map (tree_at nodes.now) number) }
{
    let Some(number) = number else {
        return Ok(None);
    };
    let mut terms = Terms::new(alloc);
    Ok(Some(terms.term(nodes, number)?))
}
