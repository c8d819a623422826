//! What steps are judged by gets numbers.
ghost use Rattle.std.specs.Prelude.{◌≡◌, List, IfOk};
ghost use Rattle.circ_term.specs.Growing.{Grows};
ghost use Rattle.circ_term.specs.Tree.{Tree};
ghost use Rattle.circ_steps.specs.Judging.{AreRules, terms_at};
ghost use Rattle.circ_entering.specs.Numbered.{AreEnteredRules};

use crate::entering::enter_terms;
use circ_nodes::Nodes;
use circ_shared::Pattern;
use circ_special::Gamma;
use circ_steps::{Rules, SharedDerivative, derivatives, equations};
use circ_term::Term;
use circ_theory::Theory;
use std::alloc::{AllocError, Global};

/// The equations and the derivatives of a theory, and the terms of a table, by number.
#[derive(Drop)]
pub struct Numbered {
    pub equations: Vec<Pattern>,
    pub derivatives: Vec<SharedDerivative>,
    pub table: Vec<u32>,
}

/// Those of a theory and a table. Costs a look-up for each node of them, counted as trees.
pub fn enter_rules(
    alloc: Global,
    theory: &Theory,
    nodes: &mut Nodes,
    table: &[Term],
) -> Result<Numbered, AllocError>
    ensures grows { Grows nodes.old nodes.new }
    ensures numbered { IfOk result (AreEnteredRules theory.now table.now nodes.new) }
{
    let equations = equations(alloc, theory, nodes)?;
    let derivatives = derivatives(alloc, theory, nodes)?;
    let table = enter_terms(alloc, nodes, table)?;
    Ok(Numbered {
        equations,
        derivatives,
        table,
    })
}

impl Numbered {
    /// What steps are judged by, with a special set.
    pub fn rules<'a>(&'a self, alloc: Global, theory: &'a Theory, gamma: &'a Gamma) -> Rules<'a>
        ensures rules { (table nodes : List Tree) → AreEnteredRules theory.now table nodes self.now
            → AreRules nodes result }
        ensures table { (table nodes : List Tree) → AreEnteredRules theory.now table nodes self.now
            → terms_at nodes result ≡ table }
        ensures theory { result.theory.now ≡ theory.now }
        ensures gamma { result.gamma.now ≡ gamma.now }
    {
        Rules {
            alloc,
            theory,
            equations: self.equations.as_slice(),
            derivatives: self.derivatives.as_slice(),
            gamma,
            table: self.table.as_slice(),
        }
    }
}
