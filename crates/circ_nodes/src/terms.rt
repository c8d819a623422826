//! Terms that are built of numbers.
ghost use Rattle.std.specs.Prelude.{◌≡◌, ◌<◌, List, length, IfOk};
ghost use Rattle.std.specs.List.{AllByRecursion};
ghost use Rattle.circ_term.specs.Tree.{Tree, trees_of};
ghost use Rattle.circ_term.specs.Limits.{Builds};
ghost use Rattle.circ_nodes.specs.Built.{AreBuilt};
ghost use Rattle.circ_nodes.specs.Named.{IsNamed, AreNamed};

use crate::{Nodes, Shape};
use circ_term::{Term, TermFault};
use indexmap::IndexMap;
use std::alloc::{AllocError, Global};
use std::marker::Model;

/// Terms that were built of numbers, and are kept, so that each is built once, and its parts are
/// shared. Contracts see the numbers with their terms.
#[derive(Drop)]
pub struct Terms {
    alloc: Global,
    built: IndexMap<u32, Term>,
}

impl Model for Terms {
    ghost use Rattle.std.specs.Prelude.{ℕ, List};
    ghost use Rattle.std.specs.Coded.{coded_list, coded×, coded_ℕ};
    ghost use Rattle.circ_term.specs.Tree.{Tree};
    ghost use Rattle.circ_term.specs.Code.{tree_code};

    ghost Value = { List (ℕ × Tree) };

    ghost coded = { coded_list (coded× coded_ℕ tree_code) };

    ghost view = { λ a. a.built.entries };
}

impl Terms {
    /// No terms.
    pub fn new(alloc: Global) -> Terms
        ensures { (nodes : List Tree) → AreBuilt nodes result }
    {
        Terms {
            alloc,
            built: IndexMap::new(alloc),
        }
    }

    /// The term of a number. Costs as much as there are parts that were not built yet.
    #[cycle(term)]
    pub fn term(&mut self, nodes: &Nodes, number: u32) -> Result<Term, AllocError>
        requires there { number < length nodes.now }
        requires built { AreBuilt nodes.now self.old }
        ensures built { AreBuilt nodes.now self.new }
        ensures named { IfOk result (IsNamed nodes.now number) }
    {
        if let Some(term) = self.built.get(&number) {
            return term.share();
        }
        let term = self.build(nodes, number)?;
        self.built.insert(number, term.share()?)?;
        Ok(term)
    }

    // The term of a number, of those of its arguments.
    #[cycle(term)]
    fn build(&mut self, nodes: &Nodes, number: u32) -> Result<Term, AllocError>
        requires there { number < length nodes.now }
        requires built { AreBuilt nodes.now self.old }
        ensures built { AreBuilt nodes.now self.new }
        ensures named { IfOk result (IsNamed nodes.now number) }
    {
        match nodes.shape(number) {
            Shape::Variable { number: id, sort } => Ok(Term::var(id, sort)),
            Shape::Application { op, sort, args } => {
                let args = self.build_all(nodes, args)?;
                or_memory(Term::app(self.alloc, op, sort, args))
            }
        }
    }

    // The terms of these numbers.
    #[cycle(term)]
    fn build_all(&mut self, nodes: &Nodes, numbers: &[u32]) -> Result<Vec<Term>, AllocError>
        requires there { AllByRecursion (λ n. n < length nodes.now) numbers.now }
        requires built { AreBuilt nodes.now self.old }
        ensures built { AreBuilt nodes.now self.new }
        ensures named { IfOk result (λ v. AreNamed nodes.now numbers.now (trees_of v.items)) }
    {
        let mut terms = Vec::with_capacity(self.alloc, numbers.len())?;
        for number in numbers {
            terms.push(self.term(nodes, *number)?)?;
        }
        Ok(terms)
    }
}

// A term that is within the limits is refused for want of memory alone.
fn or_memory(built: Result<Term, TermFault>) -> Result<Term, AllocError>
    ensures { (t : Tree) → Builds built t → IfOk result (λ u. u ≡ t) }
{
    match built {
        Ok(term) => Ok(term),
        Err(_) => Err(AllocError),
    }
}
