//! What is used to rewrite interned terms.
ghost use Rattle.std.specs.Prelude.{◌≡◌, ◌+◌, ◌<◌, ◌^◌, ℕ, List, [], ◌∷◌, ◌++◌, length};
ghost use Rattle.std.specs.Prelude.{map, IfOk, IfSome, OnOk, OnErr};
ghost use Rattle.std.specs.List.{AllByRecursion};
ghost use Rattle.circ_term.specs.Tree.{Tree};
ghost use Rattle.circ_term.specs.Growing.{Grows};
ghost use Rattle.circ_theory.specs.Pairs.{plain_pair};
ghost use Rattle.circ_nodes.specs.Built.{AreBuilt};
ghost use Rattle.circ_nodes.specs.Named.{IsNamed, Interns};
ghost use Rattle.circ_rewrite.specs.Due.{IsRewriteRule};
ghost use Rattle.circ_rewrite.specs.Plain.{plain_trace};
ghost use Rattle.circ_rewrite.specs.Standing.{HasSettledBelow};
ghost use Rattle.circ_rewrite.specs.Replacement.{Replacement, placed, traced};
ghost use Rattle.circ_due.specs.Chosen.{IsReady, IsChoice, IsChosen, Chooses};
ghost use Rattle.circ_due.specs.Chosen.{IsChosenOf, due_by, left_side};
ghost use Rattle.circ_index.specs.Indexed.{HasLefts};

use crate::assuming::{Assumed, assumed_at, kept, shared};
use crate::building::instance;
use crate::choice::Choice;
use crate::choosing::{choose_besides, choose_besides_above};
use crate::tracing::terms_given;
use circ_forms::canonical_form;
use circ_index::Finder;
use circ_nodes::{Nodes, Terms};
use circ_rewrite::{Rule, Trace};
use circ_term::{Path, TermFault};
use circ_theory::{Pair, Pairs, Theory};
use indexmap::IndexMap;
use std::alloc::{AllocError, Global};

/// A theory's marked operators, rules and assumptions, by which terms of one table are rewritten.
#[derive(Drop)]
pub struct Means<'a> {
    /// Where memory comes from.
    pub alloc: Global,
    /// The theory.
    pub theory: &'a Theory,
    /// The rules, in the order in which they are tried.
    pub rules: Vec<Rule>,
    /// The assumptions, which are tried first.
    pub assumptions: Pairs,
    // The rules by their left sides, and the assumptions by the numbers of theirs.
    pub(crate) finder: Finder,
    pub(crate) assumed: IndexMap<u32, Assumed>,
}

impl<'a> Means<'a> {
    /// These rules, and no assumptions.
    pub fn new(alloc: Global, theory: &'a Theory, rules: Vec<Rule>) -> Result<Means<'a>, AllocError>
        requires rewrite { AllByRecursion IsRewriteRule rules.items }
        requires few { length rules.items < 2 ^ 32 }
        ensures ready { (nodes : List Tree) → IfOk result (IsReady nodes) }
        ensures theory { IfOk result (λ m. m.theory.now ≡ theory.now) }
        ensures rules { IfOk result (λ m. m.rules.items ≡ rules.items) }
        ensures assumptions { IfOk result (λ m. m.assumptions ≡ []) }
    {
        let finder = finder_of(alloc, rules.as_slice())?;
        Ok(Means {
            alloc,
            theory,
            rules,
            assumptions: Pairs::new(alloc),
            finder,
            assumed: IndexMap::new(alloc),
        })
    }

    /// Puts a rule last. If it runs out of memory the rules are as
    /// before.
    pub fn push(&mut self, rule: Rule) -> Result<(), AllocError>
        requires ready { (nodes : List Tree) × IsReady nodes self.old }
        requires rewrite { IsRewriteRule rule }
        requires few { length self.old.rules.items + 1 < 2 ^ 32 }
        ensures ready { (nodes : List Tree) → IsReady nodes self.old → IsReady nodes self.new }
        ensures theory { self.new.theory.now ≡ self.old.theory.now }
        ensures rules { OnOk result (self.new.rules.items ≡ self.old.rules.items ++ rule ∷ []) }
        ensures assumptions { self.new.assumptions ≡ self.old.assumptions }
        ensures err { OnErr result (self.new.rules.items ≡ self.old.rules.items) }
    {
        self.rules.reserve(1)?;
        self.finder.add_left(&rule.left)?;
        self.rules.push_reserved(rule);
        Ok(())
    }

    /// Makes no assumptions any more. The means serve each table of terms then.
    pub fn forget(&mut self)
        ensures ready { (old new : List Tree) → IsReady old self.old → IsReady new self.new }
        ensures theory { self.new.theory.now ≡ self.old.theory.now }
        ensures rules { self.new.rules.items ≡ self.old.rules.items }
        ensures assumptions { self.new.assumptions ≡ [] }
    {
        self.assumptions = Pairs::new(self.alloc);
        self.assumed = IndexMap::new(self.alloc);
    }

    /// Puts these assumptions in place of those before. If it runs out of memory there are none.
    pub fn assume(&mut self, nodes: &mut Nodes, assumptions: &[Pair]) -> Result<(), AllocError>
        requires ready { IsReady nodes.old self.old }
        requires few { length assumptions.now < 2 ^ 32 }
        ensures ready { IsReady nodes.new self.new }
        ensures grows { Grows nodes.old nodes.new }
        ensures theory { self.new.theory.now ≡ self.old.theory.now }
        ensures rules { self.new.rules.items ≡ self.old.rules.items }
        ensures assumptions { IfOk result (λ _.
            self.new.assumptions ≡ map plain_pair assumptions.now) }
        ensures forgotten { OnErr result (self.new.assumptions ≡ []) }
    {
        self.forget();
        let pairs = shared(self.alloc, assumptions)?;
        let assumed = kept(self.alloc, nodes, assumptions)?;
        self.assumptions = pairs;
        self.assumed = assumed;
        Ok(())
    }

    /// What is due at the root of the term of this number.
    pub fn choose(&self, nodes: &Nodes, number: u32) -> Result<Option<Choice>, AllocError>
        requires ready { IsReady nodes.now self.now }
        requires there { number < length nodes.now }
        ensures { (t : Tree) → IsNamed nodes.now number t
            → IfOk result (Chooses nodes.now self.now t (due_by self.now t)) }
    {
        nodes.known();
        match assumed_at(&self.assumed, number) {
            Some(choice) => Ok(Some(choice)),
            None => choose_besides(self, nodes, number),
        }
    }

    /// The same of a term in whose arguments nothing is due. Whether it is its own canonical form
    /// is found by one comparison then.
    pub fn choose_above(&self, nodes: &Nodes, number: u32) -> Result<Option<Choice>, AllocError>
        requires ready { IsReady nodes.now self.now }
        requires there { number < length nodes.now }
        ensures chosen { (t : Tree) → IsNamed nodes.now number t
            → IfOk result (λ o. IfSome o (IsChosenOf nodes.now self.now t)) }
        ensures exact { (t : Tree) → IsNamed nodes.now number t
            → HasSettledBelow (due_by self.now) t
            → IfOk result (Chooses nodes.now self.now t (due_by self.now t)) }
    {
        nodes.known();
        match assumed_at(&self.assumed, number) {
            Some(choice) => Ok(Some(choice)),
            None => choose_besides_above(self, nodes, number),
        }
    }

    /// The number of the term that replaces the term of this number.
    pub fn build(&self, nodes: &mut Nodes, number: u32, choice: &Choice) -> Result<u32, TermFault>
        requires ready { IsReady nodes.old self.now }
        requires there { number < length nodes.old }
        requires chosen { IsChosen nodes.old self.now choice.now }
        ensures grows { Grows nodes.old nodes.new }
        ensures interns { (t : Tree) (r : Replacement) → IsNamed nodes.old number t
            → IsChoice nodes.old self.now t choice.now r → Interns nodes.new result r.new }
    {
        match choice {
            Choice::Assumed { right, .. } => {
                nodes.known_at(*right);
                Ok(*right)
            }
            Choice::Content { op } => canonical_form(self.alloc, self.theory, nodes, *op, number),
            Choice::Ruled { rule, given } => {
                let rule = &self.rules[*rule as usize];
                instance(self.alloc, nodes, given.as_slice(), &rule.right)
            }
        }
    }

    /// The trace of a replacement at a path in the whole term, by the new term's number. The terms
    /// in it are built, or shared if they were.
    pub fn trace(
        &self,
        nodes: &Nodes,
        terms: &mut Terms,
        choice: &Choice,
        path: &[u16],
        new: u32,
    ) -> Result<Trace, AllocError>
        requires ready { IsReady nodes.now self.now }
        requires there { new < length nodes.now }
        requires chosen { IsChosen nodes.now self.now choice.now }
        requires built { AreBuilt nodes.now terms.old }
        ensures built { AreBuilt nodes.now terms.new }
        ensures traced { (t : Tree) (r : Replacement) → IsNamed nodes.now new r.new
            → IsChoice nodes.now self.now t choice.now r
            → IfOk result (λ x. plain_trace x ≡ traced (placed path.now r)) }
    {
        let path = Path::from_slice(self.alloc, path)?;
        match choice {
            Choice::Assumed { number, .. } => Ok(Trace::Assumed {
                number: *number,
                path,
            }),
            Choice::Content { op } => Ok(Trace::Content {
                op: *op,
                path,
                term: terms.term(nodes, new)?,
            }),
            Choice::Ruled { rule, given } => Ok(Trace::Rewrite {
                name: self.rules[*rule as usize].name,
                path,
                terms: terms_given(self.alloc, nodes, terms, given.as_slice())?,
                conds: Vec::new(self.alloc),
            }),
        }
    }
}

// The rules by their left sides.
fn finder_of(alloc: Global, rules: &[Rule]) -> Result<Finder, AllocError>
    requires { length rules.now < 2 ^ 32 }
    ensures { IfOk result (λ x. HasLefts x (map left_side rules.now)) }
{
    let mut finder = Finder::new(alloc);
    for rule in rules {
        finder.add_left(&rule.left)?;
    }
    Ok(finder)
}
