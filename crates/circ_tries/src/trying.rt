//! Normal forms by rules that are tried, one after the other.
ghost use Rattle.std.specs.Prelude.{◌≡◌, ◌≤◌, ◌<◌, ◌+◌, ◌^◌, List, [], ◌∷◌, ◌++◌, length, map, IfOk};
ghost use Rattle.std.specs.Prelude.{OnOk, OnErr};
ghost use Rattle.std.specs.List.{AllByRecursion};
ghost use Rattle.circ_term.specs.Tree.{Tree};
ghost use Rattle.circ_theory.specs.Pairs.{plain_pair};
ghost use Rattle.circ_rewrite.specs.Due.{IsRewriteRule};
ghost use Rattle.circ_rewrite.specs.Plain.{Answers};
ghost use Rattle.circ_nodes.specs.Built.{AreBuilt};
ghost use Rattle.circ_due.specs.Chosen.{IsReady};
ghost use Rattle.circ_conditional_norm.specs.Norm.{conditional_norm};
ghost use Rattle.circ_memo.specs.Value.{AnswersValue};
ghost use Rattle.circ_tries.specs.Store.{IsStore};
ghost use Rattle.circ_tries.specs.Trying.{norm_by};

use crate::settling::settle_whole;
use crate::store::Store;
use circ_due::Means;
use circ_rewrite::{Normal, RewriteFault, Rule};
use circ_term::Term;
use circ_theory::{Pair, Theory};
use std::alloc::{AllocError, Global};
use std::marker::Model;
use std::mem;

// What terms are rewritten by, and which of them are known to be normal. Contracts see a theory,
// rules and assumptions.
#[derive(Drop)]
pub(crate) struct Trying<'a> {
    work: Box<Work<'a>>,
}

#[derive(Drop)]
struct Work<'a> {
    means: Means<'a>,
    store: Store,
}

impl<'a> Model for Trying<'a> {
    ghost use Rattle.circ_memo.specs.Value.{Rewriting, rewriting_code};

    ghost Value = { Rewriting };

    ghost coded = { rewriting_code };

    ghost use Rattle.circ_memo.specs.Working.{rewriting};
    ghost use Rattle.circ_tries.specs.Store.{IsStore};

    ghost view = { λ a. rewriting a.work.value.means };

    ghost invariant = { λ a. IsStore a.work.value.means a.work.value.store };
}

impl Work<'_> {
    // Forgets what is known of terms, and the assumptions, and gives back what they took.
    fn forget(&mut self)
        ensures ready { (old new : List Tree) → IsReady old self.old.means
            → IsReady new self.new.means }
        ensures theory { self.new.means.theory.now ≡ self.old.means.theory.now }
        ensures rules { self.new.means.rules.items ≡ self.old.means.rules.items }
        ensures assumptions { self.new.means.assumptions ≡ [] }
        ensures still { self.new.store.still.items ≡ [] }
        ensures terms { (nodes : List Tree) → AreBuilt nodes self.new.store.terms }
    {
        self.means.forget();
        let empty = Store::new(self.store.alloc);
        drop(mem::replace(&mut self.store, empty));
    }
}

impl<'a> Trying<'a> {
    // By a theory's marked operators and these rules, with no assumptions.
    pub(crate) fn new(
        alloc: Global,
        theory: &'a Theory,
        rules: Vec<Rule>,
    ) -> Result<Trying<'a>, AllocError>
        requires rules { AllByRecursion IsRewriteRule rules.items }
        requires few { length rules.items < 2 ^ 32 }
        ensures { IfOk result (λ r. r ≡ record {
          theory = theory.now;
          rules = rules.items;
          assumptions = [];
        }) }
    {
        let means = Means::new(alloc, theory, rules)?;
        let store = Store::new(alloc);
        Ok(Trying {
            work: Box::new(alloc, Work { means, store })?,
        })
    }

    // The rules, in their order.
    pub(crate) fn rules(&self) -> &[Rule]
        ensures rules { result.now ≡ self.now.rules }
        ensures rewrite { AllByRecursion IsRewriteRule result.now }
    {
        self.work.means.rules.as_slice()
    }

    // Forgets what is known of terms, and the assumptions, and gives back what they took.
    pub(crate) fn forget(&mut self)
        ensures { self.new ≡ record self.old { assumptions = [] } }
    {
        let work = &mut *self.work;
        work.forget();
    }

    // Puts a rule last, and forgets what is known of terms, and the assumptions. If it runs out of
    // memory the rules are as before.
    pub(crate) fn push(&mut self, rule: Rule) -> Result<(), AllocError>
        requires rewrite { IsRewriteRule rule }
        requires few { length self.old.rules + 1 < 2 ^ 32 }
        ensures added { OnOk result (self.new ≡ record self.old {
          rules = self.old.rules ++ rule ∷ [];
          assumptions = [];
        }) }
        ensures err { OnErr result (self.new ≡ record self.old { assumptions = [] }) }
    {
        let work = &mut *self.work;
        work.forget();
        work.means.push(rule)
    }

    // Puts these assumptions in place of those before. If it runs out of memory there are no
    // assumptions.
    pub(crate) fn assume(&mut self, assumptions: &[Pair]) -> Result<(), AllocError>
        requires { length assumptions.now < 2 ^ 32 }
        ensures theory { self.new.theory ≡ self.old.theory }
        ensures rules { self.new.rules ≡ self.old.rules }
        ensures assumptions { OnOk result (self.new.assumptions ≡ map plain_pair assumptions.now) }
        ensures forgotten { OnErr result (self.new.assumptions ≡ []) }
    {
        let work = &mut *self.work;
        work.store.still.truncate(0);
        work.means.assume(&mut work.store.nodes, assumptions)
    }

    // The normal form of a term with its traces, where so many tries stand around it.
    pub(crate) fn normal(
        &mut self,
        term: &Term,
        tries: u32,
        budget: &mut u64,
    ) -> Result<Normal, RewriteFault>
        requires tries { tries ≤ 8 }
        ensures exact { Answers result budget.new (conditional_norm tries
            self.old.theory.signature self.old.rules self.old.assumptions budget.old term.now) }
        ensures less { budget.new ≤ budget.old }
        ensures same { self.new ≡ self.old }
    {
        let work = &mut *self.work;
        normal_of(&work.means, &mut work.store, term, tries, budget)
    }

    // The same without its traces.
    pub(crate) fn value(
        &mut self,
        term: &Term,
        tries: u32,
        budget: &mut u64,
    ) -> Result<Term, RewriteFault>
        requires tries { tries ≤ 8 }
        ensures exact { AnswersValue result budget.new (conditional_norm tries
            self.old.theory.signature self.old.rules self.old.assumptions budget.old term.now) }
        ensures less { budget.new ≤ budget.old }
        ensures same { self.new ≡ self.old }
    {
        match self.normal(term, tries, budget) {
            Ok(normal) => Ok(normal.term),
            Err(fault) => Err(fault),
        }
    }
}

fn normal_of(
    means: &Means<'_>,
    store: &mut Store,
    term: &Term,
    tries: u32,
    budget: &mut u64,
) -> Result<Normal, RewriteFault>
    requires store { IsStore means.now store.old }
    requires tries { tries ≤ 8 }
    ensures store { IsStore means.now store.new }
    ensures less { budget.new ≤ budget.old }
    ensures exact { Answers result budget.new (norm_by means.now tries budget.old term.now) }
{
    let number = store.nodes.intern(term)?;
    let mut left = *budget;
    let settled = settle_whole(means, store, number, tries, &mut left);
    *budget = left;
    match settled {
        Err(fault) => Err(fault),
        Ok((value, traces)) => {
            let term = store.terms.term(&store.nodes, value)?;
            Ok(Normal { term, traces })
        }
    }
}
