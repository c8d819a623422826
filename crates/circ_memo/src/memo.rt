//! A memo of normal forms.
ghost use Rattle.std.specs.Prelude.{◌≡◌, ◌+◌, ◌≤◌, ◌<◌, ◌^◌, [], ◌∷◌, ◌++◌, length};
ghost use Rattle.std.specs.Prelude.{IfOk, List, OnOk, OnErr, map};
ghost use Rattle.std.specs.List.{AllByRecursion};
ghost use Rattle.circ_term.specs.Tree.{Tree};
ghost use Rattle.circ_theory.specs.Pairs.{plain_pair};
ghost use Rattle.circ_rewrite.specs.Due.{IsRewriteRule, AreUnconditional};
ghost use Rattle.circ_rewrite.specs.Norm.{norm, run};
ghost use Rattle.circ_rewrite.specs.Plain.{Answers, plain_traces};
ghost use Rattle.circ_term.specs.Growing.{Grows};
ghost use Rattle.circ_nodes.specs.Built.{AreBuilt};
ghost use Rattle.circ_nodes.specs.Named.{IsNamed};
ghost use Rattle.circ_due.specs.Chosen.{IsReady, due_by};
ghost use Rattle.circ_memo.specs.Keeping.{IsForm, IsNumberKept};
ghost use Rattle.circ_memo.specs.Value.{AnswersValue, AnswersKept};
ghost use Rattle.circ_memo.specs.Working.{IsStore};

use crate::listing::list;
use crate::parts::{Bounds, Entry, Stop};
use crate::settling::settle;
use crate::store::Store;
use circ_due::Means;
use circ_nodes::Terms;
use circ_rewrite::{Normal, RewriteFault, Rule};
use circ_term::{MOST_DEPTH, MOST_NODES, Path, Term};
use circ_theory::{Pair, Theory};
use std::alloc::{AllocError, Global};
use std::marker::Model;
use std::mem;

/// What terms are rewritten by, and the normal forms that were found. Contracts see a theory, rules
/// and assumptions.
#[derive(Drop)]
pub struct Memo<'a> {
    work: Box<Work<'a>>,
}

#[derive(Drop)]
struct Work<'a> {
    means: Means<'a>,
    store: Store,
    terms: Terms,
}

impl<'a> Model for Memo<'a> {
    ghost use Rattle.circ_memo.specs.Keeping.{IsForm, IsNumberKept};
    ghost use Rattle.circ_memo.specs.Value.{Rewriting, rewriting_code};

    ghost Value = { Rewriting };

    ghost coded = { rewriting_code };

    ghost use Rattle.circ_memo.specs.Working.{rewriting, IsAtWork};

    ghost view = { λ a. rewriting a.work.value.means };

    ghost invariant = { λ a.
        IsAtWork a.work.value.means a.work.value.store a.work.value.terms };
}

impl Work<'_> {
    // Forgets all normal forms and assumptions, and gives back what they took.
    fn forget(&mut self)
        ensures ready { (old new : List Tree) → IsReady old self.old.means
            → IsReady new self.new.means }
        ensures theory { self.new.means.theory.now ≡ self.old.means.theory.now }
        ensures rules { self.new.means.rules.items ≡ self.old.means.rules.items }
        ensures assumptions { self.new.means.assumptions ≡ [] }
        ensures entries { self.new.store.entries ≡ [] }
        ensures terms { (nodes : List Tree) → AreBuilt nodes self.new.terms }
    {
        self.means.forget();
        let terms = Terms::new(self.store.alloc);
        drop(mem::replace(&mut self.terms, terms));
        let empty = Store::new(self.store.alloc);
        drop(mem::replace(&mut self.store, empty));
    }
}

impl<'a> Memo<'a> {
    /// A memo of nothing, by a theory's marked operators and these rules, which have no conditions,
    /// with no assumptions.
    pub fn new(alloc: Global, theory: &'a Theory, rules: Vec<Rule>) -> Result<Memo<'a>, AllocError>
        requires rules { AllByRecursion IsRewriteRule rules.items }
        requires unconditional { AreUnconditional rules.items }
        requires few { length rules.items < 2 ^ 32 }
        ensures { IfOk result (λ m. m ≡ record {
          theory = theory.now;
          rules = rules.items;
          assumptions = [];
        }) }
    {
        let means = Means::new(alloc, theory, rules)?;
        let store = Store::new(alloc);
        let terms = Terms::new(alloc);
        let work = Work {
            means,
            store,
            terms,
        };
        Ok(Memo {
            work: Box::new(alloc, work)?,
        })
    }

    /// The rules, in their order.
    pub fn rules(&self) -> &[Rule]
        ensures rules { result.now ≡ self.now.rules }
        ensures rewrite { AllByRecursion IsRewriteRule result.now }
        ensures few { length result.now < 2 ^ 32 }
    {
        self.work.means.rules.as_slice()
    }

    /// Forgets all normal forms and assumptions, and gives back what they took.
    pub fn forget(&mut self)
        ensures { self.new ≡ record self.old { assumptions = [] } }
    {
        let work = &mut *self.work;
        work.forget();
    }

    /// Puts a rule last, and forgets all normal forms and assumptions. If it runs out of memory the
    /// rules are as before.
    pub fn push(&mut self, rule: Rule) -> Result<(), AllocError>
        requires rewrite { IsRewriteRule rule }
        requires unconditional { rule.conds ≡ [] }
        requires few { length self.old.rules + 1 < 2 ^ 32 }
        ensures added { OnOk result (self.new ≡ record self.old {
          rules = self.old.rules ++ rule ∷ [];
          assumptions = [];
        }) }
        ensures err { OnErr result (self.new ≡ record self.old { assumptions = [] }) }
    {
        let work = &mut *self.work;
        work.forget();
        work.means.push(rule)
    }

    /// Puts these assumptions in place of those before, and forgets all normal forms. If it runs
    /// out of memory there are no assumptions.
    pub fn assume(&mut self, assumptions: &[Pair]) -> Result<(), AllocError>
        requires { length assumptions.now < 2 ^ 32 }
        ensures theory { self.new.theory ≡ self.old.theory }
        ensures rules { self.new.rules ≡ self.old.rules }
        ensures assumptions { OnOk result (self.new.assumptions ≡ map plain_pair assumptions.now) }
        ensures forgotten { OnErr result (self.new.assumptions ≡ []) }
    {
        let work = &mut *self.work;
        work.store.entries.clear();
        work.means.assume(&mut work.store.nodes, assumptions)
    }

    /// The normal form of a term, without its traces. The budget falls by one for each replacement,
    /// whether it is made or known. After a limit is passed it holds what was left, and where
    /// memory ran out no more than before.
    pub fn value(&mut self, term: &Term, budget: &mut u64) -> Result<Term, RewriteFault>
        ensures exact { AnswersValue result budget.new (norm self.old.theory.signature
            self.old.rules self.old.assumptions budget.old term.now) }
        ensures less { budget.new ≤ budget.old }
        ensures same { self.new ≡ self.old }
    {
        let work = &mut *self.work;
        match settle_term(&work.means, &mut work.store, term, budget) {
            Ok((_, entry)) => Ok(work.terms.term(&work.store.nodes, entry.value)?),
            Err(fault) => Err(fault),
        }
    }

    /// The normal form of a term with its traces, as [`normalise`](crate::normalise) gives it. The
    /// budget falls by one for each replacement, whether it is made or known. After a limit is
    /// passed it holds what was left, and where memory ran out no more than before.
    pub fn normal(&mut self, term: &Term, budget: &mut u64) -> Result<Normal, RewriteFault>
        ensures exact { Answers result budget.new (norm self.old.theory.signature
            self.old.rules self.old.assumptions budget.old term.now) }
        ensures less { budget.new ≤ budget.old }
        ensures same { self.new ≡ self.old }
    {
        let work = &mut *self.work;
        match settle_term(&work.means, &mut work.store, term, budget) {
            Ok((number, entry)) => {
                let terms = &mut work.terms;
                Ok(listed(&work.means, &work.store, terms, number, entry)?)
            }
            Err(fault) => Err(fault),
        }
    }
}

// The number of a whole term, and what is kept of it.
fn settle_term(
    means: &Means<'_>,
    store: &mut Store,
    term: &Term,
    budget: &mut u64,
) -> Result<(u32, Entry), RewriteFault>
    requires { IsStore means.now store.old }
    ensures store { IsStore means.now store.new }
    ensures grows { Grows store.old.nodes store.new.nodes }
    ensures less { budget.new ≤ budget.old }
    ensures exact { AnswersKept (due_by means.now) store.new.nodes store.new.entries term.now
        result budget.new (run (due_by means.now) budget.old term.now []) }
{
    let number = store.nodes.intern(term)?;
    let mut left = *budget;
    let kept = settle_number(means, store, number, &mut left);
    *budget = left;
    kept
}

// The same for a term that has a number.
fn settle_number(
    means: &Means<'_>,
    store: &mut Store,
    number: u32,
    budget: &mut u64,
) -> Result<(u32, Entry), RewriteFault>
    requires store { IsStore means.now store.old }
    requires there { number < length store.old.nodes }
    requires fits { budget.old < 2 ^ 64 }
    ensures store { IsStore means.now store.new }
    ensures grows { Grows store.old.nodes store.new.nodes }
    ensures less { budget.new ≤ budget.old }
    ensures exact { (t : Tree) → IsNamed store.old.nodes number t
        → AnswersKept (due_by means.now) store.new.nodes store.new.entries t
        result budget.new (run (due_by means.now) budget.old t []) }
{
    store.nodes.known_at(number);
    let bounds = Bounds {
        big: MOST_NODES,
        deep: MOST_DEPTH,
    };
    match settle(means, store, number, bounds, budget) {
        Ok(entry) => Ok((number, entry)),
        Err(Stop::Fault(fault)) => Err(fault),
        Err(Stop::Outgrows(_)) => unreachable!(),
    }
}

// What is kept of a whole term, with its traces.
fn listed(
    means: &Means<'_>,
    store: &Store,
    terms: &mut Terms,
    number: u32,
    entry: Entry,
) -> Result<Normal, AllocError>
    requires store { IsStore means.now store.now }
    requires kept { IsNumberKept store.now.entries number entry.count }
    requires value { entry.value < length store.now.nodes }
    requires built { AreBuilt store.now.nodes terms.old }
    ensures built { AreBuilt store.now.nodes terms.new }
    ensures listed { (t : Tree) → IsNamed store.now.nodes number t
        → (f : IsForm (due_by means.now) store.now.nodes t entry)
        → IfOk result (λ n. (n.term ≡ f.value) × (plain_traces n.traces.items ≡ f.traces)) }
{
    let mut path = Path::new(store.alloc);
    let mut traces = Vec::new(store.alloc);
    let done = list(means, store, number, terms, &mut path, &mut traces);
    drop(path);
    done?;
    Ok(Normal {
        term: terms.term(&store.nodes, entry.value)?,
        traces,
    })
}
