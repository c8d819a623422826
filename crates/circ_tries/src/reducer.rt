//! Normal forms by the same rules, one after the other.
ghost use Rattle.std.specs.Prelude.{◌≡◌, ◌≤◌, ◌<◌, ◌+◌, ◌^◌, [], ◌∷◌, ◌++◌, length, map, IfOk};
ghost use Rattle.std.specs.Prelude.{OnOk, OnErr, IsTrue};
ghost use Rattle.std.specs.List.{AllByRecursion};
ghost use Rattle.circ_theory.specs.Pairs.{plain_pair};
ghost use Rattle.circ_rewrite.specs.Due.{IsRewriteRule, AreUnconditional};
ghost use Rattle.circ_rewrite.specs.Plain.{Answers};
ghost use Rattle.circ_conditional_norm.specs.Norm.{conditional_norm};
ghost use Rattle.circ_memo.specs.Value.{AnswersValue};

use crate::trying::Trying;
use circ_memo::Memo;
use circ_rewrite::{Normal, RewriteFault, Rule, share_rules};
use circ_term::Term;
use circ_theory::{Pair, Theory};
use std::alloc::{AllocError, Global};
use std::marker::Model;

/// What terms are rewritten by, and what is known of terms. Contracts see a theory, rules and
/// assumptions. Where no rule has conditions it is a [`Memo`].
#[derive(Drop)]
pub struct Reducer<'a> {
    alloc: Global,
    theory: &'a Theory,
    way: Way<'a>,
}

// By rules without conditions, or by rules of which some have conditions.
#[derive(Drop)]
enum Way<'a> {
    Plain(Memo<'a>),
    Tried(Trying<'a>),
}

impl<'a> Model for Reducer<'a> {
    ghost use Rattle.circ_memo.specs.Value.{Rewriting, rewriting_code};

    ghost Value = { Rewriting };

    ghost coded = { rewriting_code };

    ghost use Rattle.circ_tries.specs.Value.{rewriting_by, IsReducer};

    ghost view = { λ a. rewriting_by a.way };

    ghost invariant = { λ a. IsReducer a.theory.now a.way };
}

impl<'a> Reducer<'a> {
    /// By a theory's marked operators and these rules, with no assumptions.
    pub fn new(
        alloc: Global,
        theory: &'a Theory,
        rules: Vec<Rule>,
    ) -> Result<Reducer<'a>, AllocError>
        requires rules { AllByRecursion IsRewriteRule rules.items }
        requires few { length rules.items < 2 ^ 32 }
        ensures { IfOk result (λ r. r ≡ record {
          theory = theory.now;
          rules = rules.items;
          assumptions = [];
        }) }
    {
        if are_unconditional(rules.as_slice()) {
            let memo = Memo::new(alloc, theory, rules)?;
            return Ok(Reducer {
                alloc,
                theory,
                way: Way::Plain(memo),
            });
        }
        let trying = Trying::new(alloc, theory, rules)?;
        Ok(Reducer {
            alloc,
            theory,
            way: Way::Tried(trying),
        })
    }

    /// Forgets what is known of terms, and the assumptions, and gives back what they took.
    pub fn forget(&mut self)
        ensures { self.new ≡ record self.old { assumptions = [] } }
    {
        match &mut self.way {
            Way::Plain(memo) => memo.forget(),
            Way::Tried(trying) => trying.forget(),
        }
    }

    /// Puts a rule last, and forgets what is known of terms, and the assumptions. If it runs out of
    /// memory the rules are as before.
    pub fn push(&mut self, rule: Rule) -> Result<(), AllocError>
        requires rewrite { IsRewriteRule rule }
        requires few { length self.old.rules + 1 < 2 ^ 32 }
        ensures added { OnOk result (self.new ≡ record self.old {
          rules = self.old.rules ++ rule ∷ [];
          assumptions = [];
        }) }
        ensures err { OnErr result (self.new ≡ record self.old { assumptions = [] }) }
    {
        self.forget();
        let is_plain = rule.conds.len() == 0;
        match &mut self.way {
            Way::Tried(trying) => trying.push(rule),
            Way::Plain(memo) => {
                if is_plain {
                    memo.push(rule)
                } else {
                    self.try_with(rule)
                }
            }
        }
    }

    // Goes over to rules that are tried, with this one last.
    fn try_with(&mut self, rule: Rule) -> Result<(), AllocError>
        requires rewrite { IsRewriteRule rule }
        requires few { length self.old.rules + 1 < 2 ^ 32 }
        ensures added { OnOk result (self.new ≡ record self.old {
          rules = self.old.rules ++ rule ∷ [];
          assumptions = [];
        }) }
        ensures err { OnErr result (self.new ≡ self.old) }
    {
        let trying = tried_with(self.alloc, self.theory, self.rules(), rule)?;
        self.way = Way::Tried(trying);
        Ok(())
    }

    // The rules, in their order.
    fn rules(&self) -> &[Rule]
        ensures rules { result.now ≡ self.now.rules }
        ensures rewrite { AllByRecursion IsRewriteRule result.now }
    {
        match &self.way {
            Way::Plain(memo) => memo.rules(),
            Way::Tried(trying) => trying.rules(),
        }
    }

    /// Puts these assumptions in place of those before. If it runs out of memory there are no
    /// assumptions.
    pub fn assume(&mut self, assumptions: &[Pair]) -> Result<(), AllocError>
        requires { length assumptions.now < 2 ^ 32 }
        ensures theory { self.new.theory ≡ self.old.theory }
        ensures rules { self.new.rules ≡ self.old.rules }
        ensures assumptions { OnOk result (self.new.assumptions ≡ map plain_pair assumptions.now) }
        ensures forgotten { OnErr result (self.new.assumptions ≡ []) }
    {
        match &mut self.way {
            Way::Plain(memo) => memo.assume(assumptions),
            Way::Tried(trying) => trying.assume(assumptions),
        }
    }

    /// The normal form of a term, without its traces, where so many tries stand around it. The
    /// budget falls by one for each replacement and for each try, whether it is made or known.
    /// After a limit is passed it holds what was left, and where memory ran out no more than
    /// before.
    pub fn value(&mut self, term: &Term, tries: u32, budget: &mut u64) -> Result<Term, RewriteFault>
        requires tries { tries ≤ 8 }
        ensures exact { AnswersValue result budget.new (conditional_norm tries
            self.old.theory.signature self.old.rules self.old.assumptions budget.old term.now) }
        ensures less { budget.new ≤ budget.old }
        ensures same { self.new ≡ self.old }
    {
        match &mut self.way {
            Way::Plain(memo) => memo.value(term, budget),
            Way::Tried(trying) => trying.value(term, tries, budget),
        }
    }

    /// The normal form of a term with its traces, as [`normalise`](crate::normalise) gives it. The
    /// budget falls by one for each replacement and for each try, whether it is made or known.
    /// After a limit is passed it holds what was left, and where memory ran out no more than
    /// before.
    pub fn normal(
        &mut self,
        term: &Term,
        tries: u32,
        budget: &mut u64,
    ) -> Result<Normal, RewriteFault>
        requires tries { tries ≤ 8 }
        ensures exact { Answers result budget.new (conditional_norm tries
            self.old.theory.signature self.old.rules self.old.assumptions budget.old term.now) }
        ensures less { budget.new ≤ budget.old }
        ensures same { self.new ≡ self.old }
    {
        match &mut self.way {
            Way::Plain(memo) => memo.normal(term, budget),
            Way::Tried(trying) => trying.normal(term, tries, budget),
        }
    }
}

// By these rules and one more.
fn tried_with<'a>(
    alloc: Global,
    theory: &'a Theory,
    rules: &[Rule],
    rule: Rule,
) -> Result<Trying<'a>, AllocError>
    requires rules { AllByRecursion IsRewriteRule rules.now }
    requires rule { IsRewriteRule rule }
    requires few { length rules.now + 1 < 2 ^ 32 }
    ensures { IfOk result (λ t. t ≡ record {
      theory = theory.now;
      rules = rules.now ++ rule ∷ [];
      assumptions = [];
    }) }
{
    let mut all = share_rules(alloc, rules)?;
    all.push(rule)?;
    Trying::new(alloc, theory, all)
}

// Whether no rule has conditions.
fn are_unconditional(rules: &[Rule]) -> bool
    ensures { IsTrue result → AreUnconditional rules.now }
{
    for rule in rules {
        if rule.conds.len() != 0 {
            return false;
        }
    }
    true
}
