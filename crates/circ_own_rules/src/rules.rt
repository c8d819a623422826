//! Hypotheses as rules, found by the sides that they replace.
ghost use Rattle.std.specs.Prelude.{◌≡◌, ◌+◌, ◌<◌, ◌^◌, [], ◌∷◌, ◌++◌, length, OnOk, OnErr};
ghost use Rattle.std.specs.Prelude.{IfOk, map};
ghost use Rattle.circ_index.specs.Finding.{FindsFirst};
ghost use Rattle.circ_attempt.specs.Rules.{old_side, own_rule, lemma_of, or_no_rule};
ghost use Rattle.circ_plain_search.specs.Search.{is_nil};
ghost use Rattle.circ_own_rules.specs.Rules.{plain_rule, plain_rules};

use crate::reading::{lemma_of, own_rule};
use crate::rule::HypothesisRule;
use circ_index::RuleIndex;
use circ_term::{Subst, Term};
use circ_theory::{Goal, Theory};
use std::alloc::{AllocError, Global};
use std::marker::Model;

/// Hypotheses as rules, in their order, found by the sides that they replace. Contracts see the
/// list of the rules.
#[derive(Drop)]
pub struct HypothesisRules {
    alloc: Global,
    rules: Vec<HypothesisRule>,
    index: RuleIndex,
}

impl Model for HypothesisRules {
    ghost use Rattle.std.specs.Prelude.{List};
    ghost use Rattle.std.specs.Coded.{coded_list};
    ghost use Rattle.circ_attempt.specs.Rules.{HypothesisRule};
    ghost use Rattle.circ_own_rules.specs.Code.{hypothesis_rule_code};
    ghost use Rattle.circ_own_rules.specs.Rules.{plain_rules, AreRules};

    ghost Value = { List HypothesisRule };

    ghost coded = { coded_list hypothesis_rule_code };

    ghost view = { λ a. plain_rules a.rules.items };

    ghost invariant = { λ a. AreRules (plain_rules a.rules.items) a.index };
}

impl HypothesisRules {
    /// No rules.
    pub fn new(alloc: Global) -> HypothesisRules
        ensures { result ≡ [] }
    {
        HypothesisRules {
            alloc,
            rules: Vec::new(alloc),
            index: RuleIndex::new(alloc),
        }
    }

    /// Whether there are none.
    pub fn is_empty(&self) -> bool
        ensures { result ≡ is_nil self.now }
    {
        self.rules.is_empty()
    }

    /// Puts a hypothesis of the block last, as it is read, where it is a rule. If it runs out of
    /// memory the rules are as before.
    pub fn push_own(&mut self, number: u32, of_script: bool, goal: &Goal) -> Result<(), AllocError>
        requires few { length self.old + 1 < 2 ^ 32 }
        ensures added { OnOk result
            (self.new ≡ self.old ++ or_no_rule (own_rule number of_script goal.now) []) }
        ensures err { OnErr result (self.new ≡ self.old) }
    {
        match own_rule(self.alloc, number, of_script, goal)? {
            None => Ok(()),
            Some(rule) => self.push(rule),
        }
    }

    /// Puts a goal of an earlier block last, as it is read, where it is hidden and a rule. If it
    /// runs out of memory the rules are as before.
    pub fn push_lemma(
        &mut self,
        theory: &Theory,
        number: u32,
        goal: &Goal,
    ) -> Result<(), AllocError>
        requires few { length self.old + 1 < 2 ^ 32 }
        ensures added { OnOk result
            (self.new ≡ self.old ++ or_no_rule (lemma_of theory.now number goal.now) []) }
        ensures err { OnErr result (self.new ≡ self.old) }
    {
        match lemma_of(self.alloc, theory, number, goal)? {
            None => Ok(()),
            Some(rule) => self.push(rule),
        }
    }

    // Puts a rule last. If it runs out of memory the rules are as before.
    fn push(&mut self, rule: HypothesisRule) -> Result<(), AllocError>
        requires few { length self.old + 1 < 2 ^ 32 }
        ensures added { OnOk result (self.new ≡ self.old ++ plain_rule rule ∷ []) }
        ensures err { OnErr result (self.new ≡ self.old) }
    {
        self.rules.reserve(1)?;
        self.index.add(rule.old_side())?;
        self.rules.push_reserved(rule);
        Ok(())
    }

    // The first at or behind a place that has the term as an instance of the side that it replaces,
    // with the substitution.
    pub(crate) fn first(&self, from: u32, term: &Term) -> Result<Option<(u32, Subst)>, AllocError>
        ensures found { IfOk result (FindsFirst (map old_side self.now) from term.now) }
        ensures few { length self.now < 2 ^ 32 }
    {
        self.index.first(from, term)
    }

    // The rules, in their order.
    pub(crate) fn rules(&self) -> &[HypothesisRule]
        ensures { plain_rules result.now ≡ self.now }
    {
        self.rules.as_slice()
    }
}
