//! Lemmas, found by their left sides.
ghost use Rattle.std.specs.Prelude.{◌≡◌, ◌+◌, ◌<◌, ◌==◌, ◌^◌, [], ◌∷◌, ◌++◌, length, map};
ghost use Rattle.std.specs.Prelude.{IfOk, OnOk, OnErr};
ghost use Rattle.std.specs.List.{AllByRecursion};
ghost use Rattle.circ_index.specs.Finding.{FindsFirst};
ghost use Rattle.circ_rewrite.specs.Due.{IsRewriteRule};
ghost use Rattle.circ_plain_search.specs.Joining.{rule_number};
ghost use Rattle.circ_join.specs.Lemmas.{left_of};

use circ_index::RuleIndex;
use circ_rewrite::{Rule, RuleName};
use circ_term::{Subst, Term};
use std::alloc::{AllocError, Global};
use std::marker::Model;

/// Lemmas in their order, found by their left sides. Contracts see the list of the rules.
#[derive(Drop)]
pub struct Lemmas {
    rules: Vec<Rule>,
    index: RuleIndex,
}

impl Model for Lemmas {
    ghost use Rattle.std.specs.Prelude.{List};
    ghost use Rattle.std.specs.Coded.{coded_list};
    ghost use Rattle.circ_rewrite.specs.Code.{rule_code};
    ghost use Rattle.circ_rewrite.specs.declared.parts.Rule.{Rule as TheRule};
    ghost use Rattle.circ_join.specs.Lemmas.{AreLemmas};

    ghost Value = { List TheRule };

    ghost coded = { coded_list rule_code };

    ghost view = { λ a. a.rules.items };

    ghost invariant = { λ a. AreLemmas a.rules.items a.index };
}

impl Lemmas {
    /// No lemmas.
    pub fn new(alloc: Global) -> Lemmas
        ensures { result ≡ [] }
    {
        Lemmas {
            rules: Vec::new(alloc),
            index: RuleIndex::new(alloc),
        }
    }

    /// Puts a rule last. If it runs out of memory the lemmas are as before.
    pub fn push(&mut self, rule: Rule) -> Result<(), AllocError>
        requires rewrite { IsRewriteRule rule }
        requires few { length self.old + 1 < 2 ^ 32 }
        ensures added { OnOk result (self.new ≡ self.old ++ rule ∷ []) }
        ensures err { OnErr result (self.new ≡ self.old) }
    {
        self.rules.reserve(1)?;
        self.index.add(&rule.left)?;
        self.rules.push_reserved(rule);
        Ok(())
    }

    /// Whether there are none.
    pub fn is_empty(&self) -> bool
        ensures { result ≡ (length self.now == 0) }
    {
        self.rules.is_empty()
    }

    // The first at or behind a place that has the term as an instance of its left side, with the
    // substitution.
    pub(crate) fn first(&self, from: u32, term: &Term) -> Result<Option<(u32, Subst)>, AllocError>
        ensures found { IfOk result (FindsFirst (map left_of self.now) from term.now) }
        ensures few { length self.now < 2 ^ 32 }
    {
        self.index.first(from, term)
    }

    // The rules, in their order.
    pub(crate) fn rules(&self) -> &[Rule]
        ensures rules { result.now ≡ self.now }
        ensures rewrite { AllByRecursion IsRewriteRule result.now }
        ensures few { length result.now < 2 ^ 32 }
    {
        self.rules.as_slice()
    }
}

pub(crate) fn rule_number(name: RuleName) -> u32
    ensures { result ≡ rule_number name }
{
    match name {
        RuleName::Equation { number } => number,
        RuleName::Lemma { number } => number,
    }
}
