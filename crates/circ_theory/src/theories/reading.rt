//! The calls that read a theory's parts.
ghost use Rattle.std.specs.Prelude.{◌≡◌, ◌↔◌, ◌≤◌, ◌^◌, ◌==◌, false, IsTrue};
ghost use Rattle.std.specs.Prelude.{IfOk, IfSome, length};
ghost use Rattle.std.specs.List.{slice_get, list_any};
ghost use Rattle.std.specs.Option.{option_copied, option_map, option_map_or};
ghost use Rattle.circ_theory.specs.Limits.{sort_limit, variable_limit, operator_limit};
ghost use Rattle.circ_theory.specs.Limits.{equation_limit, derivative_limit};
ghost use Rattle.circ_pairs.specs.Goal.{goal_of};
ghost use Rattle.circ_theory.specs.Theory.{declared, IsHidden, HasNoConditions};
ghost use Rattle.circ_pairs.specs.Variables.{sorts_of};
ghost use Rattle.circ_theory.specs.Operators.{operator_of, ops_by_word, ops_by_word_and_sort};
ghost use Rattle.circ_theory.specs.Operators.{AreDifferentOperators};
ghost use Rattle.circ_theory.specs.Adding.{sort_number, var_number, op_of_form};
ghost use Rattle.circ_theory.specs.Names.{AreDifferent, names_of};
ghost use Rattle.circ_pairs.specs.Rule.{is_rule, is_conditional};
ghost use Rattle.circ_theory.specs.Observing.{derivative_with, cases_of, is_hidden};
ghost use Rattle.circ_pairs.specs.Slots.{parameter_sorts_in};
ghost use Rattle.circ_theory.specs.Fresh.{parameter_sorts};

use super::{Listed, Observer, OpKey, Theory};
use crate::parts::OpDecl;
use circ_form::Form;
use circ_pairs::Equation;
use circ_term::Term;
use std::alloc::AllocError;

impl Theory {
    /// The theory's name.
    pub fn name(&self) -> &[u8]
        ensures { result.now ≡ self.now.name }
    {
        self.parts.name.bytes()
    }

    /// The number of sorts, whose names are different.
    pub fn sort_count(&self) -> u32
        ensures count { result ≡ length self.now.signature.sorts }
        ensures few { result ≤ sort_limit }
        ensures different { AreDifferent self.now.signature.sorts }
    {
        self.parts.sorts.len() as u32
    }

    /// The name of a sort.
    pub fn sort_name(&self, n: u32) -> Option<&[u8]>
        ensures { option_copied result ≡ slice_get self.now.signature.sorts n }
    {
        match self.parts.sorts.get_index(n as usize) {
            Some(name) => Some(name.as_slice()),
            None => None,
        }
    }

    /// The number of the sort of a name.
    pub fn sort_named(&self, name: &[u8]) -> Option<u32>
        ensures { result ≡ sort_number self.now.signature name.now }
    {
        match self.parts.sorts.get_index_of(name) {
            Some(number) => Some(number as u32),
            None => None,
        }
    }

    /// The number of declared variables, whose names are different.
    pub fn var_count(&self) -> u32
        ensures count { result ≡ length self.now.variables }
        ensures few { result ≤ variable_limit }
        ensures different { AreDifferent (names_of self.now.variables) }
    {
        self.parts.vars.len() as u32
    }

    /// The name and the sort of a declared variable.
    pub fn var(&self, n: u32) -> Option<(&[u8], u32)>
        ensures { option_map (λ d. declared d.0.now d.1) result ≡
            slice_get self.now.variables n }
    {
        match self.parts.vars.get_index(n as usize) {
            Some((name, sort)) => Some((name.as_slice(), *sort)),
            None => None,
        }
    }

    /// The number of the declared variable of a name.
    pub fn var_named(&self, name: &[u8]) -> Option<u32>
        ensures { result ≡ var_number self.now name.now }
    {
        match self.parts.vars.get_index_of(name) {
            Some(number) => Some(number as u32),
            None => None,
        }
    }

    /// The number of operators, of which no two have one form and the same argument sorts.
    pub fn op_count(&self) -> u32
        ensures count { result ≡ length self.now.signature.ops }
        ensures few { result ≤ operator_limit }
        ensures different { AreDifferentOperators self.now.signature.ops }
    {
        self.parts.ops.len() as u32
    }

    /// The operator of a number.
    pub fn op(&self, n: u32) -> Option<&OpDecl>
        ensures { option_map (λ d. operator_of d.now) result ≡
            slice_get self.now.signature.ops n }
    {
        match self.parts.ops.get_index(n as usize) {
            Some((_, decl)) => Some(decl),
            None => None,
        }
    }

    /// The number of equations.
    pub fn equation_count(&self) -> u32
        ensures count { result ≡ length self.now.equations }
        ensures few { result ≤ equation_limit }
    {
        self.parts.equations.len() as u32
    }

    fn listed(&self, n: u32) -> Option<&Listed>
        ensures equation { option_map (λ l. l.now.equation) result ≡
            slice_get self.now.equations n }
        ensures sorts { IfSome result (λ l.
            l.now.sorts.items ≡ sorts_of (goal_of l.now.equation)) }
        ensures few { IfSome result (λ l. length l.now.sorts.items ≤ 2 ^ 32) }
        ensures rule { IfSome result (λ l. l.now.rule ≡ is_rule l.now.equation) }
    {
        self.parts.equations.get(n as usize)
    }

    /// The equation of a number.
    pub fn equation(&self, n: u32) -> Option<&Equation>
        ensures { option_copied result ≡ slice_get self.now.equations n }
    {
        match self.listed(n) {
            Some(listed) => Some(&listed.equation),
            None => None,
        }
    }

    /// Whether an equation has conditions. It looks at each of them in turn.
    pub fn has_conditions(&self) -> bool
        ensures { (result ≡ false) ↔ HasNoConditions self.now }
    {
        has_conditions(self.parts.equations.as_slice())
    }

    /// The sorts of an equation's variables, by the variables' numbers.
    pub fn equation_sorts(&self, n: u32) -> Option<&[u32]>
        ensures few { IfSome result (λ sorts. length sorts.now ≤ 2 ^ 32) }
        ensures exact { option_copied result ≡ option_map
            (λ e. sorts_of (goal_of e)) (slice_get self.now.equations n) }
    {
        match self.listed(n) {
            Some(listed) => Some(listed.sorts.as_slice()),
            None => None,
        }
    }

    /// Whether an equation is a rewrite rule: it may be used as one, its left side is no variable,
    /// and each variable of its right side and its conditions is in its left side. False where
    /// there is no such equation.
    pub fn is_rule(&self, equation: u32) -> bool
        ensures { result ≡ option_map_or is_rule (slice_get self.now.equations equation) false }
    {
        match self.listed(equation) {
            Some(listed) => listed.rule,
            None => false,
        }
    }

    /// The number of derivatives.
    pub fn derivative_count(&self) -> u32
        ensures count { result ≡ length self.now.derivatives }
        ensures few { result ≤ derivative_limit }
    {
        self.parts.derivatives.len() as u32
    }

    pub(super) fn observer(&self, n: u32) -> Option<&Observer>
        ensures derivative { option_map (λ o. derivative_with o.now.hole o.now.term) result ≡
            slice_get self.now.derivatives n }
        ensures sorts { IfSome result (λ o. o.now.sorts.items ≡ parameter_sorts_in o.now.term) }
    {
        self.parts.derivatives.get(n as usize)
    }

    /// The body of a derivative: a term in which variable 0 is the hole.
    pub fn derivative(&self, n: u32) -> Option<&Term>
        ensures { option_copied result ≡ option_map
            (λ d. d.body) (slice_get self.now.derivatives n) }
    {
        match self.observer(n) {
            Some(observer) => Some(&observer.term),
            None => None,
        }
    }

    /// The sort of a derivative's hole.
    pub fn hole_sort(&self, n: u32) -> Option<u32>
        ensures { result ≡ option_map (λ d. d.hole) (slice_get self.now.derivatives n) }
    {
        match self.observer(n) {
            Some(observer) => Some(observer.hole),
            None => None,
        }
    }

    /// Whether the derivative of this number takes terms of the sort: its hole has it.
    pub fn takes(&self, derivative: u32, sort: u32) -> bool
        ensures { result ≡ option_map_or (λ d. d.hole == sort)
            (slice_get self.now.derivatives derivative) false }
    {
        match self.hole_sort(derivative) {
            Some(hole) => hole == sort,
            None => false,
        }
    }

    /// The sorts of a derivative's parameters 1, 2 and so on.
    pub fn parameter_sorts(&self, derivative: u32) -> Option<&[u32]>
        ensures { option_copied result ≡ option_map parameter_sorts
            (slice_get self.now.derivatives derivative) }
    {
        match self.observer(derivative) {
            Some(observer) => Some(observer.sorts.as_slice()),
            None => None,
        }
    }

    /// Whether a sort is hidden: it is the sort of a derivative's hole. Takes the same time however
    /// many derivatives there are.
    pub fn is_hidden(&self, sort: u32) -> bool
        ensures exact { result ≡ is_hidden self.now sort }
        ensures hidden { IsTrue result ↔ IsHidden self.now sort }
    {
        self.parts.hidden.contains(&sort)
    }

    /// The constants of a sort that has a case list.
    pub fn cases(&self, sort: u32) -> Option<&[u32]>
        ensures { option_copied result ≡ cases_of self.now sort }
    {
        match self.parts.cases.get(&sort) {
            Some(constants) => Some(constants.as_slice()),
            None => None,
        }
    }

    /// The numbers, increasing, of the operators whose form has this as its first word. Costs one
    /// look-up.
    pub fn ops_by_word(&self, word: &[u8]) -> &[u32]
        ensures { result.now ≡ ops_by_word self.now.signature word.now }
    {
        match self.parts.by_word.get(word) {
            Some(overloads) => overloads.all(),
            None => &[],
        }
    }

    /// The numbers, increasing, of those of them whose first argument has this sort; with `None` of
    /// the constants. Costs two look-ups.
    pub fn ops_by_word_and_sort(&self, word: &[u8], first: Option<u32>) -> &[u32]
        ensures { result.now ≡ ops_by_word_and_sort self.now.signature word.now first }
    {
        match self.parts.by_word.get(word) {
            Some(overloads) => overloads.of_sort(first),
            None => &[],
        }
    }

    /// The number of the operator of this form and these argument sorts.
    pub fn op_named(&self, form: &Form, args: &[u32]) -> Result<Option<u32>, AllocError>
        ensures { IfOk result (λ o. o ≡ op_of_form self.now.signature form.now args.now) }
    {
        form.known();
        let key = OpKey {
            form: form.spell(self.alloc)?,
            args: Vec::from_slice(self.alloc, args)?,
        };
        let found = self.parts.ops.get_index_of(&key);
        drop(key);
        match found {
            Some(number) => Ok(Some(number as u32)),
            None => Ok(None),
        }
    }
}

// Whether one of the equations has a condition.
fn has_conditions(equations: &[Listed]) -> bool
    ensures { result ≡ list_any (λ l. is_conditional l.equation) equations.now }
{
    equations
        .iter()
        .any(|listed| listed.equation.conds.len() > 0)
}
