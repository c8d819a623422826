//! Why a part is not added to a theory.
ghost use Rattle.std.specs.Prelude.{◌≡◌, ◌≤◌, IfOk, IfErr, None, not, find, length, map};
ghost use Rattle.std.specs.List.{list_any};
ghost use Rattle.circ_theory.specs.Operators.{operator_of};
ghost use Rattle.circ_theory.specs.Adding.{Numbers, IsFaultOf, op_fault, old_var_fault};
ghost use Rattle.circ_theory.specs.Adding.{new_var_fault, unknown_sort, equation_fault};
ghost use Rattle.circ_theory.specs.Adding.{hidden_condition};
ghost use Rattle.circ_pairs.specs.Pairs.{plain_pair};
ghost use Rattle.circ_pairs.specs.Pair.{has_condition_of};
ghost use Rattle.circ_theory.specs.Observing.{is_condition_sort};
ghost use Rattle.circ_pairs.specs.Slots.{holes_in, parameter_sorts_in, first_repeated};
ghost use Rattle.circ_theory.specs.Observing.{first_or_zero, slots_fault, derivative_fault};
ghost use Rattle.circ_theory.specs.Observing.{cases_fault, is_constant, no_constants};
ghost use Rattle.circ_theory.specs.Inside.{IsKeyOf};

use super::{Listed, OpKey, Theory};
use crate::adding::{count_fault, first_from, first_or_zero, is_ill_sorted, long_fault};
use crate::fault::TheoryFault;
use crate::parts::OpDecl;
use crate::{
    MOST_ARGS, MOST_CASES, MOST_CONDITIONS, MOST_DERIVATIVES, MOST_EQUATIONS, MOST_OPS,
    MOST_PARAMS, MOST_VARS,
};
use circ_pairs::{Pair, Pairs, Slots, first_repeated, has_condition_of, slots_of};
use circ_term::{MOST_NODES, Term};
use std::alloc::{AllocError, Global};

impl Theory {
    pub(super) fn same_var(&self, number: u32, sort: u32) -> Result<u32, TheoryFault>
        ensures { Numbers result (old_var_fault self.now sort number) number }
    {
        match self.var(number) {
            Some((_, declared)) if declared != sort => Err(TheoryFault::Twice { number }),
            _ => Ok(number),
        }
    }

    pub(super) fn new_var_fault(&self, sort: u32) -> Option<TheoryFault>
        ensures { result ≡ new_var_fault self.now sort }
    {
        if sort < self.sort_count() {
            count_fault(self.var_count(), MOST_VARS)
        } else {
            Some(TheoryFault::UnknownSort { number: sort })
        }
    }

    // The key of an operator that can be added.
    pub(super) fn new_key(&self, decl: &OpDecl) -> Result<OpKey, TheoryFault>
        ensures fault { IfErr result (λ f. IsFaultOf f (op_fault self.now (operator_of decl.now))) }
        ensures new { IfOk result (λ _. op_fault self.now (operator_of decl.now) ≡ None) }
        ensures key { IfOk result (λ k. IsKeyOf k (operator_of decl.now)) }
    {
        let key = key_of(self.alloc, decl)?;
        match self.op_fault(&key, decl) {
            Some(fault) => Err(fault),
            None => Ok(key),
        }
    }

    fn op_fault(&self, key: &OpKey, decl: &OpDecl) -> Option<TheoryFault>
        requires { IsKeyOf key.now (operator_of decl.now) }
        ensures { result ≡ op_fault self.now (operator_of decl.now) }
    {
        if let Some(number) = self.parts.ops.get_index_of(key) {
            return Some(TheoryFault::Twice {
                number: number as u32,
            });
        }
        if let Some(number) = self.unknown_sort(decl) {
            return Some(TheoryFault::UnknownSort { number });
        }
        let number = self.op_count();
        if is_ill_sorted(decl) {
            return Some(TheoryFault::IllSorted { operator: number });
        }
        if decl.args.len() > MOST_ARGS {
            return Some(TheoryFault::Limit {
                count: decl.args.len() as u64,
            });
        }
        count_fault(number, MOST_OPS)
    }

    fn unknown_sort(&self, decl: &OpDecl) -> Option<u32>
        ensures { result ≡ unknown_sort self.now.signature (operator_of decl.now) }
    {
        let count = self.sort_count();
        if let Some(sort) = first_from(count, decl.args.as_slice()) {
            return Some(sort);
        }
        if decl.result < count {
            None
        } else {
            Some(decl.result)
        }
    }

    // Why an equation with these conditions cannot be added.
    pub(super) fn equation_fault(&self, conds: &Pairs) -> Option<TheoryFault>
        ensures { result ≡ equation_fault self.now conds.now }
    {
        if let Some(sort) = self.hidden_condition(conds.as_slice()) {
            return Some(TheoryFault::NotVisible { sort });
        }
        if let Some(fault) = count_fault(self.equation_count(), MOST_EQUATIONS) {
            return Some(fault);
        }
        long_fault(conds.len(), MOST_CONDITIONS)
    }

    // The sort of the first condition of a hidden sort.
    fn hidden_condition(&self, conds: &[Pair]) -> Option<u32>
        ensures { result ≡ hidden_condition self.now (map plain_pair conds.now) }
    {
        for pair in conds {
            let sort = pair.left.sort();
            if self.is_hidden(sort) {
                return Some(sort);
            }
        }
        None
    }

    // Whether a condition of an equation is of this sort.
    fn is_condition_sort(&self, sort: u32) -> bool
        ensures { result ≡ is_condition_sort self.now sort }
    {
        if !self.parts.condition_sorts.contains(&sort) {
            return false;
        }
        has_conditions_of(sort, self.parts.equations.as_slice())
    }

    // The sort of the hole and the sorts of the parameters of a term that can be added as a
    // derivative.
    pub(super) fn hole_and_params(&self, term: &Term) -> Result<(u32, Vec<u32>), TheoryFault>
        ensures fault { IfErr result (λ f. IsFaultOf f (derivative_fault self.now term.now)) }
        ensures new { IfOk result (λ _. derivative_fault self.now term.now ≡ None) }
        ensures hole { IfOk result (λ r. r.0 ≡ first_or_zero (holes_in term.now)) }
        ensures sorts { IfOk result (λ r. r.1.items ≡ parameter_sorts_in term.now) }
    {
        term.known();
        let slots = slots_of(self.alloc, term)?;
        match self.new_slots(&slots) {
            Ok(hole) => Ok((hole, slots.sorts)),
            Err(fault) => {
                drop(slots);
                Err(fault)
            }
        }
    }

    // The sort of the hole of a term that can be added as a derivative, by its holes and parameters.
    fn new_slots(&self, slots: &Slots) -> Result<u32, TheoryFault>
        requires { length slots.now.holes.items ≤ MOST_NODES }
        ensures { Numbers result
            (slots_fault self.now (first_repeated slots.now.params.items) slots.now.holes.items
            (length slots.now.params.items))
            (first_or_zero slots.now.holes.items) }
    {
        let repeated = first_repeated(self.alloc, slots.params.as_slice())?;
        match self.derivative_fault(repeated, slots) {
            Some(fault) => Err(fault),
            None => Ok(first_or_zero(slots.holes.as_slice())),
        }
    }

    fn derivative_fault(&self, repeated: Option<u32>, slots: &Slots) -> Option<TheoryFault>
        requires { length slots.now.holes.items ≤ MOST_NODES }
        ensures { result ≡ slots_fault self.now repeated slots.now.holes.items
            (length slots.now.params.items) }
    {
        if let Some(variable) = repeated {
            return Some(TheoryFault::NotLinear { variable });
        }
        let [hole] = slots.holes.as_slice() else {
            return Some(TheoryFault::HoleCount {
                count: slots.holes.len() as u32,
            });
        };
        if self.cases(*hole).is_some() {
            return Some(TheoryFault::NowHidden { sort: *hole });
        }
        if self.is_condition_sort(*hole) {
            return Some(TheoryFault::NowHidden { sort: *hole });
        }
        if let Some(fault) = long_fault(slots.params.len(), MOST_PARAMS) {
            return Some(fault);
        }
        count_fault(self.derivative_count(), MOST_DERIVATIVES)
    }

    pub(super) fn cases_fault(
        &self,
        repeated: Option<u32>,
        sort: u32,
        constants: &[u32],
    ) -> Option<TheoryFault>
        requires { repeated ≡ first_repeated constants.now }
        ensures { result ≡ cases_fault self.now sort constants.now }
    {
        if self.cases(sort).is_some() {
            return Some(TheoryFault::Twice { number: sort });
        }
        if let Some(number) = repeated {
            return Some(TheoryFault::Twice { number });
        }
        if let Some(fault) = self.no_constants(sort, constants) {
            return Some(fault);
        }
        if self.is_hidden(sort) {
            return Some(TheoryFault::NotVisible { sort });
        }
        long_fault(constants.len(), MOST_CASES)
    }

    fn no_constants(&self, sort: u32, constants: &[u32]) -> Option<TheoryFault>
        ensures { result ≡ no_constants self.now sort constants.now }
    {
        if sort >= self.sort_count() {
            return Some(TheoryFault::UnknownSort { number: sort });
        }
        if let Some(operator) = self.first_other(sort, constants) {
            return Some(TheoryFault::IllSorted { operator });
        }
        if constants.is_empty() {
            return Some(TheoryFault::NoConstant);
        }
        None
    }

    // The first operator that is no constant of the sort.
    fn first_other(&self, sort: u32, constants: &[u32]) -> Option<u32>
        ensures { result ≡ find (λ c. not (is_constant self.now.signature sort c)) constants.now }
    {
        constants
            .iter()
            .copied()
            .find(|constant| !self.is_constant(sort, *constant))
    }

    fn is_constant(&self, sort: u32, op: u32) -> bool
        ensures { result ≡ is_constant self.now.signature sort op }
    {
        match self.op(op) {
            Some(decl) => decl.args.is_empty() && decl.result == sort,
            None => false,
        }
    }
}

// Whether one of the equations has a condition of this sort.
fn has_conditions_of(sort: u32, equations: &[Listed]) -> bool
    ensures { result ≡ list_any (λ l. has_condition_of sort l.equation.conds) equations.now }
{
    equations
        .iter()
        .any(|listed| has_condition_of(sort, &listed.equation.conds))
}

fn key_of(alloc: Global, decl: &OpDecl) -> Result<OpKey, AllocError>
    ensures { IfOk result (λ k. IsKeyOf k (operator_of decl.now)) }
{
    decl.form.known();
    Ok(OpKey {
        form: decl.form.spell(alloc)?,
        args: Vec::from_slice(alloc, decl.args.as_slice())?,
    })
}
