//! The calls that add parts to a theory.
ghost use Rattle.std.specs.Prelude.{◌≡◌, ◌≤◌, ◌<◌, ◌^◌, ℕ, List, [], ◌∷◌, ◌++◌, nat_eq, None};
ghost use Rattle.std.specs.Prelude.{if◌then◌else◌, IfOk, IfErr, OnOk, OnErr, length, map, true, unwrap_or};
ghost use Rattle.std.specs.Prelude.{vec_len, vec_capacity};
ghost use Rattle.std.specs.Cmp.Lexicographic.{pointwise};
ghost use Rattle.indexmap.specs.IndexMap.{spare, insert_entry};
ghost use Rattle.indexmap.specs.IndexSet.{insert_key};
ghost use Rattle.std.specs.List.{Contains, list_any, position, slice_get};
ghost use Rattle.circ_form.specs.Form.{first_word};
ghost use Rattle.circ_theory.specs.Signature.{IsSort, IsWellSorted};
ghost use Rattle.circ_theory.specs.Theory.{Declared, declared, IsWellSortedPair};
ghost use Rattle.circ_theory.specs.Theory.{AreWellSortedPairs};
ghost use Rattle.circ_pairs.specs.Pair.{pair_with};
ghost use Rattle.circ_pairs.specs.Goal.{goal};
ghost use Rattle.circ_pairs.specs.Pairs.{plain_pair};
ghost use Rattle.circ_pairs.specs.Pair.{has_condition_of};
ghost use Rattle.circ_pairs.specs.Variables.{IsInOrder, sorts_of};
ghost use Rattle.circ_theory.specs.Operators.{operator_of};
ghost use Rattle.circ_theory.specs.Adding.{Numbers, sort_fault, op_fault, equation_fault};
ghost use Rattle.circ_theory.specs.Adding.{var_number, var_fault, with_sort, with_var, with_op};
ghost use Rattle.circ_theory.specs.Adding.{with_equation, IsFaultOf};
ghost use Rattle.circ_pairs.specs.Rule.{is_bound};
ghost use Rattle.circ_theory.specs.Inside.{IsNoted, IsKeptSo, is_same_key};
ghost use Rattle.circ_pairs.specs.Slots.{AreParametersInOrder};
ghost use Rattle.circ_theory.specs.Observing.{derivative_fault};
ghost use Rattle.circ_theory.specs.Observing.{with_derivative, cases_fault, with_cases};

use super::{Listed, Observer, OpKey, Theory, Vars};
use crate::MOST_SORTS;
use crate::adding::{count_fault, is_rule_with, note_word};
use crate::fault::TheoryFault;
use crate::overloads::{Overloads, first_sort};
use crate::parts::OpDecl;
use circ_pairs::{Equation, EquationVariables, Pair, Pairs, equation_variables, first_repeated};
use circ_term::Term;
use indexmap::{IndexMap, IndexSet};
use std::alloc::{AllocError, Global};
use std::mem::replace;

impl Theory {
    /// Adds a sort, and answers its number. `Twice` carries the number of the sort that has the
    /// name.
    pub fn add_sort(&mut self, name: &[u8]) -> Result<u32, TheoryFault>
        ensures number { Numbers result (sort_fault self.old name.now)
            (length self.old.signature.sorts) }
        ensures added { OnOk result (self.new ≡ with_sort self.old name.now) }
        ensures err { OnErr result (self.new ≡ self.old) }
    {
        if let Some(number) = self.sort_named(name) {
            return Err(TheoryFault::Twice { number });
        }
        let number = self.sort_count();
        if let Some(fault) = count_fault(number, MOST_SORTS) {
            return Err(fault);
        }
        put_name(self.alloc, &mut self.parts.sorts, name)?;
        Ok(number)
    }

    /// Declares a variable, and answers its number. A name that is declared with this sort already
    /// keeps its number; `Twice` carries the number of the variable that has the name and another
    /// sort.
    pub fn add_var(&mut self, name: &[u8], sort: u32) -> Result<u32, TheoryFault>
        ensures number { Numbers result (var_fault self.old name.now sort)
            (unwrap_or (var_number self.old name.now) (length self.old.variables)) }
        ensures added { OnOk result (self.new ≡ with_var self.old name.now sort) }
        ensures err { OnErr result (self.new ≡ self.old) }
    {
        if let Some(number) = self.var_named(name) {
            return self.same_var(number, sort);
        }
        if let Some(fault) = self.new_var_fault(sort) {
            return Err(fault);
        }
        let number = self.var_count();
        put_var(self.alloc, &mut self.parts.vars, name, sort)?;
        Ok(number)
    }

    /// Adds an operator, and answers its number. `Twice` carries the number of the operator that
    /// has the form and the argument sorts, `UnknownSort` the first sort that does not exist,
    /// arguments first, and `IllSorted` the number that the operator would get: its holes are not
    /// as many as its arguments, or a mark stands on an operator that is not binary over one sort.
    pub fn add_op(&mut self, decl: OpDecl) -> Result<u32, TheoryFault>
        ensures number { Numbers result (op_fault self.old (operator_of decl))
            (length self.old.signature.ops) }
        ensures added { OnOk result (self.new ≡ with_op self.old (operator_of decl)) }
        ensures err { OnErr result (self.new ≡ self.old) }
    {
        let number = self.op_count();
        let key = self.new_key(&decl)?;
        let parts = &mut *self.parts;
        add_entry(
            self.alloc,
            &mut parts.ops,
            &mut parts.by_word,
            key,
            decl,
            number,
        )?;
        Ok(number)
    }

    /// Adds an equation, and answers its number.
    pub fn add_equation(
        &mut self,
        left: Term,
        right: Term,
        conds: Pairs,
        exec: bool,
    ) -> Result<u32, TheoryFault>
        requires sorted { IsWellSortedPair self.old.signature (pair_with left right) }
        requires conds_sorted { AreWellSortedPairs self.old.signature conds }
        requires in_order { IsInOrder (goal conds left right) }
        ensures number { Numbers result (equation_fault self.old conds)
            (length self.old.equations) }
        ensures added { OnOk result (self.new ≡ with_equation self.old
            (record { left = left; right = right; conds = conds; exec = exec })) }
        ensures err { OnErr result (self.new ≡ self.old) }
    {
        let number = self.equation_count();
        let variables = self.new_variables(&left, &right, &conds)?;
        let rule = is_rule_with(exec, &left, variables.bound);
        let listed = Listed {
            equation: Equation {
                left,
                right,
                conds,
                exec,
            },
            sorts: variables.sorts,
            rule,
        };
        let parts = &mut *self.parts;
        put_listed(&mut parts.condition_sorts, &mut parts.equations, listed)?;
        Ok(number)
    }

    /// Adds a derivative, and answers its number. Its hole is variable 0 and the others are its
    /// parameters. `NotLinear` carries the least parameter that occurs twice, `HoleCount` how often
    /// variables numbered 0 occur, where that is not once, and `NowHidden` the hole's sort, which
    /// has a case list.
    pub fn add_derivative(&mut self, term: Term) -> Result<u32, TheoryFault>
        requires sorted { IsWellSorted self.old.signature term }
        requires in_order { AreParametersInOrder term }
        ensures number { Numbers result (derivative_fault self.old term)
            (length self.old.derivatives) }
        ensures added { OnOk result (self.new ≡ with_derivative self.old term) }
        ensures err { OnErr result (self.new ≡ self.old) }
    {
        let number = self.derivative_count();
        let (hole, sorts) = self.hole_and_params(&term)?;
        let parts = &mut *self.parts;
        let observer = Observer { term, hole, sorts };
        add_observer(&mut parts.derivatives, &mut parts.hidden, observer)?;
        Ok(number)
    }

    /// Adds the case list of a sort, and answers its number. `Twice` carries the sort, where it has
    /// a list, or else the first operator that is listed again later, and `IllSorted` the first
    /// that is no constant of the sort.
    pub fn add_cases(&mut self, sort: u32, constants: Vec<u32>) -> Result<u32, TheoryFault>
        ensures number { Numbers result (cases_fault self.old sort constants.items)
            (length self.old.cases) }
        ensures added { OnOk result (self.new ≡ with_cases self.old sort constants.items) }
        ensures err { OnErr result (self.new ≡ self.old) }
    {
        let number = self.new_cases(sort, constants.as_slice())?;
        put_cases(&mut self.parts.cases, sort, constants)?;
        Ok(number)
    }

    /// Sets the declared variables aside. The theory has none then.
    pub fn take_vars(&mut self) -> Vars
        ensures taken { result ≡ self.old.variables }
        ensures left { self.new ≡ record self.old { variables = [] } }
    {
        let empty = IndexMap::new(self.alloc);
        Vars {
            vars: replace(&mut self.parts.vars, empty),
        }
    }

    /// Puts variables that were set aside in the place of the declared ones.
    pub fn put_vars(&mut self, vars: Vars)
        requires { (d : Declared) → Contains vars d → IsSort self.old.signature d.sort }
        ensures { self.new ≡ record self.old { variables = vars } }
    {
        self.parts.vars = vars.vars;
    }

    // The variables of an equation that can be added.
    fn new_variables(
        &self,
        left: &Term,
        right: &Term,
        conds: &Pairs,
    ) -> Result<EquationVariables, TheoryFault>
        requires { IsInOrder (goal conds.now left.now right.now) }
        ensures fault { IfErr result (λ f. IsFaultOf f (equation_fault self.now conds.now)) }
        ensures new { IfOk result (λ _. equation_fault self.now conds.now ≡ None) }
        ensures sorts { IfOk result (λ v. v.sorts.items ≡
            sorts_of (goal conds.now left.now right.now)) }
        ensures few { IfOk result (λ v. length v.sorts.items ≤ 2 ^ 32) }
        ensures bound { IfOk result (λ v. v.bound ≡ is_bound
            (goal conds.now left.now right.now)) }
    {
        match self.equation_fault(conds) {
            Some(fault) => Err(fault),
            None => Ok(equation_variables(self.alloc, left, right, conds)?),
        }
    }

    // The number that a case list gets that can be added.
    fn new_cases(&self, sort: u32, constants: &[u32]) -> Result<u32, TheoryFault>
        ensures number { Numbers result (cases_fault self.now sort constants.now)
            (length self.now.cases) }
    {
        let repeated = first_repeated(self.alloc, constants)?;
        match self.cases_fault(repeated, sort, constants) {
            Some(fault) => Err(fault),
            None => Ok(self.case_count()),
        }
    }

    fn case_count(&self) -> u32
        ensures { result ≡ length self.now.cases }
    {
        self.parts.cases.len() as u32
    }
}

// Keeps a name that is new.
fn put_name(alloc: Global, sorts: &mut IndexSet<Vec<u8>>, name: &[u8]) -> Result<(), AllocError>
    requires { position (pointwise nat_eq name.now) (map (λ k. k.items) sorts.old.keys) ≡ None }
    ensures put { OnOk result (map (λ k. k.items) sorts.new.keys ≡
        map (λ k. k.items) sorts.old.keys ++ name.now ∷ []) }
    ensures err { OnErr result (sorts.new.keys ≡ sorts.old.keys) }
{
    let copy = Vec::from_slice(alloc, name)?;
    sorts.insert(copy)?;
    Ok(())
}

// Keeps a variable whose name is new.
fn put_var(
    alloc: Global,
    vars: &mut IndexMap<Vec<u8>, u32>,
    name: &[u8],
    sort: u32,
) -> Result<(), AllocError>
    requires { position (λ d. pointwise nat_eq name.now d.name)
        (map (λ e. declared e.0.items e.1) vars.old.entries) ≡ None }
    ensures put { OnOk result (map (λ e. declared e.0.items e.1) vars.new.entries ≡
        map (λ e. declared e.0.items e.1) vars.old.entries ++ declared name.now sort ∷ []) }
    ensures err { OnErr result (vars.new.entries ≡ vars.old.entries) }
{
    let copy = Vec::from_slice(alloc, name)?;
    vars.insert(copy, sort)?;
    Ok(())
}

// Keeps the constants of a sort that has none.
fn put_cases(
    cases: &mut IndexMap<u32, Vec<u32>>,
    sort: u32,
    constants: Vec<u32>,
) -> Result<(), AllocError>
    ensures put { OnOk result (cases.new.entries ≡
        insert_entry nat_eq cases.old.entries sort constants) }
    ensures err { OnErr result (cases.new.entries ≡ cases.old.entries) }
{
    drop(cases.insert(sort, constants)?);
    Ok(())
}

// Keeps an operator under its key, and its number under the first word of its form and the sort of
// its first argument.
fn add_entry(
    alloc: Global,
    ops: &mut IndexMap<OpKey, OpDecl>,
    by_word: &mut IndexMap<Vec<u8>, Overloads>,
    key: OpKey,
    decl: OpDecl,
    number: u32,
) -> Result<(), AllocError>
    ensures put { OnOk result (ops.new.entries ≡ insert_entry is_same_key ops.old.entries key decl) }
    ensures noted { OnOk result (IsNoted by_word.old.entries by_word.new.entries
        (first_word decl.form) (slice_get decl.args.items 0) number) }
    ensures err_ops { OnErr result (ops.new.entries ≡ ops.old.entries) }
    ensures err { OnErr result (IsKeptSo by_word.old.entries by_word.new.entries) }
{
    let word = decl.form.first_word();
    let sort = first_sort(decl.args.as_slice());
    match note_op(alloc, ops, by_word, word, sort, number) {
        Ok(()) => {
            put_op(ops, key, decl);
            Ok(())
        }
        Err(fault) => {
            drop(key);
            drop(decl);
            Err(fault)
        }
    }
}

// Makes room for an operator, and keeps its number under the first word of its form and the sort of
// its first argument.
fn note_op(
    alloc: Global,
    ops: &mut IndexMap<OpKey, OpDecl>,
    by_word: &mut IndexMap<Vec<u8>, Overloads>,
    word: &[u8],
    sort: Option<u32>,
    number: u32,
) -> Result<(), AllocError>
    ensures ops { ops.new.entries ≡ ops.old.entries }
    ensures room { OnOk result (0 < spare ops.new) }
    ensures noted { OnOk result (IsNoted by_word.old.entries by_word.new.entries word.now sort
        number) }
    ensures err { OnErr result (IsKeptSo by_word.old.entries by_word.new.entries) }
{
    ops.reserve(1)?;
    note_word(alloc, by_word, word, sort, number)
}

fn put_op(ops: &mut IndexMap<OpKey, OpDecl>, key: OpKey, decl: OpDecl)
    requires { 0 < spare ops.old }
    ensures { ops.new.entries ≡ insert_entry is_same_key ops.old.entries key decl }
{
    match ops.insert(key, decl) {
        Ok(_) => {}
        Err(_) => unreachable!(),
    }
}

// Keeps an equation, and the sorts of its conditions. After want of memory some of these are kept.
fn put_listed(
    kept: &mut IndexSet<u32>,
    equations: &mut Vec<Listed>,
    listed: Listed,
) -> Result<(), AllocError>
    ensures more { (s : ℕ) → list_any (nat_eq s) kept.old.keys ≡ true
        → list_any (nat_eq s) kept.new.keys ≡ true }
    ensures noted { OnOk result ((s : ℕ) → has_condition_of s listed.equation.conds ≡ true
        → list_any (nat_eq s) kept.new.keys ≡ true) }
    ensures put { OnOk result (equations.new.items ≡ equations.old.items ++ listed ∷ []) }
    ensures err { OnErr result (equations.new.items ≡ equations.old.items) }
{
    match note_sorts(kept, listed.equation.conds.as_slice()) {
        Ok(()) => {
            equations.push(listed)?;
            Ok(())
        }
        Err(fault) => {
            drop(listed);
            Err(fault)
        }
    }
}

// Keeps the sorts of conditions. After want of memory some of them are kept.
fn note_sorts(kept: &mut IndexSet<u32>, conds: &[Pair]) -> Result<(), AllocError>
    ensures more { (s : ℕ) → list_any (nat_eq s) kept.old.keys ≡ true
        → list_any (nat_eq s) kept.new.keys ≡ true }
    ensures noted { OnOk result ((s : ℕ) → has_condition_of s (map plain_pair conds.now) ≡ true
        → list_any (nat_eq s) kept.new.keys ≡ true) }
{
    for pair in conds {
        kept.insert(pair.left.sort())?;
    }
    Ok(())
}

// Keeps a derivative, and the sort of its hole.
fn add_observer(
    derivatives: &mut Vec<Observer>,
    hidden: &mut IndexSet<u32>,
    observer: Observer,
) -> Result<(), AllocError>
    ensures put { OnOk result (derivatives.new.items ≡ derivatives.old.items ++ observer ∷ []) }
    ensures noted { OnOk result (hidden.new.keys ≡
        insert_key nat_eq hidden.old.keys observer.hole) }
    ensures err_put { OnErr result (derivatives.new.items ≡ derivatives.old.items) }
    ensures err { OnErr result (hidden.new.keys ≡ hidden.old.keys) }
{
    match note_hole(derivatives, hidden, observer.hole) {
        Ok(()) => {
            put_observer(derivatives, observer);
            Ok(())
        }
        Err(fault) => {
            drop(observer);
            Err(fault)
        }
    }
}

// Makes room for a derivative, and keeps the sort of its hole.
fn note_hole(
    derivatives: &mut Vec<Observer>,
    hidden: &mut IndexSet<u32>,
    hole: u32,
) -> Result<(), AllocError>
    ensures derivatives { derivatives.new.items ≡ derivatives.old.items }
    ensures room { OnOk result (vec_len derivatives.new < vec_capacity derivatives.new) }
    ensures noted { OnOk result (hidden.new.keys ≡ insert_key nat_eq hidden.old.keys hole) }
    ensures err { OnErr result (hidden.new.keys ≡ hidden.old.keys) }
{
    derivatives.reserve(1)?;
    hidden.insert(hole)?;
    Ok(())
}

fn put_observer(derivatives: &mut Vec<Observer>, observer: Observer)
    requires { vec_len derivatives.old < vec_capacity derivatives.old }
    ensures { derivatives.new.items ≡ derivatives.old.items ++ observer ∷ [] }
{
    match derivatives.push(observer) {
        Ok(()) => {}
        Err(_) => unreachable!(),
    }
}
