//! The table of a proof, read line by line.
ghost use Rattle.std.specs.Prelude.{◌≡◌, ◌==◌, [], true, false, length, IfOk, OnOk};
ghost use Rattle.std.specs.Option.{option_map, option_map_or};
ghost use Rattle.circ_term.specs.Tree.{sort_of};
ghost use Rattle.circ_line.specs.Line.{Variable_line, Application_line};
ghost use Rattle.circ_line.specs.Plain.{plain_table_line};
ghost use Rattle.circ_proof_text.specs.TableText.{first_at, firsts_at};
ghost use Rattle.circ_file.specs.Adding.{terms_in, is_open, have_sorts, goal_for};
ghost use Rattle.circ_file.specs.Adding.{condition_for, AddsLine};
ghost use Rattle.circ_theory.specs.Pairs.{plain_pair};

use crate::checks::{is_condition, is_goal};
use crate::taken::Taken;
use circ_line::TableLine;
use circ_proof::MOST_TERMS;
use circ_table::{NamedTerms, OpenTable, Table};
use circ_term::TermFault;
use circ_theory::{Goal, Pair, Pairs, Theory};
use std::alloc::{AllocError, Global};
use std::mem;

/// The terms of the lines so far. While lines come it tells which numbers are least, so that no
/// terms are compared. When all have come it builds the terms that goals ask for.
#[derive(Drop)]
pub(crate) enum ReadTable {
    Open { rows: OpenTable },
    Closed { terms: NamedTerms },
}

impl ReadTable {
    /// The table of no lines.
    pub(crate) fn new(alloc: Global) -> ReadTable
        ensures terms { terms_in result ≡ [] }
        ensures state { is_open result ≡ true }
    {
        ReadTable::Open {
            rows: OpenTable::new(alloc),
        }
    }

    /// How many terms there are.
    pub(crate) fn len(&self) -> usize
        ensures { result ≡ length (terms_in self.now) }
    {
        match self {
            ReadTable::Open { rows } => rows.len(),
            ReadTable::Closed { terms } => terms.table().len(),
        }
    }

    /// Takes the term of a line, where the line has one that passes no limit.
    pub(crate) fn add(&mut self, theory: &Theory, line: &TableLine) -> Result<Taken, AllocError>
        requires { is_open self.old ≡ true }
        ensures added { IfOk result (λ taken. AddsLine theory.now.signature (terms_in self.old)
            (plain_table_line line.now) taken (terms_in self.new)) }
        ensures state { is_open self.new ≡ true }
    {
        match self {
            ReadTable::Open { rows } => add_line(rows, theory, line),
            ReadTable::Closed { .. } => unreachable!(),
        }
    }

    /// Takes an operator at the terms of these numbers, likewise.
    pub(crate) fn add_application(
        &mut self,
        theory: &Theory,
        op: u32,
        args: &[u32],
    ) -> Result<Taken, AllocError>
        requires { is_open self.old ≡ true }
        ensures added { IfOk result (λ taken. AddsLine theory.now.signature (terms_in self.old)
            (Application_line op args.now) taken (terms_in self.new)) }
        ensures state { is_open self.new ≡ true }
    {
        match self {
            ReadTable::Open { rows } => add_application(rows, theory, op, args),
            ReadTable::Closed { .. } => unreachable!(),
        }
    }

    /// The table, which takes no more lines. It is shared.
    pub(crate) fn close(&mut self, alloc: Global) -> Result<Table, AllocError>
        ensures table { IfOk result (λ t. t ≡ terms_in self.old) }
        ensures terms { OnOk result (terms_in self.new ≡ terms_in self.old) }
        ensures state { OnOk result (is_open self.new ≡ false) }
    {
        match self {
            ReadTable::Open { rows } => {
                let rows = mem::replace(rows, OpenTable::new(alloc));
                let table = rows.close()?;
                let shared = table.share()?;
                *self = ReadTable::Closed {
                    terms: NamedTerms::of(alloc, table),
                };
                Ok(shared)
            }
            ReadTable::Closed { terms } => terms.table().share(),
        }
    }

    /// The goal of two numbers, where both are in the table and their terms have one sort.
    pub(crate) fn goal(
        &mut self,
        alloc: Global,
        left: u32,
        right: u32,
    ) -> Result<Option<Goal>, AllocError>
        requires { is_open self.old ≡ false }
        ensures goal { IfOk result (λ o. o ≡ goal_for (terms_in self.old) left right) }
        ensures terms { terms_in self.new ≡ terms_in self.old }
        ensures state { is_open self.new ≡ false }
    {
        match self {
            ReadTable::Open { .. } => unreachable!(),
            ReadTable::Closed { terms } => goal_for(alloc, terms, left, right),
        }
    }

    /// The condition of two numbers, where both are in the table and their terms have one visible
    /// sort.
    pub(crate) fn condition(
        &mut self,
        theory: &Theory,
        left: u32,
        right: u32,
    ) -> Result<Option<Pair>, AllocError>
        requires { is_open self.old ≡ false }
        ensures pair { IfOk result (λ o. option_map plain_pair o ≡
            condition_for theory.now (terms_in self.old) left right) }
        ensures terms { terms_in self.new ≡ terms_in self.old }
        ensures state { is_open self.new ≡ false }
    {
        match self {
            ReadTable::Open { .. } => unreachable!(),
            ReadTable::Closed { terms } => condition_for(theory, terms, left, right),
        }
    }
}

fn condition_for(
    theory: &Theory,
    terms: &mut NamedTerms,
    left: u32,
    right: u32,
) -> Result<Option<Pair>, AllocError>
    ensures table { terms.new.0 ≡ terms.old.0 }
    ensures pair { IfOk result (λ o. option_map plain_pair o ≡
        condition_for theory.now terms.old.0 left right) }
{
    if !is_condition(theory, terms.table(), left, right) {
        return Ok(None);
    }
    let left = terms.term(left)?;
    let right = terms.term(right)?;
    Ok(Some(Pair { left, right }))
}

fn add_line(rows: &mut OpenTable, theory: &Theory, line: &TableLine) -> Result<Taken, AllocError>
    ensures { IfOk result (λ taken. AddsLine theory.now.signature rows.old
        (plain_table_line line.now) taken rows.new) }
{
    match line {
        TableLine::Variable { number, sort } => add_variable(rows, theory, *number, *sort),
        TableLine::Application { op, args } => add_application(rows, theory, *op, args.as_slice()),
    }
}

fn add_variable(
    rows: &mut OpenTable,
    theory: &Theory,
    number: u32,
    sort: u32,
) -> Result<Taken, AllocError>
    ensures { IfOk result (λ taken. AddsLine theory.now.signature rows.old
        (Variable_line number sort) taken rows.new) }
{
    if sort >= theory.sort_count() {
        return Ok(Taken::Line);
    }
    if rows.len() >= MOST_TERMS {
        return Ok(Taken::Limit);
    }
    rows.add_variable(number, sort)?;
    Ok(Taken::Yes)
}

fn add_application(
    rows: &mut OpenTable,
    theory: &Theory,
    op: u32,
    args: &[u32],
) -> Result<Taken, AllocError>
    ensures { IfOk result (λ taken. AddsLine theory.now.signature rows.old
        (Application_line op args.now) taken rows.new) }
{
    theory.known();
    let Some(decl) = theory.op(op) else {
        return Ok(Taken::Line);
    };
    if !are_args(rows, args, decl.args.as_slice()) {
        return Ok(Taken::Line);
    }
    if rows.len() >= MOST_TERMS {
        return Ok(Taken::Limit);
    }
    match rows.add_application(op, decl.result, args) {
        Ok(()) => Ok(Taken::Yes),
        Err(TermFault::TooBig { .. }) => Ok(Taken::Limit),
        Err(TermFault::TooDeep { .. }) => Ok(Taken::Limit),
        Err(TermFault::Memory) => Err(AllocError),
    }
}

// Whether each number is the least of its term, and the terms have these sorts.
fn are_args(rows: &OpenTable, numbers: &[u32], sorts: &[u32]) -> bool
    ensures { result ≡ have_sorts (firsts_at rows.now numbers.now) sorts.now }
{
    if numbers.len() != sorts.len() {
        return false;
    }
    for i in 0..numbers.len() {
        if !is_arg(rows, numbers[i], sorts[i]) {
            return false;
        }
    }
    true
}

// Whether the number is the least of its term, and the term has this sort.
fn is_arg(rows: &OpenTable, number: u32, sort: u32) -> bool
    ensures { result ≡ option_map_or (λ t. sort_of t == sort) (first_at rows.now number) false }
{
    match rows.first_sort(number) {
        Some(found) => found == sort,
        None => false,
    }
}

fn goal_for(
    alloc: Global,
    terms: &mut NamedTerms,
    left: u32,
    right: u32,
) -> Result<Option<Goal>, AllocError>
    ensures table { terms.new.0 ≡ terms.old.0 }
    ensures goal { IfOk result (λ o. o ≡ goal_for terms.old.0 left right) }
{
    if !is_goal(terms.table(), left, right) {
        return Ok(None);
    }
    let left = terms.term(left)?;
    let right = terms.term(right)?;
    let conds = Pairs::new(alloc);
    Ok(Some(Goal { conds, left, right }))
}
