//! The variables of derivatives.
ghost use Rattle.std.specs.Prelude.{◌≡◌, ◌↔◌, ◌++◌, [], map, IsTrue, IfOk, OnOk};
ghost use Rattle.std.specs.List.{filter};
ghost use Rattle.circ_term.specs.Tree.{Var, trees_of};
ghost use Rattle.circ_pairs.specs.Variables.{AreNumberedFrom};
ghost use Rattle.circ_pairs.specs.Occurring.{variable_of};
ghost use Rattle.circ_pairs.specs.Slots.{holes_in, parameters_in, all_holes_in};
ghost use Rattle.circ_pairs.specs.Slots.{all_parameters_in, is_parameter};
ghost use Rattle.circ_pairs.specs.Slots.{parameter_sorts_in, all_parameter_sorts_in};
ghost use Rattle.circ_pairs.specs.Slots.{AreParametersInOrder, first_repeated};

use crate::renumber::{Occurring, gather};
use circ_term::{Kind, Term};
use indexmap::IndexSet;
use std::alloc::{AllocError, Global};

/// Whether the parameters of a derivative's body, which are its variables but those numbered 0,
/// have the numbers 1, 2 and so on by their first occurrence. Costs as much as the term has nodes.
pub fn parameters_in_order(alloc: Global, term: &Term) -> Result<bool, AllocError>
    ensures { IfOk result (λ b. IsTrue b ↔ AreParametersInOrder term.now) }
{
    let mut variables = IndexSet::new(alloc);
    gather(term, &mut variables)?;
    Ok(are_in_order(variables.as_slice()))
}

fn are_in_order(variables: &[Occurring]) -> bool
    ensures { IsTrue result ↔ AreNumberedFrom 1 (filter is_parameter
        (map variable_of variables.now)) }
{
    let mut next: u64 = 1;
    for variable in variables {
        if variable.number != 0 {
            if variable.number as u64 != next {
                return false;
            }
            next += 1;
        }
    }
    true
}

/// The holes and the parameters of a term, one for each place from the left.
#[derive(Drop)]
pub struct Slots {
    /// The sorts of the holes.
    pub holes: Vec<u32>,
    /// The numbers of the parameters.
    pub params: Vec<u32>,
    /// The sorts of the parameters.
    pub sorts: Vec<u32>,
}

/// The holes of a term, which are its variables numbered 0, and its parameters, which are the
/// others. Costs as much as the term has nodes.
pub fn slots_of(alloc: Global, term: &Term) -> Result<Slots, AllocError>
    ensures holes { IfOk result (λ s. s.holes.items ≡ holes_in term.now) }
    ensures params { IfOk result (λ s. s.params.items ≡ parameters_in term.now) }
    ensures sorts { IfOk result (λ s. s.sorts.items ≡ parameter_sorts_in term.now) }
{
    let mut slots = Slots {
        holes: Vec::new(alloc),
        params: Vec::new(alloc),
        sorts: Vec::new(alloc),
    };
    fill(term, &mut slots)?;
    Ok(slots)
}

#[cycle(fill)]
fn fill(term: &Term, slots: &mut Slots) -> Result<(), AllocError>
    ensures holes { OnOk result (slots.new.holes.items ≡ slots.old.holes.items ++
        holes_in term.now) }
    ensures params { OnOk result (slots.new.params.items ≡ slots.old.params.items ++
        parameters_in term.now) }
    ensures sorts { OnOk result (slots.new.sorts.items ≡ slots.old.sorts.items ++
        parameter_sorts_in term.now) }
{
    match term.kind() {
        Kind::Variable { number, sort } => put_slot(slots, number, sort),
        Kind::Application { args, .. } => fill_all(args, slots),
    }
}

fn put_slot(slots: &mut Slots, number: u32, sort: u32) -> Result<(), AllocError>
    ensures holes { OnOk result (slots.new.holes.items ≡ slots.old.holes.items ++
        holes_in (Var number sort)) }
    ensures params { OnOk result (slots.new.params.items ≡ slots.old.params.items ++
        parameters_in (Var number sort)) }
    ensures sorts { OnOk result (slots.new.sorts.items ≡ slots.old.sorts.items ++
        parameter_sorts_in (Var number sort)) }
{
    if number == 0 {
        slots.holes.push(sort)?;
        return Ok(());
    }
    slots.params.push(number)?;
    slots.sorts.push(sort)?;
    Ok(())
}

#[cycle(fill)]
fn fill_all(terms: &[Term], slots: &mut Slots) -> Result<(), AllocError>
    ensures holes { OnOk result (slots.new.holes.items ≡ slots.old.holes.items ++
        all_holes_in (trees_of terms.now)) }
    ensures params { OnOk result (slots.new.params.items ≡ slots.old.params.items ++
        all_parameters_in (trees_of terms.now)) }
    ensures sorts { OnOk result (slots.new.sorts.items ≡ slots.old.sorts.items ++
        all_parameter_sorts_in (trees_of terms.now)) }
{
    for term in terms {
        fill(term, slots)?;
    }
    Ok(())
}

/// The first number that stands again later.
pub fn first_repeated(alloc: Global, numbers: &[u32]) -> Result<Option<u32>, AllocError>
    ensures { IfOk result (λ o. o ≡ first_repeated numbers.now) }
{
    let mut passed = IndexSet::new(alloc);
    let found = first_again(numbers, &mut passed);
    drop(passed);
    found
}

// From the right: a number that was passed stands again.
fn first_again(numbers: &[u32], passed: &mut IndexSet<u32>) -> Result<Option<u32>, AllocError>
    requires { passed.old.keys ≡ [] }
    ensures { IfOk result (λ o. o ≡ first_repeated numbers.now) }
{
    let mut found = None;
    let mut i = numbers.len();
    while i > 0 {
        i -= 1;
        let number = numbers[i];
        if !passed.insert(number)? {
            found = Some(number);
        }
    }
    Ok(found)
}
