//! The experiment of derivatives on a goal, with fresh variables for their parameters.
ghost use Rattle.std.specs.Prelude.{◌≡◌, ◌+◌, ◌++◌, ◌∷◌, [], ℕ, IfOk, OnOk, drop, map, nat_eq};
ghost use Rattle.std.specs.List.{filter, list_any};
ghost use Rattle.circ_theory.specs.Occurring.{variable_of};
ghost use Rattle.circ_entry.specs.Entries.{HaveParameters};
ghost use Rattle.circ_entry.specs.Plain.{plain_entries};
ghost use Rattle.circ_reports.specs.Expand.{numbers_in, free_numbers, variables_named, sorts_at};
ghost use Rattle.circ_reports.specs.Expand.{entries_named, parameter_count, fresh_experiment};
ghost use Rattle.circ_reports.specs.Expand.{is_free};

use circ_entry::Entry;
use circ_term::Term;
use circ_theory::{Goal, Occurring, Theory, gather};
use indexmap::IndexSet;
use std::alloc::{AllocError, Global};

/// The entries of these derivatives. Their parameters are variables with the first numbers that no
/// variable of the goal has. That no number is left is want of memory.
pub(crate) fn fresh_experiment(
    alloc: Global,
    theory: &Theory,
    goal: &Goal,
    derivatives: &[u32],
) -> Result<Vec<Entry>, AllocError>
    ensures entries { IfOk result (λ v. plain_entries v.items
        ≡ fresh_experiment theory.now goal.now derivatives.now) }
    ensures parameters { IfOk result (λ v. HaveParameters theory.now (plain_entries v.items)) }
{
    theory.known();
    let taken = taken_numbers(alloc, goal)?;
    let count = parameter_count(theory, derivatives)?;
    let numbers = free_numbers(alloc, goal, &taken, count)?;
    entries_named(alloc, theory, numbers.as_slice(), derivatives)
}

/// The numbers of a goal's variables.
fn taken_numbers(alloc: Global, goal: &Goal) -> Result<IndexSet<u32>, AllocError>
    ensures { IfOk result (λ s. (n : ℕ) → list_any (nat_eq n) s.keys
        ≡ list_any (nat_eq n) (numbers_in goal.now)) }
{
    let mut variables = IndexSet::new(alloc);
    gather(&goal.left, &mut variables)?;
    gather(&goal.right, &mut variables)?;
    numbers_of(alloc, variables.as_slice())
}

fn numbers_of(alloc: Global, variables: &[Occurring]) -> Result<IndexSet<u32>, AllocError>
    ensures { IfOk result (λ s. (n : ℕ) → list_any (nat_eq n) s.keys
        ≡ list_any (nat_eq n) (map (λ v. v.number) (map variable_of variables.now))) }
{
    let mut numbers = IndexSet::new(alloc);
    for variable in variables {
        numbers.insert(variable.number)?;
    }
    Ok(numbers)
}

/// How many parameters the derivatives have.
fn parameter_count(theory: &Theory, derivatives: &[u32]) -> Result<usize, AllocError>
    ensures { IfOk result (λ n. n ≡ parameter_count theory.now derivatives.now) }
{
    let mut count: usize = 0;
    for derivative in derivatives {
        count = sum(count, sorts_at(theory, *derivative).len())?;
    }
    Ok(count)
}

/// The sum. That there is none is want of memory.
fn sum(a: usize, b: usize) -> Result<usize, AllocError>
    ensures { IfOk result (λ n. n ≡ a + b) }
{
    match a.checked_add(b) {
        Some(sum) => Ok(sum),
        None => Err(AllocError),
    }
}

/// The sorts of a derivative's parameters.
fn sorts_at(theory: &Theory, derivative: u32) -> &[u32]
    ensures { result.now ≡ sorts_at theory.now derivative }
{
    match theory.parameter_sorts(derivative) {
        Some(sorts) => sorts,
        None => &[],
    }
}

/// The first numbers that are not taken, so many.
fn free_numbers(
    alloc: Global,
    goal: &Goal,
    taken: &IndexSet<u32>,
    count: usize,
) -> Result<Vec<u32>, AllocError>
    requires { (n : ℕ) → list_any (nat_eq n) taken.now.keys
        ≡ list_any (nat_eq n) (numbers_in goal.now) }
    ensures { IfOk result (λ v. v.items ≡ free_numbers goal.now count) }
{
    let mut free = Vec::new(alloc);
    let mut number: u32 = 0;
    while free.len() < count {
        put_free(taken, number, &mut free)?;
        number = following(number)?;
    }
    Ok(free)
}

/// Appends the number, if it is not taken.
fn put_free(taken: &IndexSet<u32>, number: u32, free: &mut Vec<u32>) -> Result<(), AllocError>
    ensures { OnOk result (free.new.items ≡ free.old.items
        ++ filter (is_free taken.now.keys) (number ∷ [])) }
{
    if taken.contains(&number) {
        return Ok(());
    }
    free.push(number)?;
    Ok(())
}

/// The next number. That there is none is want of memory.
fn following(number: u32) -> Result<u32, AllocError>
    ensures { IfOk result (λ n. n ≡ number + 1) }
{
    match number.checked_add(1) {
        Some(next) => Ok(next),
        None => Err(AllocError),
    }
}

/// An entry for each derivative, whose parameters have the first of the numbers that are left.
fn entries_named(
    alloc: Global,
    theory: &Theory,
    numbers: &[u32],
    derivatives: &[u32],
) -> Result<Vec<Entry>, AllocError>
    ensures { IfOk result (λ v. plain_entries v.items
        ≡ entries_named theory.now numbers.now derivatives.now) }
{
    let mut entries = Vec::new(alloc);
    let mut left = numbers;
    for derivative in derivatives {
        let sorts = sorts_at(theory, *derivative);
        let params = variables_named(alloc, left, sorts)?;
        entries.push(Entry {
            derivative: *derivative,
            params,
        })?;
        left = behind(left, sorts.len());
    }
    Ok(entries)
}

/// The numbers behind the first ones.
fn behind(numbers: &[u32], count: usize) -> &[u32]
    ensures { result.now ≡ drop count numbers.now }
{
    if count <= numbers.len() {
        return &numbers[count..];
    }
    &[]
}

/// Variables of these sorts with these numbers.
fn variables_named(alloc: Global, numbers: &[u32], sorts: &[u32]) -> Result<Vec<Term>, AllocError>
    ensures { IfOk result (λ v. v.items ≡ variables_named numbers.now sorts.now) }
{
    let mut made = Vec::new(alloc);
    let mut left = numbers;
    for sort in sorts {
        let Some((number, more)) = left.split_first() else {
            return Ok(made);
        };
        made.push(Term::var(*number, *sort))?;
        left = more;
    }
    Ok(made)
}
