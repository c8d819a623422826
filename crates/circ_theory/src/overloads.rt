//! The operators of one first word, by the sorts of their first arguments.
ghost use Rattle.std.specs.Prelude.{◌≡◌, ◌<◌, ℕ, List, [], ◌∷◌, ◌++◌, if◌then◌else◌, nat_eq};
ghost use Rattle.std.specs.Prelude.{Option, None, OnOk, OnErr, IfOk, vec_len, vec_capacity};
ghost use Rattle.std.specs.Map.{lookup};
ghost use Rattle.std.specs.List.{slice_get};
ghost use Rattle.std.specs.Option.{option_eq};
ghost use Rattle.circ_theory.specs.Inside.{kept_at, kept_with};

use indexmap::IndexMap;
use std::alloc::{AllocError, Global};

// The numbers of operators in the order in which they were added: of all, of those whose first
// argument has the sort of the first one's, and of the others by that sort. Constants go by `None`.
// So what has its word for itself needs no map.
#[derive(Drop)]
pub(crate) struct Overloads {
    all: Vec<u32>,
    sort: Option<u32>,
    same: Vec<u32>,
    others: IndexMap<Option<u32>, Vec<u32>>,
}

impl Overloads {
    // One operator, whose first argument has this sort.
    pub(crate) fn one(
        alloc: Global,
        sort: Option<u32>,
        number: u32,
    ) -> Result<Overloads, AllocError>
        ensures all { IfOk result (λ o. o.all.items ≡ number ∷ []) }
        ensures by_sort { IfOk result (λ o. (s : Option ℕ) → kept_with o s ≡
            (if option_eq nat_eq s sort then number ∷ [] else [])) }
    {
        let all = vec![in alloc; number]?;
        let same = vec![in alloc; number]?;
        Ok(Overloads {
            all,
            sort,
            same,
            others: IndexMap::new(alloc),
        })
    }

    // Adds an operator, whose first argument has this sort.
    pub(crate) fn note(
        &mut self,
        alloc: Global,
        sort: Option<u32>,
        number: u32,
    ) -> Result<(), AllocError>
        ensures all { OnOk result (self.new.all.items ≡ self.old.all.items ++ number ∷ []) }
        ensures by_sort { OnOk result ((s : Option ℕ) → kept_with self.new s ≡
            (if option_eq nat_eq s sort then kept_with self.old s ++ number ∷ []
            else kept_with self.old s)) }
        ensures err_all { OnErr result (self.new.all.items ≡ self.old.all.items) }
        ensures err_by_sort { OnErr result ((s : Option ℕ) → kept_with self.new s ≡
            kept_with self.old s) }
    {
        self.all.reserve(1)?;
        self.note_first(alloc, sort, number)?;
        put_number(&mut self.all, number);
        Ok(())
    }

    // The same in the lists by sorts alone.
    fn note_first(
        &mut self,
        alloc: Global,
        sort: Option<u32>,
        number: u32,
    ) -> Result<(), AllocError>
        ensures all { self.new.all ≡ self.old.all }
        ensures by_sort { OnOk result ((s : Option ℕ) → kept_with self.new s ≡
            (if option_eq nat_eq s sort then kept_with self.old s ++ number ∷ []
            else kept_with self.old s)) }
        ensures err_by_sort { OnErr result ((s : Option ℕ) → kept_with self.new s ≡
            kept_with self.old s) }
    {
        if sort == self.sort {
            self.same.push(number)?;
            return Ok(());
        }
        note_sort(alloc, &mut self.others, sort, number)?;
        Ok(())
    }

    // All operators.
    pub(crate) fn all(&self) -> &[u32]
        ensures { result.now ≡ self.now.all.items }
    {
        self.all.as_slice()
    }

    // The operators whose first argument has this sort.
    pub(crate) fn of_sort(&self, sort: Option<u32>) -> &[u32]
        ensures { result.now ≡ kept_with self.now sort }
    {
        if sort == self.sort {
            return self.same.as_slice();
        }
        numbers_at(&self.others, sort)
    }
}

fn numbers_at(by_sort: &IndexMap<Option<u32>, Vec<u32>>, sort: Option<u32>) -> &[u32]
    ensures { result.now ≡ kept_at by_sort.now.entries sort }
{
    match by_sort.get(&sort) {
        Some(numbers) => numbers.as_slice(),
        None => &[],
    }
}

// Adds a number to those kept under a sort.
fn note_sort(
    alloc: Global,
    by_sort: &mut IndexMap<Option<u32>, Vec<u32>>,
    sort: Option<u32>,
    number: u32,
) -> Result<(), AllocError>
    ensures noted { OnOk result ((s : Option ℕ) → kept_at by_sort.new.entries s ≡
        (if option_eq nat_eq s sort then kept_at by_sort.old.entries s ++ number ∷ []
        else kept_at by_sort.old.entries s)) }
    ensures err { OnErr result ((s : Option ℕ) → kept_at by_sort.new.entries s ≡
        kept_at by_sort.old.entries s) }
{
    if let Some(numbers) = by_sort.get_mut(&sort) {
        return push_number(numbers, number);
    }
    begin_sort(alloc, by_sort, sort, number)
}

// Keeps a number under a sort that has none.
fn begin_sort(
    alloc: Global,
    by_sort: &mut IndexMap<Option<u32>, Vec<u32>>,
    sort: Option<u32>,
    number: u32,
) -> Result<(), AllocError>
    requires { lookup (option_eq nat_eq sort) by_sort.old.entries ≡ None }
    ensures noted { OnOk result ((s : Option ℕ) → kept_at by_sort.new.entries s ≡
        (if option_eq nat_eq s sort then kept_at by_sort.old.entries s ++ number ∷ []
        else kept_at by_sort.old.entries s)) }
    ensures err { OnErr result ((s : Option ℕ) → kept_at by_sort.new.entries s ≡
        kept_at by_sort.old.entries s) }
{
    let numbers = vec![in alloc; number]?;
    drop(by_sort.insert(sort, numbers)?);
    Ok(())
}

fn push_number(numbers: &mut Vec<u32>, number: u32) -> Result<(), AllocError>
    ensures pushed { OnOk result (numbers.new.items ≡ numbers.old.items ++ number ∷ []) }
    ensures err { OnErr result (numbers.new.items ≡ numbers.old.items) }
{
    numbers.push(number)?;
    Ok(())
}

fn put_number(numbers: &mut Vec<u32>, number: u32)
    requires { vec_len numbers.old < vec_capacity numbers.old }
    ensures { numbers.new.items ≡ numbers.old.items ++ number ∷ [] }
{
    match numbers.push(number) {
        Ok(()) => {}
        Err(_) => unreachable!(),
    }
}

// The sort of the first argument.
pub(crate) fn first_sort(args: &[u32]) -> Option<u32>
    ensures { result ≡ slice_get args.now 0 }
{
    args.first().copied()
}
