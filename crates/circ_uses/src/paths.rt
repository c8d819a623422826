//! The paths of a variable in a term.
ghost use Rattle.std.specs.Prelude.{◌≡◌, ◌≤◌, ◌^◌, ◌++◌, length, map, OnOk, IfOk};
ghost use Rattle.circ_term.specs.Tree.{trees_of};
ghost use Rattle.circ_expansion.specs.Expand.{paths_of, paths_in};
ghost use Rattle.circ_uses.specs.Paths.{plain_paths};

use circ_term::{Kind, Term};
use std::alloc::{AllocError, Global};

/// The paths of a variable, from the left.
pub fn paths_of(
    alloc: Global,
    term: &Term,
    number: u32,
    sort: u32,
) -> Result<Vec<Vec<u16>>, AllocError>
    ensures { IfOk result (λ v. plain_paths v.items ≡ paths_of number sort term.now) }
{
    let mut paths = Vec::new(alloc);
    let mut here = Vec::new(alloc);
    find(alloc, term, number, sort, &mut here, &mut paths)?;
    Ok(paths)
}

// Those below a path are put last.
#[cycle(find)]
fn find(
    alloc: Global,
    term: &Term,
    number: u32,
    sort: u32,
    here: &mut Vec<u16>,
    paths: &mut Vec<Vec<u16>>,
) -> Result<(), AllocError>
    ensures kept { OnOk result (here.new.items ≡ here.old.items) }
    ensures found { OnOk result (plain_paths paths.new.items ≡ plain_paths paths.old.items ++
        map (λ p. here.old.items ++ p) (paths_of number sort term.now)) }
{
    match term.kind() {
        Kind::Variable {
            number: own,
            sort: own_sort,
        } => {
            if own == number && own_sort == sort {
                let mut path = Vec::with_capacity(alloc, here.len())?;
                path.extend_from_slice(here.as_slice())?;
                paths.push(path)?;
            }
            Ok(())
        }
        Kind::Application { args, .. } => find_in(alloc, args, number, sort, here, paths),
    }
}

#[cycle(find)]
fn find_in(
    alloc: Global,
    terms: &[Term],
    number: u32,
    sort: u32,
    here: &mut Vec<u16>,
    paths: &mut Vec<Vec<u16>>,
) -> Result<(), AllocError>
    requires few { length terms.now ≤ 2 ^ 16 }
    ensures kept { OnOk result (here.new.items ≡ here.old.items) }
    ensures found { OnOk result (plain_paths paths.new.items ≡ plain_paths paths.old.items ++
        map (λ p. here.old.items ++ p) (paths_in number sort (trees_of terms.now))) }
{
    for i in 0..terms.len() {
        here.push(i as u16)?;
        find(alloc, &terms[i], number, sort, here, paths)?;
        here.pop();
    }
    Ok(())
}
