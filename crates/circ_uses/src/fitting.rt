//! Where the hole of a derivative is.
ghost use Rattle.std.specs.Prelude.{◌≡◌, ◌≤◌, ◌^◌, [], IfOk, length, unwrap_or, reverse};
ghost use Rattle.std.specs.Option.{option_map};
ghost use Rattle.circ_term.specs.Tree.{trees_of};
ghost use Rattle.circ_expansion.specs.Expand.{first_path, first_path_in};

use circ_term::{Kind, Term};
use std::alloc::{AllocError, Global};

// The path of the hole of a derivative with this body.
pub(crate) fn hole_path(alloc: Global, body: &Term) -> Result<Vec<u16>, AllocError>
    ensures { IfOk result (λ v. v.items ≡ unwrap_or (first_path 0 body.now) []) }
{
    match first_path(alloc, body, 0)? {
        Some(mut path) => {
            path.reverse();
            Ok(path)
        }
        None => Ok(Vec::new(alloc)),
    }
}

// The first path, from the left, of a variable of this number, from its end to its beginning.
#[cycle(first_path)]
fn first_path(alloc: Global, term: &Term, number: u32) -> Result<Option<Vec<u16>>, AllocError>
    ensures { IfOk result (λ o. option_map (λ v. reverse v.items) o ≡
        first_path number term.now) }
{
    match term.kind() {
        Kind::Variable { number: own, .. } => {
            if own == number {
                Ok(Some(Vec::new(alloc)))
            } else {
                Ok(None)
            }
        }
        Kind::Application { args, .. } => first_path_in(alloc, args, number),
    }
}

#[cycle(first_path)]
fn first_path_in(alloc: Global, terms: &[Term], number: u32) -> Result<Option<Vec<u16>>, AllocError>
    requires few { length terms.now ≤ 2 ^ 16 }
    ensures { IfOk result (λ o. option_map (λ v. reverse v.items) o ≡
        first_path_in number 0 (trees_of terms.now)) }
{
    for i in 0..terms.len() {
        if let Some(mut path) = first_path(alloc, &terms[i], number)? {
            path.push(i as u16)?;
            return Ok(Some(path));
        }
    }
    Ok(None)
}
