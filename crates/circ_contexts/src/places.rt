//! The places of a theory.
ghost use Rattle.std.specs.Prelude.{[], IfOk, OnOk};
ghost use Rattle.std.specs.List.{slice_get};
ghost use Rattle.circ_special.specs.Special.{IsPlace};
ghost use Rattle.circ_plain_search.specs.Places.{all_places};
ghost use Rattle.circ_contexts.specs.Candidates.{AddsKept, places_at};
ghost use Rattle.circ_plain_search.specs.Keeps.{Keeps};

use circ_special::{Place, is_place};
use circ_theory::Theory;
use std::alloc::{AllocError, Global};

// The arguments of hidden sort of operators of hidden sort, in increasing order.
pub(crate) fn hidden_places(alloc: Global, theory: &Theory) -> Result<Vec<Place>, AllocError>
    ensures { IfOk result (λ v.
        Keeps (IsPlace theory.now) (all_places 0 theory.now.signature.ops) v.items) }
{
    let mut places = Vec::new(alloc);
    for op in 0..theory.op_count() {
        push_places(theory, op, &mut places)?;
    }
    Ok(places)
}

// Appends those of an operator.
fn push_places(theory: &Theory, op: u32, places: &mut Vec<Place>) -> Result<(), AllocError>
    ensures { OnOk result (AddsKept (IsPlace theory.now)
        (places_at op (slice_get theory.now.signature.ops op)) [] places.old.items
        places.new.items) }
{
    theory.known();
    let Some(decl) = theory.op(op) else {
        return Ok(());
    };
    for number in 0..decl.args.len() {
        let place = Place {
            op,
            arg: number as u16,
        };
        if is_place(theory, place) {
            places.push(place)?;
        }
    }
    Ok(())
}
