//! A special set as text.
ghost use Rattle.std.specs.Prelude.{◌≡◌, ◌++◌, OnOk, OnErr};
ghost use Rattle.circ_show.specs.PlacesText.{declared_at, place_line, place_lines};

use crate::lines::put_declaration;
use circ_special::{Gamma, Place};
use circ_theory::Theory;
use itoa::Buffer;
use std::alloc::{AllocError, Global};

/// Appends for each place the line `place N of FORM : SORTS -> SORT`, where N is the number of the
/// argument and the rest declares the operator. If it runs out of memory the bytes are as before.
pub fn contexts_text(
    alloc: Global,
    theory: &Theory,
    gamma: &Gamma,
    out: &mut Vec<u8>,
) -> Result<(), AllocError>
    ensures text { OnOk result (out.new.items ≡
        out.old.items ++ place_lines theory.now.signature gamma.now) }
    ensures err { OnErr result (out.new.items ≡ out.old.items) }
{
    let mut text = Vec::new(alloc);
    put_places(&mut text, theory, gamma.places())?;
    out.extend_from_slice(&text)
}

fn put_places(out: &mut Vec<u8>, theory: &Theory, places: &[Place]) -> Result<(), AllocError>
    ensures { OnOk result (out.new.items ≡
        out.old.items ++ place_lines theory.now.signature places.now) }
{
    for place in places {
        put_place(out, theory, *place)?;
    }
    Ok(())
}

fn put_place(out: &mut Vec<u8>, theory: &Theory, place: Place) -> Result<(), AllocError>
    ensures { OnOk result (out.new.items ≡
        out.old.items ++ place_line theory.now.signature place) }
{
    out.extend_from_slice(b"place ")?;
    out.extend_from_slice(Buffer::new().format(place.arg as u64).as_bytes())?;
    out.extend_from_slice(b" of ")?;
    put_declared(out, theory, place.op)?;
    out.extend_from_slice(b"\n")
}

// The declaration of an operator, if there is one.
fn put_declared(out: &mut Vec<u8>, theory: &Theory, op: u32) -> Result<(), AllocError>
    ensures { OnOk result (out.new.items ≡
        out.old.items ++ declared_at theory.now.signature op) }
{
    match theory.op(op) {
        None => Ok(()),
        Some(decl) => put_declaration(out, theory, decl),
    }
}
