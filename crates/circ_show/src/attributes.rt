//! The attributes of an operator as text.
ghost use Rattle.std.specs.Prelude.{◌≡◌, ◌++◌, ◌∷◌, [], ℕ, List, true, false, codes, decimal, IfOk};
ghost use Rattle.std.specs.Prelude.{OnOk};
ghost use Rattle.circ_theory.specs.Operators.{operator_of};
ghost use Rattle.circ_show.specs.Brackets.{bracketed, WritesWords};
ghost use Rattle.circ_show.specs.Lines.{is_hole_at, has_outer_holes, side_words, precedence_words};
ghost use Rattle.circ_show.specs.Lines.{if_set, attributes_text};

use circ_form::Piece;
use circ_theory::{OpDecl, Side};
use itoa::Buffer;
use std::alloc::AllocError;

// The attributes in brackets, or nothing where there is none.
pub fn put_attributes(out: &mut Vec<u8>, decl: &OpDecl) -> Result<(), AllocError>
    ensures { OnOk result (out.new.items ≡
        out.old.items ++ attributes_text (operator_of decl.now)) }
{
    let begun = put_precedence(out, decl)?;
    let begun = put_if_set(out, begun, decl.assoc, b"assoc")?;
    let begun = put_if_set(out, begun, decl.comm, b"comm")?;
    let begun = put_if_set(out, begun, decl.idem, b"idem")?;
    if begun {
        out.push(b']')?;
    }
    Ok(())
}

// The precedence and the side of an operator with holes. Answers whether it has some.
fn put_precedence(out: &mut Vec<u8>, decl: &OpDecl) -> Result<bool, AllocError>
    ensures { IfOk result (λ r. WritesWords out.old.items out.new.items false r
        (precedence_words (operator_of decl.now))) }
{
    if !decl.form.has_hole() {
        return Ok(false);
    }
    out.extend_from_slice(b" [prec ")?;
    let mut buffer = Buffer::new();
    out.extend_from_slice(buffer.format(decl.prec).as_bytes())?;
    put_side(out, decl)?;
    Ok(true)
}

fn put_side(out: &mut Vec<u8>, decl: &OpDecl) -> Result<(), AllocError>
    ensures { OnOk result (WritesWords out.old.items out.new.items true true
        (side_words (operator_of decl.now))) }
{
    if !has_outer_holes(decl.form.pieces()) {
        return Ok(());
    }
    match decl.side {
        Side::Neither => Ok(()),
        Side::Left => put_attribute(out, true, b"left"),
        Side::Right => put_attribute(out, true, b"right"),
    }
}

// Whether a side counts: the form begins and ends with a hole.
fn has_outer_holes(pieces: &[Piece]) -> bool
    ensures { result ≡ has_outer_holes pieces.now }
{
    is_hole_at(pieces, 0) && is_hole_at(pieces, pieces.len().saturating_sub(1))
}

fn is_hole_at(pieces: &[Piece], place: usize) -> bool
    ensures { result ≡ is_hole_at pieces.now place }
{
    matches!(pieces.get(place), Some(Piece::Hole))
}

// An attribute where it is set. Answers whether there is one by now.
fn put_if_set(out: &mut Vec<u8>, begun: bool, set: bool, word: &[u8]) -> Result<bool, AllocError>
    ensures { IfOk result (λ r.
        WritesWords out.old.items out.new.items begun r (if_set set word.now)) }
{
    if !set {
        return Ok(begun);
    }
    put_attribute(out, begun, word)?;
    Ok(true)
}

// One attribute more. The first stands after an opening bracket, each other after a space.
fn put_attribute(out: &mut Vec<u8>, begun: bool, word: &[u8]) -> Result<(), AllocError>
    ensures { OnOk result (WritesWords out.old.items out.new.items begun true (word.now ∷ [])) }
{
    out.extend_from_slice(if begun { b" " } else { b" [" })?;
    out.extend_from_slice(word)
}
