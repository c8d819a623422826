//! What spells an operator: words, and holes for its arguments.
ghost use Rattle.std.specs.Prelude.{◌≡◌, ◌<◌, ◌++◌, ◌∷◌, [], IfOk, map};
ghost use Rattle.circ_theory.specs.Operators.{operator_of};
ghost use Rattle.circ_mixfix.specs.Symbols.{below_first, below_last, below_inner, inner_symbols};
ghost use Rattle.circ_mixfix.specs.Symbols.{form_symbols, more_arguments, arguments, symbols_of};
ghost use Rattle.circ_mixfix.specs.Symbols.{precedence_of};
ghost use Rattle.circ_mixfix.specs.SymbolLists.{symbol_of};

use crate::EVERY;
use circ_form::Piece;
use circ_theory::{OpDecl, Side};
use std::alloc::{AllocError, Global};

// A name with two arguments has so many symbols.
const USUAL_SYMBOLS: usize = 6;

/// A part of what spells an operator.
#[derive(Clone, Copy)]
pub(crate) enum Symbol<'a> {
    /// A token.
    Word(&'a [u8]),
    /// A term of this sort, of a precedence below `below`. Where that is 0, nothing fits.
    Hole { sort: u32, below: u8 },
}

/// The precedence of an operator's terms. One without holes has 0, whatever is declared.
pub(crate) fn precedence(decl: &OpDecl) -> u8
    ensures { result ≡ precedence_of (operator_of decl.now) }
{
    if decl.form.has_hole() { decl.prec } else { 0 }
}

fn below_first(prec: u8, side: Side) -> u8
    requires { prec < EVERY }
    ensures { result ≡ below_first prec side }
{
    match side {
        Side::Right => prec,
        Side::Neither => prec + 1,
        Side::Left => prec + 1,
    }
}

fn below_last(prec: u8, side: Side) -> u8
    requires { prec < EVERY }
    ensures { result ≡ below_last prec side }
{
    match side {
        Side::Left => prec,
        Side::Neither => prec + 1,
        Side::Right => prec + 1,
    }
}

// What the hole at the head of the pieces takes, where it is not the form's first piece.
fn below_inner(prec: u8, side: Side, pieces: &[Piece]) -> u8
    requires { prec < EVERY }
    ensures { result ≡ below_inner prec side pieces.now }
{
    match pieces {
        [_] => below_last(prec, side),
        _ => EVERY,
    }
}

fn push<'a>(out: Vec<Symbol<'a>>, symbol: Symbol<'a>) -> Result<Vec<Symbol<'a>>, AllocError>
    ensures { IfOk result (λ v. map symbol_of v.items ≡ map symbol_of out.entry.items ++ symbol_of
        symbol.entry ∷ []) }
{
    let mut out = out;
    out.push(symbol)?;
    Ok(out)
}

// The symbols with those of pieces behind the first one.
fn with_inner<'a>(
    out: Vec<Symbol<'a>>,
    prec: u8,
    side: Side,
    pieces: &'a [Piece],
    sorts: &[u32],
) -> Result<Vec<Symbol<'a>>, AllocError>
    requires { prec < EVERY }
    ensures { IfOk result (λ v. map symbol_of v.items ≡ map symbol_of out.entry.items ++
        inner_symbols prec side pieces.now sorts.now) }
{
    let mut all = out;
    let mut rest = sorts;
    for i in 0..pieces.len() {
        match &pieces[i] {
            Piece::Word(word) => all = push(all, Symbol::Word(word.bytes()))?,
            Piece::Hole => {
                let Some((sort, others)) = rest.split_first() else {
                    return Ok(all);
                };
                let below = below_inner(prec, side, &pieces[i..]);
                all = push(all, Symbol::Hole { sort: *sort, below })?;
                rest = others;
            }
        }
    }
    Ok(all)
}

// The symbols with those of all pieces of a form that has holes.
fn with_form<'a>(
    out: Vec<Symbol<'a>>,
    prec: u8,
    side: Side,
    pieces: &'a [Piece],
    sorts: &[u32],
) -> Result<Vec<Symbol<'a>>, AllocError>
    requires { prec < EVERY }
    ensures { IfOk result (λ v. map symbol_of v.items ≡ map symbol_of out.entry.items ++
        form_symbols prec side pieces.now sorts.now) }
{
    if let ([Piece::Hole, others @ ..], [sort, more @ ..]) = (pieces, sorts) {
        let below = below_first(prec, side);
        let out = push(out, Symbol::Hole { sort: *sort, below })?;
        return Ok(with_inner(out, prec, side, others, more)?);
    }
    Ok(with_inner(out, prec, side, pieces, sorts)?)
}

// The symbols with those of arguments behind the first one.
fn with_more<'a>(out: Vec<Symbol<'a>>, sorts: &[u32]) -> Result<Vec<Symbol<'a>>, AllocError>
    ensures { IfOk result (λ v. map symbol_of v.items ≡ map symbol_of out.entry.items ++
        more_arguments sorts.now) }
{
    let mut all = out;
    for sort in sorts {
        all = push(all, Symbol::Word(b","))?;
        all = push(
            all,
            Symbol::Hole {
                sort: *sort,
                below: EVERY,
            },
        )?;
    }
    Ok(push(all, Symbol::Word(b")"))?)
}

// The symbols with those of arguments in parentheses.
fn with_arguments<'a>(out: Vec<Symbol<'a>>, sorts: &[u32]) -> Result<Vec<Symbol<'a>>, AllocError>
    ensures { IfOk result (λ v. map symbol_of v.items ≡ map symbol_of out.entry.items ++ arguments
        sorts.now) }
{
    let Some((first, others)) = sorts.split_first() else {
        return Ok(out);
    };
    let out = push(out, Symbol::Word(b"("))?;
    let out = push(
        out,
        Symbol::Hole {
            sort: *first,
            below: EVERY,
        },
    )?;
    Ok(with_more(out, others)?)
}

/// What spells the operator, in order: its form with the sorts and bounds of its holes; or, for a
/// form without holes, its words, and its arguments in parentheses. The precedence is at most 127.
pub(crate) fn symbols(alloc: Global, decl: &OpDecl) -> Result<Vec<Symbol<'_>>, AllocError>
    requires { precedence_of (operator_of decl.now) < EVERY }
    ensures { IfOk result (λ v. map symbol_of v.items ≡ symbols_of (operator_of decl.now)) }
{
    let pieces = decl.form.pieces();
    if decl.form.has_hole() {
        let room = Vec::with_capacity(alloc, pieces.len())?;
        return Ok(with_form(room, decl.prec, decl.side, pieces, &decl.args)?);
    }
    let room = Vec::with_capacity(alloc, USUAL_SYMBOLS)?;
    let words = with_inner(room, 0, decl.side, pieces, &[])?;
    Ok(with_arguments(words, &decl.args)?)
}
